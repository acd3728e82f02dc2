//! Merges the ends of all parts of a search.
ghost use Rattle.std.specs.Prelude.{◌≡◌, ◌↔◌, ℕ, ◌<◌, ◌≤◌, ◌^◌, Err, IfOk, length, map, sum_by};
ghost use Rattle.hp_schedules.specs.Ends.{AreEnds, AreInOrder};
ghost use Rattle.hp_schedules.specs.Schedules.{Setting};
ghost use Rattle.hp_parts.specs.Adding.{AreAdded, counted_by};
ghost use Rattle.hp_parts.specs.AllParts.{AreApart, AreParts};
ghost use Rattle.hp_parts.specs.declared.merging.SumFault.TheVariants.{TooMany};

use crate::merged_ends::MergedEnds;
use crate::rooms::fit_in;
use hp_schedules::Ending;
use std::alloc::{AllocError, Global};
use thiserror::Error;

/// Why parts could not be merged.
#[derive(Error, Clone, Copy, Debug, PartialEq, Eq, Drop)]
pub enum SumFault {
    /// The parts count 2^64 schedules or more.
    #[error("2^64 schedules or more")]
    TooMany,
    /// Memory allocation failed.
    #[error("out of memory")]
    OutOfMemory,
}

impl From<AllocError> for SumFault {
    ghost use Rattle.std.specs.Prelude.{◌≡◌};
    ghost use Rattle.hp_parts.specs.declared.merging.SumFault.TheVariants.{OutOfMemory};

    ghost from_gives = { λ _ e. e ≡ OutOfMemory };

    fn from(_error: AllocError) -> SumFault {
        SumFault::OutOfMemory
    }
}

/// Merges the ends of all parts of a search into those of the whole. The parts must be in order,
/// index 0 first.
///
/// Equal outcomes become one end, with the sum of their counts and the earliest of their first
/// schedules. The result is in the order of these first schedules.
///
/// # Errors
///
/// `TooMany` if the counts add up to 2^64 or more, `OutOfMemory` if memory allocation fails.
pub fn sum(alloc: Global, parts: &[Vec<Ending>]) -> Result<Vec<Ending>, SumFault>
    // If the lists are those of all parts of a search:
    ensures ends { IfOk result (λ ends. (g : Setting) (calls : ℕ) → 0 < length parts.now
        → AreParts g calls (map (λ part. part.items) parts.now) → AreEnds g ends.items) }
    ensures ordered { IfOk result (λ ends. (g : Setting) (calls : ℕ) → 0 < length parts.now
        → AreParts g calls (map (λ part. part.items) parts.now) → AreInOrder ends.items) }
    // For any lists, also if they are not those of all parts:
    ensures adds { IfOk result (λ ends. AreAdded (map (λ part. part.items) parts.now) ends.items) }
    ensures total { IfOk result
        (λ ends. sum_by (λ e. e.count) ends.items ≡ counted_by (map (λ part. part.items) parts.now)) }
    ensures apart { IfOk result (λ ends. AreApart ends.items) }
    ensures many { (result ≡ Err TooMany) ↔ (2 ^ 64 ≤ counted_by (map (λ part. part.items) parts.now)) }
{
    if !fit_in(parts, u64::MAX) {
        return Err(SumFault::TooMany);
    }
    let mut merged = MergedEnds::new(alloc);
    merged.add_lists(alloc, parts)?;
    Ok(merged.into_sorted())
}
