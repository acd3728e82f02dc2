//! Sorts the parts, and checks that each comes once.
ghost use Rattle.std.specs.Prelude.{◌≡◌, ◌<◌, ◌+◌, IfErr, IfOk, OnOk, length, map};
ghost use Rattle.std.specs.List.Sorted.{IsPermutation};
ghost use Rattle.hp_parts.specs.Ordering.{AreAll, AreInPlace, ArePlacedBelow, AreRising, AreWithin, IsMisplaced, IsOrderFault, lists_of};

use crate::gathering::PartEnds;
use hp_schedules::Ending;
use std::alloc::{AllocError, Global};

/// Why the parts cannot be put in order. Parts are counted from 1.
#[derive(Clone, Copy, Drop)]
pub enum OrderFault {
    /// A part is missing.
    Missing { part: u64 },
    /// A part comes twice.
    Twice { part: u64 },
    /// Out of memory.
    OutOfMemory,
}

impl From<AllocError> for OrderFault {
    ghost use Rattle.std.specs.Prelude.{◌≡◌};
    ghost use Rattle.hp_parts.specs.declared.ordering.OrderFault.TheVariants.{OutOfMemory};

    ghost from_gives = { λ _ e. e ≡ OutOfMemory };

    fn from(_e: AllocError) -> OrderFault {
        OrderFault::OutOfMemory
    }
}

/// Returns the ends of each part, in the order of the parts' numbers, which are between 1 and `of`.
///
/// Errors: `Missing` or `Twice` with the first number that is missing or comes twice;
/// `OutOfMemory`, which may come in place of any other result.
pub fn ends_by_number(
    alloc: Global,
    parts: Vec<PartEnds>,
    of: u32,
) -> Result<Vec<Vec<Ending>>, OrderFault>
    requires { AreWithin of parts.items }
    ensures ok { IfOk result (λ lists. AreAll parts.items of (lists_of lists.items)) }
    ensures err { IfErr result (IsOrderFault parts.items of) }
{
    let parts = sorted(parts)?;
    check_numbers(&parts, of)?;
    let lists = ends_of(alloc, parts)?;
    Ok(lists)
}

/// Sorts parts by number.
fn sorted(parts: Vec<PartEnds>) -> Result<Vec<PartEnds>, AllocError>
    ensures moved { IfOk result (λ ordered. IsPermutation parts.items ordered.items) }
    ensures rising { IfOk result (λ ordered. AreRising ordered.items) }
{
    let mut ordered = parts;
    ordered.sort_by_key(
        |p: &PartEnds| -> u32
            ensures { result ≡ p.now.number }
        { p.number() },
    )?;
    Ok(ordered)
}

/// Checks that sorted parts have each number from 1 to `of` once.
fn check_numbers(parts: &[PartEnds], of: u32) -> Result<(), OrderFault>
    requires within { AreWithin of parts.now }
    requires rising { AreRising parts.now }
    ensures ok { OnOk result (AreInPlace of parts.now) }
    ensures err { IfErr result (IsMisplaced parts.now of) }
{
    for index in 0..parts.len() {
        check_number(parts, index, of)?;
    }
    let count = parts.len() as u64;
    if count < u64::from(of) {
        return Err(OrderFault::Missing { part: count + 1 });
    }
    Ok(())
}

/// Checks that the part at `index` has the number `index` + 1. The parts before it have the numbers
/// from 1 to `index`.
fn check_number(parts: &[PartEnds], index: usize, of: u32) -> Result<(), OrderFault>
    requires index { index < length parts.now }
    requires within { AreWithin of parts.now }
    requires rising { AreRising parts.now }
    requires placed { ArePlacedBelow index parts.now }
    ensures ok { OnOk result (ArePlacedBelow (index + 1) parts.now) }
    ensures err { IfErr result (IsMisplaced parts.now of) }
{
    let number = u64::from(parts[index].number());
    let next = index as u64 + 1;
    if number < next {
        return Err(OrderFault::Twice { part: number });
    }
    if number > next {
        return Err(OrderFault::Missing { part: next });
    }
    Ok(())
}

/// Returns the parts' ends without copying them.
fn ends_of(alloc: Global, parts: Vec<PartEnds>) -> Result<Vec<Vec<Ending>>, AllocError>
    ensures { IfOk result (λ lists. lists_of lists.items ≡ map (λ p. p.ends) parts.items) }
{
    let mut lists = Vec::new(alloc);
    for part in parts {
        lists.reserve(1)?;
        lists.push_reserved(part.into_ends());
    }
    Ok(lists)
}
