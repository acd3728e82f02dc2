//! Rows of `Share`s (how many schedules continue from a place to an end) in one buffer.
ghost use Rattle.std.specs.Prelude.{◌≡◌, ◌<◌, ◌≤◌, ◌++◌, ◌∷◌, [], IfNone, IfSome, OnErr, OnOk, Some, length, slice_get};

use crate::texts::start_of;
use hp_schedules::Share;
use std::alloc::{AllocError, Global};
use std::marker::Model;

/// Rows of `Share`s, which count the schedules from a place to each end, all in one buffer. In
/// contracts, the value is the list of rows.
pub struct Rows {
    shares: Vec<Share>,
    ends: Vec<usize>,
}

impl Model for Rows {
    ghost use Rattle.std.specs.Prelude.{List, length};
    ghost use Rattle.hp_schedules.specs.declared.trail.Share.{Share};
    ghost use Rattle.hp_states.specs.Texts.{AreTextsFrom, texts_from};

    ghost Value = { List (List Share) };

    ghost view = { λ r. texts_from r.shares.items 0 r.ends.items };

    ghost invariant = { λ r. AreTextsFrom (length r.shares.items) 0 r.ends.items };
}

/// Keeps callers from proving again how each field is dropped.
impl Drop for Rows {
    fn drop(self) {
        let Rows { shares: _, ends: _ } = self;
    }
}

impl Rows {
    /// Creates an empty collection. Allocates nothing.
    pub fn new(alloc: Global) -> Rows
        ensures { result ≡ [] }
    {
        Rows {
            shares: Vec::new(alloc),
            ends: Vec::new(alloc),
        }
    }

    /// Returns the number of rows.
    pub fn len(&self) -> usize
        ensures { result ≡ length self.now }
    {
        self.ends.len()
    }

    /// Returns the row at index `place`, or `None` if there is none.
    pub fn row(&self, place: usize) -> Option<&[Share]>
        ensures some { IfSome result (λ row. slice_get self.now place ≡ Some row.now) }
        ensures none { IfNone result (length self.now ≤ place) }
    {
        let ends = self.ends.as_slice();
        if place >= ends.len() {
            return None;
        }
        let start = start_of(ends, place);
        let shares = self.shares.as_slice();
        shares.get(start..ends[place])
    }

    /// Appends a row. If memory runs out, the rows stay as they were.
    pub fn push(&mut self, row: &[Share]) -> Result<(), AllocError>
        ensures ok { OnOk result (self.new ≡ self.old ++ row.now ∷ []) }
        ensures err { OnErr result (self.new ≡ self.old) }
    {
        self.ends.reserve(1)?;
        self.shares.extend_from_slice(row)?;
        let end = self.shares.len();
        self.ends.push_reserved(end);
        Ok(())
    }
}
