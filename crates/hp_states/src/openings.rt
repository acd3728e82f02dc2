//! The operations that a Cancel can undo completely at a place, each with the state from before its
//! Begin. Equal lists share a number in nearly all cases, so that places are compared by numbers.
ghost use Rattle.std.specs.Prelude.{◌≡◌, ◌∷◌, ◌<◌, ◌≤◌, [], IfNone, IfOk, IfSome, List, Some, length, slice_get};
ghost use Rattle.hp_states.specs.Interned.{KeepNumbers};
ghost use Rattle.hp_states.specs.Numbered.{IsBegun, IsChanged, IsEntryOf, IsInFront, IsMadeBy};
ghost use Rattle.hp_schedules.specs.Openings.{NumberedOpening, after_cancel, after_work};

use hp_schedules::{Change, learn, mixed};
use indexmap::IndexMap;
use std::alloc::{AllocError, Global};
use std::marker::Model;

/// A list that has one operation in front of an earlier list. `state` is the number of the state
/// before the operation's Begin.
#[derive(Clone, Copy, Drop)]
pub(crate) struct OpeningEntry {
    op: u64,
    state: usize,
    /// The number of the earlier list.
    below: usize,
}

/// Lists of operations by number. Number 0 is the empty list, and each entry adds one list.
///
/// `latest` maps a hash to the newest list that has it.
pub(crate) struct Openings {
    entries: Vec<OpeningEntry>,
    latest: IndexMap<u64, usize>,
}

impl Model for Openings {
    ghost use Rattle.std.specs.Prelude.{List};
    ghost use Rattle.hp_states.specs.Interned.{StandOnEarlier};
    ghost use Rattle.hp_states.specs.Numbered.{entry_below, openings_of};
    ghost use Rattle.hp_schedules.specs.Openings.{NumberedOpening};

    ghost Value = { List (List NumberedOpening) };

    ghost view = { λ o. openings_of o.entries.items };

    ghost invariant = { λ o. StandOnEarlier entry_below o.entries.items };
}

/// Keeps callers from proving again how each field is dropped.
impl Drop for Openings {
    fn drop(self) {
        let Openings {
            entries: _,
            latest: _,
        } = self;
    }
}

impl Openings {
    /// Creates a collection with only the empty list.
    pub(crate) fn new(alloc: Global) -> Openings
        ensures { result ≡ [] ∷ [] }
    {
        Openings {
            entries: Vec::new(alloc),
            latest: IndexMap::new(alloc),
        }
    }

    /// Returns the number of the list after a change, or `None` if the list is unknown. `was` and
    /// `from` are the numbers of the list and of the state before the change, and `number` is that
    /// of the operation that the change begins.
    pub(crate) fn after(
        &mut self,
        was: Option<usize>,
        from: Option<usize>,
        change: Change,
        number: u64,
    ) -> Result<Option<usize>, AllocError>
        requires { IfSome was (λ list. list < length self.old) }
        ensures kept { KeepNumbers self.old self.new }
        ensures ok { IfOk result (IsChanged self.old self.new from number change was) }
    {
        match change {
            Change::Stays => Ok(was),
            Change::Begins => self.after_begin(was, from, number),
            Change::Works { op } => Ok(self.after_work(was, op.0)),
            Change::Cancels { op } => Ok(self.after_cancel(was, op.0)),
            Change::Ends => Ok(Some(self.empty())),
        }
    }

    /// Returns the number of the list after a Begin in state `from`, or `None` if the list or the
    /// state is unknown.
    fn after_begin(
        &mut self,
        was: Option<usize>,
        from: Option<usize>,
        op: u64,
    ) -> Result<Option<usize>, AllocError>
        requires { IfSome was (λ number. number < length self.old) }
        ensures kept { KeepNumbers self.old self.new }
        ensures ok { IfOk result (IsBegun self.old self.new op from was) }
    {
        let Some(below) = was else {
            return Ok(None);
        };
        let Some(from) = from else {
            return Ok(None);
        };
        let number = self.in_front(op, from, below)?;
        Ok(Some(number))
    }

    /// Returns the number of the list `below` with this operation in front, and adds that list if
    /// it is not found.
    fn in_front(&mut self, op: u64, state: usize, below: usize) -> Result<usize, AllocError>
        requires { below < length self.old }
        ensures kept { KeepNumbers self.old self.new }
        ensures ok { IfOk result (IsInFront self.old self.new op state below) }
    {
        let digest = mixed(mixed(state as u64, op), below as u64);
        if let Some(number) = self.found(digest, op, state, below) {
            return Ok(number);
        }
        self.entries.reserve(1)?;
        let number = self.entries.len() + 1;
        learn(&mut self.latest, digest, number)?;
        self.entries
            .push_reserved(OpeningEntry { op, state, below });
        Ok(number)
    }

    /// Returns the number of the list `below` with the operation `op` in front, if it is the newest
    /// list with the hash `digest`.
    fn found(&self, digest: u64, op: u64, state: usize, below: usize) -> Option<usize>
        ensures { IfSome result (IsInFront self.now self.now op state below) }
    {
        let Some(number) = self.latest.get(&digest) else {
            return None;
        };
        let Some(entry) = self.entry(*number) else {
            return None;
        };
        if entry.op == op && entry.below == below && entry.state == state {
            Some(*number)
        } else {
            None
        }
    }

    /// Returns the number of the list after a drain or a migration for the operation `worked`: the
    /// list `was` if the operation is first in it, otherwise the empty list. Returns `None` if
    /// `was` is unknown.
    fn after_work(&self, was: Option<usize>, worked: u64) -> Option<usize>
        ensures { IsMadeBy (after_work worked) self.now was result }
    {
        let Some(number) = was else {
            return None;
        };
        let Some(entry) = self.entry(number) else {
            return Some(self.empty());
        };
        if entry.op == worked {
            Some(number)
        } else {
            Some(self.empty())
        }
    }

    /// Returns the number of the list after a Cancel: the rest of the list `was` if the operation
    /// is first in it, otherwise the empty list. Returns `None` if `was` is unknown.
    fn after_cancel(&self, was: Option<usize>, cancelled: u64) -> Option<usize>
        ensures { IsMadeBy (after_cancel cancelled) self.now was result }
    {
        let Some(number) = was else {
            return None;
        };
        let Some(entry) = self.entry(number) else {
            return Some(self.empty());
        };
        if entry.op == cancelled {
            Some(entry.below)
        } else {
            Some(self.empty())
        }
    }

    /// Returns the number of the empty list.
    fn empty(&self) -> usize
        ensures { slice_get self.now result ≡ Some [] }
    {
        let _ = &self.entries;
        0
    }

    /// Returns the entry that added list `number`. Returns `None` for list 0, which is empty, and
    /// for a number that no list has.
    fn entry(&self, number: usize) -> Option<&OpeningEntry>
        ensures some { IfSome result (λ entry. IsEntryOf self.now number entry.now) }
        ensures none { IfNone result ((os : List NumberedOpening)
            → slice_get self.now number ≡ Some os → os ≡ []) }
    {
        let entries = self.entries.as_slice();
        if number == 0 {
            return None;
        }
        entries.get(number - 1)
    }
}
