//! The schedule of a search, with its number of changes of processor.
ghost use Rattle.std.specs.Prelude.{◌≡◌, ◌-◌, ◌++◌, ◌∷◌, [], OnErr, OnOk, length, take};
ghost use Rattle.hp_explore.specs.Changes.{changes};

use crate::changes::change_after;
use hp_units::Cpu;
use std::alloc::{AllocError, Global};
use std::marker::Model;

/// The schedule of the place where a search is: the processors of its calls, in order.
///
/// It keeps the number of changes of processor, so that reading it takes constant time. In
/// contracts, a schedule's value is the list of its processors.
#[derive(Drop)]
pub struct Schedule {
    calls: Vec<Cpu>,
    change_count: usize,
}

impl Model for Schedule {
    ghost use Rattle.std.specs.Prelude.{◌≡◌, List, ℕ};
    ghost use Rattle.hp_explore.specs.Changes.{changes};

    ghost Value = { List ℕ };

    ghost view = { λ s. s.calls.items };

    ghost invariant = { λ s. s.change_count ≡ changes s.calls.items };
}

impl Schedule {
    /// Creates a schedule without calls.
    pub(crate) fn new(alloc: Global) -> Schedule
        ensures { result ≡ [] }
    {
        Schedule {
            calls: Vec::new(alloc),
            change_count: 0,
        }
    }

    /// Returns the number of calls.
    pub fn len(&self) -> usize
        ensures { result ≡ length self.now }
    {
        self.calls.len()
    }

    /// Returns the processors of the calls, in order.
    pub fn as_slice(&self) -> &[Cpu]
        ensures { result.now ≡ self.now }
    {
        self.calls.as_slice()
    }

    /// Returns the number of changes of processor, without counting them.
    pub fn changes(&self) -> usize
        ensures { result ≡ changes self.now }
    {
        self.change_count
    }

    /// Returns the number of changes of processor with one more call by `next`.
    pub(crate) fn changes_with(&self, next: Cpu) -> usize
        ensures { result ≡ changes (self.now ++ next ∷ []) }
    {
        self.change_count + change_after(self.calls.as_slice(), next)
    }

    /// Appends a call by `cpu`. If memory runs out, the schedule stays as it is.
    pub(crate) fn push(&mut self, cpu: Cpu) -> Result<(), AllocError>
        ensures ok { OnOk result (self.new ≡ self.old ++ cpu ∷ []) }
        ensures err { OnErr result (self.new ≡ self.old) }
    {
        let change_count = self.changes_with(cpu);
        self.calls.push(cpu)?;
        self.change_count = change_count;
        Ok(())
    }

    /// Removes the latest call. Does nothing if there is none.
    pub(crate) fn pop(&mut self)
        ensures { self.new ≡ take (length self.old - 1) self.old }
    {
        if let Some(cpu) = self.calls.pop() {
            self.change_count -= change_after(self.calls.as_slice(), cpu);
        }
    }

    /// Returns the processors of the calls, in order. Allocates nothing.
    pub(crate) fn into_vec(self) -> Vec<Cpu>
        ensures { result.items ≡ self }
    {
        let Schedule {
            calls,
            change_count: _,
        } = self;
        calls
    }
}
