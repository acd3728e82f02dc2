//! What a journal shows of its steps: what each did, and the way back over the latest.
ghost use Rattle.std.specs.Prelude.{◌≡◌, ◌<◌, ◌≤◌, MatchOption, length};
ghost use Rattle.hp_units.specs.History.{net_of};
ghost use Rattle.hp_history.specs.Entries.{IsEntry, IsWayBack};

use crate::entries::{between, start_of};
use crate::journal::Journal;
use hp_tape::Delta;
use std::alloc::AllocError;

impl Journal {
    /// Reserves room for the entries of `steps` more steps. The tape of deltas may still grow.
    pub fn reserve(&mut self, steps: usize) -> Result<(), AllocError>
        ensures { self.new ≡ self.old }
    {
        self.entries.reserve(steps)
    }

    /// Returns how many records there are since the base.
    pub fn len(&self) -> u64
        ensures { result ≡ length self.now.history }
    {
        self.count
    }

    /// Returns the number of steps that are not undone.
    pub fn journal_len(&self) -> u64
        ensures { result ≡ length (net_of self.now.history) }
    {
        self.entries.len() as u64
    }

    /// Returns the deltas of step `at`, counted from 0 among the steps that are not undone;
    /// `None` past the last. Latest first, they lead back from the state after the step to
    /// the state before it.
    pub fn entry(&self, at: u64) -> Option<&[Delta]>
        ensures { MatchOption result (length (net_of self.now.history) ≤ at)
            (λ deltas. IsEntry self.now at deltas.now) }
    {
        let entries = self.entries.as_slice();
        let deltas = self.deltas.as_slice();
        if at >= entries.len() as u64 {
            return None;
        }
        let count = self.deltas.len();
        let start = start_of(entries, count, at as usize);
        let end = start_of(entries, count, at as usize + 1);
        Some(between(deltas, start, end))
    }

    /// Returns the deltas of step `at` and of all later steps, counted as in `entry`: an empty
    /// slice if `at` is the number of steps, and `None` if it is greater. Latest first, they lead
    /// back from the present state to the state before step `at`: an undo that drops these steps
    /// takes these deltas off.
    pub fn way_back(&self, at: u64) -> Option<&[Delta]>
        ensures { MatchOption result (length (net_of self.now.history) < at)
            (λ deltas. IsWayBack self.now at deltas.now) }
    {
        let entries = self.entries.as_slice();
        let deltas = self.deltas.as_slice();
        if at > entries.len() as u64 {
            return None;
        }
        let count = self.deltas.len();
        let start = start_of(entries, count, at as usize);
        Some(between(deltas, start, count))
    }
}
