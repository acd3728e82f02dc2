//! Parts of a search: disjoint sets of schedules, each of which can be searched on its own. A
//! schedule's first calls decide its part.
ghost use Rattle.std.specs.Prelude.{◌≡◌, ◌↔◌, ◌<◌, ◌≤◌, ◌+◌, ◌*◌, ◌%◌, IfSome, IsSome, IsTrue, false, length, take};
ghost use Rattle.hp_schedules.specs.Parts.{IsOfPart, IsOn, part_number};
ghost use Rattle.hp_schedules.specs.Schedules.{schedule_of};

use hp_units::Record;
use std::marker::Model;

/// One part of all schedules.
///
/// The processors of a schedule's first `calls` calls are the digits of a number, the highest
/// first; the base is the number of processors. That number modulo `of` is the index of the
/// schedule's part.
#[derive(Clone, Copy, Drop)]
pub struct Shard {
    index: u32,
    of: u32,
    calls: u32,
}

impl Model for Shard {
    ghost use Rattle.std.specs.Prelude.{◌<◌};
    ghost use Rattle.hp_schedules.specs.Parts.{PartValue};

    ghost Value = { PartValue };

    ghost view = { λ p. record { index = p.index; of = p.of; calls = p.calls } };

    ghost invariant = { λ p. p.index < p.of };

    ghost inverse = { λ v. record { index = v.index; of = v.of; calls = v.calls } };
}

impl Shard {
    /// Returns the whole search as a single part, which holds all schedules.
    pub fn whole() -> Shard
        ensures { result ≡ record { index = 0; of = 1; calls = 0 } }
    {
        Shard {
            index: 0,
            of: 1,
            calls: 0,
        }
    }

    /// Returns the part at `index`, counted from 0, or `None` if there is no such part.
    pub fn new(index: u32, of: u32, calls: u32) -> Option<Shard>
        ensures some { IsSome result ↔ (index < of) }
        ensures is { IfSome result (λ part. part ≡ record { index = index; of = of; calls = calls }) }
    {
        if index < of {
            Some(Shard { index, of, calls })
        } else {
            None
        }
    }

    /// Returns the part's index, from 0 on.
    pub fn index(&self) -> u32
        ensures is { result ≡ self.now.index }
        ensures below { result < self.now.of }
    {
        self.index
    }

    /// Returns the number of parts.
    pub fn of(&self) -> u32
        ensures { result ≡ self.now.of }
    {
        self.of
    }

    /// Returns how many first calls decide to which part a schedule belongs.
    pub fn calls(&self) -> u32
        ensures { result ≡ self.now.calls }
    {
        self.calls
    }

    /// Returns whether the schedule of these records belongs to the part, for `processors`
    /// processors.
    pub fn is_of(&self, processors: u32, records: &[Record]) -> bool
        ensures { IsTrue result ↔ IsOfPart processors self.now (schedule_of records.now) }
    {
        let first = &records[..records.len().min(self.calls as usize)];
        number_of(first, processors, self.of) == u64::from(self.index)
    }

    /// Returns whether the place of these records belongs to another part. There must be at least
    /// `calls` records.
    ///
    /// Does not test a place with more than `calls` records: it belongs to this part, because a
    /// search never continues from a place of another part.
    pub fn leaves_out(&self, processors: u32, records: &[Record]) -> bool
        requires long { self.now.calls ≤ length records.now }
        requires on { IsOn processors self.now (schedule_of records.now) }
        ensures out { IsTrue result → IsOfPart processors self.now (schedule_of records.now) → ⊥ }
        ensures within { result ≡ false → IsOfPart processors self.now (schedule_of records.now) }
    {
        if records.len() > self.calls() as usize {
            return false;
        }
        !self.is_of(processors, records)
    }
}

/// Returns the index of the part that the first records belong to.
fn number_of(first: &[Record], processors: u32, of: u32) -> u64
    requires { 0 < of }
    ensures { result ≡ part_number processors of (schedule_of first.now) }
{
    let mut number = 0;
    for record in first {
        let cpu = u64::from(record.cpu.0);
        number = (number * u64::from(processors) + cpu) % u64::from(of);
    }
    number
}
