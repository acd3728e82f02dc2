//! Ends that are being merged.
ghost use Rattle.std.specs.Prelude.{◌≡◌, ◌↔◌, ◌+◌, ◌<◌, ◌^◌, [], IfNone, IfOk, IfSome, IsTrue, OnErr, OnOk, map, sum_by};
ghost use Rattle.std.specs.Cmp.Lexicographic.{slice_cmp};
ghost use Rattle.std.specs.Ordering.{nat_cmp};
ghost use Rattle.hp_schedules.specs.Digests.{digest_of};
ghost use Rattle.hp_schedules.specs.Notes.{AreKnown, HasEndAt, HasNoEnd};
ghost use Rattle.hp_parts.specs.Adding.{AddsEnd, AddsEnds, AddsLists, AddsMore, AddsOther, AreSorted, counted_by};

use crate::earlier::{keep_earlier, order_of};
use hp_schedules::{Ending, Outcome, learn};
use indexmap::IndexMap;
use std::alloc::{AllocError, Global};
use std::cmp::Ordering;
use std::marker::Model;

/// Merged ends, no two with the same outcome. In contracts, their value is the list of these ends.
///
/// `total` is the number of schedules that they count. `latest` maps a hash to the index of the
/// newest end that has it.
pub(crate) struct MergedEnds {
    total: u64,
    ends: Vec<Ending>,
    latest: IndexMap<u64, usize>,
}

impl Model for MergedEnds {
    ghost use Rattle.std.specs.Prelude.{◌≡◌, List, sum_by};
    ghost use Rattle.hp_schedules.specs.Notes.{AreKnown};
    ghost use Rattle.hp_schedules.specs.declared.tally.Ending.{Ending};

    ghost Value = { List Ending };

    ghost view = { λ s. s.ends.items };

    ghost invariant = { λ s. (s.total ≡ sum_by (λ e. e.count) s.ends.items)
        × AreKnown s.ends.items s.latest };
}

/// Keeps callers from proving again how each field is dropped.
impl Drop for MergedEnds {
    fn drop(self) {
        let MergedEnds {
            total: _,
            ends: _ends,
            latest: _latest,
        } = self;
    }
}

impl MergedEnds {
    /// Creates an empty collection.
    pub(crate) fn new(alloc: Global) -> MergedEnds
        ensures { result ≡ [] }
    {
        MergedEnds {
            total: 0,
            ends: Vec::new(alloc),
            latest: IndexMap::new(alloc),
        }
    }

    /// Adds all ends of all lists.
    pub(crate) fn add_lists(
        &mut self,
        alloc: Global,
        lists: &[Vec<Ending>],
    ) -> Result<(), AllocError>
        requires { sum_by (λ e. e.count) self.old + counted_by (map (λ ends. ends.items) lists.now) < 2 ^ 64 }
        ensures { OnOk result (AddsLists self.old (map (λ ends. ends.items) lists.now) self.new) }
    {
        for ends in lists {
            self.add_ends(alloc, ends.as_slice())?;
        }
        Ok(())
    }

    /// Adds all these ends.
    fn add_ends(&mut self, alloc: Global, ends: &[Ending]) -> Result<(), AllocError>
        requires { sum_by (λ e. e.count) self.old + sum_by (λ e. e.count) ends.now < 2 ^ 64 }
        ensures { OnOk result (AddsEnds self.old ends.now self.new) }
    {
        for end in ends {
            self.add_end(alloc, end)?;
        }
        Ok(())
    }

    /// Adds an end. If memory runs out, the ends stay as they were.
    fn add_end(&mut self, alloc: Global, end: &Ending) -> Result<(), AllocError>
        requires { sum_by (λ e. e.count) self.old + end.now.count < 2 ^ 64 }
        ensures ok { OnOk result (AddsEnd self.old end.now self.new) }
        ensures err { OnErr result (self.new ≡ self.old) }
    {
        let digest = end.outcome.digest();
        match place_of(self.ends.as_slice(), &self.latest, digest, &end.outcome) {
            Some(place) => self.add_at(alloc, place, end),
            None => self.push(alloc, digest, end),
        }
    }

    /// Adds the end's count to the end at index `place`, and keeps the earlier first schedule.
    fn add_at(&mut self, alloc: Global, place: usize, end: &Ending) -> Result<(), AllocError>
        requires at { HasEndAt self.old end.now.outcome place }
        requires room { sum_by (λ e. e.count) self.old + end.now.count < 2 ^ 64 }
        ensures ok { OnOk result (AddsMore self.old end.now self.new) }
        ensures err { OnErr result (self.new ≡ self.old) }
    {
        let entry = &mut self.ends[place];
        keep_earlier(alloc, &mut entry.first, end.first.as_slice())?;
        entry.count += end.count;
        self.total += end.count;
        Ok(())
    }

    /// Appends an end whose outcome is new. `digest` is the hash of the outcome.
    fn push(&mut self, alloc: Global, digest: u64, end: &Ending) -> Result<(), AllocError>
        requires digest { digest ≡ digest_of end.now.outcome }
        requires none { HasNoEnd self.old end.now.outcome }
        requires room { sum_by (λ e. e.count) self.old + end.now.count < 2 ^ 64 }
        ensures ok { OnOk result (AddsOther self.old end.now self.new) }
        ensures err { OnErr result (self.new ≡ self.old) }
    {
        let copy = end.copy(alloc)?;
        self.ends.reserve(1)?;
        learn(&mut self.latest, digest, self.ends.len())?;
        self.ends.push_reserved(copy);
        self.total += end.count;
        Ok(())
    }

    /// Returns the ends in the order of their first schedules.
    pub(crate) fn into_sorted(self) -> Vec<Ending>
        ensures { AreSorted self result.items }
    {
        let MergedEnds {
            total: _,
            ends,
            latest: _latest,
        } = self;
        sorted(ends)
    }
}

/// Sorts ends by their first schedules.
fn sorted(ends: Vec<Ending>) -> Vec<Ending>
    ensures { AreSorted ends.items result.items }
{
    let mut sorted = ends;
    sorted.sort_unstable_by(
        |end: &Ending, other: &Ending| -> Ordering
            ensures { result ≡ slice_cmp nat_cmp end.now.first.items other.now.first.items }
        { order_of(end.first.as_slice(), other.first.as_slice()) },
    );
    sorted
}

/// Returns the index of the end that has this outcome, if there is one.
///
/// It is nearly always the newest end with this hash. If not, all ends are compared.
fn place_of(
    ends: &[Ending],
    latest: &IndexMap<u64, usize>,
    digest: u64,
    outcome: &Outcome,
) -> Option<usize>
    requires known { AreKnown ends.now latest.now }
    requires digest { digest ≡ digest_of outcome.now }
    ensures some { IfSome result (HasEndAt ends.now outcome.now) }
    ensures none { IfNone result (HasNoEnd ends.now outcome.now) }
{
    let Some(place) = latest.get(&digest) else {
        return None;
    };
    if is_end_at(ends, *place, outcome) {
        return Some(*place);
    }
    first_place_of(ends, outcome)
}

/// Returns whether the end at index `place` has this outcome.
fn is_end_at(ends: &[Ending], place: usize, outcome: &Outcome) -> bool
    ensures { IsTrue result → HasEndAt ends.now outcome.now place }
{
    match ends.get(place) {
        Some(end) => end.outcome.same(outcome),
        None => false,
    }
}

/// Returns the index of the first end that has this outcome, if there is one.
fn first_place_of(ends: &[Ending], outcome: &Outcome) -> Option<usize>
    ensures some { IfSome result (HasEndAt ends.now outcome.now) }
    ensures none { IfNone result (HasNoEnd ends.now outcome.now) }
{
    for (place, end) in ends.iter().enumerate() {
        if end.outcome.same(outcome) {
            return Some(place);
        }
    }
    None
}
