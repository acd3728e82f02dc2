//! The ends found so far, with their counts.
ghost use Rattle.std.specs.Prelude.{◌≡◌, ◌↔◌, ◌<◌, ◌≤◌, ◌+◌, [], ◌∷◌, IfOk, IfSome, IfNone, IsTrue, OnErr, OnOk, drop, length, sum_by};
ghost use Rattle.hp_schedules.specs.Digests.{digest_of};
ghost use Rattle.hp_schedules.specs.Notes.{AddsEnd, HasEndAt, HasNoEnd, HasRoom, IsNoted};
ghost use Rattle.hp_schedules.specs.Outcomes.{outcome_with};
ghost use Rattle.hp_schedules.specs.Schedules.{schedule_of};
ghost use Rattle.hp_schedules.specs.Shares.{AddsAt, AddsShares, AreAtEnds, HasRoomFor, HasRoomForShares};
ghost use Rattle.hp_schedules.specs.Trails.{KeepsBefore};

use crate::digests::{digest_of, learn};
use crate::outcomes::{Outcome, all_answers};
use crate::trail::{Share, Trail};
use hp_units::{Cpu, Record, Row};
use indexmap::IndexMap;
use std::alloc::{AllocError, Global};
use std::marker::Model;

/// One end of schedules, with the number of schedules that lead to it.
#[derive(Drop)]
pub struct Ending {
    /// How these schedules end.
    pub outcome: Outcome,
    /// How many schedules end in this way.
    pub count: u64,
    /// The first of these schedules: the processors in the order of their calls.
    pub first: Vec<Cpu>,
}

/// Returns how many schedules lead to any of the ends.
pub fn total_of(ends: &[Ending]) -> u128
    ensures { result ≡ sum_by (λ e. e.count) ends.now }
{
    let mut total: u128 = 0;
    for end in ends {
        total += u128::from(end.count);
    }
    total
}

impl Ending {
    /// Returns a copy.
    pub fn copy(&self, alloc: Global) -> Result<Ending, AllocError>
        ensures outcome { IfOk result (λ copy. copy.outcome ≡ self.now.outcome) }
        ensures count { IfOk result (λ copy. copy.count ≡ self.now.count) }
        ensures first { IfOk result (λ copy. copy.first.items ≡ self.now.first.items) }
    {
        let outcome = self.outcome.copy(alloc)?;
        let first: Vec<Cpu> = self.first.iter().copied().collect(alloc)?;
        Ok(Ending {
            outcome,
            count: self.count,
            first,
        })
    }
}

/// Returns the schedule of the records: their processors, in order.
pub fn schedule_of(alloc: Global, records: &[Record]) -> Result<Vec<Cpu>, AllocError>
    ensures { IfOk result (λ schedule. schedule.items ≡ schedule_of records.now) }
{
    let mut schedule = Vec::with_capacity(alloc, records.len())?;
    for record in records {
        schedule.push_reserved(record.cpu);
    }
    Ok(schedule)
}

/// The ends so far, the limit on the schedules counted, and the trail of what was counted.
///
/// `latest` maps a hash to the index of the newest end that has it, unless memory ran out when a
/// later end was added. The trail records what was added to each count. So it shows how much a
/// count has grown since the trail had a given length.
#[derive(Drop)]
pub struct Tally {
    limit: u64,
    total: u64,
    ends: Vec<Ending>,
    latest: IndexMap<u64, usize>,
    trail: Trail,
}

impl Model for Tally {
    ghost use Rattle.std.specs.Prelude.{◌≡◌, ◌≤◌, length, sum_by};
    ghost use Rattle.hp_schedules.specs.Notes.{AreKnown, TallyValue};
    ghost use Rattle.hp_schedules.specs.Shares.{AreAtEnds};

    ghost Value = { TallyValue };

    ghost view = { λ t. record {
      limit = t.limit;
      ends = t.ends.items;
      trail = t.trail.shares.items;
    } };

    ghost invariant = { λ t.
        (t.total ≡ sum_by (λ e. e.count) t.ends.items) × (t.total ≤ t.limit)
        × AreKnown t.ends.items t.latest
        × AreAtEnds (length t.ends.items) t.trail.shares.items
        × (sum_by (λ s. s.count) t.trail.shares.items ≤ t.total) };
}

impl Tally {
    /// Creates a tally with no schedule counted.
    pub fn new(alloc: Global, limit: u64) -> Tally
        ensures { result ≡ record { limit = limit; ends = []; trail = [] } }
    {
        Tally {
            limit,
            total: 0,
            ends: Vec::new(alloc),
            latest: IndexMap::new(alloc),
            trail: Trail {
                shares: Vec::new(alloc),
                places: Vec::new(alloc),
            },
        }
    }

    /// Counts the schedule of these records under its end: the replies to `processors` processors
    /// and the rows in `blocks`.
    ///
    /// If memory runs out, nothing is counted.
    pub fn note(
        &mut self,
        alloc: Global,
        processors: u32,
        records: &[Record],
        blocks: Vec<Row>,
    ) -> Result<(), AllocError>
        requires { HasRoom self.old }
        ensures ok { OnOk result (IsNoted self.old.ends (outcome_with processors records.now blocks.items)
            (schedule_of records.now) self.new.ends) }
        ensures trail { OnOk result (KeepsBefore (length self.old.trail) self.old self.new) }
        ensures limit { self.new.limit ≡ self.old.limit }
        ensures err { OnErr result (self.new ≡ self.old) }
    {
        let digest = digest_of(processors, records, blocks.as_slice());
        match self.place_of(digest, processors, records, blocks.as_slice()) {
            Some(place) => self.add_at(place, 1),
            None => self.add_end(alloc, digest, processors, records, blocks),
        }
    }

    /// Returns the index of the end with the outcome of these records and rows, if there is one.
    ///
    /// It is nearly always the newest end with the hash `digest`. If not, all ends are compared.
    fn place_of(
        &self,
        digest: u64,
        processors: u32,
        records: &[Record],
        blocks: &[Row],
    ) -> Option<usize>
        requires { digest ≡ digest_of (outcome_with processors records.now blocks.now) }
        ensures some { IfSome result
            (HasEndAt self.now.ends (outcome_with processors records.now blocks.now)) }
        ensures none { IfNone result
            (HasNoEnd self.now.ends (outcome_with processors records.now blocks.now)) }
    {
        let ends = self.ends.as_slice();
        let Some(place) = self.latest.get(&digest) else {
            return None;
        };
        if is_end_at(ends, *place, processors, records, blocks) {
            return Some(*place);
        }
        first_place_of(ends, processors, records, blocks)
    }

    /// Adds an end for the schedule of these records, whose outcome no end has yet.
    ///
    /// If memory runs out, nothing is counted.
    fn add_end(
        &mut self,
        alloc: Global,
        digest: u64,
        processors: u32,
        records: &[Record],
        blocks: Vec<Row>,
    ) -> Result<(), AllocError>
        requires room { HasRoom self.old }
        requires none { HasNoEnd self.old.ends (outcome_with processors records.now blocks.items) }
        requires digest { digest ≡ digest_of (outcome_with processors records.now blocks.items) }
        ensures ok { OnOk result (AddsEnd self.old.ends (outcome_with processors records.now blocks.items)
            (schedule_of records.now) self.new.ends) }
        ensures trail { OnOk result (KeepsBefore (length self.old.trail) self.old self.new) }
        ensures limit { self.new.limit ≡ self.old.limit }
        ensures err { OnErr result (self.new ≡ self.old) }
    {
        let end = self.ends.len();
        self.ends.reserve(1)?;
        learn(&mut self.latest, digest, end)?;
        let entry = new_end(alloc, processors, records, blocks)?;
        self.trail.places.push(0)?;
        self.trail.shares.push(Share { end, count: 1 })?;
        self.ends.push_reserved(entry);
        self.total += 1;
        Ok(())
    }

    /// Returns how many schedules are counted.
    pub fn total(&self) -> u64
        ensures { result ≡ sum_by (λ e. e.count) self.now.ends }
    {
        self.total
    }

    /// Returns how many more schedules the limit allows.
    pub fn room(&self) -> u64
        ensures { sum_by (λ e. e.count) self.now.ends + result ≡ self.now.limit }
    {
        self.limit - self.total
    }

    /// Returns the length of the trail.
    pub fn trail_len(&self) -> usize
        ensures { result ≡ length self.now.trail }
    {
        self.trail.shares.len()
    }

    /// Returns the shares that were counted since the trail was `start` long.
    pub fn since(&self, start: usize) -> &[Share]
        requires { start ≤ length self.now.trail }
        ensures shares { result.now ≡ drop start self.now.trail }
        ensures at_ends { AreAtEnds (length self.now.ends) result.now }
    {
        &self.trail.shares[start..]
    }

    /// Replaces the shares of the trail from index `start` on by their sums, one for each end.
    pub fn gather(&mut self, start: usize)
        requires { start ≤ length self.old.trail }
        ensures trail { KeepsBefore start self.old self.new }
        ensures ends { self.new.ends ≡ self.old.ends }
        ensures limit { self.new.limit ≡ self.old.limit }
    {
        self.trail.gather(start);
    }

    /// Counts each share under its end. If memory runs out, only the first ones are counted.
    pub fn add(&mut self, shares: &[Share]) -> Result<(), AllocError>
        requires ends { AreAtEnds (length self.old.ends) shares.now }
        requires room { HasRoomForShares self.old shares.now }
        ensures added { OnOk result (AddsShares self.old.ends shares.now self.new.ends) }
        ensures trail { OnOk result (KeepsBefore (length self.old.trail) self.old self.new) }
        ensures limit { self.new.limit ≡ self.old.limit }
    {
        for share in shares {
            self.add_at(share.end, share.count)?;
        }
        Ok(())
    }

    /// Counts `count` more schedules under the end at index `place`.
    ///
    /// If memory runs out, nothing is counted.
    fn add_at(&mut self, place: usize, count: u64) -> Result<(), AllocError>
        requires place { place < length self.old.ends }
        requires room { HasRoomFor self.old (count ∷ []) }
        ensures added { OnOk result (AddsAt self.old.ends place count self.new.ends) }
        ensures trail { OnOk result (KeepsBefore (length self.old.trail) self.old self.new) }
        ensures limit { self.new.limit ≡ self.old.limit }
        ensures err { OnErr result (self.new ≡ self.old) }
    {
        self.trail.shares.push(Share { end: place, count })?;
        let end = &mut self.ends[place];
        end.count += count;
        self.total += count;
        Ok(())
    }

    /// Returns the ends with their counts.
    pub fn into_ends(self) -> Vec<Ending>
        ensures is { result.items ≡ self.ends }
        ensures within { sum_by (λ e. e.count) self.ends ≤ self.limit }
    {
        let Tally { ends, .. } = self;
        ends
    }
}

/// Creates an end with one schedule, that of these records.
fn new_end(
    alloc: Global,
    processors: u32,
    records: &[Record],
    blocks: Vec<Row>,
) -> Result<Ending, AllocError>
    ensures outcome { IfOk result
        (λ end. end.outcome ≡ outcome_with processors records.now blocks.items) }
    ensures count { IfOk result (λ end. end.count ≡ 1) }
    ensures first { IfOk result (λ end. end.first.items ≡ schedule_of records.now) }
{
    let replies = all_answers(alloc, processors, records)?;
    let first = schedule_of(alloc, records)?;
    Ok(Ending {
        outcome: Outcome::new(replies, blocks),
        count: 1,
        first,
    })
}

/// Returns whether the shares add up to at most `room`.
pub fn fit_in(shares: &[Share], room: u64) -> bool
    ensures { IsTrue result ↔ (sum_by (λ s. s.count) shares.now ≤ room) }
{
    let mut left = room;
    for share in shares {
        match left.checked_sub(share.count) {
            Some(less) => left = less,
            None => return false,
        }
    }
    true
}

/// Returns whether the end at index `place` has the outcome of these records and rows.
fn is_end_at(
    ends: &[Ending],
    place: usize,
    processors: u32,
    records: &[Record],
    blocks: &[Row],
) -> bool
    ensures { IsTrue result → HasEndAt ends.now (outcome_with processors records.now blocks.now) place }
{
    match ends.get(place) {
        Some(end) => end.outcome.is_of(processors, records, blocks),
        None => false,
    }
}

/// Returns the index of the first end with the outcome of these records and rows, if there is one.
fn first_place_of(
    ends: &[Ending],
    processors: u32,
    records: &[Record],
    blocks: &[Row],
) -> Option<usize>
    ensures some { IfSome result (HasEndAt ends.now (outcome_with processors records.now blocks.now)) }
    ensures none { IfNone result (HasNoEnd ends.now (outcome_with processors records.now blocks.now)) }
{
    for (place, end) in ends.iter().enumerate() {
        if end.outcome.is_of(processors, records, blocks) {
            return Some(place);
        }
    }
    None
}
