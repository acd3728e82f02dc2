//! Ends grouped by a part of their outcome.
ghost use Rattle.std.specs.Prelude.{◌≡◌, ◌+◌, ◌<◌, ◌^◌, [], IfNone, IfOk, IfSome, IsTrue, OnErr, OnOk, length, option_map, sum_by};
ghost use Rattle.hp_schedules.specs.Shares.{AddsAt};
ghost use Rattle.hp_search.specs.Groups.{AddsEnd, AreGroups, AreKnown, AreShown, Begins, HasGroupAt, HasNoGroup, part_digest};

use crate::groupings::{Grouping, agree, part_digest};
use hp_explore::Exploration;
use hp_schedules::{CallScript, Ending, Outcome, learn};
use indexmap::IndexMap;
use std::alloc::{AllocError, Global};
use std::marker::Model;

/// The part of an outcome in which the ends of a group agree.
#[derive(Clone, Copy, Drop)]
pub enum GroupBy {
    /// The states of the memory blocks.
    Blocks,
    /// The replies to each processor.
    Answers,
    /// How the plans of each processor ended.
    Plans,
}

/// Groups the ends that agree in a part of their outcome.
///
/// A group has the outcome and the first interleaving of its first end, and counts the
/// interleavings of all its ends. The groups are in the order of their first ends.
pub fn groups_of(
    alloc: Global,
    ends: &[Ending],
    by: &Grouping<'_>,
) -> Result<Vec<Ending>, AllocError>
    requires { sum_by (λ e. e.count) ends.now < 2 ^ 64 }
    ensures { IfOk result (λ groups. AreGroups by.now ends.now groups.items) }
{
    let mut groups = Groups::new(alloc, by);
    for end in ends {
        groups.add(alloc, end)?;
    }
    Ok(groups.into_ends())
}

/// Returns the exploration with its ends grouped by a part of their outcome, or unchanged if `by`
/// is `None`.
pub fn grouped(
    alloc: Global,
    explored: Exploration,
    by: Option<GroupBy>,
    cpus: u32,
    scripts: &[CallScript],
) -> Result<Exploration, AllocError>
    requires { sum_by (λ e. e.count) explored.ends.items < 2 ^ 64 }
    ensures ends { IfOk result (λ shown.
        AreShown (option_map (λ b. record { by = b; cpus = cpus; scripts = scripts.now }) by)
        explored.ends.items shown.ends.items) }
    ensures whole { IfOk result (λ shown. shown.is_whole ≡ explored.is_whole) }
{
    match by {
        Some(by) => {
            let grouping = Grouping::new(by, cpus, scripts);
            let ends = groups_of(alloc, &explored.ends, &grouping)?;
            Ok(Exploration {
                ends,
                is_whole: explored.is_whole,
            })
        }
        None => Ok(explored),
    }
}

/// The groups of the ends so far.
///
/// `latest` maps a hash to the index of the newest group with this hash. The hash of a group is
/// that of the part of its outcome by which ends are grouped.
struct Groups<'a> {
    by: &'a Grouping<'a>,
    ends: Vec<Ending>,
    latest: IndexMap<u64, usize>,
}

impl<'a> Model for Groups<'a> {
    ghost use Rattle.hp_search.specs.Groups.{AreKnown, GroupsValue};

    ghost Value = { GroupsValue };

    ghost view = { λ g. record { by = g.by.now; ends = g.ends.items } };

    ghost invariant = { λ g. AreKnown g.by.now g.ends.items g.latest };
}

/// Keeps callers from proving again how each field is dropped.
impl<'a> Drop for Groups<'a> {
    fn drop(self) {
        let Groups {
            by: _,
            ends: _ends,
            latest: _latest,
        } = self;
    }
}

impl<'a> Groups<'a> {
    /// Creates an empty list of groups.
    fn new(alloc: Global, by: &'a Grouping<'a>) -> Groups<'a>
        ensures { result ≡ record { by = by.now; ends = [] } }
    {
        Groups {
            by,
            ends: Vec::new(alloc),
            latest: IndexMap::new(alloc),
        }
    }

    /// Adds an end to its group, or begins a group with it. If memory runs out, the groups stay as
    /// they were.
    fn add(&mut self, alloc: Global, end: &Ending) -> Result<(), AllocError>
        requires { sum_by (λ e. e.count) self.old.ends + end.now.count < 2 ^ 64 }
        ensures by { self.new.by ≡ self.old.by }
        ensures ok { OnOk result (AddsEnd self.old.by self.old.ends end.now self.new.ends) }
        ensures err { OnErr result (self.new ≡ self.old) }
    {
        let digest = part_digest(alloc, self.by, &end.outcome)?;
        let place = place_of(
            alloc,
            self.ends.as_slice(),
            &self.latest,
            self.by,
            digest,
            &end.outcome,
        )?;
        match place {
            Some(place) => {
                self.join(place, end.count);
                Ok(())
            }
            None => self.begin(alloc, digest, end),
        }
    }

    /// Counts `count` more interleavings in the group at index `place`.
    fn join(&mut self, place: usize, count: u64)
        requires place { place < length self.old.ends }
        requires room { sum_by (λ e. e.count) self.old.ends + count < 2 ^ 64 }
        ensures by { self.new.by ≡ self.old.by }
        ensures added { AddsAt self.old.ends place count self.new.ends }
    {
        let group = &mut self.ends[place];
        group.count += count;
    }

    /// Begins a group with an end. `digest` is the hash of the part of its outcome by which ends
    /// are grouped. If memory runs out, the groups stay as they were.
    fn begin(&mut self, alloc: Global, digest: u64, end: &Ending) -> Result<(), AllocError>
        requires digest { digest ≡ part_digest self.old.by end.now.outcome }
        requires none { HasNoGroup self.old.by self.old.ends end.now.outcome }
        ensures by { self.new.by ≡ self.old.by }
        ensures ok { OnOk result (Begins self.old.by self.old.ends end.now self.new.ends) }
        ensures err { OnErr result (self.new ≡ self.old) }
    {
        let group = end.copy(alloc)?;
        self.ends.reserve(1)?;
        learn(&mut self.latest, digest, self.ends.len())?;
        self.ends.push_reserved(group);
        Ok(())
    }

    /// Returns the groups.
    fn into_ends(self) -> Vec<Ending>
        ensures { result.items ≡ self.entry.ends }
    {
        let Groups {
            by: _,
            ends,
            latest: _latest,
        } = self;
        ends
    }
}

/// Returns the index of the group that an end with this outcome belongs to, if there is one.
/// `digest` is the hash of the part of the outcome by which ends are grouped.
///
/// It is nearly always the newest group with this hash. If not, all groups are compared.
fn place_of(
    alloc: Global,
    groups: &[Ending],
    latest: &IndexMap<u64, usize>,
    by: &Grouping<'_>,
    digest: u64,
    outcome: &Outcome,
) -> Result<Option<usize>, AllocError>
    requires known { AreKnown by.now groups.now latest.now }
    requires digest { digest ≡ part_digest by.now outcome.now }
    ensures some { IfOk result (λ place. IfSome place (HasGroupAt by.now groups.now outcome.now)) }
    ensures none { IfOk result (λ place. IfNone place (HasNoGroup by.now groups.now outcome.now)) }
{
    let Some(place) = latest.get(&digest) else {
        return Ok(None);
    };
    if is_group_at(alloc, groups, *place, by, outcome)? {
        return Ok(Some(*place));
    }
    first_place_of(alloc, groups, by, outcome)
}

/// Returns whether an end with this outcome belongs to the group at index `place`.
fn is_group_at(
    alloc: Global,
    groups: &[Ending],
    place: usize,
    by: &Grouping<'_>,
    outcome: &Outcome,
) -> Result<bool, AllocError>
    ensures { IfOk result (λ is. IsTrue is → HasGroupAt by.now groups.now outcome.now place) }
{
    match groups.get(place) {
        Some(group) => agree(alloc, by, &group.outcome, outcome),
        None => Ok(false),
    }
}

/// Returns the index of the first group that an end with this outcome belongs to, if there is one.
fn first_place_of(
    alloc: Global,
    groups: &[Ending],
    by: &Grouping<'_>,
    outcome: &Outcome,
) -> Result<Option<usize>, AllocError>
    ensures some { IfOk result (λ place. IfSome place (HasGroupAt by.now groups.now outcome.now)) }
    ensures none { IfOk result (λ place. IfNone place (HasNoGroup by.now groups.now outcome.now)) }
{
    for (place, group) in groups.iter().enumerate() {
        if agree(alloc, by, &group.outcome, outcome)? {
            return Ok(Some(place));
        }
    }
    Ok(None)
}
