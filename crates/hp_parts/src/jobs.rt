//! Exploration in several threads.
ghost use Rattle.std.specs.Prelude.{◌≡◌, ◌^◌, ◌<◌, ◌≤◌, ◌⊎◌, IfErr, IfOk, IfSome, Some, length, map, sum_by};
ghost use Rattle.hp_schedules.specs.Ends.{AreCounted, AreEnds, AreInOrder};
ghost use Rattle.hp_explore.specs.Faults.{FillsHistory, FillsPart, IsCause, IsCauseWithin};
ghost use Rattle.hp_schedules.specs.Orders.{HasMoreThan};
ghost use Rattle.hp_explore.specs.Fronts.{AreFirst, IfFirst, IfWhole, counted};
ghost use Rattle.hp_schedules.specs.Parts.{EndsInPart};
ghost use Rattle.hp_schedules.specs.Schedules.{IsComplete};
ghost use Rattle.hp_explore.specs.Settings.{setting};
ghost use Rattle.hp_parts.specs.AllParts.{AreParts, HaveRoom, part};

use crate::calls::calls_for;
use crate::merging::sum;
use crate::rooms::left_after;
use hp_explore::{Exploration, ExploreFault, MOST_JOBS, Watch, explore, explore_part};
use hp_machine::Machine;
use hp_schedules::{CallScript, Ending, Shard};
use std::alloc::Global;
use std::thread;
use std::thread::Threads;

/// Watches the search of one part, and ends it once it takes more than `memory` bytes.
#[derive(Drop)]
struct PartWatch {
    memory: u64,
}

impl Watch for PartWatch {
    ghost has_ended = { λ _. Unit {0} };

    fn counted(&mut self, _schedules: u64) {}

    fn memory(&self) -> u64 {
        self.memory
    }

    fn goes_on(&mut self, _places: u64, bytes: u64) -> bool {
        bytes <= self.memory
    }
}

/// Explores all schedules like `explore`, in `jobs` threads, at most 256.
///
/// Each thread searches one part with an equal share of the memory that `watch` allows, and the
/// ends of all parts are merged. `watch` is then called once, with the total. One thread searches
/// all schedules anew if memory runs out, if a part fails, stops at the limit or takes more than
/// its share, or if the merge fails or counts more than the limit.
///
/// A part may take nearly as long as the whole search if many places in different parts are
/// equivalent, because each part explores them for itself.
///
/// # Errors
///
/// The same as `explore`.
pub fn explore_with_jobs<R: Threads + Sync, W: Watch>(
    rt: &R,
    alloc: Global,
    machine: &Machine,
    scripts: &[CallScript],
    limit: u64,
    jobs: u32,
    watch: &mut W,
) -> Result<Exploration, ExploreFault>
    requires { length scripts.now < 2 ^ 32 }

    // If all schedules were counted:
    ensures ok { IfOk result (λ x. IfWhole x (AreEnds (setting machine.now scripts.now))) }
    ensures few { IfOk result
        (λ x. IfWhole x (λ _. HasMoreThan (IsComplete (setting machine.now scripts.now)) limit → ⊥)) }
    ensures room { IfOk result
        (λ x. IfWhole x (λ _. FillsHistory (setting machine.now scripts.now) → ⊥)) }
    // If only the first ones were:
    ensures first { IfOk result
        (λ x. IfFirst x (λ ends. AreFirst (setting machine.now scripts.now) (counted ends) ends)) }
    ensures many { IfOk result (λ x. IfFirst x
        (λ ends. HasMoreThan (IsComplete (setting machine.now scripts.now)) (counted ends))) }
    ensures stopped { IfOk result
        (λ x. IfFirst x (λ ends. (counted ends ≡ limit) ⊎ W.has_ended watch.new)) }
    // In both cases:
    ensures within { IfOk result (λ x. sum_by (λ e. e.count) x.ends.items ≤ limit) }
    ensures ordered { IfOk result (λ x. AreInOrder x.ends.items) }
    ensures err { IfErr result (IsCause (setting machine.now scripts.now)) }
    ensures full { IfErr result (IsCauseWithin (setting machine.now scripts.now) limit) }
{
    let parts = jobs.min(MOST_JOBS);
    if parts < 2 {
        return explore(alloc, machine, scripts, limit, watch);
    }
    match search_parts(rt, alloc, machine, scripts, parts, limit, watch) {
        Some(ends) => Ok(Exploration {
            ends,
            is_whole: true,
        }),
        None => explore(alloc, machine, scripts, limit, watch),
    }
}

/// Returns the ends of all schedules, searched in `parts` parts. Returns `None` if they count more
/// than the limit, if the schedules of a part were not all counted, if memory ran out, or if the
/// merge failed. Otherwise calls `watch` once, with the total.
fn search_parts<R: Threads + Sync, W: Watch>(
    rt: &R,
    alloc: Global,
    machine: &Machine,
    scripts: &[CallScript],
    parts: u32,
    limit: u64,
    watch: &mut W,
) -> Option<Vec<Ending>>
    requires few { length scripts.now < 2 ^ 32 }
    requires some { 0 < parts }
    ensures ends { IfSome result (λ ends. AreEnds (setting machine.now scripts.now) ends.items) }
    ensures ordered { IfSome result (λ ends. AreInOrder ends.items) }
    ensures within { IfSome result (λ ends. sum_by (λ e. e.count) ends.items ≤ limit) }
    ensures room { IfSome result (λ _. FillsHistory (setting machine.now scripts.now) → ⊥) }
{
    let calls = calls_for(scripts.len() as u32, parts);
    let memory = watch.memory() / u64::from(parts);
    let lists = ends_of_parts(rt, alloc, machine, scripts, parts, calls, limit, memory)?;
    match sum(alloc, lists.as_slice()) {
        Ok(ends) => {
            let left = left_after(ends.as_slice(), limit)?;
            watch.counted(limit - left);
            Some(ends)
        }
        Err(_fault) => None,
    }
}

/// Returns the ends of each part, each searched in a thread of its own if one can be started.
/// Returns `None` if the schedules of a part were not all counted, or if memory ran out.
fn ends_of_parts<R: Threads + Sync>(
    rt: &R,
    alloc: Global,
    machine: &Machine,
    scripts: &[CallScript],
    parts: u32,
    calls: u32,
    limit: u64,
    memory: u64,
) -> Option<Vec<Vec<Ending>>>
    requires { length scripts.now < 2 ^ 32 }
    ensures ends { IfSome result (λ lists.
        AreParts (setting machine.now scripts.now) calls (map (λ ends. ends.items) lists.items)) }
    ensures len { IfSome result (λ lists. length lists.items ≡ parts) }
    ensures room { IfSome result (λ _. HaveRoom (setting machine.now scripts.now) parts calls) }
{
    let search = |index: usize| -> Option<Vec<Ending>>
        requires { length scripts.now < 2 ^ 32 }
        ensures ends { IfSome result (λ ends. AreCounted
            (EndsInPart (setting machine.entry.now scripts.entry.now) (part parts calls index)) ends.items) }
        ensures room { IfSome result
            (λ _. FillsPart (setting machine.entry.now scripts.entry.now) (part parts calls index) → ⊥) }
    { ends_of_part(alloc, machine, scripts, parts, calls, index, limit, memory) };
    match thread::map_indices(rt, alloc, parts as usize, &search) {
        Ok(found) => all_of(alloc, found),
        Err(_refused) => None,
    }
}

/// Returns the ends of the part at `index`, or `None` if its schedules were not all counted.
fn ends_of_part(
    alloc: Global,
    machine: &Machine,
    scripts: &[CallScript],
    parts: u32,
    calls: u32,
    index: usize,
    limit: u64,
    memory: u64,
) -> Option<Vec<Ending>>
    requires { length scripts.now < 2 ^ 32 }
    ensures ends { IfSome result (λ ends. AreCounted
        (EndsInPart (setting machine.now scripts.now) (part parts calls index)) ends.items) }
    ensures room { IfSome result
        (λ _. FillsPart (setting machine.now scripts.now) (part parts calls index) → ⊥) }
{
    let index = u32::try_from(index).ok()?;
    let part = Shard::new(index, parts, calls)?;
    match explore_part(
        alloc,
        machine,
        scripts,
        part,
        limit,
        &mut PartWatch { memory },
    ) {
        Ok(explored) => {
            if explored.is_whole {
                Some(explored.ends)
            } else {
                None
            }
        }
        Err(_fault) => None,
    }
}

/// Returns all lists, or `None` if one is missing or memory runs out.
fn all_of(alloc: Global, found: Vec<Option<Vec<Ending>>>) -> Option<Vec<Vec<Ending>>>
    ensures { IfSome result (λ lists. found.items ≡ map (λ ends. Some ends) lists.items) }
{
    let mut lists = Vec::new(alloc);
    for ends in found {
        lists.reserve(1).ok()?;
        lists.push_reserved(ends?);
    }
    Some(lists)
}
