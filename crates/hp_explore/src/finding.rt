//! The search for a schedule with few changes of processor.
ghost use Rattle.std.specs.Prelude.{◌≡◌, ◌<◌, ◌≤◌, ◌^◌, IfErr, IfOk, None, length, option_map};
ghost use Rattle.hp_explore.specs.Settings.{setting};
ghost use Rattle.hp_explore.specs.Changes.{changes};
ghost use Rattle.hp_explore.specs.FindFaults.{IsFindCause, IsNearCause, IsRecorded, SparesHistory};
ghost use Rattle.hp_explore.specs.Reaching.{HasRoomAlong, IsFound, IsNearest, IsNearestBelow, NeedsChanges, ReachesFirst};
ghost use Rattle.hp_explore.specs.declared.fault.FindFault.TheVariants.{Stopped};

use crate::Watch;
use crate::absent::is_absent;
use crate::changes::changes_of;
use crate::fault::FindFault;
use crate::within::first_within;
use hp_machine::Machine;
use hp_questions::Wanted;
use hp_schedules::CallScript;
use hp_units::Cpu;
use std::alloc::Global;
use std::sync::Wait;
use std::thread::Threads;

/// The largest number of threads of a search.
pub const MOST_JOBS: u32 = 256;

/// The search tries the schedules with fewer changes than this before it tries all.
const FEW: u64 = 3;

/// What a search found.
#[derive(Drop)]
pub enum Found {
    /// Of the schedules that end as wanted, the first one with the fewest changes of processor: its
    /// processors in the order of their calls.
    Nearest(Vec<Cpu>),
    /// No schedule ends as wanted.
    Absent,
}

/// Finds a complete schedule whose end meets all wanted lines, with the fewest changes of
/// processor, in `jobs` threads, at most 256. Script k is that of processor k.
///
/// Of several such schedules, returns the first in the order of `explore`. The machine is not
/// changed. `watch` may end the search. It is called at each place from which the search goes on,
/// except at the beginning of the scripts, but not while several threads search.
///
/// The search has three steps. It tries the schedules with fewer than three changes, by rising
/// number of changes. If none of these ends as wanted, it tries all, up to the first that does.
/// Then it tries the schedules with fewer changes than that one. A pass skips a place that is
/// equivalent to one that it has tried. It skips none if a script undoes steps by their serials, or
/// works on the operation of its n-th Begin (`OwnWork::Nth`). A single thread then makes all steps.
///
/// With several threads, each of them tries all schedules before the second step, in an order of
/// its own, and skips a place that is equivalent to one with which some thread is done. If one of
/// them comes to the end of its search, no schedule ends as wanted. Otherwise a single thread makes
/// the second step: for example, if one of them finds a schedule, or if they take more than the
/// memory that `watch` allows.
///
/// # Errors
///
/// `HistoryFull` if the search reaches a call for which the layout's history has no room. In the
/// first and the third step, no schedule that ends as wanted has fewer changes than the schedule up
/// to that call, and none before the call has equally many. In the second step, no schedule that
/// ends as wanted comes before the call.
///
/// `Stopped` if the watch ended the search, `OutOfMemory` if memory allocation fails.
pub fn find<R: Threads + Wait + Sync, W: Watch>(
    rt: &R,
    alloc: Global,
    machine: &Machine,
    scripts: &[CallScript],
    wanted: &[Wanted],
    jobs: u32,
    watch: &mut W,
) -> Result<Found, FindFault>
    requires { length scripts.now < 2 ^ 32 }
    ensures ok { IfOk result (IsFound (setting machine.now scripts.now) wanted.now) }
    ensures room { IfOk result (SparesHistory (setting machine.now scripts.now)) }
    ensures along { IfOk result (IsRecorded (setting machine.now scripts.now)) }
    ensures err { IfErr result (IsFindCause (setting machine.now scripts.now) wanted.now) }
    ensures stopped { IfErr result (λ fault. fault ≡ Stopped → W.has_ended watch.new) }
{
    let mut places = 0;
    if let Some(schedule) = nearest_below(
        alloc,
        machine,
        scripts,
        wanted,
        0,
        FEW,
        watch,
        &mut places,
    )? {
        return Ok(Found::Nearest(schedule));
    }
    let jobs = jobs.min(MOST_JOBS);
    if is_absent(rt, alloc, machine, scripts, wanted, jobs, watch.memory()) {
        return Ok(Found::Absent);
    }
    nearest_of_all(alloc, machine, scripts, wanted, watch, &mut places)
}

/// Returns the first schedule with the fewest changes among those that end as wanted. None of these
/// has fewer than `FEW` changes.
fn nearest_of_all<W: Watch>(
    alloc: Global,
    machine: &Machine,
    scripts: &[CallScript],
    wanted: &[Wanted],
    watch: &mut W,
    places: &mut u64,
) -> Result<Found, FindFault>
    requires few { length scripts.now < 2 ^ 32 }
    requires from { NeedsChanges (setting machine.now scripts.now) wanted.now FEW }
    ensures ok { IfOk result (IsFound (setting machine.now scripts.now) wanted.now) }
    ensures room { IfOk result (SparesHistory (setting machine.now scripts.now)) }
    ensures along { IfOk result (IsRecorded (setting machine.now scripts.now)) }
    ensures err { IfErr result (IsFindCause (setting machine.now scripts.now) wanted.now) }
    ensures stopped { IfErr result (λ fault. fault ≡ Stopped → W.has_ended watch.new) }
{
    match first_within(alloc, machine, scripts, wanted, None, watch, places)? {
        Some(known) => {
            let schedule = nearest_to(alloc, machine, scripts, wanted, known, watch, places)?;
            Ok(Found::Nearest(schedule))
        }
        None => Ok(Found::Absent),
    }
}

/// Returns the first schedule with the fewest changes among those that end as wanted. `known` is
/// the first of all that end as wanted, and none of these has fewer than `FEW` changes.
#[tactic(auto, using(crate::proofs::Budgets::known_nearest))]
fn nearest_to<W: Watch>(
    alloc: Global,
    machine: &Machine,
    scripts: &[CallScript],
    wanted: &[Wanted],
    known: Vec<Cpu>,
    watch: &mut W,
    places: &mut u64,
) -> Result<Vec<Cpu>, FindFault>
    requires few { length scripts.now < 2 ^ 32 }
    requires known { ReachesFirst (setting machine.now scripts.now) wanted.now known.items }
    requires along { HasRoomAlong (setting machine.now scripts.now) known.items }
    requires from { NeedsChanges (setting machine.now scripts.now) wanted.now FEW }
    ensures ok { IfOk result (λ s. IsNearest (setting machine.now scripts.now) wanted.now s.items) }
    ensures along { IfOk result (λ s. HasRoomAlong (setting machine.now scripts.now) s.items) }
    ensures err { IfErr result
        (IsNearCause (setting machine.now scripts.now) wanted.now (changes known.items)) }
    ensures stopped { IfErr result (λ fault. fault ≡ Stopped → W.has_ended watch.new) }
{
    let below = changes_of(known.as_slice()) as u64;
    match nearest_below(alloc, machine, scripts, wanted, FEW, below, watch, places)? {
        Some(schedule) => Ok(schedule),
        None => Ok(known),
    }
}

/// Returns the first schedule with the fewest changes among those that end as wanted, if it has
/// fewer than `below`. Every schedule that ends as wanted must have at least `from` changes.
#[tactic(auto, using(crate::proofs::Budgets::nearest_found))]
fn nearest_below<W: Watch>(
    alloc: Global,
    machine: &Machine,
    scripts: &[CallScript],
    wanted: &[Wanted],
    from: u64,
    below: u64,
    watch: &mut W,
    places: &mut u64,
) -> Result<Option<Vec<Cpu>>, FindFault>
    requires few { length scripts.now < 2 ^ 32 }
    requires from { NeedsChanges (setting machine.now scripts.now) wanted.now from }
    requires order { from ≤ below }
    ensures ok { IfOk result (λ found. IsNearestBelow (setting machine.now scripts.now) wanted.now below
        (option_map (λ s. s.items) found)) }
    ensures err { IfErr result (IsNearCause (setting machine.now scripts.now) wanted.now below) }
    ensures stopped { IfErr result (λ fault. fault ≡ Stopped → W.has_ended watch.new) }
{
    for budget in from..below {
        if let Some(schedule) = first_within(
            alloc,
            machine,
            scripts,
            wanted,
            Some(budget),
            watch,
            places,
        )? {
            return Ok(Some(schedule));
        }
    }
    Ok(None)
}
