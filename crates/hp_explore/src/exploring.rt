//! The exploration of all schedules of scripts on a machine.
ghost use Rattle.std.specs.Prelude.{◌≡◌, ◌^◌, ◌<◌, ◌≤◌, ◌⊎◌, IfErr, IfOk, length, sum_by};
ghost use Rattle.hp_schedules.specs.Ends.{AreCounted, AreEnds, AreInOrder};
ghost use Rattle.hp_explore.specs.Faults.{FillsHistory, FillsPart, IsCause, IsCausePart, IsCausePartWithin, IsCauseWithin};
ghost use Rattle.hp_schedules.specs.Interleavings.{IsRoomNeeded};
ghost use Rattle.hp_schedules.specs.Orders.{HasMoreThan};
ghost use Rattle.hp_explore.specs.Fronts.{AreFirst, AreFirstInPart, IfFirst, IfWhole, counted};
ghost use Rattle.hp_schedules.specs.Parts.{EndsInPart, IsCompleteInPart};
ghost use Rattle.hp_schedules.specs.Schedules.{IsComplete};
ghost use Rattle.hp_explore.specs.Settings.{setting};

use crate::walk::Walk;
use hp_machine::Machine;
use hp_schedules::{CallScript, Ending, Shard, call_count};
use hp_states::Watch;
use hp_units::CallFault;
use std::alloc::{AllocError, Global};
use thiserror::Error;

/// What an exploration found: the ends, each with its count and its first schedule, in the order of
/// these first schedules.
#[derive(Drop)]
pub struct Exploration {
    /// The ends.
    pub ends: Vec<Ending>,
    /// True if all complete schedules are counted, or all those of the part that was searched.
    /// Otherwise only the first ones are, up to the limit or to the point at which the watch ended
    /// the search.
    pub is_whole: bool,
}

/// Why an exploration failed.
#[derive(Error, Clone, Copy, Debug, PartialEq, Eq, Drop)]
pub enum ExploreFault {
    /// The layout's history has no room for a call of some schedule, or no serial is left for it.
    #[error("no room in the history for all calls of a schedule")]
    HistoryFull,
    /// Memory allocation failed.
    #[error("out of memory")]
    OutOfMemory,
}

impl From<AllocError> for ExploreFault {
    ghost use Rattle.std.specs.Prelude.{◌≡◌};
    ghost use Rattle.hp_explore.specs.declared.exploring.ExploreFault.TheVariants.{OutOfMemory};

    ghost from_gives = { λ _ e. e ≡ OutOfMemory };

    fn from(_error: AllocError) -> ExploreFault {
        ExploreFault::OutOfMemory
    }
}

impl From<CallFault> for ExploreFault {
    ghost use Rattle.std.specs.Prelude.{◌≡◌};
    ghost use Rattle.hp_explore.specs.Faults.{fault_of};

    ghost from_gives = { λ fault e. e ≡ fault_of fault };

    fn from(fault: CallFault) -> ExploreFault {
        match fault {
            CallFault::HistoryFull => ExploreFault::HistoryFull,
            CallFault::OutOfMemory => ExploreFault::OutOfMemory,
        }
    }
}

/// Explores all complete schedules of the scripts on a machine, and returns how they end. Script k
/// is that of processor k.
///
/// An end holds its outcome, the number of schedules that end like this, and the first of them in
/// the order of the walk, which tries processor 0 first. If there are more schedules than `limit`,
/// exactly the first `limit` schedules in that order are counted. The machine is not changed.
///
/// `watch` gets the progress, and at each place decides whether the search goes on. Once it
/// declines, the search stops before the next schedule that it would count, if there is one. The
/// schedules counted are then also the first ones in that order.
///
/// # Errors
///
/// `HistoryFull` if the walk reaches a call for which the layout's history has no room, before it
/// finds more schedules than `limit` or is ended. `OutOfMemory` if memory allocation fails.
pub fn explore<W: Watch>(
    alloc: Global,
    machine: &Machine,
    scripts: &[CallScript],
    limit: u64,
    watch: &mut W,
) -> Result<Exploration, ExploreFault>
    requires { length scripts.now < 2 ^ 32 }

    // If all schedules were counted:
    ensures ok { IfOk result (λ x. IfWhole x (AreEnds (setting machine.now scripts.now))) }
    ensures few { IfOk result
        (λ x. IfWhole x (λ _. HasMoreThan (IsComplete (setting machine.now scripts.now)) limit → ⊥)) }
    ensures room { IfOk result
        (λ x. IfWhole x (λ _. FillsHistory (setting machine.now scripts.now) → ⊥)) }
    // If only the first ones were:
    ensures first { IfOk result
        (λ x. IfFirst x (λ ends. AreFirst (setting machine.now scripts.now) (counted ends) ends)) }
    ensures many { IfOk result (λ x. IfFirst x
        (λ ends. HasMoreThan (IsComplete (setting machine.now scripts.now)) (counted ends))) }
    ensures stopped { IfOk result
        (λ x. IfFirst x (λ ends. (counted ends ≡ limit) ⊎ W.has_ended watch.new)) }
    // In both cases:
    ensures within { IfOk result (λ x. sum_by (λ e. e.count) x.ends.items ≤ limit) }
    ensures ordered { IfOk result (λ x. AreInOrder x.ends.items) }
    ensures err { IfErr result (IsCause (setting machine.now scripts.now)) }
    ensures full { IfErr result (IsCauseWithin (setting machine.now scripts.now) limit) }
{
    explore_part(alloc, machine, scripts, Shard::whole(), limit, watch)
}

/// Explores one part of the complete schedules, like `explore`. The parts can be searched side by
/// side, and the counts of their ends add up to those of the whole search.
///
/// If more schedules belong to the part than `limit`, exactly the first `limit` of these are
/// counted. If `watch` ends the search earlier, the first ones up to that point are counted.
///
/// # Errors
///
/// `HistoryFull` if the search reaches a call for which the layout's history has no room, before it
/// finds more schedules of the part than `limit` or is ended. The schedule before that call belongs
/// to the part, or is too short to decide its part. `OutOfMemory` if memory allocation fails.
pub fn explore_part<W: Watch>(
    alloc: Global,
    machine: &Machine,
    scripts: &[CallScript],
    part: Shard,
    limit: u64,
    watch: &mut W,
) -> Result<Exploration, ExploreFault>
    requires { length scripts.now < 2 ^ 32 }

    // If all schedules of the part were counted:
    ensures ok { IfOk result
        (λ x. IfWhole x (AreCounted (EndsInPart (setting machine.now scripts.now) part))) }
    ensures few { IfOk result (λ x. IfWhole x
        (λ _. HasMoreThan (IsCompleteInPart (setting machine.now scripts.now) part) limit → ⊥)) }
    ensures room { IfOk result
        (λ x. IfWhole x (λ _. FillsPart (setting machine.now scripts.now) part → ⊥)) }
    // If only the first ones were:
    ensures first { IfOk result (λ x. IfFirst x
        (λ ends. AreFirstInPart (setting machine.now scripts.now) part (counted ends) ends)) }
    ensures many { IfOk result (λ x. IfFirst x
        (λ ends. HasMoreThan (IsCompleteInPart (setting machine.now scripts.now) part) (counted ends))) }
    ensures stopped { IfOk result
        (λ x. IfFirst x (λ ends. (counted ends ≡ limit) ⊎ W.has_ended watch.new)) }
    // In both cases:
    ensures within { IfOk result (λ x. sum_by (λ e. e.count) x.ends.items ≤ limit) }
    ensures ordered { IfOk result (λ x. AreInOrder x.ends.items) }
    ensures err { IfErr result (IsCausePart (setting machine.now scripts.now) part) }
    ensures full { IfErr result (IsCausePartWithin (setting machine.now scripts.now) part limit) }
{
    let mut walk = Walk::start(alloc, machine, scripts, part, limit)?;
    let is_whole = walk.run(alloc, watch)?;
    Ok(Exploration {
        ends: walk.into_ends(),
        is_whole,
    })
}

/// Returns how many records the history must hold so that every call of every schedule has room:
/// those it has, and one per line of the scripts.
///
/// Returns `None` if a script carries a plan, whose calls only a search can count, or if the number
/// is 2^64 or more.
pub fn room_needed(
    alloc: Global,
    machine: &Machine,
    scripts: &[CallScript],
) -> Result<Option<u64>, AllocError>
    ensures { IfOk result (IsRoomNeeded (setting machine.now scripts.now)) }
{
    match call_count(alloc, scripts)? {
        Some(calls) => Ok(calls.checked_add(machine.history().len() as u64)),
        None => Ok(None),
    }
}
