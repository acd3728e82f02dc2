//! The search for an order that explains what was seen.
ghost use Rattle.std.specs.Prelude.{◌≡◌, ◌<◌, ◌^◌, IfErr, IfOk, List, length};
ghost use Rattle.hp_explore.specs.Settings.{setting};
ghost use Rattle.hp_explore.specs.declared.fault.FindFault.TheVariants.{Stopped};
ghost use Rattle.hp_explain.specs.Explaining.{IsExplainCause, IsExplanation, calls_left};
ghost use Rattle.hp_schedules.specs.declared.scripts.Step.{Step};

use crate::explainer::Explainer;
use crate::observed::Observed;
use hp_explore::{FindFault, Watch, first_sought};
use hp_machine::Machine;
use hp_schedules::CallScript;
use hp_units::Cpu;
use std::alloc::Global;

/// The result of a search for an order that explains what was seen. In such an order, each line is
/// answered as it was seen, and comes after all lines that were answered before it began.
#[derive(Drop)]
pub enum Explanation {
    /// The first order that explains what was seen, as the processors in the order of their calls.
    Explained(Vec<Cpu>),
    /// No order explains what was seen. This is the longest schedule that explains it as the
    /// beginning of an order. Of several such schedules, it is the first.
    Unexplained(Vec<Cpu>),
}

/// Finds the first order of all calls that explains what was seen. In such an order, each line is
/// answered as it was seen. If one line, as observed, was answered before another began, then it is
/// finished before the other makes a call.
///
/// Script k is that of processor k. The machine is not changed. `watch` is called for each place
/// that the search comes to, and may end it.
///
/// Of two orders, the one with the lower processor at the first difference comes first. A plan's
/// calls are interleaved one by one with those of other processors. The search gives up the
/// beginning of an order at the first answer that differs from what was seen. It goes on from each
/// state only once, unless a script undoes steps by their serials, or works on an operation that it
/// began before its latest one (`OwnWork::Nth`).
///
/// # Errors
///
/// `OutOfMemory` if memory allocation fails, `Stopped` if the watch ended the search. `HistoryFull`
/// never: an order with a call for which the history has no room explains nothing.
pub fn explain<W: Watch>(
    alloc: Global,
    machine: &Machine,
    scripts: &[CallScript],
    seen: &Observed,
    watch: &mut W,
) -> Result<Explanation, FindFault>
    requires { length scripts.now < 2 ^ 32 }
    ensures ok { IfOk result (IsExplanation (setting machine.now scripts.now) seen.now) }
    ensures err { IfErr result IsExplainCause }
    ensures stopped { IfErr result (λ fault. fault ≡ Stopped → W.has_ended watch.new) }
{
    let mut explainer = Explainer::new(alloc, seen, calls_left(machine));
    let mut places = 0;
    match first_sought(alloc, machine, scripts, &mut explainer, watch, &mut places)? {
        Some(order) => Ok(Explanation::Explained(order)),
        None => Ok(Explanation::Unexplained(explainer.into_longest())),
    }
}

/// Returns how many more calls the machine can record: each needs room in the history and a serial.
fn calls_left(machine: &Machine) -> u64
    ensures { (scripts : List (List Step)) → result ≡ calls_left (setting machine.now scripts) }
{
    let records = machine.history().len() as u64;
    let room = machine.layout().history().saturating_sub(records);
    room.min(u64::MAX - machine.last_serial())
}
