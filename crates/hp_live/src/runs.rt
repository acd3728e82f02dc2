//! Does what a line asks for, and makes its answer.
ghost use Rattle.std.specs.Prelude.{◌≡◌, IfOk, OnErr, OnOk};
ghost use Rattle.hp_scenario.specs.Asked.{asked_by};
ghost use Rattle.hp_scenario.specs.Seen.{asked_seen};
ghost use Rattle.hp_units.specs.declared.replies.OpEnd.{OpEnd};
ghost use Rattle.hp_machine.specs.MachinePorts.{IsPlanRun};
ghost use Rattle.hp_live.specs.Answers.{Answers, IsDone, IsEventDone, IsFileTold, IsLeft, IsPlanKept, IsPlanTold, untold};

use crate::answers::{Did, LiveAnswer};
use crate::plans::drive;
use hp_machine::UnrecordedMachine;
use hp_scenario::{Asked, Line};
use hp_text::{text_in, write_read_fault};
use hp_units::{CallFault, Cpu, Event, OpEnd, Plan};
use std::alloc::{AllocError, Global};

/// Does what a line asks for, and makes its answer in `out`.
///
/// If memory runs out while the answer is made, the line has still been run, and the answer has
/// what its event did.
#[inline(always)]
pub(crate) fn answer_line(
    out: &mut LiveAnswer,
    alloc: Global,
    machine: &mut UnrecordedMachine,
    line: &Line,
) -> Result<(), AllocError>
    requires { out.old ≡ untold }
    ensures ok { OnOk result
        (Answers machine.old line.now.cpu (asked_by line.now.work) out.new machine.new) }
    ensures err { OnErr result
        (IsDone machine.old line.now.cpu (asked_by line.now.work) out.new.did machine.new) }
{
    answer_asked(out, alloc, machine, line.cpu, line.work.asked())
}

/// Does what is asked for, and makes the answer in `out`.
#[inline(always)]
fn answer_asked(
    out: &mut LiveAnswer,
    alloc: Global,
    machine: &mut UnrecordedMachine,
    cpu: Cpu,
    asked: Asked<'_>,
) -> Result<(), AllocError>
    requires { out.old ≡ untold }
    ensures ok { OnOk result (Answers machine.old cpu (asked_seen asked.entry) out.new machine.new) }
    ensures err { OnErr result (IsDone machine.old cpu (asked_seen asked.entry) out.new.did machine.new) }
{
    match asked {
        Asked::Event(event) => {
            let did = call(alloc, machine, cpu, event);
            out.say(did)
        }
        Asked::Plan { plan, turns } => answer_plan(out, alloc, machine, cpu, plan, turns),
        Asked::NotTaken(fault) => out.say(Did::NotTaken(fault)),
        Asked::Cat { path } => answer_file(out, alloc, machine, path),
        Asked::Seal => {
            let count = machine.seal();
            out.say(Did::Sealed(count))
        }
    }
}

/// Calls the machine with an event.
#[inline(always)]
fn call(alloc: Global, machine: &mut UnrecordedMachine, cpu: Cpu, event: &Event) -> Did
    ensures { IsEventDone machine.old cpu event.now result machine.new }
{
    match machine.answer(alloc, cpu, event) {
        Ok(answer) => Did::Event {
            serial: answer.0,
            reply: answer.1,
        },
        Err(fault) => Did::Unrecorded(fault),
    }
}

/// Runs a plan with at most `turns` migrations, and makes the answer: its calls, and how it ended.
fn answer_plan(
    out: &mut LiveAnswer,
    alloc: Global,
    machine: &mut UnrecordedMachine,
    cpu: Cpu,
    plan: &Plan,
    turns: u32,
) -> Result<(), AllocError>
    requires { out.old ≡ untold }
    ensures ok { OnOk result (IsPlanTold machine.old cpu turns plan.now out.new machine.new) }
    ensures err { OnErr result ((end : OpEnd) × IsPlanRun machine.old cpu turns plan.now end machine.new) }
{
    let end = run_to_end(out, alloc, machine, cpu, plan, turns)?;
    out.say(Did::Plan(end))
}

/// Runs a plan's driver, keeps its calls, and returns how it ended. If memory runs out before its
/// first call, the operation is left before it begins.
fn run_to_end(
    out: &mut LiveAnswer,
    alloc: Global,
    machine: &mut UnrecordedMachine,
    cpu: Cpu,
    plan: &Plan,
    turns: u32,
) -> Result<OpEnd, AllocError>
    requires { out.old ≡ untold }
    ensures ok { IfOk result (λ end. IsPlanKept machine.old cpu turns plan.now end out.new machine.new) }
    ensures err { OnErr result ((end : OpEnd) × IsPlanRun machine.old cpu turns plan.now end machine.new) }
{
    match plan.copy(alloc) {
        Ok(plan) => drive(&mut out.calls, alloc, machine, cpu, plan, turns),
        Err(AllocError) => Ok(left(machine)),
    }
}

/// Returns the end of a plan that runs out of memory before its first call. The fault is
/// `HistoryFull` if the history is full as well.
fn left(machine: &UnrecordedMachine) -> OpEnd
    ensures { IsLeft machine.now result }
{
    let fault = if machine.is_full() {
        CallFault::HistoryFull
    } else {
        CallFault::OutOfMemory
    };
    OpEnd::Left { op: None, fault }
}

/// Reads a control file, and makes the answer: its text, or why there is none.
fn answer_file(
    out: &mut LiveAnswer,
    alloc: Global,
    machine: &UnrecordedMachine,
    path: &str,
) -> Result<(), AllocError>
    requires { out.old ≡ untold }
    ensures { OnOk result (IsFileTold machine.now path.now out.new) }
{
    out.did = Did::File;
    match text_in(alloc, machine.memory(), path) {
        Ok(text) => out.text.push_str(text.as_str()),
        Err(fault) => write_read_fault(&mut out.text, fault),
    }
}
