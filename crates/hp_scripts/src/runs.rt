//! Runs lines on a machine, as `hotplug serial` does, for the numbers of their results.
ghost use Rattle.std.specs.Prelude.{◌≡◌, IfOk, OnOk};
ghost use Rattle.hp_scenario.specs.Asked.{asked_by};
ghost use Rattle.hp_machine.specs.Machine.{sealed};
ghost use Rattle.hp_scripts.specs.Runs.{RunsAsked, RunsEvent, RunsLine, RunsPlan, is_out_of_memory};

use crate::results::{missing_number, result_number};
use hp_machine::Machine;
use hp_scenario::{Asked, Line};
use hp_units::{CallFault, Cpu, Event, OpEnd, Plan};
use std::alloc::{AllocError, Global};

/// Runs a line on the machine, as `hotplug serial` does. Returns the number of its result, which is
/// 0 unless the line is a `begin` or a `kalloc` (see `result_number` and `missing_number`).
///
/// A text that a control file does not take does nothing, and neither does `cat`. A full history is
/// no error. The records that a `seal` hands out are dropped.
///
/// # Errors
///
/// `AllocError` if memory allocation fails.
pub fn run_line(alloc: Global, machine: &mut Machine, line: &Line) -> Result<u64, AllocError>
    ensures { IfOk result (λ number. RunsLine machine.old line.now machine.new number) }
{
    match line.work.asked() {
        Asked::Event(event) => run_event(alloc, machine, line.cpu, event),
        Asked::Plan { plan, turns } => {
            carry_out(alloc, machine, line.cpu, plan, turns)?;
            Ok(0)
        }
        Asked::NotTaken(_fault) => Ok(0),
        Asked::Cat { path: _ } => Ok(0),
        Asked::Seal => {
            seal(alloc, machine)?;
            Ok(0)
        }
    }
}

/// Calls the machine with an event, and returns the number of its result. A full history is no
/// error: the event then leaves no record, and the number is that of `missing_number`.
fn run_event(
    alloc: Global,
    machine: &mut Machine,
    cpu: Cpu,
    event: &Event,
) -> Result<u64, AllocError>
    ensures { IfOk result (λ number. RunsEvent machine.old cpu event.now machine.new number) }
{
    match machine.answer(alloc, cpu, event) {
        Ok((serial, reply)) => Ok(result_number(event, serial, &reply)),
        Err(CallFault::HistoryFull) => Ok(missing_number(event)),
        Err(CallFault::OutOfMemory) => Err(AllocError),
    }
}

/// Carries out a plan with at most `turns` migrations.
fn carry_out(
    alloc: Global,
    machine: &mut Machine,
    cpu: Cpu,
    plan: &Plan,
    turns: u32,
) -> Result<(), AllocError>
    ensures { OnOk result (RunsPlan machine.old cpu turns plan.now machine.new) }
{
    let plan = plan.copy(alloc)?;
    let end = machine.run_plan(alloc, cpu, plan, turns);
    if is_out_of_memory(end) {
        return Err(AllocError);
    }
    Ok(())
}

/// Returns whether a plan was left because memory ran out.
fn is_out_of_memory(end: OpEnd) -> bool
    ensures { result ≡ is_out_of_memory end }
{
    match end {
        OpEnd::Left { op: _, fault } => match fault {
            CallFault::OutOfMemory => true,
            CallFault::HistoryFull => false,
        },
        OpEnd::Done => false,
        OpEnd::Refused(_) => false,
        OpEnd::Cancelled { .. } => false,
        OpEnd::Undone => false,
    }
}

/// Seals the machine and drops the records that it hands out.
fn seal(alloc: Global, machine: &mut Machine) -> Result<(), AllocError>
    ensures { OnOk result (machine.new ≡ sealed machine.old) }
{
    match machine.seal(alloc) {
        Ok(_volume) => Ok(()),
        Err(AllocError) => Err(AllocError),
    }
}
