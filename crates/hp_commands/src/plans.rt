//! The line of a plan.
ghost use Rattle.std.specs.Prelude.{ℕ, List, OnOk, string_bytes};
ghost use Rattle.hp_units.specs.declared.plans.Item.{Item};
ghost use Rattle.hp_machine.specs.MachinePorts.{IsPlanRun};
ghost use Rattle.hp_commands.specs.Plans.{WritesPlan};
ghost use Rattle.hp_commands.specs.Serial.{GrowsBy};

use hp_machine::UnrecordedMachine;
use hp_text::write_plan_end;
use hp_units::{CallFault, Cpu, OpEnd, Plan};
use std::alloc::{AllocError, Global};

/// Runs a plan's driver with at most `turns` migrations, and writes how it ended.
pub fn write_plan(
    out: &mut String,
    alloc: Global,
    machine: &mut UnrecordedMachine,
    cpu: Cpu,
    plan: &Plan,
    turns: u32,
) -> Result<(), AllocError>
    ensures { OnOk result (GrowsBy (string_bytes out.old) (string_bytes out.new)
        (λ text. WritesPlan machine.old cpu turns plan.now text machine.new)) }
{
    let end = run_to_end(alloc, machine, cpu, plan, turns);
    write_plan_end(out, end)
}

/// Runs a plan's driver, and returns how it ended. If memory runs out before its first call, the
/// run ends before the operation begins.
fn run_to_end(
    alloc: Global,
    machine: &mut UnrecordedMachine,
    cpu: Cpu,
    plan: &Plan,
    turns: u32,
) -> OpEnd
    ensures { IsPlanRun machine.old cpu turns plan.now result machine.new }
{
    match plan.copy(alloc) {
        Ok(plan) => machine.run_plan(alloc, cpu, plan, turns),
        Err(AllocError) => left(machine),
    }
}

/// Returns the end of a plan that runs out of memory before its first call. The fault is
/// `HistoryFull` if the history is full as well.
fn left(machine: &UnrecordedMachine) -> OpEnd
    ensures { (cpu turns : ℕ) (plan : List Item) → IsPlanRun machine.now cpu turns plan result machine.now }
{
    let fault = if machine.is_full() {
        CallFault::HistoryFull
    } else {
        CallFault::OutOfMemory
    };
    OpEnd::Left { op: None, fault }
}
