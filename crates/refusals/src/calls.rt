//! Calls of a machine. If a call runs out of memory, the machine must equal its copy, which has not
//! made the call, and the call is made again. The answer, and the machine afterwards, must be those
//! of the copy when it makes the same call.
use crate::same::{expect_same_machines, expect_same_states, same_receipts, same_records};
use hp_history::Volume;
use hp_machine::Machine;
use hp_scenario::{Line, Work};
use hp_units::{CallFault, Cpu, Event, OpEnd, Plan, Receipt, Reply};
use refused_values::{Case, Outcome, Trouble, expect};
use std::alloc::Global;

/// Makes a call, and checks it against the same call on a copy of the machine.
pub fn call(case: &mut Case<'_>, machine: &mut Machine, cpu: Cpu, event: &Event) -> Outcome {
    let mut twin = machine.copy(case.alloc)?;
    call_as_twin(case, machine, &mut twin, cpu, event)
}

/// Makes a call, and checks it against the same call on `twin`.
fn call_as_twin(
    case: &mut Case<'_>,
    machine: &mut Machine,
    twin: &mut Machine,
    cpu: Cpu,
    event: &Event,
) -> Outcome {
    let receipt = receipt_of(case, machine, twin, cpu, event)?;
    expect_receipt(case.alloc, twin, cpu, event, &receipt)?;
    expect_same_machines(case.alloc, twin, machine)
}

/// Makes a call, and returns its receipt. If the call runs out of memory, checks that the machine
/// is as before and makes it again.
fn receipt_of(
    case: &mut Case<'_>,
    machine: &mut Machine,
    before: &Machine,
    cpu: Cpu,
    event: &Event,
) -> Outcome<Receipt> {
    match machine.call(case.alloc, cpu, event) {
        Ok(receipt) => Ok(receipt),
        Err(fault) => {
            let is_kept = expect_same_machines(case.alloc, before, machine);
            case.refused(Trouble::from(fault), is_kept)?;
            Ok(machine.call(case.alloc, cpu, event)?)
        }
    }
}

/// Makes a call on a machine, and checks that its receipt is this one.
pub fn expect_receipt(
    alloc: Global,
    machine: &mut Machine,
    cpu: Cpu,
    event: &Event,
    receipt: &Receipt,
) -> Outcome {
    let wanted = machine.call(alloc, cpu, event)?;
    expect(same_receipts(receipt, &wanted))
}

/// Carries out a plan, and checks its end and the state after it against a copy of the machine.
pub fn plan(
    case: &mut Case<'_>,
    machine: &mut Machine,
    cpu: Cpu,
    plan: &Plan,
    turns: u32,
) -> Outcome {
    let mut twin = machine.copy(case.alloc)?;
    let end = end_of(case, machine, &twin, cpu, plan, turns);
    expect_end(case.alloc, &mut twin, cpu, plan, turns, end)?;
    expect_same_states(case.alloc, &twin, machine)
}

/// Carries out a plan, and returns its end. If it runs out of memory, restores the state before it
/// and carries it out again.
fn end_of(
    case: &mut Case<'_>,
    machine: &mut Machine,
    before: &Machine,
    cpu: Cpu,
    plan: &Plan,
    turns: u32,
) -> Outcome<OpEnd> {
    match driven(case.alloc, machine, cpu, plan, turns) {
        Ok(end) => Ok(end),
        Err(trouble) => {
            restore(case, machine, before, cpu, trouble)?;
            driven(case.alloc, machine, cpu, plan, turns)
        }
    }
}

/// Carries out a plan on a machine, and checks that its end is this one.
fn expect_end(
    alloc: Global,
    machine: &mut Machine,
    cpu: Cpu,
    plan: &Plan,
    turns: u32,
    end: Outcome<OpEnd>,
) -> Outcome {
    match end {
        Ok(end) => match driven(alloc, machine, cpu, plan, turns) {
            Ok(wanted) => expect(end == wanted),
            Err(trouble) => Err(trouble),
        },
        Err(trouble) => Err(trouble),
    }
}

/// Carries out a plan as a processor of a machine, and returns its end.
fn driven(
    alloc: Global,
    machine: &mut Machine,
    cpu: Cpu,
    plan: &Plan,
    turns: u32,
) -> Outcome<OpEnd> {
    let copy = plan.copy(alloc)?;
    match machine.run_plan(alloc, cpu, copy, turns) {
        OpEnd::Left { op: Some(op), .. } => Err(Trouble::Left { op }),
        OpEnd::Left { op: None, .. } => Err(Trouble::OutOfMemory),
        end => Ok(end),
    }
}

/// Notes a plan that ran out of memory, and checks that the machine is as before. If the plan left
/// an operation, cancels it first; then only the state must be as before.
fn restore(
    case: &mut Case<'_>,
    machine: &mut Machine,
    before: &Machine,
    cpu: Cpu,
    trouble: Trouble,
) -> Outcome {
    match trouble {
        Trouble::Wrong => Err(Trouble::Wrong),
        Trouble::OutOfMemory => {
            case.note();
            expect_same_machines(case.alloc, before, machine)
        }
        Trouble::Left { op } => {
            case.note();
            match machine.answer(case.alloc, cpu, &Event::Cancel { op }) {
                Ok((_, reply)) => {
                    expect(matches!(reply, Reply::Restored))?;
                    expect_same_states(case.alloc, before, machine)
                }
                Err(fault) => Err(Trouble::from(fault)),
            }
        }
    }
}

/// Seals the history. Checks that the volume has the machine's records, and that the machine keeps
/// its state.
pub fn seal(case: &mut Case<'_>, machine: &mut Machine) -> Outcome {
    let before = machine.copy(case.alloc)?;
    seal_after(case, machine, &before)?;
    expect_same_states(case.alloc, &before, machine)
}

/// Seals the history, and checks that the volume has the machine's records.
fn seal_after(case: &mut Case<'_>, machine: &mut Machine, before: &Machine) -> Outcome {
    let volume = volume_of(case, machine, before)?;
    expect(is_sealed(before, &volume, machine))
}

/// Seals the history, and returns the volume. If the seal runs out of memory, checks that the
/// machine is as before and seals again.
fn volume_of(case: &mut Case<'_>, machine: &mut Machine, before: &Machine) -> Outcome<Volume> {
    match machine.seal(case.alloc) {
        Ok(volume) => Ok(volume),
        Err(error) => {
            let is_kept = expect_same_machines(case.alloc, before, machine);
            case.refused(Trouble::from(error), is_kept)?;
            Ok(machine.seal(case.alloc)?)
        }
    }
}

/// Returns whether a volume has the base and records that a machine had, and the machine has no
/// records now.
fn is_sealed(before: &Machine, volume: &Volume, machine: &Machine) -> bool {
    volume.before == before.sealed()
        && volume.base.same(before.base())
        && same_records(volume.records.as_slice(), before.history())
        && machine.history().is_empty()
        && machine.journal_len() == 0
        && machine.sealed() == before.last_serial()
}

/// Makes the call of each line, and ignores the replies.
pub fn call_all(alloc: Global, machine: &mut Machine, lines: &[Line]) -> Outcome {
    for line in lines {
        let Work::Event(event) = &line.work else {
            return Err(Trouble::Wrong);
        };
        make_call(alloc, machine, line.cpu, event)?;
    }
    Ok(())
}

/// Makes a call, and ignores the reply.
pub fn make_call(alloc: Global, machine: &mut Machine, cpu: Cpu, event: &Event) -> Outcome {
    match machine.answer(alloc, cpu, event) {
        Ok(_) => Ok(()),
        Err(fault) => Err(Trouble::from(fault)),
    }
}

/// Makes a call. Returns whether it reports a full history and leaves no record.
pub fn is_full(machine: &mut Machine, alloc: Global, cpu: Cpu, event: &Event) -> bool {
    let count = machine.history().len();
    match machine.answer(alloc, cpu, event) {
        Ok(_) => false,
        Err(fault) => {
            matches!(fault, CallFault::HistoryFull) && machine.history().len() == count
        }
    }
}
