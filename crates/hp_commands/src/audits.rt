//! A run whose records are replayed.
ghost use Rattle.std.specs.Prelude.{◌≡◌, ◌++◌, List, Some, IfErr, IfOk, OnOk, codes, string_bytes};
ghost use Rattle.hp_history.specs.declared.volumes.Volume.{Volume};
ghost use Rattle.hp_text.specs.State.{newline};
ghost use Rattle.hp_commands.specs.Audits.{HasAuditFault, IsAudited, LeadsToBase, LeadsToState};
ghost use Rattle.hp_commands.specs.Faults.{IsFaultOf};
ghost use Rattle.hp_commands.specs.Runs.{IsAuditTextOf, records_line};
ghost use Rattle.hp_commands.specs.declared.commands.Command.TheVariants.{Audit};

use crate::fault::ProgramFault;
use crate::runs::{work_off, write_records};
use hp_history::Volume;
use hp_machine::{Machine, audit_chain, replay_from};
use hp_shared::Closed;
use std::alloc::Global;
use std::mem::forget;
use std::sync::Wait;
use std::thread::Threads;

/// Returns the text of an audit: runs the scenario in `input` like `run`, then replays its sealed
/// records and the history of its machine.
pub fn audit<R: Threads + Wait + Sync>(
    rt: &R,
    alloc: Global,
    input: &[u8],
) -> Result<String, ProgramFault>
    ensures ok { IfOk result (λ out. IsAuditTextOf input.now (string_bytes out)) }
    ensures err { IfErr result (IsFaultOf Audit (Some input.now) ⊥ ⊥) }
{
    let worked = work_off(rt, alloc, input)?;
    let text = audited_text(alloc, &worked.closed);
    // The program ends after this text: the many pieces of memory are not freed one by one.
    forget(worked);
    text
}

/// Returns the text of an audit of a closed machine, after its records are replayed.
fn audited_text(alloc: Global, closed: &Closed) -> Result<String, ProgramFault>
    ensures ok { IfOk result (λ out. IsAudited closed.now.volumes.items closed.now.machine
        × (string_bytes out ≡ records_line closed.now.records ++ codes "audit ok" ++ newline)) }
    ensures err { IfErr result (HasAuditFault closed.now.volumes.items closed.now.machine) }
{
    check_volumes(alloc, &closed.volumes, &closed.machine)?;
    check_history(alloc, &closed.machine)?;
    let mut out = String::new(alloc);
    write_records(&mut out, closed.records)?;
    out.push_str("audit ok\n")?;
    Ok(out)
}

/// Replays volumes from boot (each has the records that one seal handed out). Compares the state
/// that they lead to with a machine's base, its state at the last seal or at boot.
fn check_volumes(
    alloc: Global,
    volumes: &Vec<Volume>,
    machine: &Machine,
) -> Result<(), ProgramFault>
    ensures ok { OnOk result (LeadsToBase volumes.now.items machine.now) }
    ensures err { IfErr result (HasAuditFault volumes.now.items machine.now) }
{
    let base = audit_chain(alloc, machine.layout(), volumes.as_slice())?;
    if !base.same(machine.base()) {
        return Err(ProgramFault::AuditDiffers);
    }
    Ok(())
}

/// Replays a machine's records since its base, its state at the last seal or at boot, and compares
/// the state that they lead to with the machine's.
fn check_history(alloc: Global, machine: &Machine) -> Result<(), ProgramFault>
    ensures ok { OnOk result (LeadsToState machine.now) }
    ensures err { IfErr result (λ fault. (volumes : List Volume) → HasAuditFault volumes machine.now fault) }
{
    machine.stays_sound();
    let replayed = replay_from(alloc, machine.base(), machine.sealed(), machine.history())?;
    let image = machine.image(alloc)?;
    if !replayed.same(&image) {
        return Err(ProgramFault::AuditDiffers);
    }
    Ok(())
}
