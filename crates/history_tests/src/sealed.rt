//! What the laws of histories imply for a machine, sealed or not. Each function is proved from
//! public clauses alone.
ghost use Rattle.std.specs.Prelude.{◌≡◌, ◌<◌, ℕ, false, IfErr, IfOk, List, [], ◌∷◌, ◌++◌, Some};
ghost use Rattle.hp_units.specs.Arithmetic.{block_of};
ghost use Rattle.hp_units.specs.Contents.{handed_frame};
ghost use Rattle.hp_units.specs.History.{net_of, value_of};
ghost use Rattle.hp_units.specs.Memory.{row_of};
ghost use Rattle.hp_units.specs.Placement.{is_unplugged};
ghost use Rattle.hp_units.specs.declared.replies.Record.{Record};
ghost use Rattle.hp_units.specs.declared.replies.Reply.TheVariants.{Done};
ghost use Rattle.hp_laws.specs.Offline.{IsUndisturbed};
ghost use Rattle.hp_machine.specs.declared.replaying.ReplayFault.TheVariants.{OutOfMemory};
ghost use Rattle.hp_machine.specs.Volumes.{GoesOnWith, KeepsOperationsAcrossSeals};

use hp_history::Volume;
use hp_laws::{handed_frames_are_plugged, undisturbed_offline_commits};
use hp_machine::{Machine, ReplayFault, machines_go_on_from_their_volumes, replay_from};
use hp_plain::Image;
use hp_units::{CallFault, Cpu, Event, Reply, Serial};
use std::alloc::{AllocError, Global};

/// Replays a machine's records from its base. The result is the machine's state, unless memory runs
/// out.
pub fn replayed(alloc: Global, machine: &Machine) -> Result<Image, ReplayFault>
    ensures value { IfOk result
        (λ image. image ≡ record { layout = machine.now.layout; memory = machine.now.state }) }
    ensures fault { IfErr result (λ fault. fault ≡ OutOfMemory) }
{
    machine.stays_sound();
    replay_from(alloc, machine.base(), machine.sealed(), machine.history())
}

/// Shows that the last record hands out no frame of a block that was offline or absent before it.
pub fn hands_out_plugged_frames(machine: &Machine)
    ensures { (h : List Record) (r : Record) (frame : ℕ) → machine.now.history ≡ h ++ r ∷ []
        → handed_frame machine.now.state r ≡ Some frame
        → is_unplugged (row_of (value_of machine.now.layout machine.now.base h).blocks
        (block_of machine.now.layout frame)) ≡ false }
{
    machine.stays_sound();
    let _ = machine.history();
    handed_frames_are_plugged();
}

/// Commits an operation. If nothing disturbed the operation since its Begin (`IsUndisturbed`), and
/// the layout has the processor, then the reply, if there is one, is `Done`.
pub fn commit(
    alloc: Global,
    machine: &mut Machine,
    cpu: Cpu,
    op: Serial,
) -> Result<(Serial, Reply), CallFault>
    ensures { IsUndisturbed machine.old.layout machine.old.state op (net_of machine.old.history)
        → cpu < machine.old.layout.cpus → IfOk result (λ answer. answer.1 ≡ Done) }
{
    machine.stays_sound();
    let _ = machine.history();
    undisturbed_offline_commits();
    machine.answer(alloc, cpu, &Event::Commit { op })
}

/// Seals a machine that goes on from earlier volumes. Afterwards it goes on from these and the new
/// one, and the rules of operations hold over all their records and the machine's.
pub fn seal(alloc: Global, machine: &mut Machine) -> Result<Volume, AllocError>
    ensures volumes { IfOk result (λ volume. GoesOnWith machine.old volume machine.new) }
    ensures operations { KeepsOperationsAcrossSeals machine.new }
{
    let _ = machine.history();
    machines_go_on_from_their_volumes();
    let volume = machine.seal(alloc);
    machine.keeps_operations_across_seals();
    volume
}
