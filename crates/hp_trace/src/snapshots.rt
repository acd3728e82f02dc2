//! Snapshots of a machine's memory: all of it that the log of a step depends on.
ghost use Rattle.std.specs.Prelude.{◌≡◌, ◌≤◌, ◌<◌, IfOk, map};
ghost use Rattle.hp_units.specs.Arithmetic.{all_frames, frame_count};
ghost use Rattle.hp_units.specs.LayoutParts.{IsLayout};
ghost use Rattle.hp_units.specs.Placement.{IsWellPlaced};
ghost use Rattle.hp_judge.specs.Snapshots.{holder_of, snapshot_of};

use hp_judge::{FrameHolder, Snapshot};
use hp_machine::Machine;
use hp_units::{Block, Claim, Frame, Row};
use std::alloc::{AllocError, Global};

/// Takes a snapshot of a machine's memory.
pub(crate) fn snapshot_of(alloc: Global, machine: &Machine) -> Result<Snapshot, AllocError>
    ensures { IfOk result (λ snapshot.
        snapshot ≡ snapshot_of machine.now.layout machine.now.state) }
{
    machine.stays_sound();
    let holders = holders_of(alloc, machine)?;
    let rows = rows_of(alloc, machine)?;
    Ok(Snapshot::new(holders, rows))
}

/// Returns, for each frame, the order of the kernel block that starts there, if any, and the page
/// that is mapped to it, if any.
#[tactic(auto, using(crate::proofs::SnapshotsTaken::one_more))]
fn holders_of(alloc: Global, machine: &Machine) -> Result<Vec<FrameHolder>, AllocError>
    requires { IsWellPlaced machine.now.layout machine.now.state }
    ensures { IfOk result (λ holders.
        holders.items ≡ map (holder_of machine.now.state) (all_frames machine.now.layout)) }
{
    let mut holders = Vec::new(alloc);
    for number in 0..machine.layout().frames() {
        holders.push(holder_of(machine, Frame(number)))?;
    }
    Ok(holders)
}

/// Returns the order of the kernel block that starts at a frame, if any, and the page that is
/// mapped to it, if any.
fn holder_of(machine: &Machine, frame: Frame) -> FrameHolder
    requires placed { IsWellPlaced machine.now.layout machine.now.state }
    requires inside { frame < frame_count machine.now.layout }
    ensures { result ≡ holder_of machine.now.state frame }
{
    FrameHolder::new(machine.kernel_at(frame), machine.pages().page_at(frame))
}

/// Returns the row of each memory block: its state, its zone, and the operation that claims it.
#[tactic(auto, using(crate::proofs::SnapshotsTaken::take_none, hp_laws::proofs::Replays::take_one))]
fn rows_of(alloc: Global, machine: &Machine) -> Result<Vec<Row>, AllocError>
    requires { IsWellPlaced machine.now.layout machine.now.state }
    ensures { IfOk result (λ rows. rows.items ≡ machine.now.state.blocks.rows) }
{
    let mut rows = Vec::new(alloc);
    for number in 0..machine.layout().blocks() {
        let Some(row) = machine.row(Block(number)) else {
            continue;
        };
        // No effect at run time: the proof needs the type of a claim.
        let claim: Option<Claim> = row.claim;
        rows.push(Row { claim, ..row })?;
    }
    Ok(rows)
}
