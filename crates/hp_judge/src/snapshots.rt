//! What the log of a step depends on in a state.
ghost use Rattle.std.specs.Prelude.{◌≡◌, slice_index_or};
ghost use Rattle.hp_judge.specs.Phases.{phase_of};
ghost use Rattle.hp_units.specs.Memory.{offline_row};
ghost use Rattle.hp_judge.specs.Snapshots.{holder_at};
ghost use Rattle.hp_judge.specs.Turns.{phase_seen};

use crate::holders::FrameHolder;
use crate::phases::Phase;
use hp_units::{Block, Frame, Row};
use std::marker::Model;

/// What the log of a step depends on in a state: what holds the memory that starts at each frame,
/// and the row of each memory block. Takes 12 bytes per frame.
#[derive(Drop)]
pub struct Snapshot {
    holders: Vec<FrameHolder>,
    rows: Vec<Row>,
}

impl Model for Snapshot {
    ghost use Rattle.hp_judge.specs.Snapshots.{SnapshotValue};

    ghost Value = { SnapshotValue };

    ghost view = { λ s. record { holders = s.holders.items; rows = s.rows.items } };
}

impl Snapshot {
    /// Returns a snapshot with the holder of each frame and the row of each memory block.
    pub fn new(holders: Vec<FrameHolder>, rows: Vec<Row>) -> Snapshot
        ensures { result ≡ record { holders = holders.items; rows = rows.items } }
    {
        Snapshot { holders, rows }
    }

    /// Returns what holds the memory that starts at a frame.
    pub(crate) fn holder(&self, frame: Frame) -> FrameHolder
        ensures { result ≡ holder_at self.now frame }
    {
        match self.holders.get(frame.0 as usize) {
            Some(holder) => *holder,
            None => FrameHolder::Nobody,
        }
    }

    /// Returns the phase of a memory block.
    pub(crate) fn phase(&self, block: Block) -> Phase
        ensures { phase_seen result ≡ phase_of (slice_index_or self.now.rows block offline_row) }
    {
        match self.rows.get(block.0 as usize) {
            Some(row) => Phase::of(row),
            None => Phase::Offline,
        }
    }
}
