//! The row of each memory block, and what an added block becomes.
ghost use Rattle.std.specs.Prelude.{◌≡◌, ◌≢◌, MatchBool, ◌<◌, IfOk, length, slice_get};
ghost use Rattle.hp_units.specs.Boot.{empty_blocks};
ghost use Rattle.hp_units.specs.Memory.{with_row};

pub(crate) mod plans;

use hp_units::{Auto, Block, Layout, Row, State};
use std::alloc::{AllocError, Global};
use std::marker::Model;

/// The row of each memory block, and what an added block becomes.
#[derive(Drop)]
pub(crate) struct Blocks {
    rows: Vec<Row>,
    auto: Auto,
}

impl Model for Blocks {
    ghost use Rattle.hp_units.specs.Memory.{Blocks};

    ghost Value = { Blocks };

    ghost view = { λ b. record { rows = b.rows.items; auto = b.auto } };
}

impl Blocks {
    /// Creates the rows of a layout's blocks, all offline and unclaimed. An added block stays
    /// offline.
    pub(crate) fn empty(alloc: Global, layout: &Layout) -> Result<Blocks, AllocError>
        ensures { IfOk result (λ blocks. blocks ≡ empty_blocks layout.now) }
    {
        let offline = Row {
            state: State::Offline,
            zone: None,
            claim: None,
        };
        let rows = vec![in alloc; offline; layout.blocks() as usize]?;
        Ok(Blocks {
            rows,
            auto: Auto::Offline,
        })
    }

    /// Returns a copy.
    pub(crate) fn copy(&self, alloc: Global) -> Result<Blocks, AllocError>
        ensures { IfOk result (λ blocks. blocks ≡ self.now) }
    {
        let rows = Vec::from_slice(alloc, self.rows.as_slice())?;
        Ok(Blocks {
            rows,
            auto: self.auto,
        })
    }

    /// Returns whether both have the same rows and the same setting for added blocks.
    pub(crate) fn same(&self, other: &Blocks) -> bool
        ensures { MatchBool result (self.now ≡ other.now) (self.now ≢ other.now) }
    {
        same_rows(&self.rows, &other.rows) && self.auto == other.auto
    }

    /// Returns the row of a memory block, or `None` past the last block.
    pub(crate) fn row(&self, block: Block) -> Option<Row>
        ensures { result ≡ slice_get self.now.rows block }
    {
        self.rows.get(block.0 as usize).copied()
    }

    /// Returns the rows of all memory blocks.
    pub(crate) fn rows(&self) -> &[Row]
        ensures { result.now ≡ self.now.rows }
    {
        self.rows.as_slice()
    }

    /// Sets the row of a memory block. The block's number must be below the number of rows.
    pub(crate) fn set_row(&mut self, block: Block, row: Row)
        requires { block < length self.old.rows }
        ensures { self.new ≡ with_row self.old block row }
    {
        self.rows[block.0 as usize] = row;
    }

    /// Returns what an added memory block becomes (Linux, memory hotplug: auto_online_blocks).
    pub(crate) fn auto(&self) -> Auto
        ensures { result ≡ self.now.auto }
    {
        self.auto
    }

    /// Sets what an added memory block becomes (Linux, memory hotplug: auto_online_blocks).
    pub(crate) fn set_auto(&mut self, auto: Auto)
        ensures { self.new ≡ record self.old { auto = auto } }
    {
        self.auto = auto;
    }
}

/// Returns whether both have the same rows.
fn same_rows(rows: &[Row], others: &[Row]) -> bool
    ensures { MatchBool result (rows.now ≡ others.now) (rows.now ≢ others.now) }
{
    rows == others
}
