//! The layer of the memory blocks' rows.
ghost use Rattle.std.specs.Prelude.{◌≡◌, ◌<◌, IfNone, IfOk, IfSome};
ghost use Rattle.hp_units.specs.Boot.{empty_blocks};
ghost use Rattle.hp_units.specs.InLayout.{AreBlocksOf};
ghost use Rattle.hp_units.specs.Memory.{row_of, with_row};
ghost use Rattle.hp_units.specs.Rows.{claimed_row, is_live};
ghost use Rattle.hp_pages.specs.Blocks.{AreUnclaimed, IsNextClaimed};
ghost use Rattle.hp_tape.specs.Deltas.{FitsBlocks, IsDeltaOf, blocks_undo};
ghost use Rattle.hp_tape.specs.Tapes.{HasRoom, NotesBlocks};

use hp_tape::{Delta, RowChange, Tape};
use hp_units::{Auto, Block, Layout, Row, Serial, State, Wish};
use std::alloc::{AllocError, Global};
use std::marker::Model;
use std::mem::replace;

/// The rows of a layout's memory blocks, and what an added block becomes. Only `new`
/// and `copy` allocate.
pub struct Blocks {
    layout: Layout,
    rows: Vec<Row>,
    auto: Auto,
}

/// Keeps callers from proving again how each field is dropped.
impl Drop for Blocks {
    fn drop(self) {
        let Blocks {
            layout: _layout,
            rows: _rows,
            auto: _auto,
        } = self;
    }
}

impl Model for Blocks {
    ghost use Rattle.hp_pages.specs.Blocks.{AreLayerOf, BlocksValue};

    ghost Value = { BlocksValue };

    ghost view = { λ b.
        record { layout = b.layout; blocks = record { rows = b.rows.items; auto = b.auto } } };

    ghost invariant = { λ b. AreLayerOf b.layout (record { rows = b.rows.items; auto = b.auto }) };
}

impl Blocks {
    /// Creates the rows of a layout's blocks, all offline. An added block becomes offline.
    pub fn new(alloc: Global, layout: &Layout) -> Result<Blocks, AllocError>
        ensures { IfOk result (λ b. b ≡ record { layout = layout.now; blocks = empty_blocks layout.now }) }
    {
        let offline = Row {
            state: State::Offline,
            zone: None,
            claim: None,
        };
        let rows = vec![in alloc; offline; layout.blocks() as usize]?;
        Ok(Blocks {
            layout: layout.copy(alloc)?,
            rows,
            auto: Auto::Offline,
        })
    }

    /// Returns a copy.
    pub fn copy(&self, alloc: Global) -> Result<Blocks, AllocError>
        ensures { IfOk result (λ blocks. blocks ≡ self.now) }
    {
        let layout = self.layout.copy(alloc)?;
        let rows = Vec::from_slice(alloc, self.rows.as_slice())?;
        Ok(Blocks {
            layout,
            rows,
            auto: self.auto,
        })
    }

    /// Returns the row of a memory block.
    pub fn row(&self, block: Block) -> Row
        requires { block < self.now.layout.blocks }
        ensures row { result ≡ row_of self.now.blocks block }
        ensures blocks { AreBlocksOf self.now.layout self.now.blocks }
    {
        let at = block.0 as usize;
        self.rows[at]
    }

    /// Claims a memory block for the operation `op`; no other operation may hold it. With the wish
    /// Off, the block is then going (Linux guide: offlining). Notes one delta.
    pub fn claim(&mut self, block: Block, op: Serial, wish: Wish, tape: &mut Tape)
        requires block { block < self.old.layout.blocks }
        requires one { IfSome (row_of self.old.blocks block).claim (λ claim. claim.op ≡ op) }
        requires room { HasRoom tape.old 1 }
        ensures claimed { self.new.blocks
            ≡ with_row self.old.blocks block (claimed_row (row_of self.old.blocks block) op wish) }
        ensures layout { self.new.layout ≡ self.old.layout }
        ensures notes { NotesBlocks self.old.layout 1 tape.old tape.new self.new.blocks self.old.blocks }
    {
        let row = self.row(block);
        self.set(block, row.claimed(op, wish), tape);
    }

    /// Replaces the row of a memory block. If it has a claim before and after, both must be the
    /// same operation's. Notes one delta.
    pub fn set(&mut self, block: Block, row: Row, tape: &mut Tape)
        requires block { block < self.old.layout.blocks }
        requires one { IfSome row.claim
            (λ after. IfSome (row_of self.old.blocks block).claim (λ before. before.op ≡ after.op)) }
        requires room { HasRoom tape.old 1 }
        ensures set { self.new.blocks ≡ with_row self.old.blocks block row }
        ensures layout { self.new.layout ≡ self.old.layout }
        ensures notes { NotesBlocks self.old.layout 1 tape.old tape.new self.new.blocks self.old.blocks }
    {
        let change = RowChange::new(block, &self.row(block), &row);
        tape.note(Delta::Row(change));
        self.rows[block.0 as usize] = row;
    }

    /// Returns the lowest memory block, from `first` on, that the operation holds.
    pub fn next_claimed(&self, op: Serial, first: Block) -> Option<Block>
        ensures some { IfSome result (IsNextClaimed self.now op first) }
        ensures none { IfNone result (AreUnclaimed self.now op first self.now.layout.blocks) }
    {
        let rows = self.rows.as_slice();
        let mut at = first.0 as usize;
        while at < rows.len() {
            if rows[at].is_claimed_by(op) {
                return Some(Block(at as u32));
            }
            at += 1;
        }
        None
    }

    /// Returns whether the operation is live, which means that it holds a memory block.
    pub fn is_live(&self, op: Serial) -> bool
        ensures { result ≡ is_live self.now.blocks op }
    {
        self.rows.iter().any(|row| row.is_claimed_by(op))
    }

    /// Returns what an added memory block becomes (Linux guide: auto_online_blocks).
    pub fn auto(&self) -> Auto
        ensures auto { result ≡ self.now.blocks.auto }
        ensures blocks { AreBlocksOf self.now.layout self.now.blocks }
    {
        self.auto
    }

    /// Sets what an added memory block becomes (Linux guide: auto_online_blocks). Notes one delta.
    pub fn set_auto(&mut self, auto: Auto, tape: &mut Tape)
        requires { HasRoom tape.old 1 }
        ensures set { self.new.blocks ≡ record self.old.blocks { auto = auto } }
        ensures layout { self.new.layout ≡ self.old.layout }
        ensures notes { NotesBlocks self.old.layout 1 tape.old tape.new self.new.blocks self.old.blocks }
    {
        let was = replace(&mut self.auto, auto);
        tape.note(Delta::Auto { was, now: auto });
    }

    /// Undoes a delta that fits and whose numbers are within the layout. A delta of another layer
    /// changes nothing.
    pub fn back(&mut self, delta: Delta)
        requires fits { FitsBlocks delta self.old.blocks }
        requires numbers { IsDeltaOf self.old.layout delta }
        ensures back { self.new.blocks ≡ blocks_undo delta self.old.blocks }
        ensures layout { self.new.layout ≡ self.old.layout }
    {
        match &delta {
            Delta::Row(change) => self.rows[change.block().0 as usize] = change.before(),
            Delta::Auto { was, .. } => self.auto = *was,
            _ => {}
        }
    }
}
