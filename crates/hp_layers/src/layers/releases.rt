//! Cancels operations, and releases their blocks.
ghost use Rattle.std.specs.Prelude.{◌≡◌, ℕ, ◌+◌, ◌*◌, ◌<◌, ◌≤◌, [], ◌∷◌, ◌++◌, None, IfOk, OnErr, OnOk, if◌then◌else◌, fold, length, slice_index};
ghost use Rattle.hp_units.specs.declared.events.Event.TheVariants.{Cancel};
ghost use Rattle.hp_units.specs.Rows.{blocks_of, is_claimed_by, online_again, release_block, with_block_row};
ghost use Rattle.hp_units.specs.LayoutParts.{IsLayout};
ghost use Rattle.hp_units.specs.Memory.{row_of};
ghost use Rattle.hp_tape.specs.Bounds.{moved_block_bound};
ghost use Rattle.hp_tape.specs.Tapes.{HasRoom};
ghost use Rattle.hp_plain.specs.Asked.{asked};
ghost use Rattle.hp_layers.specs.Frames.{IsTidy};
ghost use Rattle.hp_layers.specs.Layers.{AreOfOneLayout, ArePlaced, IsAnswered, state_of};
ghost use Rattle.hp_layers.specs.Operations.{IsReworked};

use super::Layers;
use hp_tape::Tape;
use hp_units::{Block, Refusal, Reply, Row, Serial, State};
use std::alloc::{AllocError, Global};

impl Layers {
    /// Cancels an operation by releasing its blocks: a going block is online again, and any other
    /// loses its claim (Linux, memory hotplug: undo_isolate). Pages that were moved stay where they
    /// are.
    #[tactic(auto, using(crate::proofs::Answers::refused))]
    pub(crate) fn cancel(
        &mut self,
        alloc: Global,
        op: Serial,
        tape: &mut Tape,
    ) -> Result<Reply, AllocError>
        requires placed { ArePlaced self.old }
        ensures ok { IfOk result (IsAnswered self.old (Cancel op)
            (asked self.old.layout (state_of self.old) 0 (Cancel op)) self.new tape.old.deltas
            tape.new.deltas) }
        ensures err { OnErr result (self.new ≡ self.old) }
        ensures kept { OnErr result (tape.new ≡ tape.old) }
    {
        if !self.blocks.is_live(op) {
            return Ok(Reply::Refused(Refusal::NoOp));
        }
        let blocks = self.blocks_of(alloc, op)?;
        let each = self.moved_block_room();
        tape.reserve(blocks.len() * each)?;
        self.release_blocks(&blocks, tape);
        Ok(Reply::Released)
    }

    /// Returns the blocks that an operation holds, in rising order.
    pub(super) fn blocks_of(&self, alloc: Global, op: Serial) -> Result<Vec<Block>, AllocError>
        requires one { AreOfOneLayout self.now }
        ensures blocks { IfOk result
            (λ blocks. blocks.items ≡ blocks_of self.now.layout self.now.blocks.blocks op) }
        ensures within { IfOk result (λ blocks. (k : ℕ) → k < length blocks.items
            → slice_index blocks.items k < self.now.layout.blocks) }
        ensures few { IfOk result (λ blocks. length blocks.items ≤ 256) }
    {
        let mut blocks = Vec::new(alloc);
        for number in 0..self.layout.blocks() {
            self.push_claimed(op, Block(number), &mut blocks)?;
        }
        Ok(blocks)
    }

    /// Appends the block if the operation holds it.
    fn push_claimed(
        &self,
        op: Serial,
        block: Block,
        blocks: &mut Vec<Block>,
    ) -> Result<(), AllocError>
        requires one { AreOfOneLayout self.now }
        requires block { block < self.now.layout.blocks }
        ensures { OnOk result (blocks.new.items ≡ blocks.old.items
            ++ (if is_claimed_by op (row_of self.now.blocks.blocks block) then block ∷ [] else [])) }
    {
        if self.blocks.row(block).is_claimed_by(op) {
            blocks.push(block)?;
        }
        Ok(())
    }

    /// Returns the most deltas that isolating or releasing a memory block may note.
    pub(super) fn moved_block_room(&self) -> usize
        ensures is { result ≡ moved_block_bound self.now.layout }
        ensures layout { IsLayout self.now.layout }
    {
        let size = 1_usize << self.layout.order();
        1 + self.layout.pageblocks() as usize * (1 + 2 * size)
    }

    /// Releases blocks of an operation, in the given order.
    fn release_blocks(&mut self, blocks: &[Block], tape: &mut Tape)
        requires one { AreOfOneLayout self.old }
        requires tidy { IsTidy self.old.frames }
        requires within { (k : ℕ) → k < length blocks.now
            → slice_index blocks.now k < self.old.layout.blocks }
        requires room { HasRoom tape.old (length blocks.now * moved_block_bound self.old.layout) }
        ensures { IsReworked self.old (fold (release_block self.old.layout) (state_of self.old) blocks.now)
            (length blocks.now * moved_block_bound self.old.layout) self.new tape.old tape.new }
    {
        for block in blocks {
            self.release_block(*block, tape);
        }
    }

    /// Releases a block: a going block is online again, any other loses its claim.
    fn release_block(&mut self, block: Block, tape: &mut Tape)
        requires one { AreOfOneLayout self.old }
        requires tidy { IsTidy self.old.frames }
        requires block { block < self.old.layout.blocks }
        requires room { HasRoom tape.old (moved_block_bound self.old.layout) }
        ensures { IsReworked self.old (release_block self.old.layout (state_of self.old) block)
            (moved_block_bound self.old.layout) self.new tape.old tape.new }
    {
        if self.blocks.row(block).is_going() {
            self.online_again(block, tape);
        } else {
            self.unclaim(block, tape);
        }
    }

    /// Takes a going block online again, in its old zone.
    fn online_again(&mut self, block: Block, tape: &mut Tape)
        requires one { AreOfOneLayout self.old }
        requires tidy { IsTidy self.old.frames }
        requires block { block < self.old.layout.blocks }
        requires room { HasRoom tape.old (moved_block_bound self.old.layout) }
        ensures { IsReworked self.old (online_again self.old.layout (state_of self.old) block)
            (moved_block_bound self.old.layout) self.new tape.old tape.new }
    {
        let zone = self.zone_of_block(block);
        self.frames
            .move_block(&self.layout, zone, false, block, tape);
        let online = Row {
            state: State::Online,
            zone: self.blocks.row(block).zone,
            claim: None,
        };
        self.blocks.set(block, online, tape);
    }

    /// Removes a block's claim.
    fn unclaim(&mut self, block: Block, tape: &mut Tape)
        requires one { AreOfOneLayout self.old }
        requires tidy { IsTidy self.old.frames }
        requires block { block < self.old.layout.blocks }
        requires room { HasRoom tape.old (moved_block_bound self.old.layout) }
        ensures { IsReworked self.old (with_block_row (state_of self.old) block
            (record (row_of self.old.blocks.blocks block) { claim = None })) (moved_block_bound
            self.old.layout) self.new tape.old tape.new }
    {
        let free = self.blocks.row(block).unclaimed();
        self.blocks.set(block, free, tape);
    }
}
