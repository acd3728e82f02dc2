//! Commits operations: all blocks that an operation holds get their wishes, or none does.
ghost use Rattle.std.specs.Prelude.{◌≡◌, ℕ, ◌*◌, ◌<◌, true, find, fold, length, slice_index, IfOk, MatchOption, OnErr};
ghost use Rattle.std.specs.List.{flat_map, list_all};
ghost use Rattle.std.specs.Option.{option_map};
ghost use Rattle.hp_units.specs.declared.events.Event.TheVariants.{Commit};
ghost use Rattle.hp_units.specs.declared.rows.Wish.TheVariants.{Off as OffWish};
ghost use Rattle.hp_units.specs.Arithmetic.{frames_of_block};
ghost use Rattle.hp_units.specs.LayoutParts.{IsLayout};
ghost use Rattle.hp_units.specs.Memory.{row_of};
ghost use Rattle.hp_units.specs.Placement.{is_unplugged};
ghost use Rattle.hp_units.specs.Rows.{commit_block, grant, offline_block, zone_of_block};
ghost use Rattle.hp_tape.specs.Bounds.{committed_block_bound};
ghost use Rattle.hp_tape.specs.Tapes.{HasRoom};
ghost use Rattle.hp_laws.specs.Commits.{IsAllFree, IsGrantable};
ghost use Rattle.hp_plain.specs.Asked.{asked};
ghost use Rattle.hp_layers.specs.Commits.{IsHeldBy, is_in_use, is_ready, leaving_frames};
ghost use Rattle.hp_layers.specs.Frames.{IsTidy};
ghost use Rattle.hp_layers.specs.Layers.{AreOfOneLayout, ArePlaced, IsAnswered, state_of};
ghost use Rattle.hp_layers.specs.Operations.{IsReworked};

use super::Layers;
use hp_tape::Tape;
use hp_units::{Block, Frame, Refusal, Reply, Row, Serial, State, Wish, Zone};
use std::alloc::{AllocError, Global};

impl Layers {
    /// Commits an operation: its going blocks leave the free areas and are offline, and the others
    /// go online.
    ///
    /// Refused while a frame of a going block is in use (Linux, memory hotplug: offlining). All
    /// blocks change or none does (this model's choice).
    #[tactic(auto, using(crate::proofs::Answers::refused))]
    pub(crate) fn commit(
        &mut self,
        alloc: Global,
        op: Serial,
        tape: &mut Tape,
    ) -> Result<Reply, AllocError>
        requires placed { ArePlaced self.old }
        ensures ok { IfOk result (IsAnswered self.old (Commit op)
            (asked self.old.layout (state_of self.old) 0 (Commit op)) self.new tape.old.deltas
            tape.new.deltas) }
        ensures err { OnErr result (self.new ≡ self.old) }
        ensures kept { OnErr result (tape.new ≡ tape.old) }
    {
        if !self.blocks.is_live(op) {
            return Ok(Reply::Refused(Refusal::NoOp));
        }
        let held = self.blocks_of(alloc, op)?;
        let blocks = held.as_slice();
        if let Some(frame) = self.frame_not_free(blocks) {
            return Ok(Reply::Refused(Refusal::NotFree { frame }));
        }
        tape.reserve(blocks.len() * self.committed_block_room())?;
        self.commit_blocks(blocks, tape);
        Ok(Reply::Done)
    }

    /// Returns the frame that keeps the blocks from getting their wishes, if a going block is not
    /// all free. It is the first frame in use in the going blocks, or frame 0 if none is in use.
    fn frame_not_free(&self, blocks: &[Block]) -> Option<Frame>
        requires one { AreOfOneLayout self.now }
        requires within { (k : ℕ) → k < length blocks.now
            → slice_index blocks.now k < self.now.layout.blocks }
        ensures { MatchOption result (list_all (is_ready self.now.layout (state_of self.now)) blocks.now
            ≡ true) (IsHeldBy self.now.layout (state_of self.now) blocks.now) }
    {
        if self.are_ready(blocks) {
            return None;
        }
        Some(self.frame_in_use(blocks).unwrap_or(Frame(0)))
    }

    /// Returns whether each going block among these is all free.
    fn are_ready(&self, blocks: &[Block]) -> bool
        requires one { AreOfOneLayout self.now }
        requires within { (k : ℕ) → k < length blocks.now
            → slice_index blocks.now k < self.now.layout.blocks }
        ensures { result ≡ list_all (is_ready self.now.layout (state_of self.now)) blocks.now }
    {
        for block in blocks {
            if !self.is_ready(*block) {
                return false;
            }
        }
        true
    }

    /// Returns whether a block is all free or not going.
    fn is_ready(&self, block: Block) -> bool
        requires one { AreOfOneLayout self.now }
        requires block { block < self.now.layout.blocks }
        ensures { result ≡ is_ready self.now.layout (state_of self.now) block }
    {
        if !self.blocks.row(block).is_going() {
            return true;
        }
        let zone = self.zone_of_block(block);
        self.frames.is_all_free(&self.layout, zone, block)
    }

    /// Returns the lowest frame that is in no free block, in the first going block with such a
    /// frame.
    fn frame_in_use(&self, blocks: &[Block]) -> Option<Frame>
        requires one { AreOfOneLayout self.now }
        requires within { (k : ℕ) → k < length blocks.now
            → slice_index blocks.now k < self.now.layout.blocks }
        ensures { result ≡ find (is_in_use self.now.layout (state_of self.now))
            (flat_map (leaving_frames self.now.layout (state_of self.now)) blocks.now) }
    {
        for block in blocks {
            if let Some(frame) = self.frame_in_use_of(*block) {
                return Some(frame);
            }
        }
        None
    }

    /// Returns the lowest frame of a block that is in no free block, if the block is going.
    fn frame_in_use_of(&self, block: Block) -> Option<Frame>
        requires one { AreOfOneLayout self.now }
        requires block { block < self.now.layout.blocks }
        ensures { result ≡ find (is_in_use self.now.layout (state_of self.now))
            (leaving_frames self.now.layout (state_of self.now) block) }
    {
        if !self.blocks.row(block).is_going() {
            return None;
        }
        self.lowest_in_use(block)
    }

    /// Returns the lowest frame of a block that is in no free block. Skips free blocks whole.
    fn lowest_in_use(&self, block: Block) -> Option<Frame>
        requires one { AreOfOneLayout self.now }
        requires block { block < self.now.layout.blocks }
        ensures { result
            ≡ find (is_in_use self.now.layout (state_of self.now)) (frames_of_block self.now.layout block) }
    {
        let size = self.layout.block_size();
        let first = block.0 * size;
        let mut number = 0;
        while number < size {
            let frame = Frame(first + number);
            let free = self.frames.free_from(&self.layout, frame);
            if free == 0 {
                return Some(frame);
            }
            number += free;
        }
        None
    }

    /// Returns the most deltas that `commit_block` may note.
    fn committed_block_room(&self) -> usize
        ensures is { result ≡ committed_block_bound self.now.layout }
        ensures layout { IsLayout self.now.layout }
    {
        1 + 2 * self.layout.pageblocks() as usize
    }

    /// Gives blocks of an operation their wishes. The blocks must be in rising order.
    fn commit_blocks(&mut self, blocks: &[Block], tape: &mut Tape)
        requires placed { ArePlaced self.old }
        requires within { (k : ℕ) → k < length blocks.now
            → slice_index blocks.now k < self.old.layout.blocks }
        requires rise { (k j : ℕ) → k < j → j < length blocks.now
            → slice_index blocks.now k < slice_index blocks.now j }
        requires ready { (k : ℕ) → k < length blocks.now
            → IsGrantable self.old.layout (state_of self.old) (slice_index blocks.now k) }
        requires room { HasRoom tape.old (length blocks.now * committed_block_bound self.old.layout) }
        ensures { IsReworked self.old (fold (commit_block self.old.layout) (state_of self.old) blocks.now)
            (length blocks.now * committed_block_bound self.old.layout) self.new tape.old tape.new }
    {
        for block in blocks {
            self.commit_block(*block, tape);
        }
    }

    /// Gives a block the wish of its claim, if it has one.
    fn commit_block(&mut self, block: Block, tape: &mut Tape)
        requires placed { ArePlaced self.old }
        requires block { block < self.old.layout.blocks }
        requires ready { IsGrantable self.old.layout (state_of self.old) block }
        requires room { HasRoom tape.old (committed_block_bound self.old.layout) }
        ensures { IsReworked self.old (commit_block self.old.layout (state_of self.old) block)
            (committed_block_bound self.old.layout) self.new tape.old tape.new }
    {
        if let Some(wish) = self.wish_of(block) {
            self.grant(block, wish, tape);
        }
    }

    /// Returns what the operation that holds a block wishes for it.
    fn wish_of(&self, block: Block) -> Option<Wish>
        requires one { AreOfOneLayout self.now }
        requires block { block < self.now.layout.blocks }
        ensures { result ≡ option_map (λ claim. claim.wish) (row_of self.now.blocks.blocks block).claim }
    {
        match self.blocks.row(block).claim {
            Some(claim) => Some(claim.wish),
            None => None,
        }
    }

    /// Takes a block offline, or online in a zone, as the wish says.
    #[tactic(auto, using(crate::proofs::Committed::reworked_more))]
    fn grant(&mut self, block: Block, wish: Wish, tape: &mut Tape)
        requires placed { ArePlaced self.old }
        requires block { block < self.old.layout.blocks }
        requires off { wish ≡ OffWish
            → IsAllFree self.old.layout self.old.frames.buddy.areas
            (zone_of_block self.old.blocks.blocks block) block }
        requires on { (wish ≡ OffWish → ⊥) → is_unplugged (row_of self.old.blocks.blocks block) ≡ true }
        requires room { HasRoom tape.old (committed_block_bound self.old.layout) }
        ensures { IsReworked self.old (grant self.old.layout (state_of self.old) block wish)
            (committed_block_bound self.old.layout) self.new tape.old tape.new }
    {
        match wish {
            Wish::Off => self.offline_block(block, tape),
            Wish::Normal => self.online_block(Zone::Normal, block, tape),
            Wish::Movable => self.online_block(Zone::Movable, block, tape),
        }
    }

    /// Takes a block offline: its pageblocks, which are isolated free blocks, leave the free areas
    /// (Linux, memory hotplug: offlining).
    fn offline_block(&mut self, block: Block, tape: &mut Tape)
        requires one { AreOfOneLayout self.old }
        requires tidy { IsTidy self.old.frames }
        requires block { block < self.old.layout.blocks }
        requires free { IsAllFree self.old.layout self.old.frames.buddy.areas
            (zone_of_block self.old.blocks.blocks block) block }
        requires room { HasRoom tape.old (committed_block_bound self.old.layout) }
        ensures { IsReworked self.old (offline_block self.old.layout (state_of self.old) block)
            (committed_block_bound self.old.layout) self.new tape.old tape.new }
    {
        let zone = self.zone_of_block(block);
        self.frames.remove_block(&self.layout, zone, block, tape);
        self.blocks.set(block, Row::bare(State::Offline), tape);
    }
}
