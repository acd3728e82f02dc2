//! Moves pages out of blocks that are going offline.
ghost use Rattle.std.specs.Prelude.{◌≡◌, ◌<◌, IfOk, OnErr};
ghost use Rattle.hp_units.specs.declared.events.Event.TheVariants.{Migrate};
ghost use Rattle.hp_units.specs.Migrations.{migration_source};
ghost use Rattle.hp_layers.specs.Migrations.{source_of};
ghost use Rattle.hp_plain.specs.Asked.{asked};
ghost use Rattle.hp_layers.specs.Layers.{AreOfOneLayout, ArePlaced, IsAnswered, state_of};

use super::Layers;
use hp_tape::Tape;
use hp_units::{Block, Frame, Order, Refusal, Reply, Serial};
use std::alloc::AllocError;

impl Layers {
    /// Moves the page at the lowest mapped frame of an operation's going blocks to a frame straight
    /// from the areas. The old frame goes straight back to them (Linux, memory hotplug: migration).
    #[tactic(auto, using(crate::proofs::Answers::refused, crate::proofs::Answers::refused_none))]
    pub(crate) fn migrate(&mut self, op: Serial, tape: &mut Tape) -> Result<Reply, AllocError>
        requires placed { ArePlaced self.old }
        ensures ok { IfOk result (IsAnswered self.old (Migrate op)
            (asked self.old.layout (state_of self.old) 0 (Migrate op)) self.new tape.old.deltas
            tape.new.deltas) }
        ensures err { OnErr result (self.new ≡ self.old) }
        ensures kept { OnErr result (tape.new ≡ tape.old) }
    {
        let Some(from) = self.migration_source(op) else {
            if self.blocks.is_live(op) {
                return Ok(Reply::Refused(Refusal::NothingToMove));
            }
            return Ok(Reply::Refused(Refusal::NoOp));
        };
        let order = self.layout.order() as usize;
        tape.reserve(2 * order + 5)?;
        match self.frames.migration_target(tape) {
            Some(to) => {
                let zone = self.zone_of(from);
                self.pages.move_page(from, to, tape);
                self.frames.give(zone, from, Order(0), tape);
                Ok(Reply::Moved { from, to })
            }
            None => Ok(Reply::Refused(Refusal::NoFrame)),
        }
    }

    /// Returns the lowest mapped frame of an operation's going blocks.
    fn migration_source(&self, op: Serial) -> Option<Frame>
        requires one { AreOfOneLayout self.now }
        ensures { result ≡ migration_source self.now.layout (state_of self.now) op }
    {
        let mut first = Block(0);
        while let Some(block) = self.blocks.next_claimed(op, first) {
            if let Some(frame) = self.source_of(op, block) {
                return Some(frame);
            }
            first = Block(block.0 + 1);
        }
        None
    }

    /// Returns the lowest mapped frame of a block, if the operation is taking it offline.
    fn source_of(&self, op: Serial, block: Block) -> Option<Frame>
        requires one { AreOfOneLayout self.now }
        requires block { block < self.now.layout.blocks }
        ensures { result ≡ source_of self.now.layout (state_of self.now) op block }
    {
        if !self.blocks.row(block).is_claimed_by(op) {
            return None;
        }
        if !self.blocks.row(block).is_going() {
            return None;
        }
        let size = self.layout.block_size();
        self.pages.lowest_mapped(Frame(block.0 * size), size)
    }
}
