//! Claims memory blocks for an operation.
ghost use Rattle.std.specs.Prelude.{◌≡◌, ◌*◌, ◌<◌, None};
ghost use Rattle.hp_units.specs.Memory.{row_of};
ghost use Rattle.hp_units.specs.Rows.{begin_block, begin_plan, claim_block, zone_of_block};
ghost use Rattle.hp_units.specs.declared.rows.Wish.TheVariants.{Off as OffWish};
ghost use Rattle.hp_tape.specs.Bounds.{moved_block_bound};
ghost use Rattle.hp_tape.specs.Tapes.{HasRoom};
ghost use Rattle.hp_layers.specs.Frames.{IsTidy};
ghost use Rattle.hp_layers.specs.Layers.{AreOfOneLayout, state_of};
ghost use Rattle.hp_layers.specs.Operations.{
  AreHeldByNone,
  IsReworked,
  IsHeldByNone,
  claimed_at,
  claimed_below,
};

use super::Layers;
use hp_plain::wish_of;
use hp_tape::Tape;
use hp_units::{Block, Item, Serial, Wish, Zone};

impl Layers {
    /// Claims the blocks of a plan for an operation, in rising order. No operation may hold any of
    /// them.
    #[tactic(auto, unfolding(hp_units::specs::Rows::begin_plan))]
    pub(crate) fn begin_plan(&mut self, op: Serial, plan: &[Item], tape: &mut Tape)
        requires one { AreOfOneLayout self.old }
        requires tidy { IsTidy self.old.frames }
        requires free { AreHeldByNone plan.now self.old.blocks.blocks }
        requires room { HasRoom tape.old
            (claimed_below plan.now self.old.layout.blocks * moved_block_bound self.old.layout) }
        ensures { IsReworked self.old (begin_plan self.old.layout (state_of self.old) op plan.now)
            (claimed_below plan.now self.old.layout.blocks * moved_block_bound self.old.layout) self.new
            tape.old tape.new }
    {
        for number in 0..self.layout.blocks() {
            self.begin_block(op, plan, Block(number), tape);
        }
    }

    /// Claims a block if the plan has a wish for it. In that case no operation may hold the block.
    fn begin_block(&mut self, op: Serial, plan: &[Item], block: Block, tape: &mut Tape)
        requires one { AreOfOneLayout self.old }
        requires tidy { IsTidy self.old.frames }
        requires block { block < self.old.layout.blocks }
        requires free { IsHeldByNone plan.now self.old.blocks.blocks block }
        requires room { HasRoom tape.old (claimed_at plan.now block * moved_block_bound self.old.layout) }
        ensures { IsReworked self.old (begin_block self.old.layout op plan.now (state_of self.old) block)
            (claimed_at plan.now block * moved_block_bound self.old.layout) self.new tape.old tape.new }
    {
        if let Some(wish) = wish_of(plan, block) {
            self.claim_block(op, block, wish, tape);
        }
    }

    /// Claims a block and isolates it if it is to go offline (Linux, memory hotplug: offlining). No
    /// operation may hold it.
    fn claim_block(&mut self, op: Serial, block: Block, wish: Wish, tape: &mut Tape)
        requires one { AreOfOneLayout self.old }
        requires tidy { IsTidy self.old.frames }
        requires block { block < self.old.layout.blocks }
        requires free { (row_of self.old.blocks.blocks block).claim ≡ None }
        requires room { HasRoom tape.old (moved_block_bound self.old.layout) }
        ensures { IsReworked self.old (claim_block self.old.layout op (state_of self.old) block wish)
            (moved_block_bound self.old.layout) self.new tape.old tape.new }
    {
        match wish {
            Wish::Off => self.isolate_block(op, block, tape),
            _ => self.blocks.claim(block, op, wish, tape),
        }
    }

    /// Claims a block that is to go offline, and isolates it. No operation may hold it.
    fn isolate_block(&mut self, op: Serial, block: Block, tape: &mut Tape)
        requires one { AreOfOneLayout self.old }
        requires tidy { IsTidy self.old.frames }
        requires block { block < self.old.layout.blocks }
        requires free { (row_of self.old.blocks.blocks block).claim ≡ None }
        requires room { HasRoom tape.old (moved_block_bound self.old.layout) }
        ensures { IsReworked self.old (claim_block self.old.layout op (state_of self.old) block OffWish)
            (moved_block_bound self.old.layout) self.new tape.old tape.new }
    {
        let zone = self.zone_of_block(block);
        self.frames
            .move_block(&self.layout, zone, true, block, tape);
        self.blocks.claim(block, op, Wish::Off, tape);
    }

    /// Returns the zone of a memory block, or Normal if it has none.
    pub(crate) fn zone_of_block(&self, block: Block) -> Zone
        requires block { block < self.now.layout.blocks }
        requires one { AreOfOneLayout self.now }
        ensures { result ≡ zone_of_block self.now.blocks.blocks block }
    {
        match self.blocks.row(block).zone {
            Some(zone) => zone,
            None => Zone::Normal,
        }
    }
}
