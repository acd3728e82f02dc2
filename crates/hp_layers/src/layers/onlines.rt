//! Takes memory blocks online.
ghost use Rattle.std.specs.Prelude.{◌≡◌, ◌<◌, true};
ghost use Rattle.hp_units.specs.Memory.{row_of};
ghost use Rattle.hp_units.specs.Placement.{is_unplugged};
ghost use Rattle.hp_units.specs.Rows.{online_block};
ghost use Rattle.hp_tape.specs.Bounds.{online_bound};
ghost use Rattle.hp_tape.specs.Tapes.{HasRoom};
ghost use Rattle.hp_layers.specs.Layers.{ArePlaced, state_of};
ghost use Rattle.hp_layers.specs.Operations.{IsReworked};

use super::Layers;
use hp_tape::Tape;
use hp_units::{Block, Row, State, Zone};

impl Layers {
    /// Takes an offline or absent block online in a zone (Linux, memory hotplug: onlining).
    #[tactic(auto, unfolding(hp_units::specs::Rows::online_block))]
    pub(crate) fn online_block(&mut self, zone: Zone, block: Block, tape: &mut Tape)
        requires placed { ArePlaced self.old }
        requires block { block < self.old.layout.blocks }
        requires unplugged { is_unplugged (row_of self.old.blocks.blocks block) ≡ true }
        requires room { HasRoom tape.old (online_bound self.old.layout) }
        ensures { IsReworked self.old (online_block self.old.layout zone (state_of self.old) block)
            (online_bound self.old.layout) self.new tape.old tape.new }
    {
        self.blocks.set(block, Row::online(zone), tape);
        self.frames.add_block(&self.layout, zone, block, tape);
    }
}
