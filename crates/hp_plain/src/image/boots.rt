//! Turns offline memory blocks into what they are at boot.
ghost use Rattle.std.specs.Prelude.{◌≡◌, ◌<◌, OnOk};
ghost use Rattle.hp_units.specs.Boot.{boot_block};
ghost use Rattle.hp_units.specs.Rows.{online_block};
ghost use Rattle.hp_plain.specs.Names.{AbsentBoot};

use super::Image;
use hp_units::{Block, Boot, Row, State, Zone};
use std::alloc::AllocError;

impl Image {
    /// Makes an offline block what `boot` gives: online in a zone, absent, or still offline.
    pub(super) fn boot_block(&mut self, block: Block, boot: Boot) -> Result<(), AllocError>
        requires { block < self.old.layout.blocks }
        ensures memory { OnOk result
            (self.new.memory ≡ boot_block self.old.layout self.old.memory block boot) }
        ensures layout { self.new.layout ≡ self.old.layout }
    {
        match boot {
            Boot::Offline => Ok(()),
            Boot::Normal => self.online_block(Zone::Normal, block),
            Boot::Movable => self.online_block(Zone::Movable, block),
            Boot::Absent => {
                self.absent_block(block);
                Ok(())
            }
        }
    }

    /// Takes a block online in a zone (Linux, memory hotplug: onlining).
    #[tactic(auto, unfolding(hp_units::specs::Rows::online_block))]
    pub(super) fn online_block(&mut self, zone: Zone, block: Block) -> Result<(), AllocError>
        requires { block < self.old.layout.blocks }
        ensures memory { OnOk result
            (self.new.memory ≡ online_block self.old.layout zone self.old.memory block) }
        ensures layout { self.new.layout ≡ self.old.layout }
    {
        self.free.add_block(&self.layout, zone, block)?;
        self.blocks.set_row(block, Row::online(zone));
        Ok(())
    }

    /// Makes a block absent.
    fn absent_block(&mut self, block: Block)
        requires { block < self.old.layout.blocks }
        ensures { self.new
            ≡ record self.old { memory = boot_block self.old.layout self.old.memory block AbsentBoot } }
    {
        self.blocks.set_row(block, Row::bare(State::Absent));
    }
}
