//! Removes memory blocks from the free areas.
ghost use Rattle.std.specs.Prelude.{◌≡◌, ℕ, ◌*◌, ◌<◌, ◌≢◌, true};
ghost use Rattle.hp_units.specs.Arithmetic.{pageblock_count, pageblock_size};
ghost use Rattle.hp_units.specs.FreeAreas.{is_on};
ghost use Rattle.hp_units.specs.Isolation.{remove_block, remove_pageblock};
ghost use Rattle.hp_units.specs.Memory.{free_list, isolated_class};
ghost use Rattle.hp_tape.specs.Tapes.{HasRoom};
ghost use Rattle.hp_laws.specs.Commits.{IsAllFree};
ghost use Rattle.hp_layers.specs.Frames.{IsGiven, IsTidy, free_of};

use super::Frames;
use hp_tape::Tape;
use hp_units::{Block, Layout, Pageblock, Zone};

impl Frames {
    /// Removes the pageblocks of a memory block from the areas, in rising order. Each must be one
    /// isolated free block.
    pub(crate) fn remove_block(
        &mut self,
        layout: &Layout,
        zone: Zone,
        block: Block,
        tape: &mut Tape,
    )
        requires same { self.old.cpus.layout ≡ layout.now }
        requires block { block < layout.now.blocks }
        requires tidy { IsTidy self.old }
        requires free { IsAllFree layout.now self.old.buddy.areas zone block }
        requires room { HasRoom tape.old (layout.now.pageblocks * 2) }
        ensures { IsGiven
            (record (free_of self.old) { areas = remove_block layout.now zone self.old.buddy.areas block })
            (layout.now.pageblocks * 2) self.old self.new tape.old tape.new }
    {
        let count = layout.pageblocks();
        let first = block.0 * count;
        for number in 0..count {
            self.remove_pageblock(layout, zone, Pageblock(first + number), tape);
        }
    }

    /// Removes a pageblock from the areas. It must be one isolated free block.
    fn remove_pageblock(
        &mut self,
        layout: &Layout,
        zone: Zone,
        pageblock: Pageblock,
        tape: &mut Tape,
    )
        requires same { self.old.cpus.layout ≡ layout.now }
        requires pageblock { pageblock < pageblock_count layout.now }
        requires tidy { IsTidy self.old }
        requires free { is_on (pageblock * pageblock_size layout.now)
            (free_list self.old.buddy.areas (isolated_class zone) layout.now.order) ≡ true }
        requires room { HasRoom tape.old 2 }
        ensures given { IsGiven (record (free_of self.old) {
          areas = remove_pageblock self.old.cpus.layout
              zone self.old.buddy.areas pageblock;
        }) 2 self.old self.new tape.old tape.new }
        ensures stays { (other : ℕ) → other ≢ pageblock
            → is_on (other * pageblock_size layout.now)
            (free_list self.old.buddy.areas (isolated_class zone) layout.now.order) ≡ true
            → is_on (other * pageblock_size layout.now)
            (free_list self.new.buddy.areas (isolated_class zone) layout.now.order) ≡ true }
    {
        self.buddy.remove_pageblock(zone, pageblock, tape);
    }
}
