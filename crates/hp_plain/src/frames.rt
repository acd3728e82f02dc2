//! The free frames as plain lists: the free areas, and each processor's lists of single frames.
ghost use Rattle.std.specs.Prelude.{◌≡◌, ◌≢◌, ◌+◌, ◌*◌, ◌^◌, ◌<◌, ◌≤◌, [], ◌∷◌, ◌++◌, IfOk, MatchBool, OnErr, OnOk, length};
ghost use Rattle.hp_units.specs.Arithmetic.{IsFrame, frame_count};
ghost use Rattle.hp_units.specs.Boot.{empty_areas, empty_cached};
ghost use Rattle.hp_units.specs.FreeAreas.{with_back};
ghost use Rattle.hp_units.specs.InLayout.{AreFreeAreasOf, AreFreeFramesOf};
ghost use Rattle.hp_units.specs.Isolation.{add_block};
ghost use Rattle.hp_units.specs.Memory.{cached_list, with_cached_list, with_kind};

use crate::areas::Areas;
use crate::lists::FrameList;
use crate::lists::many::{copy_of_lists, empty_lists, same_lists};
use hp_units::{Block, Class, Cpu, Frame, Kind, Layout, Mobility, Order, Pageblock, Pool, Zone};
use std::alloc::{AllocError, Global};
use std::marker::Model;

/// The free areas, and in front of them each processor's lists of single frames, one per pool
/// (Gorman, chapter 6: per-cpu lists). The index of a list is three times its processor plus the
/// index of its pool.
pub(crate) struct FreeFrames {
    areas: Areas,
    cached: Vec<FrameList>,
}

/// Keeps callers from proving again how each field is dropped.
impl Drop for FreeFrames {
    fn drop(self) {
        let FreeFrames {
            areas: _areas,
            cached: _cached,
        } = self;
    }
}

impl Model for FreeFrames {
    ghost use Rattle.hp_units.specs.Memory.{FreeFrames};

    ghost Value = { FreeFrames };

    ghost view = { λ f. record { areas = f.areas; cached = f.cached.items } };
}

impl FreeFrames {
    /// Creates the empty value for a layout: no frame is free or on a processor's list, and each
    /// pageblock is movable and not isolated.
    #[tactic(auto, using(crate::proofs::EmptyFrames::empty_of))]
    pub(crate) fn empty(alloc: Global, layout: &Layout) -> Result<FreeFrames, AllocError>
        ensures value { IfOk result
            (λ free. free ≡ record { areas = empty_areas layout.now; cached = empty_cached layout.now }) }
        ensures layout { IfOk result (AreFreeFramesOf layout.now) }
    {
        let areas = Areas::empty(alloc, layout)?;
        let cached = empty_lists(alloc, 3 * layout.cpus() as usize)?;
        Ok(FreeFrames { areas, cached })
    }

    /// Returns a copy.
    pub(crate) fn copy(&self, alloc: Global) -> Result<FreeFrames, AllocError>
        ensures { IfOk result (λ free. free ≡ self.now) }
    {
        let areas = self.areas.copy(alloc)?;
        let cached = copy_of_lists(alloc, &self.cached)?;
        Ok(FreeFrames { areas, cached })
    }

    /// Returns whether both have the same areas and the same processors' lists, in order.
    pub(crate) fn same(&self, other: &FreeFrames) -> bool
        ensures { MatchBool result (self.now ≡ other.now) (self.now ≢ other.now) }
    {
        self.areas.same(&other.areas) && same_lists(&self.cached, &other.cached)
    }

    /// Returns the free areas.
    pub(crate) fn areas(&self) -> &Areas
        ensures { result.now ≡ self.now.areas }
    {
        &self.areas
    }

    /// Returns a processor's list of a pool, front first (Gorman, chapter 6: per-cpu lists). Empty
    /// for a processor outside the layout.
    pub(crate) fn cached_list(&self, cpu: Cpu, pool: Pool) -> &[Frame]
        ensures { result.now ≡ cached_list self.now cpu pool }
    {
        let number = 3 * cpu.0 as usize + pool.index() as usize;
        match self.cached.get(number) {
            Some(list) => list.as_slice(),
            None => &[],
        }
    }

    /// Adds all pageblocks of a memory block as movable free blocks of the greatest order, at the
    /// back of the zone's list (Linux, memory hotplug: onlining). They come in rising order, which
    /// is this model's choice. The memory block must be in the layout. If memory runs out, some
    /// pageblocks may have been added.
    pub(crate) fn add_block(
        &mut self,
        layout: &Layout,
        zone: Zone,
        block: Block,
    ) -> Result<(), AllocError>
        requires layout { AreFreeFramesOf layout.now self.old }
        requires block { block < layout.now.blocks }
        ensures value { OnOk result
            (self.new ≡ record self.old { areas = add_block layout.now zone self.old.areas block }) }
        ensures layout { AreFreeFramesOf layout.now self.new }
    {
        add_block(&mut self.areas, layout, zone, block)
    }

    /// Adds a free block at the back of its class's list. All its frames must be in the layout. If
    /// memory runs out, nothing changes.
    #[tactic(auto, using(crate::proofs::FramesInLayout::class_below, crate::proofs::FramesInLayout::of_back))]
    pub(crate) fn add_free(
        &mut self,
        layout: &Layout,
        class: Class,
        order: Order,
        frame: Frame,
    ) -> Result<(), AllocError>
        requires layout { AreFreeFramesOf layout.now self.old }
        requires order { order ≤ layout.now.order }
        requires frame { frame + 2 ^ order ≤ frame_count layout.now }
        ensures value { OnOk result
            (self.new ≡ record self.old { areas = with_back self.old.areas class order frame }) }
        ensures err { OnErr result (self.new ≡ self.old) }
        ensures layout { AreFreeFramesOf layout.now self.new }
    {
        self.areas.add_back(class, order, frame)
    }

    /// Adds a frame of the layout at the back of a processor's list. If memory runs out, nothing
    /// changes.
    pub(crate) fn add_cached(
        &mut self,
        layout: &Layout,
        cpu: Cpu,
        pool: Pool,
        frame: Frame,
    ) -> Result<(), AllocError>
        requires layout { AreFreeFramesOf layout.now self.old }
        requires cpu { cpu < layout.now.cpus }
        requires frame { IsFrame layout.now frame }
        ensures value { OnOk result
            (self.new ≡ with_cached_list self.old cpu pool (cached_list self.old cpu pool ++ frame ∷ [])) }
        ensures err { OnErr result (self.new ≡ self.old) }
        ensures layout { AreFreeFramesOf layout.now self.new }
    {
        self.cached[3 * cpu.0 as usize + pool.index() as usize].push_back(frame)
    }

    /// Sets the kind of a pageblock, whose number must be below the number of kinds.
    pub(crate) fn set_kind(&mut self, pageblock: Pageblock, kind: Kind)
        requires { pageblock < length self.old.areas.kinds }
        ensures { self.new ≡ record self.old { areas = with_kind self.old.areas pageblock kind } }
    {
        self.areas.set_kind(pageblock, kind);
    }
}

/// Adds the pageblocks of a memory block, as movable free blocks, at the back of the zone's list.
fn add_block(areas: &mut Areas, layout: &Layout, zone: Zone, block: Block) -> Result<(), AllocError>
    requires layout { AreFreeAreasOf layout.now areas.old }
    requires block { block < layout.now.blocks }
    ensures value { OnOk result (areas.new ≡ add_block layout.now zone areas.old block) }
    ensures layout { AreFreeAreasOf layout.now areas.new }
{
    let order = Order(layout.order());
    let first = block.0 * layout.pageblocks();
    for number in 0..layout.pageblocks() {
        let frame = Frame((first + number) << layout.order());
        areas.add_back(Class::usable(zone, Mobility::Movable), order, frame)?;
    }
    Ok(())
}
