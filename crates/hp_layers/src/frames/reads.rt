//! Tests whether frames are free: whole memory blocks, and single frames.
ghost use Rattle.std.specs.Prelude.{◌≡◌, ◌+◌, ◌*◌, ◌<◌, ◌≤◌, ◌==◌, ℕ, true, false, MatchOption};
ghost use Rattle.std.specs.Option.{option_map_or};
ghost use Rattle.std.specs.List.{list_all};
ghost use Rattle.hp_units.specs.Arithmetic.{frame_count, pageblock_count, pageblock_size, pageblocks_of};
ghost use Rattle.hp_units.specs.FreeAreas.{is_on};
ghost use Rattle.hp_units.specs.LayoutParts.{IsLayout};
ghost use Rattle.hp_units.specs.Memory.{free_list, isolated_class};
ghost use Rattle.hp_units.specs.Refusals.{is_free_start, is_in_free_block};
ghost use Rattle.hp_layers.specs.Commits.{IsCovered};

use super::Frames;
use hp_units::{Block, Class, Frame, Layout, Order, Pageblock, Zone};

impl Frames {
    /// Returns whether each pageblock of a memory block is one isolated free block of the zone
    /// (Linux, memory hotplug: offlining).
    pub(crate) fn is_all_free(&self, layout: &Layout, zone: Zone, block: Block) -> bool
        requires same { self.now.buddy.layout ≡ layout.now }
        requires block { block < layout.now.blocks }
        ensures { result ≡ list_all (λ pageblock. is_on (pageblock * pageblock_size layout.now)
            (free_list self.now.buddy.areas (isolated_class zone) layout.now.order)) (pageblocks_of layout.now
            block) }
    {
        let count = layout.pageblocks();
        let first = block.0 * count;
        for number in 0..count {
            if !self.is_isolated_block(layout, zone, Pageblock(first + number)) {
                return false;
            }
        }
        true
    }

    /// Returns whether a pageblock is one isolated free block of the zone.
    fn is_isolated_block(&self, layout: &Layout, zone: Zone, pageblock: Pageblock) -> bool
        requires same { self.now.buddy.layout ≡ layout.now }
        requires pageblock { pageblock < pageblock_count layout.now }
        ensures { result ≡ is_on (pageblock * pageblock_size layout.now)
            (free_list self.now.buddy.areas (isolated_class zone) layout.now.order) }
    {
        let order = Order(layout.order());
        self.is_free(Class::isolated(zone), order, Frame(pageblock.0 << order.0))
    }

    /// Returns whether a free block of this class and order starts at the frame.
    fn is_free(&self, class: Class, order: Order, frame: Frame) -> bool
        requires { frame < frame_count self.now.buddy.layout }
        ensures { result ≡ is_on frame (free_list self.now.buddy.areas class order) }
    {
        match self.buddy.place(frame) {
            Some((found, at)) => found == class && at == order,
            None => false,
        }
    }

    /// Returns how many frames there are from this one to the end of its free block, or 0 if it is
    /// in none.
    pub(crate) fn free_from(&self, layout: &Layout, frame: Frame) -> u32
        requires same { self.now.buddy.layout ≡ layout.now }
        requires frame { frame < frame_count layout.now }
        ensures used { result ≡ 0 → is_in_free_block layout.now self.now.buddy.areas frame ≡ false }
        ensures free { (k : ℕ) → k < result
            → is_in_free_block layout.now self.now.buddy.areas (frame + k) ≡ true }
        ensures most { result ≤ pageblock_size layout.now }
    {
        match self.free_order(layout, frame) {
            Some(order) => {
                let size = 1 << order.0;
                size - frame.0 % size
            }
            None => 0,
        }
    }

    /// Returns the order of the free block that contains the frame.
    fn free_order(&self, layout: &Layout, frame: Frame) -> Option<Order>
        requires same { self.now.buddy.layout ≡ layout.now }
        requires frame { frame < frame_count layout.now }
        ensures is { MatchOption result (is_in_free_block layout.now self.now.buddy.areas frame ≡ false)
            (IsCovered layout.now self.now.buddy.areas frame) }
        ensures layout { IsLayout layout.now }
    {
        for number in 0..layout.order() + 1 {
            let order = Order(number);
            if self.is_free_start(order, frame.ancestor(order)) {
                return Some(order);
            }
        }
        None
    }

    /// Returns whether a free block of this order starts at the frame.
    fn is_free_start(&self, order: Order, frame: Frame) -> bool
        requires { frame < frame_count self.now.buddy.layout }
        ensures { result ≡ is_free_start self.now.buddy.areas order frame }
    {
        is_of_order(self.buddy.place(frame), order)
    }
}

/// Returns whether `place` is a free block of this order.
fn is_of_order(place: Option<(Class, Order)>, order: Order) -> bool
    ensures { result ≡ option_map_or (λ at. at.1 == order) place false }
{
    match place {
        Some((_, at)) => at == order,
        None => false,
    }
}
