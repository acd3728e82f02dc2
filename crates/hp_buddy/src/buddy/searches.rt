//! Searches for an order: the least and the greatest that has a free block, and the one up to which
//! a block joins.
ghost use Rattle.std.specs.Prelude.{◌≡◌, ◌+◌, ◌-◌, ◌<◌, ◌≤◌};
ghost use Rattle.hp_units.specs.Arithmetic.{frame_count};
ghost use Rattle.hp_units.specs.FreeAreas.{greatest_order, is_on, join_order, least_order};
ghost use Rattle.hp_units.specs.LayoutParts.{IsLayout};
ghost use Rattle.hp_units.specs.Memory.{free_list};

use super::Buddy;
use crate::classes::area_list;
use hp_units::{Class, Frame, Order, buddy};

impl Buddy {
    /// Returns whether the class has a free block of this order at the frame.
    pub(super) fn is_free(&self, class: Class, order: Order, frame: Frame) -> bool
        requires order { order ≤ self.now.layout.order }
        requires frame { frame < frame_count self.now.layout }
        ensures { result ≡ is_on frame (free_list self.now.areas class order) }
    {
        match self.links.list_of(frame) {
            Some(list) => list == area_list(class, order),
            None => false,
        }
    }

    /// Returns the least order, from `first` up, at which the class has a free block.
    pub(super) fn least_order(&self, class: Class, first: Order) -> Option<Order>
        ensures { result ≡ least_order self.now.areas class first (self.now.layout.order + 1 - first) }
    {
        for order in first.0..=self.layout.order() {
            if self.len(class, Order(order)) > 0 {
                return Some(Order(order));
            }
        }
        None
    }

    /// Returns the greatest order, down to `first`, at which the class has a free block.
    pub(super) fn greatest_order(&self, class: Class, first: Order) -> Option<Order>
        ensures { result ≡ greatest_order self.now.areas class first (self.now.layout.order + 1 - first) }
    {
        for order in (first.0..self.layout.order() + 1).rev() {
            if self.len(class, Order(order)) > 0 {
                return Some(Order(order));
            }
        }
        None
    }

    /// Returns the order that a block of order `first` has after it joined with its free buddies.
    pub(super) fn join_order(&self, class: Class, frame: Frame, first: Order) -> Order
        requires first { first ≤ self.now.layout.order }
        requires frame { frame < frame_count self.now.layout }
        ensures joined { result
            ≡ join_order self.now.areas class frame first (self.now.layout.order - first) }
        ensures layout { IsLayout self.now.layout }
    {
        let last = self.layout.order();
        for order in first.0..last {
            let half = frame.ancestor(Order(order));
            if !self.is_free(class, Order(order), buddy(half, Order(order))) {
                return Order(order);
            }
        }
        Order(last)
    }
}
