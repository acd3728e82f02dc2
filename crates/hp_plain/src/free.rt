//! Tests of the free blocks: each must be aligned, on the list of its class, and in no other place.
ghost use Rattle.std.specs.Prelude.{◌≡◌, ◌≤◌, MatchBool, Some};
ghost use Rattle.hp_units.specs.Arithmetic.{pageblock_of};
ghost use Rattle.hp_units.specs.Placement.{IsBlockOf, class_at, list_places};
ghost use Rattle.hp_plain.specs.Placing.{AreMarked, IsListPlaced, IsTwice};

use crate::marks::Marks;
use crate::rows::{kind_of, row_at};
use hp_units::{Class, Frame, Kind, Layout, Order, Row, pageblock_of};

/// Returns whether the free blocks of a class and an order are where they may be, and marks their
/// frames. Returns false if a frame is already marked.
pub fn place_list(
    layout: &Layout,
    kinds: &[Kind],
    rows: &[Row],
    marks: &mut Marks,
    class: Class,
    order: Order,
    frames: &[Frame],
) -> bool
    requires { order ≤ 10 }
    ensures { MatchBool result
        (IsListPlaced layout.now kinds.now rows.now class order frames.now × AreMarked marks.old marks.new
        (λ frame. list_places frame order frames.now))
        (IsListPlaced layout.now kinds.now rows.now class order frames.now → IsTwice marks.old
        (λ frame. list_places frame order frames.now)) }
{
    for first in frames {
        if !is_block_of(layout, kinds, rows, class, order, *first) {
            return false;
        }
        if !marks.mark(order, *first) {
            return false;
        }
    }
    true
}

/// Returns whether a free block of this class and order may start at the frame.
fn is_block_of(
    layout: &Layout,
    kinds: &[Kind],
    rows: &[Row],
    class: Class,
    order: Order,
    first: Frame,
) -> bool
    requires { order ≤ 10 }
    ensures { MatchBool result
        (IsBlockOf layout.now (class_at layout.now kinds.now rows.now) class order first)
        (IsBlockOf layout.now (class_at layout.now kinds.now rows.now) class order first → ⊥) }
{
    first.0.is_multiple_of(1 << order.0) && is_of_class(layout, kinds, rows, class, first)
}

/// Returns whether free blocks of the frame's pageblock belong to the class.
fn is_of_class(layout: &Layout, kinds: &[Kind], rows: &[Row], class: Class, frame: Frame) -> bool
    ensures { MatchBool result
        (class_at layout.now kinds.now rows.now (pageblock_of layout.now frame) ≡ Some class)
        (class_at layout.now kinds.now rows.now (pageblock_of layout.now frame) ≡ Some class
        → ⊥) }
{
    let pageblock = pageblock_of(layout, frame);
    match row_at(layout, rows, pageblock).zone {
        Some(zone) => Class::of_kind(zone, kind_of(kinds, pageblock)) == class,
        None => false,
    }
}
