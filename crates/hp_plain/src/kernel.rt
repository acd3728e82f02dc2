//! Tests of the kernel blocks: each must be aligned, in zone Normal, and in no other place.
ghost use Rattle.std.specs.Prelude.{◌≡◌, ◌≤◌, IfSome, IsTrue, MatchBool, length};
ghost use Rattle.hp_units.specs.Arithmetic.{frame_count};
ghost use Rattle.hp_units.specs.Placement.{IsKernelAt};
ghost use Rattle.hp_plain.specs.Placing.{AreMarked, IsKernelPlaced, IsTwice, kernel_counts, kernel_covered};

use crate::marks::Marks;
use crate::rows::row_at;
use hp_units::{Frame, Layout, Order, Row, Zone, pageblock_of};

/// Returns whether the kernel blocks are where they may be, and marks their frames. Returns false
/// if a frame is already marked.
pub fn place_kernel(
    layout: &Layout,
    kernel: &[Option<Order>],
    rows: &[Row],
    marks: &mut Marks,
) -> bool
    requires { length kernel.now ≡ frame_count layout.now }
    ensures { MatchBool result
        (IsKernelPlaced layout.now rows.now kernel.now
        × AreMarked marks.old marks.new (kernel_counts kernel.now))
        (IsKernelPlaced layout.now rows.now kernel.now
        → IsTwice marks.old (kernel_counts kernel.now)) }
{
    for number in 0..layout.frames() {
        if !place_entry(layout, rows, marks, Frame(number), kernel[number as usize]) {
            return false;
        }
    }
    true
}

/// Returns whether a kernel block, if there is one, may start at the frame, and marks its frames.
/// Returns false if one of them is already marked.
fn place_entry(
    layout: &Layout,
    rows: &[Row],
    marks: &mut Marks,
    first: Frame,
    entry: Option<Order>,
) -> bool
    ensures { MatchBool result
        (IfSome entry (IsKernelAt layout.now rows.now first)
        × AreMarked marks.old marks.new (λ frame. kernel_covered frame first entry))
        (IfSome entry (IsKernelAt layout.now rows.now first)
        → IsTwice marks.old (λ frame. kernel_covered frame first entry)) }
{
    match entry {
        Some(order) => { is_kernel_at(layout, rows, first, order) && marks.mark(order, first) }
        None => true,
    }
}

/// Returns whether a kernel block of this order may start at the frame.
fn is_kernel_at(layout: &Layout, rows: &[Row], first: Frame, order: Order) -> bool
    ensures order { IsTrue result → order ≤ 10 }
    ensures is { MatchBool result (IsKernelAt layout.now rows.now first order)
        (IsKernelAt layout.now rows.now first order → ⊥) }
{
    if order.0 > layout.order() || !first.0.is_multiple_of(1 << order.0) {
        return false;
    }
    matches!(
        row_at(layout, rows, pageblock_of(layout, first)).zone,
        Some(Zone::Normal)
    )
}
