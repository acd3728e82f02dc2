//! Tests of the single frames on processors' lists: each must be on a list of its pool, and in no
//! other place.
ghost use Rattle.std.specs.Prelude.{◌≡◌, ◌==◌, MatchBool, Some, count_by};
ghost use Rattle.hp_units.specs.Arithmetic.{pageblock_of};
ghost use Rattle.hp_units.specs.Placement.{pool_at};
ghost use Rattle.hp_plain.specs.Placing.{AreMarked, IsPoolPlaced, IsTwice, pool_numbered};

use crate::marks::Marks;
use crate::rows::{kind_of, row_at};
use hp_units::{Frame, Kind, Layout, Order, Pool, Row, pageblock_of};

/// Returns the pool with this number, 0 to 2. Any greater number gives the last pool.
pub fn pool_numbered(number: u32) -> Pool
    ensures { result ≡ pool_numbered number }
{
    match number {
        0 => Pool::Nu,
        1 => Pool::Nm,
        _ => Pool::Mm,
    }
}

/// Returns whether the frames on a list of a pool are where they may be, and marks them. Returns
/// false if a frame is already marked.
pub fn place_pool(
    layout: &Layout,
    kinds: &[Kind],
    rows: &[Row],
    marks: &mut Marks,
    pool: Pool,
    frames: &[Frame],
) -> bool
    ensures { MatchBool result
        (IsPoolPlaced layout.now kinds.now rows.now pool frames.now × AreMarked marks.old marks.new
        (λ frame. count_by (λ other. other == frame) frames.now))
        (IsPoolPlaced layout.now kinds.now rows.now pool frames.now → IsTwice marks.old
        (λ frame. count_by (λ other. other == frame) frames.now)) }
{
    for frame in frames {
        if !is_of_pool(layout, kinds, rows, pool, *frame) {
            return false;
        }
        if !marks.mark(Order(0), *frame) {
            return false;
        }
    }
    true
}

/// Returns whether single frames of the frame's pageblock belong to the pool.
fn is_of_pool(layout: &Layout, kinds: &[Kind], rows: &[Row], pool: Pool, frame: Frame) -> bool
    ensures { MatchBool result
        (pool_at layout.now kinds.now rows.now (pageblock_of layout.now frame) ≡ Some pool)
        (pool_at layout.now kinds.now rows.now (pageblock_of layout.now frame) ≡ Some pool
        → ⊥) }
{
    let pageblock = pageblock_of(layout, frame);
    match row_at(layout, rows, pageblock).zone {
        Some(zone) => Pool::of_mobility(zone, kind_of(kinds, pageblock).mobility) == pool,
        None => false,
    }
}
