//! Tests the parts of a state one by one: each must lie where it may, and none of its frames may be
//! marked yet. `free`, `cached`, `kernel` and `placed_pages` test single blocks, frames and pages.
ghost use Rattle.std.specs.Prelude.{◌≡◌, ◌+◌, ◌*◌, ◌<◌, [], IfOk, MatchBool, count_by, length, slice_index_or, ℕ};
ghost use Rattle.hp_units.specs.Arithmetic.{frame_count};
ghost use Rattle.hp_units.specs.InLayout.{AreFreeAreasOf, ArePagesOf};
ghost use Rattle.hp_units.specs.Pages.{holds};
ghost use Rattle.hp_units.specs.Placement.{cached_places, free_places, mapped_places};
ghost use Rattle.hp_plain.specs.Placing.{AreListsJoined, AreListsPlaced, AreMarked, AreOwnersPages, ArePages, ArePoolsPlaced, IsTwice};

use crate::areas::Areas;
use crate::blocks::Blocks;
use crate::frames::FreeFrames;
use crate::pages::Pages;
use crate::{Heads, Marks, place_list, place_page, place_pool, pool_numbered};
use hp_units::{Class, Cpu, Layout, Order, Owner, Page};
use std::alloc::{AllocError, Global};

/// Returns whether the free blocks are where they may be, and marks their frames. Returns false if
/// a frame is already marked.
pub(crate) fn place_free(layout: &Layout, areas: &Areas, blocks: &Blocks, marks: &mut Marks) -> bool
    requires { length areas.now.lists ≡ 5 * (layout.now.order + 1) }
    ensures { MatchBool result
        (AreListsPlaced layout.now areas.now blocks.now.rows
        × AreMarked marks.old marks.new (free_places areas.now))
        (AreListsPlaced layout.now areas.now blocks.now.rows
        → IsTwice marks.old (free_places areas.now)) }
{
    let kinds = areas.kinds();
    let rows = blocks.rows();
    for number in 0..5 * (layout.order() + 1) {
        let class = Class::numbered(number % 5);
        let order = Order(number / 5);
        let frames = areas.free_list(class, order);
        if !place_list(layout, kinds, rows, marks, class, order, frames) {
            return false;
        }
    }
    true
}

/// Returns whether the frames on processors' lists are where they may be, and marks them. Returns
/// false if a frame is already marked.
pub(crate) fn place_cached(
    layout: &Layout,
    free: &FreeFrames,
    blocks: &Blocks,
    marks: &mut Marks,
) -> bool
    requires { length free.now.cached ≡ 3 * layout.now.cpus }
    ensures { MatchBool result
        (ArePoolsPlaced layout.now free.now blocks.now.rows
        × AreMarked marks.old marks.new (cached_places free.now))
        (ArePoolsPlaced layout.now free.now blocks.now.rows
        → IsTwice marks.old (cached_places free.now)) }
{
    let kinds = free.areas().kinds();
    let rows = blocks.rows();
    for number in 0..3 * layout.cpus() {
        let pool = pool_numbered(number % 3);
        let frames = free.cached_list(Cpu(number / 3), pool);
        if !place_pool(layout, kinds, rows, marks, pool, frames) {
            return false;
        }
    }
    true
}

/// Returns whether each page has both a frame and the layout's number of words, or neither, and
/// marks the frames. Returns false if a frame is already marked.
pub(crate) fn place_pages(layout: &Layout, pages: &Pages, marks: &mut Marks) -> bool
    requires { ArePagesOf layout.now pages.now }
    ensures { MatchBool result
        (ArePages layout.now pages.now × AreMarked marks.old marks.new (mapped_places pages.now))
        (ArePages layout.now pages.now → IsTwice marks.old (mapped_places pages.now)) }
{
    for owner in 0..layout.owners() {
        if !place_owner(layout, pages, marks, Owner(owner)) {
            return false;
        }
    }
    true
}

/// Returns whether each page of one owner has both a frame and the layout's number of words, or
/// neither, and marks the frames. Returns false if a frame is already marked.
fn place_owner(layout: &Layout, pages: &Pages, marks: &mut Marks, owner: Owner) -> bool
    requires pages { ArePagesOf layout.now pages.now }
    requires owner { owner < layout.now.owners }
    ensures { MatchBool result
        (AreOwnersPages layout.now pages.now owner × AreMarked marks.old marks.new
        (λ frame. count_by (holds frame) (slice_index_or pages.now.table owner [])))
        (AreOwnersPages layout.now pages.now owner → IsTwice marks.old
        (λ frame. count_by (holds frame) (slice_index_or pages.now.table owner []))) }
{
    for number in 0..layout.pages() {
        let page = Page(number);
        let frame = pages.frame_at(owner, page);
        if !place_page(layout, marks, frame, pages.words_at(owner, page)) {
            return false;
        }
    }
    true
}

/// Returns whether, below the greatest order, no free block's buddy is free in the same class.
pub(crate) fn are_joined(alloc: Global, layout: &Layout, areas: &Areas) -> Result<bool, AllocError>
    requires { AreFreeAreasOf layout.now areas.now }
    ensures { IfOk result (λ joined. MatchBool joined (AreListsJoined layout.now areas.now)
        (AreListsJoined layout.now areas.now → ⊥)) }
{
    let mut heads = Heads::new(alloc, layout)?;
    Ok(are_joined_by(&mut heads, layout, areas))
}

/// Returns whether, below the greatest order, no free block's buddy is free in the same class.
/// `heads` is a table of free blocks' first frames, in which nothing may be set yet.
fn are_joined_by(heads: &mut Heads, layout: &Layout, areas: &Areas) -> bool
    requires areas { AreFreeAreasOf layout.now areas.now }
    requires length { length heads.old ≡ frame_count layout.now }
    requires zero { (frame : ℕ) → slice_index_or heads.old frame 0 ≡ 0 }
    ensures { MatchBool result (AreListsJoined layout.now areas.now)
        (AreListsJoined layout.now areas.now → ⊥) }
{
    for number in 0..5 * layout.order() {
        let order = Order(number / 5);
        let frames = areas.free_list(Class::numbered(number % 5), order);
        heads.set(frames, number as u8 + 1);
        if !heads.is_joined(frames, order, number as u8 + 1) {
            return false;
        }
    }
    true
}
