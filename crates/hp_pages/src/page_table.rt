//! Maps each owner's pages to frames, and frames back to pages.
ghost use Rattle.std.specs.Prelude.{◌≡◌, ◌+◌, ◌*◌, ◌<◌, ◌≤◌, ◌^◌, IfOk, IfSome, None, find, is_some, length, replicate, slice_index_or, slice_set};
ghost use Rattle.hp_pages.specs.Places.{frame_of_code};
ghost use Rattle.hp_units.specs.Memory.{entry_of, with_entry};
ghost use Rattle.hp_units.specs.Pages.{page_from};
ghost use Rattle.std.specs.List.{range_with_len};
ghost use Rattle.hp_pages.specs.Places.{IsTable, holders, place_of};

use crate::place_sums::PlaceSums;
use hp_units::{Frame, Owner, Page};
use std::alloc::{AllocError, Global};
use std::marker::Model;

/// The frames of one owner's pages, as codes: 0 for a page that is not mapped, and its frame plus
/// one otherwise. A code takes only four bytes, because most calls wait for a read of this table.
#[derive(Drop)]
struct PageRow {
    codes: Vec<u32>,
}

impl Model for PageRow {
    ghost use Rattle.std.specs.Prelude.{List, ℕ, Option, map};
    ghost use Rattle.hp_pages.specs.Places.{frame_of_code};

    ghost Value = { List (Option ℕ) };

    ghost view = { λ r. map frame_of_code r.codes.items };
}

impl PageRow {
    /// Creates the entries of `pages` pages, none mapped.
    fn empty(alloc: Global, pages: u32) -> Result<PageRow, AllocError>
        ensures { IfOk result (λ row. row ≡ replicate pages None) }
    {
        let codes = no_codes(alloc, pages)?;
        Ok(PageRow { codes })
    }

    /// Returns a copy.
    fn copy(&self, alloc: Global) -> Result<PageRow, AllocError>
        ensures { IfOk result (λ row. row ≡ self.now) }
    {
        let codes = Vec::from_slice(alloc, self.codes.as_slice())?;
        Ok(PageRow { codes })
    }

    /// Returns the frame of a page, if it is mapped.
    fn at(&self, page: Page) -> Option<Frame>
        requires { page < length self.now }
        ensures { result ≡ slice_index_or self.now page None }
    {
        frame_of_code(self.codes[page.0 as usize])
    }

    /// Sets the frame of a page.
    fn set(&mut self, page: Page, frame: Option<Frame>)
        requires page { page < length self.old }
        requires small { IfSome frame (λ frame. frame < 2 ^ 20) }
        ensures { self.new ≡ slice_set self.old page frame }
    {
        self.codes[page.0 as usize] = code_of(frame);
    }
}

/// Returns the codes of `pages` pages, none mapped.
fn no_codes(alloc: Global, pages: u32) -> Result<Vec<u32>, AllocError>
    ensures { IfOk result (λ codes. codes.items ≡ replicate pages 0) }
{
    let codes = vec![in alloc; 0; pages as usize]?;
    Ok(codes)
}

/// Decodes a page's frame: 0 is none; any other code is the frame plus one.
fn frame_of_code(code: u32) -> Option<Frame>
    ensures { result ≡ frame_of_code code }
{
    if code == 0 {
        None
    } else {
        Some(Frame(code - 1))
    }
}

/// Returns the code of a page's frame.
fn code_of(frame: Option<Frame>) -> u32
    requires { IfSome frame (λ frame. frame < 2 ^ 20) }
    ensures { frame_of_code result ≡ frame }
{
    match frame {
        Some(frame) => frame.0 + 1,
        None => 0,
    }
}

/// Which frame holds each page, and which page each frame holds.
pub(crate) struct Table {
    pages: u32,
    rows: Vec<PageRow>,
    sums: PlaceSums,
}

/// Keeps callers from proving again how each field is dropped.
impl Drop for Table {
    fn drop(self) {
        let Table {
            pages: _pages,
            rows: _rows,
            sums: _sums,
        } = self;
    }
}

impl Model for Table {
    ghost use Rattle.std.specs.Prelude.{length};
    ghost use Rattle.hp_pages.specs.Places.{AreSumsOf, TableValue};

    ghost Value = { TableValue };

    ghost view = { λ t. record { frames = length t.sums; pages = t.pages; rows = t.rows.items } };

    ghost invariant = { λ t.
        AreSumsOf (record { frames = length t.sums; pages = t.pages; rows = t.rows.items }) t.sums };
}

impl Table {
    /// Creates a table with no page mapped. There may be at most 64 owners, 1 to 2^16 pages per
    /// owner and at most 2^20 frames.
    pub(crate) fn empty(
        alloc: Global,
        owners: u32,
        pages: u32,
        frames: u32,
    ) -> Result<Table, AllocError>
        requires owners { owners ≤ 64 }
        requires some_pages { 1 ≤ pages }
        requires pages { pages ≤ 2 ^ 16 }
        requires frames { frames ≤ 2 ^ 20 }
        ensures { IfOk result (λ t.
            t ≡ record { frames = frames; pages = pages; rows = replicate owners (replicate pages None) }) }
    {
        let rows = empty_rows(alloc, owners, pages)?;
        let sums = PlaceSums::none(alloc, frames)?;
        Ok(Table { pages, rows, sums })
    }

    /// Returns a copy.
    pub(crate) fn copy(&self, alloc: Global) -> Result<Table, AllocError>
        ensures { IfOk result (λ t. t ≡ self.now) }
    {
        let rows = copy_of_rows(alloc, &self.rows)?;
        let sums = self.sums.copy(alloc)?;
        Ok(Table {
            pages: self.pages,
            rows,
            sums,
        })
    }

    /// Returns the frame of a page, if it is mapped.
    pub(crate) fn frame_at(&self, owner: Owner, page: Page) -> Option<Frame>
        requires owner { owner < length self.now.rows }
        requires page { page < self.now.pages }
        ensures frame { result ≡ entry_of self.now.rows owner page }
        ensures table { IsTable self.now }
    {
        self.rows[owner.0 as usize].at(page)
    }

    /// Returns the page that a frame holds. The frame must not hold more than one.
    pub(crate) fn page_at(&self, frame: Frame) -> Option<(Owner, Page)>
        requires frame { frame < self.now.frames }
        requires once { holders self.now.rows frame ≤ 1 }
        ensures page { result ≡ page_from 0 self.now.rows frame }
        ensures table { IsTable self.now }
    {
        let sum = self.sums.at(frame);
        if sum == 0 {
            return None;
        }
        let before = sum - 1;
        let pages = self.pages as u64;
        Some((
            Owner((before / pages) as u32),
            Page((before % pages) as u32),
        ))
    }

    /// Changes a page's frame from `was` to `now`; `None` means not mapped.
    ///
    /// Reads no entry, because entries are seldom in a cache.
    pub(crate) fn set(&mut self, owner: Owner, page: Page, was: Option<Frame>, now: Option<Frame>)
        requires owner { owner < length self.old.rows }
        requires page { page < self.old.pages }
        requires was { entry_of self.old.rows owner page ≡ was }
        requires frame { IfSome now (λ frame. frame < self.old.frames) }
        ensures set { self.new ≡ record self.old { rows = with_entry self.old.rows owner page now } }
        ensures was_table { IsTable self.old }
    {
        let entry = now; // a copy, since two calls take the entry
        let place = self.place(owner, page);
        self.sums.leave(was, place);
        let row = &mut self.rows[owner.0 as usize];
        row.set(page, entry);
        self.sums.join(now, place);
    }

    /// Returns the lowest frame with a page among the `count` frames from `first` on. Takes one
    /// step per 64 frames.
    pub(crate) fn lowest(&self, first: u32, count: u32) -> Option<Frame>
        requires { first + count ≤ self.now.frames }
        ensures { result
            ≡ find (λ frame. is_some (page_from 0 self.now.rows frame)) (range_with_len first count) }
    {
        self.sums.lowest(first, first + count)
    }

    /// Returns the index of a page among the pages of all owners, counted from 1.
    fn place(&self, owner: Owner, page: Page) -> u64
        requires owner { owner < length self.now.rows }
        requires page { page < self.now.pages }
        ensures { result ≡ place_of self.now.pages owner page }
    {
        1 + owner.0 as u64 * self.pages as u64 + page.0 as u64
    }
}

/// Returns the entries of `owners` owners with `pages` pages each, none mapped.
fn empty_rows(alloc: Global, owners: u32, pages: u32) -> Result<Vec<PageRow>, AllocError>
    ensures { IfOk result (λ rows. rows.items ≡ replicate owners (replicate pages None)) }
{
    let mut rows = Vec::with_capacity(alloc, owners as usize)?;
    for _owner in 0..owners {
        rows.push(PageRow::empty(alloc, pages)?)?;
    }
    Ok(rows)
}

/// Returns copies of the rows.
fn copy_of_rows(alloc: Global, rows: &[PageRow]) -> Result<Vec<PageRow>, AllocError>
    ensures { IfOk result (λ copy. copy.items ≡ rows.now) }
{
    let mut copy = Vec::with_capacity(alloc, rows.len())?;
    for row in rows {
        copy.push(row.copy(alloc)?)?;
    }
    Ok(copy)
}
