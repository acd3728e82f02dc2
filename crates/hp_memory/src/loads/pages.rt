//! Loading the owners' pages from an Image.
ghost use Rattle.std.specs.Prelude.{◌≡◌, ◌<◌, [], None, IfOk, OnOk, length, replicate, slice_index_or, slice_set};
ghost use Rattle.hp_units.specs.Arithmetic.{IsFrame};
ghost use Rattle.hp_units.specs.LayoutParts.{IsLayout};
ghost use Rattle.hp_units.specs.Memory.{entry_of, with_entry};
ghost use Rattle.hp_units.specs.Placement.{IsWellPlaced};
ghost use Rattle.hp_tape.specs.Deltas.{buffer_of, page_frames_of, with_buffer};
ghost use Rattle.hp_memory.specs.Tables.{AreCopied};

use hp_pages::{Pages, is_blank};
use hp_plain::Image;
use hp_tape::{Delta, FrameChange};
use hp_units::{Frame, Owner, Page, Words};
use std::alloc::{AllocError, Global};

/// Creates the owners' pages of an Image. Its state must be well placed.
pub fn pages_of(alloc: Global, image: &Image) -> Result<Pages, AllocError>
    requires placed { IsWellPlaced image.now.layout image.now.memory }
    ensures { IfOk result (λ pages. pages ≡ record {
      layout = image.now.layout;
      pages = page_frames_of image.now.layout image.now.memory.pages;
    }) }
{
    let mut pages = Pages::new(alloc, image.layout())?;
    load_table(&mut pages, image);
    load_buffers(alloc, &mut pages, image)?;
    Ok(pages)
}

/// Loads the entries of all pages into an empty table.
fn load_table(pages: &mut Pages, image: &Image)
    requires placed { IsWellPlaced image.now.layout image.now.memory }
    requires layout { pages.old.layout ≡ image.now.layout }
    requires none { AreCopied [] (replicate image.now.layout.pages None) 0 image.now.memory.pages.table
        pages.old.pages.table }
    ensures table { pages.new.pages ≡ record pages.old.pages { table = image.now.memory.pages.table } }
    ensures layout { pages.new.layout ≡ pages.old.layout }
{
    for number in 0..image.layout().owners() {
        load_row(pages, image, Owner(number));
    }
}

/// Loads the entries of one owner's pages into an empty row.
fn load_row(pages: &mut Pages, image: &Image, owner: Owner)
    requires placed { IsWellPlaced image.now.layout image.now.memory }
    requires layout { pages.old.layout ≡ image.now.layout }
    requires owner { owner < image.now.layout.owners }
    requires size { owner < length pages.old.pages.table }
    requires none { slice_index_or pages.old.pages.table owner [] ≡ replicate image.now.layout.pages None }
    ensures row { pages.new.pages ≡ record pages.old.pages {
      table =
          slice_set pages.old.pages.table owner (slice_index_or image.now.memory.pages.table owner []);
    } }
    ensures layout { pages.new.layout ≡ pages.old.layout }
{
    for number in 0..image.layout().pages() {
        load_entry(pages, image, owner, Page(number));
    }
}

/// Loads the entry of one page, which has none yet.
fn load_entry(pages: &mut Pages, image: &Image, owner: Owner, page: Page)
    requires limits { IsLayout image.now.layout }
    requires placed { IsWellPlaced image.now.layout image.now.memory }
    requires layout { pages.old.layout ≡ image.now.layout }
    requires owner { owner < image.now.layout.owners }
    requires page { page < image.now.layout.pages }
    requires none { entry_of pages.old.pages.table owner page ≡ None }
    ensures entry { pages.new.pages ≡ record pages.old.pages {
      table =
          with_entry pages.old.pages.table owner page (entry_of image.now.memory.pages.table owner page);
    } }
    ensures layout { pages.new.layout ≡ pages.old.layout }
{
    if let Some(frame) = image.frame_at(owner, page) {
        let change = FrameChange::Unmapped(frame);
        pages.back(Delta::of_page(owner, page, change));
    }
}

/// Loads the words of all pages into the buffers of their frames.
fn load_buffers(alloc: Global, pages: &mut Pages, image: &Image) -> Result<(), AllocError>
    requires placed { IsWellPlaced image.now.layout image.now.memory }
    requires layout { pages.old.layout ≡ image.now.layout }
    requires table { pages.old.pages.table ≡ image.now.memory.pages.table }
    requires none { AreCopied None None 0 (page_frames_of image.now.layout image.now.memory.pages).buffers
        pages.old.pages.buffers }
    ensures { OnOk result (pages.new ≡ record {
      layout = image.now.layout;
      pages = page_frames_of image.now.layout image.now.memory.pages;
    }) }
{
    for number in 0..image.layout().frames() {
        load_buffer(alloc, pages, image, Frame(number))?;
    }
    Ok(())
}

/// If the frame holds a page, loads the page's words into the frame's buffer. Words that are all 0
/// need no buffer.
fn load_buffer(
    alloc: Global,
    pages: &mut Pages,
    image: &Image,
    frame: Frame,
) -> Result<(), AllocError>
    requires placed { IsWellPlaced image.now.layout image.now.memory }
    requires layout { pages.old.layout ≡ image.now.layout }
    requires table { pages.old.pages.table ≡ image.now.memory.pages.table }
    requires frame { IsFrame image.now.layout frame }
    requires none { buffer_of pages.old.pages frame ≡ None }
    ensures { OnOk result (pages.new ≡ record pages.old {
      pages = with_buffer pages.old.pages frame
          (buffer_of (page_frames_of image.now.layout image.now.memory.pages) frame);
    }) }
{
    let Some(place) = pages.page_at(frame) else {
        return Ok(());
    };
    let Some(slice) = image.words(place.0, place.1) else {
        return Ok(());
    };
    if is_blank(slice) {
        return Ok(());
    }
    let words = Words::new(alloc, Vec::from_slice(alloc, slice)?)?;
    pages.back(Delta::Emptied { frame, words });
    Ok(())
}
