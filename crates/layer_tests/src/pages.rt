ghost use Rattle.std.specs.Prelude.{◌≡◌, [], ◌∷◌, IfOk, None, OnOk, Some};
ghost use Rattle.hp_tape.specs.Tapes.{HasRoom, NotesPages};
ghost use Rattle.hp_pages.specs.Pages.{AreSettled};
ghost use Rattle.layer_tests.specs.SmallLayouts.{two_blocks};
ghost use Rattle.layer_tests.specs.SmallPages.{no_pages, second_page};

use crate::layouts::two_blocks;
use hp_pages::Pages;
use hp_tape::{Delta, Tape};
use hp_units::{Frame, Owner, Page};
use std::alloc::{AllocError, Global};
use std::test::Fail;

/// Returns the pages of a layout of four frames, none mapped.
fn small_pages(alloc: Global) -> Result<Pages, Fail>
    ensures layout { IfOk result (λ p. p.layout ≡ two_blocks) }
    ensures pages { IfOk result (λ p. p.pages ≡ no_pages) }
    ensures settled { IfOk result (λ p. AreSettled p.pages) }
{
    let layout = two_blocks(alloc)?;
    let pages = Pages::new(alloc, &layout)?;
    let copy = pages.copy(alloc)?;
    Ok(copy)
}

/// Maps the second page to the third frame.
fn map_page(pages: &mut Pages, tape: &mut Tape)
    requires layout { pages.old.layout ≡ two_blocks }
    requires pages { pages.old.pages ≡ no_pages }
    requires settled { AreSettled pages.old.pages }
    requires room { HasRoom tape.old 1 }
    ensures layout { pages.new.layout ≡ two_blocks }
    ensures pages { pages.new.pages ≡ second_page None }
    ensures settled { AreSettled pages.new.pages }
    ensures notes { NotesPages pages.old.layout 1 tape.old tape.new pages.new.pages pages.old.pages }
{
    pages.map(Owner(0), Page(1), Frame(2), tape);
}

/// Returns whether the mapped page is found by its number and by its frame, and its word 1 is 0.
fn is_found(pages: &Pages) -> bool
    requires layout { pages.now.layout ≡ two_blocks }
    requires pages { pages.now.pages ≡ second_page None }
    requires settled { AreSettled pages.now.pages }
{
    pages.frame_at(Owner(0), Page(1)) == Some(Frame(2))
        && pages.page_at(Frame(2)) == Some((Owner(0), Page(1)))
        && pages.lowest_mapped(Frame(1), 3) == Some(Frame(2))
        && pages.read(Owner(0), Page(1), 1) == 0
}

/// Maps the second page and writes a word. Returns whether the page is found where it was mapped,
/// with that word.
fn is_mapped_and_written(
    alloc: Global,
    pages: &mut Pages,
    tape: &mut Tape,
) -> Result<bool, AllocError>
    requires layout { pages.old.layout ≡ two_blocks }
    requires pages { pages.old.pages ≡ no_pages }
    requires settled { AreSettled pages.old.pages }
    requires room { HasRoom tape.old 2 }
    ensures layout { pages.new.layout ≡ two_blocks }
    ensures pages { OnOk result (pages.new.pages ≡ second_page (Some (0 ∷ 7 ∷ []))) }
    ensures settled { AreSettled pages.new.pages }
{
    map_page(pages, tape);
    let is_found = is_found(pages);
    let prepared = pages.prepare(alloc, Owner(0), Page(1), 1, 7)?;
    pages.write(Owner(0), Page(1), 1, 7, prepared, tape);
    Ok(is_found && matches!(pages.words(Owner(0), Page(1)), Some([0, 7])))
}

/// Writes 2^40 over a word. Returns whether the tape notes the old and the new word, and the page
/// holds the new one.
fn is_large_word_noted(
    alloc: Global,
    pages: &mut Pages,
    tape: &mut Tape,
) -> Result<bool, AllocError>
    requires layout { pages.old.layout ≡ two_blocks }
    requires pages { pages.old.pages ≡ second_page (Some (0 ∷ 7 ∷ [])) }
    requires settled { AreSettled pages.old.pages }
    requires room { HasRoom tape.old 1 }
{
    let large = 1 << 40;
    let prepared = pages.prepare(alloc, Owner(0), Page(1), 1, large)?;
    pages.write(Owner(0), Page(1), 1, large, prepared, tape);
    let copy = tape.copy(alloc)?;
    let is_noted = match copy.as_slice() {
        [
            Delta::LargeWord {
                index: 1,
                change,
                ..
            },
        ] => change.was() == 7 && change.now() == large,
        _ => false,
    };
    Ok(is_noted && pages.read(Owner(0), Page(1), 1) == large)
}

/// Moves the page to the last frame and unmaps it, then undoes the exchange of the two frames'
/// buffers. Returns whether the page was at the last frame, and no frame holds a page now.
fn is_moved_and_unmapped(pages: &mut Pages, tape: &mut Tape) -> bool
    requires layout { pages.old.layout ≡ two_blocks }
    requires pages { pages.old.pages ≡ second_page (Some (0 ∷ 7 ∷ [])) }
    requires settled { AreSettled pages.old.pages }
    requires room { HasRoom tape.old 4 }
{
    pages.move_page(Frame(2), Frame(3), tape);
    let frame = pages.unmap(Owner(0), Page(1), tape);
    pages.back(Delta::Swap {
        a: Frame(2),
        b: Frame(3),
    });
    frame == Frame(3) && pages.lowest_mapped(Frame(0), 4).is_none()
}

#[test]
fn maps_writes_and_moves(rt: HostRuntime) -> Result<(), Fail> {
    let mut pages = small_pages(rt.alloc())?;
    let mut first = Tape::with_room(rt.alloc(), 2)?;
    let mut second = Tape::with_room(rt.alloc(), 4)?;
    let is_written = is_mapped_and_written(rt.alloc(), &mut pages, &mut first)?;
    assert!(rt; is_written && is_moved_and_unmapped(&mut pages, &mut second));
    Ok(())
}

#[test]
fn notes_a_large_word(rt: HostRuntime) -> Result<(), Fail> {
    let mut pages = small_pages(rt.alloc())?;
    let mut first = Tape::with_room(rt.alloc(), 2)?;
    let mut second = Tape::with_room(rt.alloc(), 1)?;
    let is_written = is_mapped_and_written(rt.alloc(), &mut pages, &mut first)?;
    assert!(rt; is_written && is_large_word_noted(rt.alloc(), &mut pages, &mut second)?);
    Ok(())
}
