//! The mapped pages of a state.
ghost use Rattle.std.specs.Prelude.{◌≡◌, ◌++◌, OnOk, option_map, string_bytes};
ghost use Rattle.std.specs.List.{flat_map};
ghost use Rattle.hp_text.specs.State.{name_of, newline, number_word, owner_text, page_head, page_line, page_text, pages_text};

use crate::numbers::{write_numbered, write_word};
use hp_plain::Image;
use hp_units::{Frame, Owner, Page, Text};
use indexmap::IndexSet;
use std::alloc::AllocError;

/// Writes a line for each mapped page, by owner and page.
#[tactic(auto, unfolding(crate::specs::State::pages_text))]
pub(super) fn write_pages(
    out: &mut String,
    image: &Image,
    names: &IndexSet<Text>,
) -> Result<(), AllocError>
    ensures { OnOk result (string_bytes out.new
        ≡ string_bytes out.old ++ pages_text image.now.layout names.now.keys image.now.memory.pages) }
{
    for number in 0..image.layout().owners() {
        write_owner(out, image, names, Owner(number))?;
    }
    Ok(())
}

/// Writes a line for each mapped page of an owner.
#[tactic(auto, unfolding(crate::specs::State::owner_text))]
fn write_owner(
    out: &mut String,
    image: &Image,
    names: &IndexSet<Text>,
    owner: Owner,
) -> Result<(), AllocError>
    ensures { OnOk result (string_bytes out.new
        ≡ string_bytes out.old ++ owner_text image.now.layout names.now.keys image.now.memory.pages owner) }
{
    let name = name_of(names, owner);
    for number in 0..image.layout().pages() {
        let page = Page(number);
        write_page(
            out,
            name,
            page,
            image.frame_at(owner, page),
            image.words(owner, page),
        )?;
    }
    Ok(())
}

/// Returns the name of an owner by its number; empty if the number has no name.
pub(crate) fn name_of<'a>(names: &'a IndexSet<Text>, owner: Owner) -> &'a str
    ensures { result.now ≡ name_of names.now.keys owner }
{
    match names.get_index(owner.0 as usize) {
        Some(name) => name.as_str(),
        None => "",
    }
}

/// Writes the line of a page with all its words, if the page is mapped.
fn write_page(
    out: &mut String,
    name: &str,
    page: Page,
    frame: Option<Frame>,
    words: Option<&[u64]>,
) -> Result<(), AllocError>
    ensures { OnOk result (string_bytes out.new
        ≡ string_bytes out.old ++ page_text name.now page frame (option_map (λ w. w.now) words.entry)) }
{
    match frame {
        Some(frame) => write_page_line(out, name, page, frame, words.unwrap_or(&[])),
        None => Ok(()),
    }
}

/// Writes the line of a mapped page.
#[tactic(auto, unfolding(crate::specs::State::page_line))]
fn write_page_line(
    out: &mut String,
    name: &str,
    page: Page,
    frame: Frame,
    words: &[u64],
) -> Result<(), AllocError>
    ensures { OnOk result
        (string_bytes out.new ≡ string_bytes out.old ++ page_line name.now page frame words.now) }
{
    write_page_head(out, name, page, frame)?;
    write_words(out, words)
}

/// Writes the head of the line of a mapped page.
fn write_page_head(out: &mut String, name: &str, page: Page, frame: Frame) -> Result<(), AllocError>
    ensures { OnOk result (string_bytes out.new ≡ string_bytes out.old ++ page_head name.now page frame) }
{
    out.push_str("page ")?;
    out.push_str(name)?;
    write_word(out, u64::from(page.0))?;
    write_numbered(out, " at ", u64::from(frame.0))?;
    out.push_str(":")?;
    Ok(())
}

/// Writes words, each after a space, and a newline.
fn write_words(out: &mut String, words: &[u64]) -> Result<(), AllocError>
    ensures { OnOk result
        (string_bytes out.new ≡ string_bytes out.old ++ flat_map number_word words.now ++ newline) }
{
    for word in words {
        write_word(out, *word)?;
    }
    out.push('\n')
}
