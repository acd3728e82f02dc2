//! A layout as an object of a scenario.
ghost use Rattle.std.specs.Prelude.{◌≡◌, ◌++◌, OnOk, string_bytes};
ghost use Rattle.hp_text.specs.Layouts.{boot_entry, boot_list_text, boot_word, boots_text, counts_text, frames_text, layout_text, limits_text, marks_text, pages_text, rest_text, sizes_text};

use crate::separated::write_mark;
use hp_units::{Boot, Layout};
use std::alloc::AllocError;

/// Writes a layout as an object with its eleven keys.
#[tactic(auto, unfolding(crate::specs::Layouts::layout_text))]
pub(crate) fn write_layout(out: &mut String, layout: &Layout) -> Result<(), AllocError>
    ensures { OnOk result (string_bytes out.new ≡ string_bytes out.old ++ layout_text layout.now) }
{
    write_sizes(out, layout)?;
    write_limits(out, layout)?;
    write_boot_list(out, layout.boot())
}

/// Writes the numbers of frames, blocks and processors, and `batch` and `high` of the processors'
/// lists.
#[tactic(auto, unfolding(crate::specs::Layouts::sizes_text))]
fn write_sizes(out: &mut String, layout: &Layout) -> Result<(), AllocError>
    ensures { OnOk result (string_bytes out.new ≡ string_bytes out.old ++ sizes_text layout.now) }
{
    write_frame_keys(out, layout.order(), layout.pageblocks())?;
    write_block_keys(out, layout.blocks(), layout.cpus())?;
    write_marks(out, layout.batch(), layout.high())
}

#[tactic(auto, unfolding(crate::specs::Layouts::frames_text))]
fn write_frame_keys(out: &mut String, order: u32, pageblocks: u32) -> Result<(), AllocError>
    ensures { OnOk result
        (string_bytes out.new ≡ string_bytes out.old ++ frames_text order pageblocks) }
{
    write!(out, "{{\"order\": {order}, \"pageblocks\": {pageblocks}")
}

#[tactic(auto, unfolding(crate::specs::Layouts::counts_text))]
fn write_block_keys(out: &mut String, blocks: u32, cpus: u32) -> Result<(), AllocError>
    ensures { OnOk result (string_bytes out.new ≡ string_bytes out.old ++ counts_text blocks cpus) }
{
    write!(out, ", \"blocks\": {blocks}, \"cpus\": {cpus}")
}

#[tactic(auto, unfolding(crate::specs::Layouts::marks_text))]
fn write_marks(out: &mut String, batch: u32, high: u32) -> Result<(), AllocError>
    ensures { OnOk result (string_bytes out.new ≡ string_bytes out.old ++ marks_text batch high) }
{
    write!(out, ", \"batch\": {batch}, \"high\": {high}")
}

/// Writes the limits: how many owners, pages, words and records there may be.
#[tactic(auto, unfolding(crate::specs::Layouts::limits_text))]
fn write_limits(out: &mut String, layout: &Layout) -> Result<(), AllocError>
    ensures { OnOk result (string_bytes out.new ≡ string_bytes out.old ++ limits_text layout.now) }
{
    write_page_keys(out, layout.owners(), layout.pages())?;
    write_rest(out, layout.words(), layout.history())
}

#[tactic(auto, unfolding(crate::specs::Layouts::pages_text))]
fn write_page_keys(out: &mut String, owners: u32, pages: u32) -> Result<(), AllocError>
    ensures { OnOk result (string_bytes out.new ≡ string_bytes out.old ++ pages_text owners pages) }
{
    write!(out, ",\n\"owners\": {owners}, \"pages\": {pages}")
}

#[tactic(auto, unfolding(crate::specs::Layouts::rest_text))]
fn write_rest(out: &mut String, words: u32, history: u64) -> Result<(), AllocError>
    ensures { OnOk result (string_bytes out.new ≡ string_bytes out.old ++ rest_text words history) }
{
    write!(out, ", \"words\": {words}, \"history\": {history}")
}

/// Writes the key `boot` with the state of each memory block at boot, and closes the object.
#[tactic(auto, unfolding(crate::specs::Layouts::boot_list_text))]
fn write_boot_list(out: &mut String, boots: &[Boot]) -> Result<(), AllocError>
    ensures { OnOk result (string_bytes out.new ≡ string_bytes out.old ++ boot_list_text boots.now) }
{
    out.push_str(",\n\"boot\": [")?;
    write_boots(out, boots)?;
    out.push_str("]}")?;
    Ok(())
}

/// Writes states at boot, separated by commas.
#[tactic(auto, unfolding(crate::specs::Layouts::boots_text))]
fn write_boots(out: &mut String, boots: &[Boot]) -> Result<(), AllocError>
    ensures { OnOk result (string_bytes out.new ≡ string_bytes out.old ++ boots_text boots.now) }
{
    let mut is_first = true;
    for boot in boots {
        write_mark(out, ", ", is_first)?;
        write_boot(out, *boot)?;
        is_first = false;
    }
    Ok(())
}

/// Writes a memory block's state at boot between quotation marks.
fn write_boot(out: &mut String, boot: Boot) -> Result<(), AllocError>
    ensures { OnOk result (string_bytes out.new ≡ string_bytes out.old ++ boot_entry boot) }
{
    let word = boot_word(boot);
    write!(out, "\"{word}\"")
}

/// Returns the word for a memory block's state at boot.
fn boot_word(boot: Boot) -> &'static str
    ensures { result.now ≡ boot_word boot }
{
    match boot {
        Boot::Offline => "offline",
        Boot::Normal => "normal",
        Boot::Movable => "movable",
        Boot::Absent => "absent",
    }
}
