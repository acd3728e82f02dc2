//! How a state differs from that of the row above.
ghost use Rattle.std.specs.Prelude.{◌≡◌, OnOk};
ghost use Rattle.hp_trace_json.specs.ChangeObjects.{PutsChange, PutsSome, is_all_kept};

use crate::blocks::{BlockNow, PageblockNow};
use crate::change::StateChange;
use crate::frames::{KernelNow, PageNow};
use crate::lists::{CpuListNow, FreeListNow};
use crate::splices::Splice;
use crate::words::WordNow;
use crate::writing::keys::{name_of, write_auto, write_frame, write_order, write_row};
use hp_units::{Auto, Frame, Text};
use indexmap::IndexSet;
use json::Writer;
use std::alloc::{AllocError, Global};

/// Writes what a row reports of the state: nothing if nothing changed.
pub(super) fn write_change(
    out: &mut Writer,
    alloc: Global,
    names: &IndexSet<Text>,
    change: &StateChange,
) -> Result<(), AllocError>
    ensures { OnOk result (PutsChange out.old change.now out.new) }
{
    if is_empty(change) {
        return Ok(());
    }
    out.key("change")?;
    out.begin_object()?;
    write_parts(out, alloc, names, change)?;
    out.end_object()
}

/// Writes the parts that changed.
fn write_parts(
    out: &mut Writer,
    alloc: Global,
    names: &IndexSet<Text>,
    change: &StateChange,
) -> Result<(), AllocError>
    ensures { OnOk result (PutsSome out.old out.new) }
{
    write_blocks(out, alloc, change.blocks.as_slice())?;
    write_pageblocks(out, alloc, change.pageblocks.as_slice())?;
    write_lists(
        out,
        alloc,
        change.free_lists.as_slice(),
        change.cpu_lists.as_slice(),
    )?;
    write_kernel(out, alloc, change.kernel.as_slice())?;
    write_pages(out, alloc, names, change.pages.as_slice())?;
    write_words(out, alloc, names, change.words.as_slice())?;
    write_settings(out, change.auto)
}

/// Returns whether nothing changed.
fn is_empty(change: &StateChange) -> bool
    ensures { result ≡ is_all_kept change.now }
{
    change.blocks.is_empty()
        && change.pageblocks.is_empty()
        && change.free_lists.is_empty()
        && change.cpu_lists.is_empty()
        && change.kernel.is_empty()
        && change.pages.is_empty()
        && change.words.is_empty()
        && change.auto.is_none()
}

/// Writes the memory blocks that changed, if any did.
fn write_blocks(out: &mut Writer, alloc: Global, blocks: &[BlockNow]) -> Result<(), AllocError>
    ensures { OnOk result (PutsSome out.old out.new) }
{
    if blocks.is_empty() {
        return Ok(());
    }
    out.key("blocks")?;
    out.begin_object()?;
    for told in blocks {
        write_number_key(out, alloc, told.block.0)?;
        match &told.row {
            Some(row) => write_row(out, row)?,
            None => out.null()?,
        }
    }
    out.end_object()
}

/// Writes a number as a key.
fn write_number_key(out: &mut Writer, alloc: Global, number: u32) -> Result<(), AllocError>
    ensures { OnOk result (PutsSome out.old out.new) }
{
    let key = format!(in alloc; "{number}")?;
    out.key(key.as_str())
}

/// Writes the pageblocks that changed, if any did.
fn write_pageblocks(
    out: &mut Writer,
    alloc: Global,
    pageblocks: &[PageblockNow],
) -> Result<(), AllocError>
    ensures { OnOk result (PutsSome out.old out.new) }
{
    if pageblocks.is_empty() {
        return Ok(());
    }
    out.key("pageblocks")?;
    out.begin_object()?;
    for told in pageblocks {
        write_number_key(out, alloc, told.pageblock.0)?;
        if told.is_unmovable {
            out.string("unmovable")?;
        } else {
            out.null()?;
        }
    }
    out.end_object()
}

/// Writes the lists that changed, if any did.
fn write_lists(
    out: &mut Writer,
    alloc: Global,
    free_lists: &[FreeListNow],
    cpu_lists: &[CpuListNow],
) -> Result<(), AllocError>
    ensures { OnOk result (PutsSome out.old out.new) }
{
    if free_lists.is_empty() && cpu_lists.is_empty() {
        return Ok(());
    }
    out.key("lists")?;
    out.begin_object()?;
    for told in free_lists {
        let class = told.class;
        let order = told.order;
        let key = format!(in alloc; "{class} {order}")?;
        write_splice(out, key.as_str(), &told.splice)?;
    }
    for told in cpu_lists {
        let cpu = told.cpu;
        let pool = told.pool;
        let key = format!(in alloc; "cpu {cpu} {pool}")?;
        write_splice(out, key.as_str(), &told.splice)?;
    }
    out.end_object()
}

/// Writes how a list changed. Leaves out a start at index 0, and removals and insertions if there
/// are none.
fn write_splice(out: &mut Writer, key: &str, splice: &Splice) -> Result<(), AllocError>
    ensures { OnOk result (PutsSome out.old out.new) }
{
    out.key(key)?;
    out.begin_object()?;
    write_count(out, "at", splice.at)?;
    write_count(out, "drop", splice.gone)?;
    write_put(out, splice.put.as_slice())?;
    out.end_object()
}

/// Writes a number with its key, unless it is 0.
fn write_count(out: &mut Writer, key: &str, count: usize) -> Result<(), AllocError>
    ensures { OnOk result (PutsSome out.old out.new) }
{
    if count > 0 {
        out.key(key)?;
        out.u64(count as u64)?;
    }
    Ok(())
}

/// Writes the entries that are inserted, if there are any.
fn write_put(out: &mut Writer, frames: &[Frame]) -> Result<(), AllocError>
    ensures { OnOk result (PutsSome out.old out.new) }
{
    if frames.is_empty() {
        return Ok(());
    }
    out.key("put")?;
    out.begin_array()?;
    for frame in frames {
        out.u64(u64::from(frame.0))?;
    }
    out.end_array()
}

/// Writes where the kernel's blocks changed, if any did.
fn write_kernel(out: &mut Writer, alloc: Global, kernel: &[KernelNow]) -> Result<(), AllocError>
    ensures { OnOk result (PutsSome out.old out.new) }
{
    if kernel.is_empty() {
        return Ok(());
    }
    out.key("kernel")?;
    out.begin_object()?;
    for told in kernel {
        write_number_key(out, alloc, told.frame.0)?;
        write_order(out, told.order)?;
    }
    out.end_object()
}

/// Writes the pages that changed, if any did.
fn write_pages(
    out: &mut Writer,
    alloc: Global,
    names: &IndexSet<Text>,
    pages: &[PageNow],
) -> Result<(), AllocError>
    ensures { OnOk result (PutsSome out.old out.new) }
{
    if pages.is_empty() {
        return Ok(());
    }
    out.key("pages")?;
    out.begin_object()?;
    for told in pages {
        let name = name_of(names, told.owner);
        let page = told.page;
        let key = format!(in alloc; "{name} {page}")?;
        out.key(key.as_str())?;
        write_frame(out, told.frame)?;
    }
    out.end_object()
}

/// Writes the words that changed, if any did.
fn write_words(
    out: &mut Writer,
    alloc: Global,
    names: &IndexSet<Text>,
    words: &[WordNow],
) -> Result<(), AllocError>
    ensures { OnOk result (PutsSome out.old out.new) }
{
    if words.is_empty() {
        return Ok(());
    }
    out.key("words")?;
    out.begin_object()?;
    for told in words {
        write_word(out, alloc, names, told)?;
    }
    out.end_object()
}

/// Writes a word as a string, or `null` if it is 0, as all words of an unmapped page are.
fn write_word(
    out: &mut Writer,
    alloc: Global,
    names: &IndexSet<Text>,
    told: &WordNow,
) -> Result<(), AllocError>
    ensures { OnOk result (PutsSome out.old out.new) }
{
    let name = name_of(names, told.owner);
    let page = told.page;
    let index = told.index;
    let key = format!(in alloc; "{name} {page} {index}")?;
    out.key(key.as_str())?;
    if told.word == 0 {
        out.null()
    } else {
        out.quoted_u64(told.word)
    }
}

/// Writes what an added memory block becomes, if that changed.
fn write_settings(out: &mut Writer, auto: Option<Auto>) -> Result<(), AllocError>
    ensures { OnOk result (PutsSome out.old out.new) }
{
    match auto {
        Some(auto) => {
            out.key("settings")?;
            out.begin_object()?;
            out.key("auto_online_blocks")?;
            write_auto(out, auto)?;
            out.end_object()
        }
        None => Ok(()),
    }
}
