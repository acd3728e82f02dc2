//! Rows as one picture.
ghost use Rattle.std.specs.Prelude.{◌<◌, ◌^◌};

use crate::elements::{
    Holder, MOVE_LOOK, write_cell, write_fitted_text, write_frame_number, write_outline,
    write_path, write_strip, write_text,
};
use crate::marks::{marks_in, write_label};
use crate::moves::write_moves;
use crate::rows::write_rows;
use crate::sheets::{Sheet, legend_left, legend_top};
use crate::shown::shown_rows;
use hp_map::RowPicture;
use hp_units::Text;
use indexmap::IndexSet;
use std::alloc::{AllocError, Global};

/// The title, and a style that keeps spaces in texts.
const TITLE: &str = "<title>Trace of a memory</title><style>text{white-space:pre}</style>";

/// How isolated cells are hatched.
const HATCHING: &str = "<pattern id='isolated' width='4' height='4' patternUnits='userSpaceOnUse'>\
     <rect width='4' height='4' fill='#eef5ee'/>\
     <path d='M-1 1L1 -1M0 4L4 0M3 5L5 3' stroke='#4f9d69'/></pattern>";

/// Returns rows as SVG, with cells `cell` pixels wide, shown at `scale` percent.
///
/// Rows are one below another. Only the first of equal rounds of a plan's calls is shown, and below
/// it a line of text about the others. Each row has its texts and the heads of its memory blocks as
/// text. It has a rectangle for each run of equal characters of a block's cells
/// ([`runs_of`](crate::runs_of)). It has an outline for each free block and each block of the
/// kernel, with the block's order if that is not 0 and has room. Below the cells is a strip for the
/// mobility of pageblocks. A line goes from where a page was, in the row above, to where it moved.
///
/// Above the rows are a legend and the numbers of the blocks and of frames. Each frame has its
/// number if its cell has room, otherwise the first frame of each pageblock, or at least of each
/// block. The legend has all characters that occur, outlines, strips and lines, and the owners'
/// names.
///
/// The first row with blocks decides how wide a block is and how many there are. Blocks that do not
/// fit into 1,600 pixels continue below the first. Each row has all blocks or none; a row of text
/// alone is drawn in the column of the answers. A text that is too long for its column has a line
/// of its own.
pub fn picture_of(
    alloc: Global,
    names: &IndexSet<Text>,
    cell: u8,
    scale: u16,
    rows: Vec<RowPicture>,
) -> Result<String, AllocError> {
    let rows = shown_rows(alloc, rows)?;
    let marks = marks_in(alloc, &rows)?;
    let sheet = Sheet::of(&rows, cell);
    let has_kernel = has_kernel_blocks(&rows);
    let entries = marks.len() + 4 + has_kernel as usize;
    let mut out = String::new(alloc);
    write_front(&mut out, sheet, scale, sheet.height(entries, &rows))?;
    write_legend(&mut out, alloc, names, marks.as_slice(), has_kernel)?;
    write_body(&mut out, alloc, sheet, entries, &rows)?;
    Ok(out)
}

/// Returns whether any row has a block of the kernel.
fn has_kernel_blocks(rows: &[RowPicture]) -> bool {
    for row in rows {
        for block in row.blocks() {
            if !block.kernel().is_empty() {
                return true;
            }
        }
    }
    false
}

/// Writes everything below a legend of this many entries.
fn write_body(
    out: &mut String,
    alloc: Global,
    sheet: Sheet,
    entries: usize,
    rows: &[RowPicture],
) -> Result<(), AllocError> {
    let start = sheet.rows_at(entries);
    write_rows(out, alloc, sheet, start, rows)?;
    write_moves(out, sheet, start, rows)?;
    write_blocks(out, alloc, sheet, entries)?;
    out.push_str("</svg>\n")
}

/// Returns this many percent of a length, rounded up.
fn scaled(length: u128, scale: u16) -> u128
    requires { length < 2 ^ 106 }
{
    (length * scale as u128 + 99) / 100
}

/// Writes the beginning of a picture of this height, and what all rows use: the hatching of cells,
/// the lines between cells, and a white background.
fn write_front(out: &mut String, sheet: Sheet, scale: u16, height: u128) -> Result<(), AllocError>
    requires { height < 2 ^ 106 }
{
    let width = sheet.width();
    let shown_width = scaled(width, scale);
    let shown_height = scaled(height, scale);
    write!(
        out,
        "<svg xmlns='http://www.w3.org/2000/svg' width='{shown_width}' height='{shown_height}' \
         viewBox='0 0 {width} {height}' font-family='monospace' font-size='10' \
         xml:space='preserve'>{TITLE}{HATCHING}"
    )?;
    write_grid(out, sheet)?;
    out.push_str("<rect width='100%' height='100%' fill='#ffffff'/>\n")
}

/// Defines the lines between the cells of a block, if cells are wide enough for them.
fn write_grid(out: &mut String, sheet: Sheet) -> Result<(), AllocError> {
    if !sheet.has_grid() {
        return Ok(());
    }
    let cell = sheet.cell;
    let width = sheet.cells_width();
    write!(
        out,
        "<pattern id='grid' width='{cell}' height='14' patternUnits='userSpaceOnUse'>\
         <path d='M0 0V14M{cell} 0V14' stroke='#ffffff'/></pattern>\
         <defs><rect id='lines' width='{width}' height='14' fill='url(#grid)'/></defs>"
    )
}

/// Draws the legend: what each character means, and then each sign.
fn write_legend(
    out: &mut String,
    alloc: Global,
    names: &IndexSet<Text>,
    marks: &[u8],
    has_kernel: bool,
) -> Result<(), AllocError> {
    for (place, mark) in marks.iter().enumerate() {
        write_entry(out, alloc, names, place, *mark)?;
    }
    write_notes(out, marks.len(), has_kernel)
}

/// Draws the signs of the legend, the first at index `place`. The sign for the kernel's blocks is
/// left out unless `has_kernel`.
fn write_notes(out: &mut String, place: usize, has_kernel: bool) -> Result<(), AllocError>
    requires { place < 2 ^ 63 }
{
    write_note(out, place, Sign::Free, "free block, its order")?;
    if has_kernel {
        write_note(out, place + 1, Sign::Kernel, "kernel block, order")?;
    }
    let place = place + 1 + has_kernel as usize;
    write_note(out, place, Sign::Movable, "movable pageblock")?;
    write_note(out, place + 1, Sign::Unmovable, "unmovable pageblock")?;
    write_note(out, place + 2, Sign::Move, "page that moved")
}

/// Writes a character and what it means, at index `place` of the legend.
fn write_entry(
    out: &mut String,
    alloc: Global,
    names: &IndexSet<Text>,
    place: usize,
    mark: u8,
) -> Result<(), AllocError> {
    let left = legend_left(place);
    let top = legend_top(place);
    let mut label = String::new(alloc);
    write_label(&mut label, names, mark)?;
    write_cell(out, left, top, 12, mark)?;
    write_fitted_text(out, left + 18, top + 10, 22, label.as_str())?;
    out.push_str("\n")
}

/// What the legend shows besides characters.
#[derive(Clone, Copy)]
enum Sign {
    Free,
    Kernel,
    Movable,
    Unmovable,
    Move,
}

/// Writes a sign and its meaning, at index `place` of the legend.
fn write_note(out: &mut String, place: usize, sign: Sign, text: &str) -> Result<(), AllocError> {
    let left = legend_left(place);
    let top = legend_top(place);
    write_sign(out, left, top, sign)?;
    write_text(out, left + 18, top + 10, text)?;
    out.push_str("\n")
}

/// Draws a sign of the legend.
fn write_sign(out: &mut String, left: u128, top: u128, sign: Sign) -> Result<(), AllocError>
    requires left { left < 2 ^ 100 }
    requires top { top < 2 ^ 100 }
{
    match sign {
        Sign::Free => write_outline(out, left, top + 1, 12, Holder::Nobody),
        Sign::Kernel => write_kernel_sign(out, left, top),
        Sign::Movable => write_strip(out, left, top + 5, 12, b'M'),
        Sign::Unmovable => write_strip(out, left, top + 5, 12, b'U'),
        Sign::Move => write_path(out, left, top + 2, left + 12, top + 10, MOVE_LOOK),
    }
}

/// Draws a cell of the kernel in an outline.
fn write_kernel_sign(out: &mut String, left: u128, top: u128) -> Result<(), AllocError>
    requires left { left < 2 ^ 100 }
    requires top { top < 2 ^ 100 }
{
    write_cell(out, left, top, 12, b'K')?;
    write_outline(out, left, top + 1, 12, Holder::Kernel)
}

/// Writes the numbers of the blocks and of frames.
fn write_blocks(
    out: &mut String,
    alloc: Global,
    sheet: Sheet,
    entries: usize,
) -> Result<(), AllocError> {
    let end = sheet.first_frame(sheet.blocks as usize);
    let last = format!(in alloc; "{}", end.saturating_sub(1))?;
    let step = sheet.number_step(last.len());
    for block in 0..sheet.blocks as usize {
        let top = sheet.number_at(entries, block);
        let number = format!(in alloc; "block {block}")?;
        write_text(out, sheet.cells_at(block), top, number.as_str())?;
        write_frame_numbers(out, alloc, sheet, top + 12, block, step)?;
        out.push_str("\n")?;
    }
    Ok(())
}

/// Writes above the cells of a block the number of each `step`th frame, with the word `frame`
/// before the first. If there is only one such number, writes the word and the number as one text.
fn write_frame_numbers(
    out: &mut String,
    alloc: Global,
    sheet: Sheet,
    top: u128,
    block: usize,
    step: u64,
) -> Result<(), AllocError>
    requires { 0 < step }
{
    let first = sheet.first_frame(block);
    let count = sheet.frames as u64 / step;
    if count < 2 {
        let text = format!(in alloc; "frame {first}")?;
        return write_text(out, sheet.cells_at(block), top, text.as_str());
    }
    write_text(out, sheet.head_at(block), top, " frame")?;
    for place in 0..count {
        let offset = place * step;
        let left = sheet.cell_left(block, offset);
        write_frame_number(out, left, top, first + offset as u128)?;
    }
    Ok(())
}
