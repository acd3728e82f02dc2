//! The rows of a picture.
ghost use Rattle.std.specs.Prelude.{◌<◌, ◌^◌};

use crate::elements::{
    Holder, cells_of, write_cell, write_fitted_text, write_order, write_outline, write_strip,
    write_text,
};
use crate::runs::{Run, runs_of};
use crate::sheets::{ANSWER, ASKED, Sheet, lines_above};
use hp_map::{BlockPicture, RowPicture};
use std::alloc::{AllocError, Global};

/// Draws rows, one under another from `start` on.
pub(crate) fn write_rows(
    out: &mut String,
    alloc: Global,
    sheet: Sheet,
    start: u128,
    rows: &[RowPicture],
) -> Result<(), AllocError> {
    write!(out, "<g transform='translate(0 {start})'>")?;
    let mut top = 0u128;
    for row in rows {
        write_row(out, alloc, sheet, top, row)?;
        top += sheet.row_height(row);
    }
    out.push_str("\n</g>\n")
}

/// Draws a row. A row of text alone is drawn in the column of the answers.
fn write_row(
    out: &mut String,
    alloc: Global,
    sheet: Sheet,
    top: u128,
    row: &RowPicture,
) -> Result<(), AllocError>
    requires { top < 2 ^ 105 }
{
    if row.blocks().is_empty() {
        write_column(out, 188, top, row.asked())?;
    } else {
        write_blocks(out, alloc, sheet, top, row)?;
    }
    out.push_str("\n")
}

/// Draws a row with memory blocks. Its answer, and its blocks, are lower if the text before them
/// has a line of its own.
fn write_blocks(
    out: &mut String,
    alloc: Global,
    sheet: Sheet,
    top: u128,
    row: &RowPicture,
) -> Result<(), AllocError>
    requires { top < 2 ^ 105 }
{
    let below_asked = top + lines_above(ASKED, row.asked());
    let below_answer = below_asked + lines_above(ANSWER, row.answer());
    write_column(out, 8, top, row.asked())?;
    write_column(out, 188, below_asked, row.answer())?;
    for (number, block) in row.blocks().iter().enumerate() {
        let strip = below_answer + sheet.strip_top(number);
        write_head(out, alloc, sheet.head_at(number), strip, block.head())?;
        write_frames(out, alloc, sheet, sheet.cells_at(number), strip, block)?;
    }
    Ok(())
}

/// Writes a text of a row, if there is one.
fn write_column(out: &mut String, left: u128, top: u128, text: &str) -> Result<(), AllocError>
    requires { top < 2 ^ 107 }
{
    if text.is_empty() {
        return Ok(());
    }
    write_text(out, left, top + 10, text)
}

/// Writes the head of a block before its cells.
fn write_head(
    out: &mut String,
    alloc: Global,
    left: u128,
    top: u128,
    head: &str,
) -> Result<(), AllocError>
    requires { top < 2 ^ 107 }
{
    let text = format!(in alloc; " {head}")?;
    write_fitted_text(out, left, top + 10, 7, text.as_str())
}

/// Draws the cells of a block, the mobility of its pageblocks, lines between cells, and outlines of
/// blocks of frames.
fn write_frames(
    out: &mut String,
    alloc: Global,
    sheet: Sheet,
    left: u128,
    top: u128,
    block: &BlockPicture,
) -> Result<(), AllocError>
    requires left { left < 2 ^ 107 }
    requires top { top < 2 ^ 107 }
{
    let cells = runs_of(alloc, block.cells().as_bytes())?;
    for run in &cells {
        write_cells(out, sheet.cell, left, top, *run)?;
    }
    let kinds = runs_of(alloc, block.kinds().as_bytes())?;
    for run in &kinds {
        write_strips(out, sheet.cell, left, top, *run)?;
    }
    write_lines(out, sheet, left, top)?;
    write_outlines(out, sheet.cell, left, top, block)
}

/// Draws cells with the same character. A bar between pageblocks is a gap.
fn write_cells(
    out: &mut String,
    cell: u8,
    left: u128,
    top: u128,
    run: Run,
) -> Result<(), AllocError>
    requires left { left < 2 ^ 107 }
    requires top { top < 2 ^ 107 }
{
    if run.mark == b'|' {
        return Ok(());
    }
    write_cell(out, left + run.left(cell), top, run.width(cell), run.mark)
}

/// Draws the mobility of pageblocks side by side, below their cells.
fn write_strips(
    out: &mut String,
    cell: u8,
    left: u128,
    top: u128,
    run: Run,
) -> Result<(), AllocError>
    requires left { left < 2 ^ 107 }
    requires top { top < 2 ^ 107 }
{
    write_strip(
        out,
        left + run.left(cell),
        top + 12,
        run.width(cell),
        run.mark,
    )
}

/// Draws lines between cells, if these are wide enough; `write_grid` defines them.
fn write_lines(out: &mut String, sheet: Sheet, left: u128, top: u128) -> Result<(), AllocError> {
    if !sheet.has_grid() {
        return Ok(());
    }
    write!(out, "<use href='#lines' x='{left}' y='{top}'/>")
}

/// Draws the outlines of the free blocks and of the kernel's blocks.
fn write_outlines(
    out: &mut String,
    cell: u8,
    left: u128,
    top: u128,
    block: &BlockPicture,
) -> Result<(), AllocError>
    requires left { left < 2 ^ 107 }
    requires top { top < 2 ^ 107 }
{
    for free in block.free() {
        let x = left + cells_of(cell, free.at as usize);
        write_block(out, cell, x, top, free.order, Holder::Nobody)?;
    }
    for kernel in block.kernel() {
        let x = left + cells_of(cell, kernel.at as usize);
        write_block(out, cell, x, top, kernel.order, Holder::Kernel)?;
    }
    Ok(())
}

/// Draws the outline of a block of frames, and its order if that is not 0 and has room. The letter
/// of the kernel's cells may be before the order.
fn write_block(
    out: &mut String,
    cell: u8,
    x: u128,
    top: u128,
    order: u32,
    holder: Holder,
) -> Result<(), AllocError>
    requires left { x < 2 ^ 108 }
    requires top { top < 2 ^ 107 }
{
    let width = cells_of(cell, 1 << order.min(31));
    write_outline(out, x + 1, top + 1, width.saturating_sub(2), holder)?;
    if order == 0 || width < 16 {
        return Ok(());
    }
    let before = match holder {
        Holder::Nobody => 4,
        Holder::Kernel => 9,
    };
    write_order(out, x + before, top + 9, order, holder)
}
