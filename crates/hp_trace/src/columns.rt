//! A row as text: what was asked and what was answered in their columns, and the memory.
ghost use Rattle.std.specs.Prelude.{◌≡◌, ◌++◌, OnOk, string_bytes};
ghost use Rattle.hp_trace.specs.Columns.{IsRowIn};

use hp_map::RowPicture;
use std::alloc::{AllocError, Global};

/// Writes a row with its memory as text. A text that is too long for its columns has a line of its
/// own, and the row goes on in the next.
pub(crate) fn write_row(
    out: &mut String,
    alloc: Global,
    row: &RowPicture,
    memory: &str,
) -> Result<(), AllocError>
    ensures { OnOk result (IsRowIn row.now.asked row.now.answer (string_bytes out.old)
        (string_bytes out.new)) }
{
    let asked = row.asked();
    let answer = row.answer();
    let below = gap_after(alloc, asked, 29, 29)?;
    let beside = gap_after(alloc, answer, 25, 55)?;
    writeln!(out, "{asked}{below} {answer}{beside}{memory}")
}

/// Returns what comes after a text in a column of this width: spaces up to the end of the column.
/// After a text of more than `columns` characters, it is a newline and `next` spaces.
fn gap_after(alloc: Global, text: &str, columns: usize, next: usize) -> Result<String, AllocError> {
    let mut gap = String::new(alloc);
    match columns.checked_sub(text.chars().count()) {
        Some(left) => push_spaces(&mut gap, left)?,
        None => {
            gap.push_str("\n")?;
            push_spaces(&mut gap, next)?;
        }
    }
    Ok(gap)
}

/// Adds n spaces to a text.
fn push_spaces(out: &mut String, n: usize) -> Result<(), AllocError> {
    for _ in 0..n {
        out.push_str(" ")?;
    }
    Ok(())
}
