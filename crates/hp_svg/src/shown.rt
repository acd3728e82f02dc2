//! The rows that a picture shows.
ghost use Rattle.std.specs.Prelude.{◌≡◌, ◌++◌, IfOk, OnOk};
ghost use Rattle.std.specs.Option.{option_to_list};
ghost use Rattle.hp_svg.specs.Shown.{AreShown, more_row, shown_of};

use hp_map::{Rounds, RowPicture, join_rounds};
use hp_units::Text;
use std::alloc::{AllocError, Global};

/// Returns the rows that a picture shows: only the first of equal rounds of a plan's calls, and
/// below it a line of text about the others.
pub(crate) fn shown_rows(
    alloc: Global,
    rows: Vec<RowPicture>,
) -> Result<Vec<RowPicture>, AllocError>
    ensures { IfOk result (λ shown. AreShown rows.items shown.items) }
{
    let entries = join_rounds(alloc, rows)?;
    let mut shown = Vec::new(alloc);
    for entry in entries {
        show(&mut shown, alloc, entry)?;
    }
    Ok(shown)
}

/// Adds the rows that are shown of an entry (a round and its repetitions, or a single row).
fn show(shown: &mut Vec<RowPicture>, alloc: Global, entry: Rounds) -> Result<(), AllocError>
    ensures { OnOk result (shown.new.items ≡ shown.old.items ++ shown_of entry) }
{
    let more = more_row(alloc, &entry)?;
    add_all(shown, entry.into_rows())?;
    match more {
        Some(row) => {
            shown.push(row)?;
            Ok(())
        }
        None => Ok(()),
    }
}

/// Adds rows.
fn add_all(shown: &mut Vec<RowPicture>, rows: Vec<RowPicture>) -> Result<(), AllocError>
    ensures { OnOk result (shown.new.items ≡ shown.old.items ++ rows.items) }
{
    for row in rows {
        shown.push(row)?;
    }
    Ok(())
}

/// Returns the line about the rounds that are not shown, if there are any.
fn more_row(alloc: Global, entry: &Rounds) -> Result<Option<RowPicture>, AllocError>
    ensures { IfOk result (λ row. option_to_list row ≡ more_row entry.now) }
{
    if entry.more() == 0 {
        return Ok(None);
    }
    let mut text = String::new(alloc);
    entry.write_more(&mut text)?;
    let answer = Text::new(String::new(alloc));
    Ok(Some(RowPicture::new(Text::new(text), answer, None, Vec::new(alloc))))
}
