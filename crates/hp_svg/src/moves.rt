//! Pages that moved: a line from where each was, in the row above, to where it is.
ghost use Rattle.std.specs.Prelude.{◌+◌, ◌<◌, ◌≤◌, ◌^◌};

use crate::elements::{MOVE_LOOK, write_path};
use crate::sheets::{Sheet, texts_height};
use hp_map::{Move, RowPicture};
use std::alloc::AllocError;

/// Draws the line of a move. `above` and `here` are the y coordinates at which the memory blocks
/// begin, in the last row above that has any, and in the move's own row.
fn write_move(
    out: &mut String,
    sheet: Sheet,
    above: u128,
    here: u128,
    moved: Option<Move>,
) -> Result<(), AllocError>
    requires above { above < 2 ^ 106 }
    requires here { here < 2 ^ 106 }
{
    let Some(Move { from, to }) = moved else {
        return Ok(());
    };
    let left = sheet.frame_left(from);
    let top = sheet.frame_top(above, from);
    let to_left = sheet.frame_left(to);
    let to_top = sheet.frame_top(here, to);
    write_path(out, left, top, to_left, to_top, "")
}

/// Returns the y coordinate at which the memory blocks of a row begin, or `above` if the row has
/// none. `top` is the y coordinate of the row.
fn last_blocks(above: u128, top: u128, row: &RowPicture) -> u128
    requires low { top < 2 ^ 105 }
    requires near { above ≤ top + 28 }
    ensures { result ≤ top + 28 }
{
    if row.blocks().is_empty() {
        above
    } else {
        top + texts_height(row)
    }
}

/// Draws the lines of all moves. `start` is the y coordinate at which the first row begins. Each
/// line is drawn twice, first in white, so that it is seen on cells of any colour.
pub(crate) fn write_moves(
    out: &mut String,
    sheet: Sheet,
    start: u128,
    rows: &[RowPicture],
) -> Result<(), AllocError> {
    write!(
        out,
        "<marker id='arrow' viewBox='0 0 6 6' refX='5' refY='3' markerWidth='5' markerHeight='5' \
         orient='auto'><path d='M0 0L6 3L0 6Z' fill='#b91c1c'/></marker>\
         <defs><g id='moves' transform='translate(0 {start})'>"
    )?;
    let mut above = 0u128;
    let mut top = 0u128;
    for row in rows {
        write_move(out, sheet, above, top + texts_height(row), row.moved())?;
        above = last_blocks(above, top, row);
        top += sheet.row_height(row);
    }
    write!(
        out,
        "</g></defs><use href='#moves' stroke='#ffffff' stroke-width='3' stroke-opacity='0.6'/>\
         <use href='#moves'{MOVE_LOOK}/>\n"
    )
}
