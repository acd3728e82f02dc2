//! The elements of a picture: texts, rectangles and paths. Lengths are in pixels.
ghost use Rattle.std.specs.Prelude.{◌≡◌, ◌*◌, ◌<◌, ◌^◌};

use crate::marks::{fill_of, ink_of, is_lettered};
use std::alloc::AllocError;

/// The attributes of the line of a page that moved.
pub(crate) const MOVE_LOOK: &str = " stroke='#b91c1c' stroke-width='1.2' marker-end='url(#arrow)'";

/// Writes a character, escaped for XML. A tab, a line end and any character that XML forbids become
/// question marks.
fn write_escaped(out: &mut String, c: char) -> Result<(), AllocError> {
    match c {
        '&' => out.push_str("&amp;"),
        '<' => out.push_str("&lt;"),
        '>' => out.push_str("&gt;"),
        '"' => out.push_str("&quot;"),
        '\0'..='\u{1F}' | '\u{FFFE}' | '\u{FFFF}' => out.push_str("?"),
        _ => out.push(c),
    }
}

/// Writes the characters of a text and its closing tag.
fn write_content(out: &mut String, text: &str) -> Result<(), AllocError> {
    for c in text.chars() {
        write_escaped(out, c)?;
    }
    out.push_str("</text>")
}

/// Writes a text whose baseline starts at (`x`, `y`).
pub(crate) fn write_text(out: &mut String, x: u128, y: u128, text: &str) -> Result<(), AllocError> {
    write!(out, "<text x='{x}' y='{y}'>")?;
    write_content(out, text)
}

/// Writes a text that is squeezed to the width of `room` letters if it is longer. A letter is 6
/// wide.
pub(crate) fn write_fitted_text(
    out: &mut String,
    x: u128,
    y: u128,
    room: u8,
    text: &str,
) -> Result<(), AllocError> {
    if text.chars().count() <= room as usize {
        return write_text(out, x, y, text);
    }
    let width = 6 * room as u32;
    write!(
        out,
        "<text x='{x}' y='{y}' textLength='{width}' lengthAdjust='spacingAndGlyphs'>"
    )?;
    write_content(out, text)
}

/// Draws a rectangle.
fn write_box(
    out: &mut String,
    x: u128,
    y: u128,
    width: u128,
    height: u8,
    fill: &str,
) -> Result<(), AllocError> {
    write!(
        out,
        "<rect x='{x}' y='{y}' width='{width}' height='{height}' fill='{fill}'/>"
    )
}

/// Writes the character of cells on top of them, in a colour that is readable there.
fn write_letter(out: &mut String, x: u128, y: u128, mark: u8) -> Result<(), AllocError> {
    let ink = ink_of(mark);
    let letter = char::from(mark);
    write!(
        out,
        "<text x='{x}' y='{y}' font-size='8' fill='{ink}'>{letter}</text>"
    )
}

/// Draws cells in the colour of their character. Draws the character on them if it is a letter or a
/// digit, and fits.
pub(crate) fn write_cell(
    out: &mut String,
    x: u128,
    y: u128,
    width: u128,
    mark: u8,
) -> Result<(), AllocError>
    requires x { x < 2 ^ 120 }
    requires y { y < 2 ^ 120 }
{
    write_box(out, x, y, width, 12, fill_of(mark))?;
    if width < 8 || !is_lettered(mark) {
        return Ok(());
    }
    write_letter(out, x + 2, y + 9, mark)
}

/// Draws the mobility of pageblocks as a strip. Draws nothing for a bar between pageblocks, or if
/// their memory block is not in use.
pub(crate) fn write_strip(
    out: &mut String,
    x: u128,
    y: u128,
    width: u128,
    letter: u8,
) -> Result<(), AllocError> {
    match letter {
        b'M' => write_box(out, x, y, width, 2, "#a78bfa"),
        b'U' => write_box(out, x, y, width, 2, "#4c1d95"),
        _ => Ok(()),
    }
}

/// Returns the width of `count` cells that are `cell` wide.
pub(crate) fn cells_of(cell: u8, count: usize) -> u128
    ensures is { result ≡ cell * count }
    ensures low { result < 2 ^ 72 }
{
    cell as u128 * count as u128
}

/// Who a block of frames belongs to, which decides the colours of its outline and its order.
#[derive(Clone, Copy)]
pub(crate) enum Holder {
    /// Nobody: the block is free.
    Nobody,
    /// The kernel.
    Kernel,
}

/// Draws the outline of a block of frames, within its cells.
pub(crate) fn write_outline(
    out: &mut String,
    x: u128,
    y: u128,
    width: u128,
    holder: Holder,
) -> Result<(), AllocError> {
    let stroke = match holder {
        Holder::Nobody => "#14532d",
        Holder::Kernel => "#fbbf24",
    };
    write!(
        out,
        "<rect x='{x}' y='{y}' width='{width}' height='10' rx='3' fill='none' \
         stroke='{stroke}'/>"
    )
}

/// Writes the order of a block of frames inside it, outlined in white, or for the kernel in the
/// colour of its cells.
pub(crate) fn write_order(
    out: &mut String,
    x: u128,
    y: u128,
    order: u32,
    holder: Holder,
) -> Result<(), AllocError> {
    let (ink, rim) = match holder {
        Holder::Nobody => ("#052e16", "#ffffff"),
        Holder::Kernel => ("#fbbf24", "#3d3d3d"),
    };
    write!(
        out,
        "<text x='{x}' y='{y}' font-size='8' fill='{ink}' stroke='{rim}' stroke-width='2' \
         paint-order='stroke'>{order}</text>"
    )
}

/// Writes the number of a frame above its cell.
pub(crate) fn write_frame_number(
    out: &mut String,
    x: u128,
    y: u128,
    number: u128,
) -> Result<(), AllocError> {
    write!(out, "<text x='{x}' y='{y}' font-size='8'>{number}</text>")
}

/// Draws a line from one point to another.
pub(crate) fn write_path(
    out: &mut String,
    x: u128,
    y: u128,
    to_x: u128,
    to_y: u128,
    look: &str,
) -> Result<(), AllocError> {
    write!(out, "<path d='M{x} {y}L{to_x} {to_y}'{look}/>")
}
