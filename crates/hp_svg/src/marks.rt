//! The characters of cells: their colours, and what they mean.
ghost use Rattle.std.specs.Prelude.{◌≡◌, ◌≤◌, IsTrue, map};
ghost use Rattle.hp_map.specs.Counts.{known_marks};
ghost use Rattle.hp_svg.specs.Marks.{all_differ, fill_in};

use hp_map::{MARKS, RowPicture};
use hp_units::Text;
use indexmap::IndexSet;
use std::alloc::{AllocError, Global};

/// The characters that are written in white, because their colours are dark.
const DARK: &str = "Kacfhijmpqsvxyz";

/// The colour of each character that has a meaning. These are frames that are free, isolated,
/// offline, absent or the kernel's, the lists of processors 0 to 9, and the owners a to z. The
/// first seven owners have the colours of M. Okabe and K. Ito, "Color Universal Design", without
/// black. The others have those of P. Tol, "Colour Schemes": muted, bright and vibrant.
pub const FILLS: &[(u8, &str)] = &[
    (b'.', "#7fbf7b"),
    (b':', "url(#isolated)"),
    (b'-', "#d4d4d8"),
    (b' ', "#f4f4f6"),
    (b'K', "#3d3d3d"),
    (b'0', "#fff4cc"),
    (b'1', "#ffe9a8"),
    (b'2', "#f7dc8c"),
    (b'3', "#efcf73"),
    (b'4', "#e5c15c"),
    (b'5', "#f3e0c4"),
    (b'6', "#e6cda6"),
    (b'7', "#d9bb8a"),
    (b'8', "#cba970"),
    (b'9', "#bd9758"),
    (b'a', "#0072b2"),
    (b'b', "#e69f00"),
    (b'c', "#009e73"),
    (b'd', "#cc79a7"),
    (b'e', "#56b4e9"),
    (b'f', "#d55e00"),
    (b'g', "#f0e442"),
    (b'h', "#332288"),
    (b'i', "#882255"),
    (b'j', "#117733"),
    (b'k', "#44aa99"),
    (b'l', "#999933"),
    (b'm', "#aa4499"),
    (b'n', "#88ccee"),
    (b'o', "#ddcc77"),
    (b'p', "#cc6677"),
    (b'q', "#4477aa"),
    (b'r', "#ee6677"),
    (b's', "#228833"),
    (b't', "#ccbb44"),
    (b'u', "#66ccee"),
    (b'v', "#aa3377"),
    (b'w', "#ee7733"),
    (b'x', "#ee3377"),
    (b'y', "#cc3311"),
    (b'z', "#009988"),
];

/// Returns whether a character is written on its cells: the kernel's, a processor's or an owner's.
pub(crate) fn is_lettered(mark: u8) -> bool {
    matches!(mark, b'K' | b'0'..=b'9' | b'a'..=b'z')
}

/// Returns the colour of the cells of a character, or white for a character without a meaning.
pub(crate) fn fill_of(mark: u8) -> &'static str
    ensures { result.now ≡ fill_in (map (λ entry. (entry.0, entry.1.now)) FILLS.now) mark }
{
    fill_in(FILLS, mark)
}

/// Returns the colour of a character in a table, or white if the table does not have the character.
fn fill_in(fills: &[(u8, &'static str)], mark: u8) -> &'static str
    ensures { result.now ≡ fill_in (map (λ entry. (entry.0, entry.1.now)) fills.now) mark }
{
    for (known, fill) in fills {
        if *known == mark {
            return *fill;
        }
    }
    "#ffffff"
}

/// Returns the colour in which a character is written on its cells.
pub(crate) fn ink_of(mark: u8) -> &'static str {
    if DARK.as_bytes().contains(&mark) {
        "#ffffff"
    } else {
        "#000000"
    }
}

/// Writes what a character means.
pub(crate) fn write_label(
    out: &mut String,
    names: &IndexSet<Text>,
    mark: u8,
) -> Result<(), AllocError> {
    match mark {
        b'a'..=b'z' => write_owner_label(out, names, mark),
        b'0'..=b'9' => write!(out, "list of processor {}", char::from(mark)),
        b'.' => out.push_str("free"),
        b':' => out.push_str("free and isolated"),
        b'K' => out.push_str("the kernel"),
        b'-' => out.push_str("offline"),
        b' ' => out.push_str("absent"),
        _ => Ok(()),
    }
}

/// Writes what an owner's letter means: the name of the first owner that has it, and whether there
/// are others.
fn write_owner_label(out: &mut String, names: &IndexSet<Text>, letter: u8) -> Result<(), AllocError>
    requires { 97 ≤ letter }
{
    let owner = (letter - b'a') as usize;
    let Some(name) = names.get_index(owner) else {
        return write!(out, "page of owner {}", char::from(letter));
    };
    let others = if names.len() > owner + 26 {
        ", others"
    } else {
        ""
    };
    write!(out, "page of {}{others}", name.as_str())
}

/// Returns whether a character is one of the cells of a row.
fn row_has_mark(mark: u8, row: &RowPicture) -> bool {
    row.blocks()
        .iter()
        .any(|block| block.cells().as_bytes().contains(&mark))
}

/// Returns whether a character is one of the cells of these rows.
fn occurs(rows: &[RowPicture], mark: u8) -> bool {
    rows.iter().any(|row| row_has_mark(mark, row))
}

/// Returns the characters that are cells of these rows, in the order of the legend.
pub(crate) fn marks_in(alloc: Global, rows: &[RowPicture]) -> Result<Vec<u8>, AllocError> {
    let mut marks = Vec::new(alloc);
    for mark in MARKS.as_bytes() {
        if occurs(rows, *mark) {
            marks.push(*mark)?;
        }
    }
    Ok(marks)
}

/// No two characters that have a meaning have the same colour.
pub fn colours_differ()
    ensures { IsTrue (all_differ (map (fill_in (map (λ entry. (entry.0, entry.1.now)) FILLS.now))
        known_marks)) }
{}
