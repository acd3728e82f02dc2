//! The cells of a memory block: a character for each of its frames, and a bar between pageblocks.
ghost use Rattle.std.specs.Prelude.{◌≡◌, ◌+◌, ◌*◌, ◌^◌, ◌<◌, ◌≤◌, ◌++◌, IfOk, OnOk, string_bytes};
ghost use Rattle.hp_units.specs.Arithmetic.{block_size, frame_count};
ghost use Rattle.hp_map.specs.Cells.{cell_text, cells_text, place_at, starts_later};

use crate::places::Place;
use hp_units::{Block, Layout, Text};
use std::alloc::{AllocError, Global};

/// Returns the cells of a memory block of the layout: the sign of each frame's place.
pub(crate) fn draw_cells(
    alloc: Global,
    layout: &Layout,
    places: &Vec<Place>,
    block: Block,
) -> Result<Text, AllocError>
    requires { block < layout.now.blocks }
    ensures { IfOk result (λ text. text ≡ cells_text layout.now places.now.items block) }
{
    let mut out = String::new(alloc);
    let first = first_of(layout, block);
    for number in 0..layout.block_size() {
        let place = place_at(places, first + number);
        write_cell(&mut out, starts_later(layout, number), place.sign())?;
    }
    Ok(Text::new(out))
}

/// Returns the number of the first frame of a memory block of the layout.
pub(crate) fn first_of(layout: &Layout, block: Block) -> u32
    requires { block < layout.now.blocks }
    ensures is { result ≡ block * block_size layout.now }
    ensures low { result + block_size layout.now ≤ 2 ^ 20 }
    ensures within { result + block_size layout.now ≤ frame_count layout.now }
{
    block.0 * layout.block_size()
}

/// Returns the place of a frame of the layout.
pub(crate) fn place_at(places: &Vec<Place>, frame: u32) -> Place
    ensures { result ≡ place_at places.now.items frame }
{
    match places.get(frame as usize) {
        Some(place) => *place,
        None => Place::Absent,
    }
}

/// Returns whether a frame, counted from the first of its memory block, starts a pageblock after
/// the first.
pub(crate) fn starts_later(layout: &Layout, number: u32) -> bool
    ensures { result ≡ starts_later layout.now number }
{
    number > 0 && number % layout.pageblock_size() == 0
}

/// Writes the character of a frame, after a bar if the frame starts a later pageblock.
#[tactic(auto, using(std::proofs::lemmas::Str::encode_ascii))]
pub(crate) fn write_cell(out: &mut String, is_later: bool, sign: char) -> Result<(), AllocError>
    requires { sign < 128 }
    ensures { OnOk result (string_bytes out.new ≡ string_bytes out.old ++ cell_text is_later sign) }
{
    if is_later {
        out.push_str("|")?;
    }
    out.push(sign)
}
