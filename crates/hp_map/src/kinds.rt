//! The mobility of the pageblocks of a memory block.
ghost use Rattle.std.specs.Prelude.{◌<◌};

use crate::cells::{first_of, starts_later, write_cell};
use hp_machine::Machine;
use hp_units::{Block, Frame, Kind, Mobility, Row, State, Text, pageblock_of};
use std::alloc::{AllocError, Global};

/// Returns a letter for each frame of a memory block of the layout, by the mobility of its
/// pageblock, with a bar between pageblocks. Letters are spaces if the memory block is not in use.
pub(crate) fn draw_kinds(alloc: Global, machine: &Machine, block: Block) -> Result<Text, AllocError>
    requires { block < machine.now.layout.blocks }
{
    let mut out = String::new(alloc);
    let is_in_use = is_used(machine.row(block));
    let layout = machine.layout();
    let first = first_of(layout, block);
    for number in 0..layout.block_size() {
        let kind = machine.kind(pageblock_of(layout, Frame(first + number)));
        write_cell(
            &mut out,
            starts_later(layout, number),
            letter(is_in_use, kind),
        )?;
    }
    Ok(Text::new(out))
}

/// Returns the letter of a frame in a pageblock of this kind, or a space if its memory block is not
/// in use.
fn letter(is_used: bool, kind: Option<Kind>) -> char
    ensures { result < 128 }
{
    match kind {
        Some(kind) if is_used => match kind.mobility {
            Mobility::Unmovable => 'U',
            Mobility::Movable => 'M',
        },
        _ => ' ',
    }
}

/// Returns whether a memory block with this row is in use.
fn is_used(row: Option<Row>) -> bool {
    match row {
        Some(row) => match row.state {
            State::Online | State::Going => true,
            State::Absent | State::Offline => false,
        },
        None => false,
    }
}
