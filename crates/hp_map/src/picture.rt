//! A picture of a memory, block by block.
ghost use Rattle.std.specs.Prelude.{◌≡◌, ◌<◌, IfOk};
ghost use Rattle.hp_map.specs.Pictures.{ArePictures, IsBlockPicture, IsPicture};

use crate::block_picture::BlockPicture;
use crate::blocks::{free_of, kernel_of};
use crate::cells::draw_cells;
use crate::kinds::draw_kinds;
use crate::map::places_of;
use crate::orders::draw_orders;
use crate::places::Place;
use hp_machine::Machine;
use hp_units::{Block, Row, State, Text, Wish, Zone};
use std::alloc::{AllocError, Global};

/// Draws each memory block of a machine, by rising number. A head such as `2:M>off` has the number,
/// the zone or the state, and the wish of the operation that holds the block. Without
/// `shows_orders`, the cells with orders are empty.
pub fn picture_of(
    alloc: Global,
    machine: &Machine,
    shows_orders: bool,
) -> Result<Vec<BlockPicture>, AllocError>
    ensures { IfOk result
        (λ blocks. IsPicture machine.now.layout machine.now.state blocks.items) }
{
    let places = places_of(alloc, machine)?;
    draw_blocks(alloc, machine, &places, shows_orders)
}

/// Draws each memory block with these places.
fn draw_blocks(
    alloc: Global,
    machine: &Machine,
    places: &Vec<Place>,
    shows_orders: bool,
) -> Result<Vec<BlockPicture>, AllocError>
    ensures { IfOk result (λ blocks. ArePictures machine.now.layout machine.now.state places.now.items
        machine.now.layout.blocks blocks.items) }
{
    let mut blocks = Vec::new(alloc);
    for number in 0..machine.layout().blocks() {
        let block = draw_block(alloc, machine, places, shows_orders, Block(number))?;
        blocks.push(block)?;
    }
    Ok(blocks)
}

/// Draws a memory block of the layout.
fn draw_block(
    alloc: Global,
    machine: &Machine,
    places: &Vec<Place>,
    shows_orders: bool,
    block: Block,
) -> Result<BlockPicture, AllocError>
    requires { block < machine.now.layout.blocks }
    ensures { IfOk result (λ picture. IsBlockPicture machine.now.layout machine.now.state places.now.items
        block picture) }
{
    let head = draw_head(alloc, machine.row(block), block)?;
    let cells = draw_cells(alloc, machine.layout(), places, block)?;
    let ordered = draw_orders(alloc, machine, places, shows_orders, block)?;
    let free = free_of(alloc, machine, block)?;
    let kernel = kernel_of(alloc, machine, block)?;
    let kinds = draw_kinds(alloc, machine, block)?;
    Ok(BlockPicture::new(head, cells, ordered, free, kernel, kinds))
}

/// Returns what comes before the cells of a memory block with this row.
fn draw_head(alloc: Global, row: Option<Row>, block: Block) -> Result<Text, AllocError> {
    let place = place_word(&row);
    let wish = wish_word(&row);
    let text = format!(in alloc; "{block}:{place}{wish}")?;
    Ok(Text::new(text))
}

/// Returns the letter of the zone if the memory block is in use, and a word for its state
/// otherwise.
fn place_word(row: &Option<Row>) -> &'static str {
    match row {
        Some(row) => match row.state {
            State::Absent => "absent",
            State::Offline => "off",
            State::Online | State::Going => match row.zone {
                Some(Zone::Normal) => "N",
                Some(Zone::Movable) => "M",
                None => "",
            },
        },
        None => "",
    }
}

/// Returns the wish of the operation that holds a memory block, if one does.
fn wish_word(row: &Option<Row>) -> &'static str {
    match row {
        Some(row) => match row.claim {
            Some(claim) => match claim.wish {
                Wish::Off => ">off",
                Wish::Normal => ">N",
                Wish::Movable => ">M",
            },
            None => "",
        },
        None => "",
    }
}
