//! Loading the rows of memory blocks from an Image.
ghost use Rattle.std.specs.Prelude.{◌≡◌, ◌<◌, IfOk, None};
ghost use Rattle.hp_units.specs.InLayout.{AreBlocksOf};
ghost use Rattle.hp_units.specs.Memory.{offline_row, row_of, with_row};
ghost use Rattle.hp_memory.specs.Tables.{AreCopied};

use hp_pages::Blocks;
use hp_plain::Image;
use hp_tape::{Delta, RowChange};
use hp_units::{Block, Claim, Row, State};
use std::alloc::{AllocError, Global};

/// Creates the rows of an Image's memory blocks, with what an added block becomes.
pub fn blocks_of(alloc: Global, image: &Image) -> Result<Blocks, AllocError>
    requires rows { AreBlocksOf image.now.layout image.now.memory.blocks }
    ensures { IfOk result
        (λ blocks. blocks ≡ record { layout = image.now.layout; blocks = image.now.memory.blocks }) }
{
    let mut blocks = Blocks::new(alloc, image.layout())?;
    load_rows(&mut blocks, image);
    let (was, now) = (image.auto(), blocks.auto());
    blocks.back(Delta::Auto { was, now });
    Ok(blocks)
}

/// Loads the rows. All blocks are offline before.
fn load_rows(blocks: &mut Blocks, image: &Image)
    requires layout { blocks.old.layout ≡ image.now.layout }
    requires rows { AreBlocksOf image.now.layout image.now.memory.blocks }
    requires none { AreCopied offline_row offline_row 0 image.now.memory.blocks.rows blocks.old.blocks.rows }
    ensures rows { blocks.new.blocks ≡ record blocks.old.blocks { rows = image.now.memory.blocks.rows } }
    ensures layout { blocks.new.layout ≡ blocks.old.layout }
{
    for number in 0..image.layout().blocks() {
        load_row(blocks, image, Block(number));
    }
}

/// Loads the row of one memory block, which has no claim yet.
fn load_row(blocks: &mut Blocks, image: &Image, block: Block)
    requires block { block < blocks.old.layout.blocks }
    requires few { block < 256 }
    requires none { (row_of blocks.old.blocks block).claim ≡ None }
    ensures row { blocks.new.blocks
        ≡ with_row blocks.old.blocks block (row_of image.now.memory.blocks block) }
    ensures layout { blocks.new.layout ≡ blocks.old.layout }
{
    let none: Option<Claim> = None;
    let offline = Row {
        state: State::Offline,
        zone: None,
        claim: none,
    };
    let row = image.row(block).unwrap_or(offline);
    let change = RowChange::new(block, &row, &blocks.row(block));
    blocks.back(Delta::Row(change));
}
