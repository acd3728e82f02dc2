//! Adding the rows of memory blocks to an Image.
ghost use Rattle.std.specs.Prelude.{◌≡◌, ◌<◌, OnOk};
ghost use Rattle.hp_units.specs.InLayout.{AreBlocksOf};
ghost use Rattle.hp_units.specs.Memory.{offline_row, row_of};
ghost use Rattle.hp_units.specs.Rows.{with_block_row};
ghost use Rattle.hp_memory.specs.Tables.{AreCopied};

use hp_pages::Blocks;
use hp_plain::{Image, Part};
use hp_units::Block;
use std::alloc::AllocError;

/// Adds the rows and the setting for added blocks to an Image whose memory blocks are all offline.
pub fn put_blocks(image: &mut Image, blocks: &Blocks) -> Result<(), AllocError>
    requires layout { image.old.layout ≡ blocks.now.layout }
    requires rows { AreBlocksOf blocks.now.layout blocks.now.blocks }
    requires none { AreCopied offline_row offline_row 0 blocks.now.blocks.rows image.old.memory.blocks.rows }
    ensures { OnOk result
        (image.new ≡ record image.old { memory = record image.old.memory { blocks = blocks.now.blocks } }) }
{
    put_rows(image, blocks)?;
    let auto = blocks.auto();
    image.add(Part::Auto { auto })
}

/// Adds the rows in rising order.
fn put_rows(image: &mut Image, blocks: &Blocks) -> Result<(), AllocError>
    requires layout { image.old.layout ≡ blocks.now.layout }
    requires rows { AreBlocksOf blocks.now.layout blocks.now.blocks }
    requires none { AreCopied offline_row offline_row 0 blocks.now.blocks.rows image.old.memory.blocks.rows }
    ensures { OnOk result (image.new ≡ record image.old {
      memory = record image.old.memory
          { blocks = record image.old.memory.blocks { rows = blocks.now.blocks.rows } };
    }) }
{
    for number in 0..image.layout().blocks() {
        put_row(image, blocks, Block(number))?;
    }
    Ok(())
}

/// Adds the row of one memory block.
fn put_row(image: &mut Image, blocks: &Blocks, block: Block) -> Result<(), AllocError>
    requires layout { image.old.layout ≡ blocks.now.layout }
    requires block { block < blocks.now.layout.blocks }
    ensures { OnOk result (image.new ≡ record image.old
        { memory = with_block_row image.old.memory block (row_of blocks.now.blocks block) }) }
{
    let row = blocks.row(block);
    image.add(Part::Row { block, row })
}
