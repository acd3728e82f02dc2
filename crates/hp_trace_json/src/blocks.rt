//! What changed of the memory blocks and the pageblocks.
ghost use Rattle.std.specs.Prelude.{◌≡◌, IfOk, OnOk};
ghost use Rattle.hp_units.specs.Arithmetic.{pageblock_count};
ghost use Rattle.hp_trace_json.specs.Changes.{BlocksTold, PageblocksTold, SetsMobility, SetsRow};
ghost use Rattle.hp_trace_json.specs.Told.{AddsIf};
ghost use Rattle.hp_trace_json.specs.Parts.{is_unmovable, row_in, unmovable_in};

use hp_plain::Image;
use hp_units::{Block, Kind, Mobility, Pageblock, Row};
use std::alloc::{AllocError, Global};

/// A memory block that changed, and its row now.
#[derive(Clone, Copy, Drop)]
pub struct BlockNow {
    /// The memory block.
    pub block: Block,
    /// Its row now: its state, its zone, and the operation that holds it.
    pub row: Option<Row>,
}

/// A pageblock whose mobility changed.
#[derive(Clone, Copy, Drop)]
pub struct PageblockNow {
    /// The pageblock.
    pub pageblock: Pageblock,
    /// Whether it is unmovable now.
    pub is_unmovable: bool,
}

/// Returns the memory blocks whose rows differ between the two states, with their rows now.
pub(crate) fn blocks_told(
    alloc: Global,
    was: &Option<Image>,
    now: &Image,
) -> Result<Vec<BlockNow>, AllocError>
    ensures { IfOk result (λ told. BlocksTold was.now now.now now.now.layout.blocks told.items) }
{
    let mut told = Vec::new(alloc);
    for number in 0..now.layout().blocks() {
        let block = Block(number);
        tell_block(&mut told, block, row_in(was, block), now.row(block))?;
    }
    Ok(told)
}

/// Adds a memory block if its row changed.
fn tell_block(
    told: &mut Vec<BlockNow>,
    block: Block,
    was: Option<Row>,
    row: Option<Row>,
) -> Result<(), AllocError>
    ensures { OnOk result (AddsIf (λ x. x.block ≡ block) SetsRow was row told.old.items told.new.items) }
{
    if was != row {
        told.push(BlockNow { block, row })?;
    }
    Ok(())
}

/// Returns the row of a memory block in a state, or `None` without a state.
fn row_in(state: &Option<Image>, block: Block) -> Option<Row>
    ensures { result ≡ row_in state.now block }
{
    match state {
        Some(image) => image.row(block),
        None => None,
    }
}

/// Returns the pageblocks whose mobilities differ between the two states, with their mobilities
/// now.
pub(crate) fn pageblocks_told(
    alloc: Global,
    was: &Option<Image>,
    now: &Image,
) -> Result<Vec<PageblockNow>, AllocError>
    ensures { IfOk result
        (λ told. PageblocksTold was.now now.now (pageblock_count now.now.layout) told.items) }
{
    let mut told = Vec::new(alloc);
    let layout = now.layout();
    for number in 0..layout.blocks() * layout.pageblocks() {
        let pageblock = Pageblock(number);
        let was_unmovable = unmovable_in(was, pageblock);
        tell_pageblock(
            &mut told,
            pageblock,
            was_unmovable,
            is_unmovable(now.kind(pageblock)),
        )?;
    }
    Ok(told)
}

/// Adds a pageblock if its mobility changed.
fn tell_pageblock(
    told: &mut Vec<PageblockNow>,
    pageblock: Pageblock,
    was: bool,
    is_unmovable: bool,
) -> Result<(), AllocError>
    ensures { OnOk result (AddsIf (λ x. x.pageblock ≡ pageblock) SetsMobility was is_unmovable told.old.items
        told.new.items) }
{
    if was != is_unmovable {
        told.push(PageblockNow {
            pageblock,
            is_unmovable,
        })?;
    }
    Ok(())
}

/// Returns whether the pageblock is unmovable in a state; false if there is no state.
fn unmovable_in(state: &Option<Image>, pageblock: Pageblock) -> bool
    ensures { result ≡ unmovable_in state.now pageblock }
{
    match state {
        Some(image) => is_unmovable(image.kind(pageblock)),
        None => false,
    }
}

/// Returns whether there is a kind, and it is unmovable.
fn is_unmovable(kind: Option<Kind>) -> bool
    ensures { result ≡ is_unmovable kind }
{
    match kind {
        Some(kind) => match kind.mobility {
            Mobility::Unmovable => true,
            Mobility::Movable => false,
        },
        None => false,
    }
}
