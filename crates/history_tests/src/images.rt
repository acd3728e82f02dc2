//! Parts that need no memory, added to an empty state of four memory blocks. Those that need some
//! are added in crates/refused_values.
ghost use Rattle.std.specs.Prelude.{◌≡◌};
ghost use Rattle.hp_units.specs.Arithmetic.{frame_count, pageblock_count};

use hp_plain::{Image, Part, wish_of};
use hp_units::{Auto, Block, Frame, Item, Kind, Mobility, Order, Pageblock, Row, State, Wish};
use layouts_for_tests::{LAST_OFFLINE, four_blocks};
use std::alloc::AllocError;
use std::test::Fail;

const ISOLATED: Kind = Kind {
    mobility: Mobility::Unmovable,
    isolated: true,
};

/// Adds a kernel block, and sets what a probed block becomes.
fn add_single_parts(image: &mut Image) -> Result<(), AllocError>
    requires order { image.old.layout.order ≡ 2 }
    requires frames { frame_count image.old.layout ≡ 16 }
{
    image.add(Part::Kernel {
        frame: Frame(4),
        order: Order(1),
    })?;
    image.add(Part::Auto { auto: Auto::Online })
}

/// Returns whether an image has the parts of `add_single_parts`.
fn shows_single_parts(image: &Image) -> bool {
    image.kernel_at(Frame(4)) == Some(Order(1)) && image.auto() == Auto::Online
}

#[test]
fn single_parts_are_added(rt: HostRuntime) -> Result<(), Fail> {
    let layout = four_blocks(rt.alloc(), LAST_OFFLINE, 1000)?;
    let mut image = Image::empty(rt.alloc(), &layout)?;
    add_single_parts(&mut image)?;
    assert!(rt; shows_single_parts(&image));
    Ok(())
}

/// Adds a pageblock's kind and a memory block's row. Returns whether both are read back.
fn adds_a_kind_and_a_row(image: &mut Image) -> Result<bool, AllocError>
    requires pageblocks { pageblock_count image.old.layout ≡ 4 }
    requires blocks { image.old.layout.blocks ≡ 4 }
{
    let row = Row::bare(State::Absent);
    image.add(Part::Kind {
        pageblock: Pageblock(1),
        kind: ISOLATED,
    })?;
    image.add(Part::Row {
        block: Block(3),
        row,
    })?;
    Ok(image.kind(Pageblock(1)) == Some(ISOLATED) && image.row(Block(3)) == Some(row))
}

#[test]
fn kinds_and_rows_are_added(rt: HostRuntime) -> Result<(), Fail> {
    let layout = four_blocks(rt.alloc(), LAST_OFFLINE, 1000)?;
    let mut image = Image::empty(rt.alloc(), &layout)?;
    assert!(rt; adds_a_kind_and_a_row(&mut image)?);
    Ok(())
}

#[test]
fn a_plan_wishes(rt: HostRuntime) -> Result<(), Fail> {
    let plan = [item(0, Wish::Off), item(1, Wish::Normal)];
    assert!(rt; wish_of(&plan, Block(1)) == Some(Wish::Normal));
    Ok(())
}

/// Returns an item of a plan.
fn item(block: u32, wish: Wish) -> Item {
    Item {
        block: Block(block),
        wish,
    }
}
