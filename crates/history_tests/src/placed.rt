//! States that are well placed, and states that are not, of four memory blocks of four frames.
ghost use Rattle.std.specs.Prelude.{◌≡◌, ◌+◌, ◌^◌, ◌<◌, ◌≤◌, IfOk};
ghost use Rattle.hp_units.specs.Arithmetic.{frame_count};

use hp_plain::{Image, Part};
use hp_units::{Block, Class, Cpu, Frame, Layout, Order, Owner, Page, Pool, Row, Words, Zone};
use layouts_for_tests::{LAST_ABSENT, LAST_OFFLINE, four_blocks};
use std::alloc::{AllocError, Global};
use std::test::Fail;

#[test]
fn the_state_at_boot_is_well_placed(rt: HostRuntime) -> Result<(), Fail> {
    let layout = four_blocks(rt.alloc(), LAST_OFFLINE, 1000)?;
    let image = Image::boot(rt.alloc(), &layout)?;
    assert!(rt; image.is_well_placed(rt.alloc())?);
    Ok(())
}

#[test]
fn a_state_with_an_absent_block_is_well_placed(rt: HostRuntime) -> Result<(), Fail> {
    let layout = four_blocks(rt.alloc(), LAST_ABSENT, 1000)?;
    let image = Image::boot(rt.alloc(), &layout)?;
    assert!(rt; image.is_well_placed(rt.alloc())?);
    Ok(())
}

/// Returns a state whose first block is online in zone Normal, with its frames in no place yet.
fn one_block(alloc: Global, layout: &Layout) -> Result<Image, AllocError>
    requires { layout.now.blocks ≡ 4 }
    ensures { IfOk result (λ image. image.layout ≡ layout.now) }
{
    let mut image = Image::empty(alloc, layout)?;
    image.add(Part::Row {
        block: Block(0),
        row: Row::online(Zone::Normal),
    })?;
    Ok(image)
}

#[test]
fn each_frame_has_to_be_in_a_place(rt: HostRuntime) -> Result<(), Fail> {
    let layout = four_blocks(rt.alloc(), LAST_OFFLINE, 1000)?;
    let image = one_block(rt.alloc(), &layout)?;
    assert!(rt; !image.is_well_placed(rt.alloc())?);
    Ok(())
}

/// Adds a free block of zone Normal.
fn add_free(image: &mut Image, order: u32, frame: u32) -> Result<(), AllocError>
    requires order { order ≤ image.old.layout.order }
    requires frame { frame + 2 ^ order ≤ frame_count image.old.layout }
    ensures { image.new.layout ≡ image.old.layout }
{
    image.add(Part::Free {
        class: Class::Nm,
        order: Order(order),
        frame: Frame(frame),
    })
}

/// Adds a page of the first owner.
fn add_page(alloc: Global, image: &mut Image, frame: u32) -> Result<(), AllocError>
    requires owners { 0 < image.old.layout.owners }
    requires pages { 0 < image.old.layout.pages }
    requires words { image.old.layout.words ≡ 2 }
    requires frame { frame < frame_count image.old.layout }
    ensures { image.new.layout ≡ image.old.layout }
{
    let words = Words::new(alloc, vec![in alloc; 7, 9]?)?;
    image.add(Part::Mapped {
        owner: Owner(0),
        page: Page(0),
        frame: Frame(frame),
        words,
    })
}

/// Adds a frame on a processor's list.
fn add_cached(image: &mut Image, frame: u32) -> Result<(), AllocError>
    requires cpus { 1 < image.old.layout.cpus }
    requires frame { frame < frame_count image.old.layout }
    ensures { image.new.layout ≡ image.old.layout }
{
    image.add(Part::Cached {
        cpu: Cpu(1),
        pool: Pool::Nm,
        frame: Frame(frame),
    })
}

/// Adds a kernel's block of one frame.
fn add_kernel(image: &mut Image, frame: u32) -> Result<(), AllocError>
    requires frame { frame < frame_count image.old.layout }
    ensures { image.new.layout ≡ image.old.layout }
{
    image.add(Part::Kernel {
        frame: Frame(frame),
        order: Order(0),
    })
}

#[test]
fn each_frame_may_be_in_a_place_of_its_own(rt: HostRuntime) -> Result<(), Fail> {
    let layout = four_blocks(rt.alloc(), LAST_OFFLINE, 1000)?;
    let mut image = one_block(rt.alloc(), &layout)?;
    add_free(&mut image, 0, 0)?;
    add_page(rt.alloc(), &mut image, 1)?;
    add_cached(&mut image, 2)?;
    add_kernel(&mut image, 3)?;
    assert!(rt; image.is_well_placed(rt.alloc())?);
    Ok(())
}

#[test]
fn no_frame_is_on_two_lists(rt: HostRuntime) -> Result<(), Fail> {
    let layout = four_blocks(rt.alloc(), LAST_OFFLINE, 1000)?;
    let mut image = one_block(rt.alloc(), &layout)?;
    add_free(&mut image, 2, 0)?;
    add_cached(&mut image, 2)?;
    assert!(rt; !image.is_well_placed(rt.alloc())?);
    Ok(())
}

#[test]
fn no_page_is_in_a_free_frame(rt: HostRuntime) -> Result<(), Fail> {
    let layout = four_blocks(rt.alloc(), LAST_OFFLINE, 1000)?;
    let mut image = one_block(rt.alloc(), &layout)?;
    add_free(&mut image, 2, 0)?;
    add_page(rt.alloc(), &mut image, 3)?;
    assert!(rt; !image.is_well_placed(rt.alloc())?);
    Ok(())
}

#[test]
fn no_two_buddies_are_free(rt: HostRuntime) -> Result<(), Fail> {
    let layout = four_blocks(rt.alloc(), LAST_OFFLINE, 1000)?;
    let mut image = one_block(rt.alloc(), &layout)?;
    add_free(&mut image, 1, 0)?;
    add_free(&mut image, 1, 2)?;
    assert!(rt; !image.is_well_placed(rt.alloc())?);
    Ok(())
}
