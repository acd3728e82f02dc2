//! Layouts, copies, empty layers of a machine, and Images (whole states as plain lists).
ghost use Rattle.std.specs.Prelude.{◌≡◌, ◌<◌, IfOk, length};

use crate::trouble::{Outcome, Trouble, expect};
use hp_buddy::{Buddy, Cpus, Links};
use hp_machine::Machine;
use hp_pages::{Blocks, Pages};
use hp_plain::Image;
use hp_tape::{Delta, Tape};
use hp_units::{
    Auto, Block, Boot, Class, Event, Frame, Item, Layout, LayoutFault, Order, Parts, Plan, Text,
    Wish, Words,
};
use std::alloc::{AllocError, Global};

const BOOT: &[Boot] = &[Boot::Normal, Boot::Normal, Boot::Movable, Boot::Offline];

/// Returns a layout of four memory blocks, each of one pageblock of four frames, with room for
/// `history` records.
pub fn layout_of(alloc: Global, history: u64) -> Outcome<Layout> {
    layout_with(alloc, 2, 2, history)
}

/// Returns a layout of four memory blocks, each of one pageblock, with this greatest order and
/// number of processors, and with room for `history` records.
pub fn layout_with(alloc: Global, order: u64, cpus: u64, history: u64) -> Outcome<Layout> {
    let parts = Parts {
        order,
        pageblocks: 1,
        blocks: 4,
        cpus,
        batch: 2,
        high: 2,
        owners: 2,
        pages: 8,
        words: 2,
        history,
        boot: BOOT,
    };
    match Layout::new(alloc, &parts) {
        Ok(layout) => Ok(layout),
        Err(LayoutFault::OutOfMemory) => Err(Trouble::OutOfMemory),
        Err(_) => Err(Trouble::Wrong),
    }
}

/// Boots a machine of the layout that [`layout_of`] returns.
pub fn machine_of(alloc: Global, history: u64) -> Outcome<Machine> {
    let layout = layout_of(alloc, history)?;
    Ok(Machine::boot(alloc, &layout)?)
}

/// Makes a layout and a copy, and checks both.
pub fn layouts(alloc: Global) -> Outcome {
    let layout = layout_of(alloc, 10)?;
    let copy = layout.copy(alloc)?;
    expect(is_small(&layout) && is_small(&copy))
}

/// Returns whether a layout has four memory blocks and room for ten records.
fn is_small(layout: &Layout) -> bool {
    layout.frames() == 16 && layout.history() == 10 && layout.boot() == BOOT
}

/// Copies what a call can hold, and checks the copies.
pub fn copies(alloc: Global) -> Outcome {
    copy_plan(alloc)?;
    copy_event(alloc)?;
    copy_words(alloc)?;
    copy_text(alloc)
}

/// Returns a plan that takes the third block offline.
fn offline(alloc: Global) -> Outcome<Plan> {
    let item = Item {
        block: Block(2),
        wish: Wish::Off,
    };
    Ok(Plan::new(alloc, vec![in alloc; item]?)?)
}

/// Copies a plan, and checks that the copy is the same.
fn copy_plan(alloc: Global) -> Outcome {
    let plan = offline(alloc)?;
    let copy = plan.copy(alloc)?;
    expect(copy.same(&plan))
}

/// Returns the event that begins to take the third block offline.
pub fn begin(alloc: Global) -> Outcome<Event> {
    let plan = offline(alloc)?;
    Ok(Event::Begin { plan })
}

/// Copies an event, and checks that the copy is the same.
fn copy_event(alloc: Global) -> Outcome {
    let event = begin(alloc)?;
    let copy = event.copy(alloc)?;
    expect(event.same(&copy))
}

/// Returns two words.
pub fn two_words(alloc: Global) -> Result<Words, AllocError>
    ensures { IfOk result (λ words. length words ≡ 2) }
{
    Words::new(alloc, vec![in alloc; 7, 9]?)
}

/// Copies a page's words, and checks the copy.
fn copy_words(alloc: Global) -> Outcome {
    let words = two_words(alloc)?;
    let copy = words.copy(alloc)?;
    expect(copy.as_slice() == [7, 9].as_slice())
}

/// Copies a text, and checks the copy.
fn copy_text(alloc: Global) -> Outcome {
    let text = Text::new(String::from_str(alloc, "memory2/state")?);
    let copy = text.copy(alloc)?;
    expect(copy.as_str() == "memory2/state")
}

/// Reserves room on a tape. Checks that its delta is kept even if memory runs out.
pub fn tapes(alloc: Global) -> Outcome {
    let mut tape = Tape::with_room(alloc, 1)?;
    note(&mut tape);
    let reserved = tape.reserve(100);
    expect(tape.len() == 1)?;
    Ok(reserved?)
}

/// Notes a delta.
pub fn note(tape: &mut Tape)
    requires { length tape.old.deltas < tape.old.room }
{
    tape.note(Delta::Auto {
        was: Auto::Offline,
        now: Auto::Online,
    });
}

/// Makes the layers of an empty machine, one after another.
pub fn layers(alloc: Global) -> Outcome {
    let layout = layout_of(alloc, 10)?;
    make_layers(alloc, &layout)
}

/// Makes the layers of an empty machine with this layout.
fn make_layers(alloc: Global, layout: &Layout) -> Outcome {
    drop(Buddy::new(alloc, layout)?);
    drop(Cpus::new(alloc, layout)?);
    drop(Pages::new(alloc, layout)?);
    drop(Blocks::new(alloc, layout)?);
    drop(Links::new(alloc, 16, 3)?);
    Ok(())
}

/// Makes Images: checks that a copy of the one at boot is the same, and the empty one is not.
pub fn images(alloc: Global) -> Outcome {
    let layout = layout_of(alloc, 10)?;
    let image = Image::boot(alloc, &layout)?;
    copy_image(alloc, &image)?;
    expect_not_empty(alloc, &layout, &image)
}

/// Copies an Image, and checks that the copy is the same, with the free lists of boot.
fn copy_image(alloc: Global, image: &Image) -> Outcome {
    let copy = image.copy(alloc)?;
    expect(
        image.same(&copy)
            && copy.list(Class::Nm, Order(2)) == [Frame(0), Frame(4)].as_slice()
            && copy.list(Class::Mm, Order(2)) == [Frame(8)].as_slice(),
    )
}

/// Makes an empty Image, and checks that it differs and has no free block.
fn expect_not_empty(alloc: Global, layout: &Layout, image: &Image) -> Outcome {
    let empty = Image::empty(alloc, layout)?;
    expect(!image.same(&empty) && empty.list(Class::Nm, Order(2)).is_empty())
}
