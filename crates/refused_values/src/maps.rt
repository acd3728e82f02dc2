//! The places of a machine's frames, and their picture.
use crate::trouble::{Outcome, expect};
use crate::values::machine_of;
use hp_machine::Machine;
use hp_map::{BlockPicture, Place, picture_of, places_of};
use std::alloc::Global;

/// Checks the places of all frames at boot, and their picture.
pub fn run(alloc: Global) -> Outcome {
    let machine = machine_of(alloc, 10)?;
    expect_places(alloc, &machine)?;
    expect_picture(alloc, &machine)
}

/// Checks that twelve frames are free and four offline.
fn expect_places(alloc: Global, machine: &Machine) -> Outcome {
    let places = places_of(alloc, machine)?;
    expect(
        places.len() == 16
            && count_of(&places, Place::Free) == 12
            && count_of(&places, Place::Offline) == 4,
    )
}

/// Returns how many frames are in this place.
fn count_of(places: &[Place], wanted: Place) -> u32 {
    let mut count = 0u32;
    for place in places {
        if *place == wanted {
            count = count.saturating_add(1);
        }
    }
    count
}

/// Checks that the memory blocks are drawn as at boot.
fn expect_picture(alloc: Global, machine: &Machine) -> Outcome {
    let blocks = picture_of(alloc, machine, true)?;
    expect(match blocks.as_slice() {
        [first, second, third, fourth] => {
            is_drawn(first, "0:N", "(2.)")
                && is_drawn(second, "1:N", "(2.)")
                && is_drawn(third, "2:M", "(2.)")
                && is_drawn(fourth, "3:off", "----")
        }
        _ => false,
    })
}

/// Returns whether a memory block is drawn with this head and these cells.
fn is_drawn(block: &BlockPicture, head: &str, cells: &str) -> bool {
    block.head() == head && block.ordered() == cells
}
