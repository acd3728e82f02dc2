//! The map of a memory.
ghost use Rattle.std.specs.Prelude.{IfOk};
ghost use Rattle.hp_map.specs.Places.{ArePlacesOf};

use crate::marks::{mark_cpus, mark_kernel, mark_owners, mark_unused};
use crate::places::Place;
use hp_machine::Machine;
use std::alloc::{AllocError, Global};

/// Returns the place of each frame of a machine's memory, by the frame's number.
pub fn places_of(alloc: Global, machine: &Machine) -> Result<Vec<Place>, AllocError>
    ensures { IfOk result (λ places. ArePlacesOf machine.now.layout machine.now.state places.items) }
{
    machine.stays_sound();
    let mut places = vec![in alloc; Place::Free; machine.layout().frames() as usize]?;
    mark_unused(&mut places, machine);
    mark_cpus(&mut places, alloc, machine)?;
    mark_owners(&mut places, machine);
    mark_kernel(&mut places, machine);
    Ok(places)
}
