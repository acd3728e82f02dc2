//! One step from an Image to an Image.
ghost use Rattle.std.specs.Prelude.{◌≡◌, IfOk};
ghost use Rattle.hp_units.specs.Placement.{IsWellPlaced};
ghost use Rattle.hp_units.specs.Step.{step};

use crate::memory::Memory;
use hp_plain::Image;
use hp_tape::Tape;
use hp_units::{Cpu, Event, Reply, Serial};
use std::alloc::{AllocError, Global};

/// The result of a step on an Image.
#[derive(Drop)]
pub struct ImageStep {
    /// The state after the step.
    pub image: Image,
    /// The reply.
    pub reply: Reply,
}

/// Carries out one step of the definitions from an Image, whose state must be well placed, to a new
/// Image.
///
/// A Cancel only releases here, and an UndoAfter does nothing, as in `Memory::step`. Both Images
/// are converted whole, so this costs much more than `Memory::step`.
pub fn step_of_image(
    alloc: Global,
    image: &Image,
    serial: Serial,
    cpu: Cpu,
    event: &Event,
) -> Result<ImageStep, AllocError>
    requires placed { IsWellPlaced image.now.layout image.now.memory }
    ensures image { IfOk result (λ s. s.image ≡ record {
      layout = image.now.layout;
      memory = (step image.now.layout image.now.memory serial cpu event.now).memory;
    }) }
    ensures reply { IfOk result
        (λ s. s.reply ≡ (step image.now.layout image.now.memory serial cpu event.now).reply) }
{
    let mut memory = Memory::from_image(alloc, image)?;
    step_into_image(alloc, &mut memory, serial, cpu, event)
}

/// Carries out one step of a memory, and returns the Image of its state after it.
fn step_into_image(
    alloc: Global,
    memory: &mut Memory,
    serial: Serial,
    cpu: Cpu,
    event: &Event,
) -> Result<ImageStep, AllocError>
    ensures image { IfOk result (λ s. s.image ≡ record {
      layout = memory.old.layout;
      memory = (step memory.old.layout memory.old.state serial cpu event.now).memory;
    }) }
    ensures reply { IfOk result
        (λ s. s.reply ≡ (step memory.old.layout memory.old.state serial cpu event.now).reply) }
{
    let mut tape = Tape::with_room(alloc, 0)?;
    let reply = memory.step(alloc, serial, cpu, event, &mut tape)?;
    let image = memory.image(alloc)?;
    Ok(ImageStep { image, reply })
}
