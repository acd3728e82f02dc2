//! A machine's memory, in layers.
ghost use Rattle.std.specs.Prelude.{◌≡◌, ◌≤◌, IfOk, OnErr, OnOk, drop, length, take};
ghost use Rattle.hp_units.specs.Boot.{boot_memory};
ghost use Rattle.hp_units.specs.LayoutParts.{IsLayout};
ghost use Rattle.hp_units.specs.Memory.{Memory as State};
ghost use Rattle.hp_units.specs.Placement.{IsWellPlaced};
ghost use Rattle.hp_units.specs.Rows.{is_live};
ghost use Rattle.hp_units.specs.Step.{step};
ghost use Rattle.hp_tape.specs.Bounds.{delta_bound};
ghost use Rattle.hp_tape.specs.Deltas.{frame_view_of};
ghost use Rattle.hp_layers.specs.Layers.{AreNoted};
ghost use Rattle.hp_memory.specs.Memory.{LeadsBack};

mod reads;

use crate::images::{image_of, layers_of};
use hp_layers::Layers;
use hp_plain::Image;
use hp_tape::Tape;
use hp_units::{Cpu, Event, Layout, Reply, Serial};
use std::alloc::{AllocError, Global};
use std::marker::Model;

/// A machine's memory in layers. Its state is always well placed.
#[derive(Drop)]
pub struct Memory {
    layers: Layers,
}

impl Model for Memory {
    ghost use Rattle.hp_layers.specs.Layers.{ArePlaced, state_of};
    ghost use Rattle.hp_memory.specs.Memory.{MemoryValue};

    ghost Value = { MemoryValue };

    ghost view = { λ m. record { layout = m.layers.layout; state = state_of m.layers } };

    ghost invariant = { λ m. ArePlaced m.layers };
}

impl Memory {
    /// Creates the memory at boot.
    pub fn boot(alloc: Global, layout: &Layout) -> Result<Memory, AllocError>
        ensures { IfOk result
            (λ memory. memory ≡ record { layout = layout.now; state = boot_memory layout.now }) }
    {
        let image = Image::boot(alloc, layout)?;
        Memory::from_image(alloc, &image)
    }

    /// Creates a memory with the state of an Image, which must be well placed.
    pub fn from_image(alloc: Global, image: &Image) -> Result<Memory, AllocError>
        requires placed { IsWellPlaced image.now.layout image.now.memory }
        ensures { IfOk result
            (λ memory. memory ≡ record { layout = image.now.layout; state = image.now.memory }) }
    {
        let layers = layers_of(alloc, image)?;
        Ok(Memory { layers })
    }

    /// Returns the state as an Image.
    pub fn image(&self, alloc: Global) -> Result<Image, AllocError>
        ensures { IfOk result
            (λ image. image ≡ record { layout = self.now.layout; memory = self.now.state }) }
    {
        image_of(alloc, &self.layers)
    }

    /// Returns a copy.
    pub fn copy(&self, alloc: Global) -> Result<Memory, AllocError>
        ensures { IfOk result (λ copy. copy ≡ self.now) }
    {
        let layers = self.layers.copy(alloc)?;
        Ok(Memory { layers })
    }

    /// Returns the layout.
    pub fn layout(&self) -> &Layout
        ensures { result.now ≡ self.now.layout }
    {
        &self.layers.layout
    }

    /// Returns whether the operation is live, which means that it holds a memory block.
    pub fn is_live(&self, op: Serial) -> bool
        ensures { result ≡ is_live self.now.state.blocks op }
    {
        self.layers.blocks.is_live(op)
    }

    /// Carries out one step of the definitions. Appends to the tape the deltas of what the step did
    /// to the layers.
    ///
    /// A Cancel only releases here, and an UndoAfter does nothing. All memory is allocated before
    /// anything changes.
    pub fn step(
        &mut self,
        alloc: Global,
        serial: Serial,
        cpu: Cpu,
        event: &Event,
        tape: &mut Tape,
    ) -> Result<Reply, AllocError>
        ensures state { OnOk result
            (self.new.state ≡ (step self.old.layout self.old.state serial cpu event.now).memory) }
        ensures reply { IfOk result
            (λ reply. reply ≡ (step self.old.layout self.old.state serial cpu event.now).reply) }
        ensures noted { OnOk result (AreNoted self.old.layout
            (delta_bound self.old.layout self.old.state event.now) tape.old.deltas tape.new.deltas
            (frame_view_of self.old.layout self.new.state) (frame_view_of self.old.layout self.old.state)) }
        ensures layout { self.new.layout ≡ self.old.layout }
        ensures err { OnErr result (self.new ≡ self.old) }
        ensures kept { OnErr result (tape.new ≡ tape.old) }
    {
        self.layers.step(alloc, serial, cpu, event, tape)
    }

    /// Undoes the deltas after the first `mark`, latest first, and removes them. Allocates nothing.
    pub fn back(&mut self, tape: &mut Tape, mark: usize)
        requires mark { mark ≤ length tape.old.deltas }
        requires leads { (s : State)
            × LeadsBack self.old.layout (drop mark tape.old.deltas) self.old.state s }
        ensures state { (s : State) → LeadsBack self.old.layout (drop mark tape.old.deltas) self.old.state s
            → self.new.state ≡ s }
        ensures tape { tape.new.deltas ≡ take mark tape.old.deltas }
        ensures room { tape.new.room ≡ tape.old.room }
        ensures layout { self.new.layout ≡ self.old.layout }
    {
        self.layers.unwind(tape, mark);
    }

    /// Called for its contract: the state is well placed.
    pub fn is_placed(&self)
        ensures placed { IsWellPlaced self.now.layout self.now.state }
        ensures layout { IsLayout self.now.layout }
    {
        let _ = &self.layers;
    }
}
