//! All layers of a machine's memory.
ghost use Rattle.std.specs.Prelude.{◌≡◌, ◌≤◌, drop, length, take, IfOk};
ghost use Rattle.std.specs.List.{AllByRecursion};
ghost use Rattle.hp_units.specs.Arithmetic.{IsFrame};
ghost use Rattle.hp_units.specs.Rows.{zone_of};
ghost use Rattle.hp_tape.specs.Deltas.{AllFit, Fits, IsDeltaOf, undo, undo_all};
ghost use Rattle.hp_layers.specs.Layers.{AreOfOneLayout, state_of, view_of};

mod begins;
mod commits;
mod drains;
mod kernel;
mod migrations;
mod onlines;
mod operations;
mod pages;
mod plans;
mod releases;
mod single_blocks;
mod steps;

use crate::frames::Frames;
use crate::parts::{Part, part_of};
use hp_pages::{Blocks, KernelBlocks, Pages};
use hp_tape::{Delta, Tape};
use hp_units::{Frame, Layout, Zone, block_of};
use std::alloc::{AllocError, Global};

/// All layers of a memory. The type does not tie them together: the calls require that they are of
/// one layout (`AreOfOneLayout`) and that their state is well placed (`ArePlaced`).
pub struct Layers {
    /// The layout of all layers.
    pub layout: Layout,
    /// The free areas and the processors' lists.
    pub frames: Frames,
    /// The owners' pages.
    pub pages: Pages,
    /// The order of the kernel block that starts at each frame.
    pub kernel: KernelBlocks,
    /// The rows of the memory blocks.
    pub blocks: Blocks,
}

/// Keeps callers from proving again how each field is dropped.
impl Drop for Layers {
    fn drop(self) {
        let Layers {
            layout: _layout,
            frames: _frames,
            pages: _pages,
            kernel: _kernel,
            blocks: _blocks,
        } = self;
    }
}

impl Layers {
    /// Returns a copy.
    pub fn copy(&self, alloc: Global) -> Result<Layers, AllocError>
        ensures { IfOk result (λ m. m ≡ self.now) }
    {
        Ok(Layers {
            layout: self.layout.copy(alloc)?,
            frames: self.frames.copy(alloc)?,
            pages: self.pages.copy(alloc)?,
            kernel: self.kernel.copy(alloc)?,
            blocks: self.blocks.copy(alloc)?,
        })
    }

    /// Undoes the deltas after a tape's first `mark`, latest first, and removes them. Allocates
    /// nothing.
    pub fn unwind(&mut self, tape: &mut Tape, mark: usize)
        requires one { AreOfOneLayout self.old }
        requires mark { mark ≤ length tape.old.deltas }
        requires fits { AllFit Fits undo (drop mark tape.old.deltas) (view_of self.old) }
        requires numbers { AllByRecursion (IsDeltaOf self.old.layout) (drop mark tape.old.deltas) }
        ensures back { view_of self.new ≡ undo_all undo (drop mark tape.old.deltas) (view_of self.old) }
        ensures tape { tape.new.deltas ≡ take mark tape.old.deltas }
        ensures room { tape.new.room ≡ tape.old.room }
        ensures layout { self.new.layout ≡ self.old.layout }
        ensures one { AreOfOneLayout self.new }
    {
        while tape.len() > mark {
            match tape.latest() {
                Some(delta) => self.back(delta),
                None => return,
            }
        }
    }

    /// Undoes one delta, which must fit and be of the layout.
    #[inline(always)]
    fn back(&mut self, delta: Delta)
        requires one { AreOfOneLayout self.old }
        requires fits { Fits delta (view_of self.old) }
        requires numbers { IsDeltaOf self.old.layout delta }
        ensures back { view_of self.new ≡ undo delta (view_of self.old) }
        ensures layout { self.new.layout ≡ self.old.layout }
        ensures one { AreOfOneLayout self.new }
    {
        match part_of(&delta) {
            Part::Areas => self.frames.buddy.back(delta),
            Part::Lists => self.frames.cpus.back(delta),
            Part::Pages => self.pages.back(delta),
            Part::Kernel => self.kernel.back(delta),
            Part::Blocks => self.blocks.back(delta),
        }
    }

    /// Returns the zone of the memory block that contains the frame, or Normal if the block has
    /// none.
    fn zone_of(&self, frame: Frame) -> Zone
        requires frame { IsFrame self.now.layout frame }
        requires one { AreOfOneLayout self.now }
        ensures { result ≡ zone_of self.now.layout (state_of self.now) frame }
    {
        match self.blocks.row(block_of(&self.layout, frame)).zone {
            Some(zone) => zone,
            None => Zone::Normal,
        }
    }
}
