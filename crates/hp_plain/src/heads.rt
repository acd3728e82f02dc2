//! The test that no free block has its buddy on the same list.
ghost use Rattle.std.specs.Prelude.{◌≡◌, ◌<◌, ◌≤◌, IfOk, MatchBool, true, if◌then◌else◌, length, slice_index_or, ℕ, ◌↔◌};
ghost use Rattle.hp_units.specs.Arithmetic.{frame_count};
ghost use Rattle.hp_units.specs.FreeAreas.{is_on};
ghost use Rattle.hp_plain.specs.Placing.{IsListJoined};

use hp_units::{Frame, Layout, Order, buddy};
use std::alloc::{AllocError, Global};
use std::marker::Model;

/// For each frame, the number of a list with a free block that starts there: of such lists, the one
/// that was set last. 0 if none was set.
#[derive(Drop)]
pub struct Heads {
    frames: Vec<u8>,
}

impl Model for Heads {
    ghost use Rattle.std.specs.Prelude.{List, ℕ};

    ghost Value = { List ℕ };

    ghost view = { λ h. h.frames.items };
}

impl Heads {
    /// Creates the table for a layout's frames, each 0.
    pub fn new(alloc: Global, layout: &Layout) -> Result<Heads, AllocError>
        ensures length { IfOk result (λ heads. length heads ≡ frame_count layout.now) }
        ensures zero { IfOk result (λ heads. (frame : ℕ) → slice_index_or heads frame 0 ≡ 0) }
    {
        let frames = vec![in alloc; 0; layout.frames() as usize]?;
        Ok(Heads { frames })
    }

    /// Sets the first frames of a list's blocks to the list's number.
    pub fn set(&mut self, frames: &[Frame], number: u8)
        requires { (frame : ℕ) → is_on frame frames.now ≡ true → frame < length self.old }
        ensures length { length self.new ≡ length self.old }
        ensures set { (frame : ℕ) → slice_index_or self.new frame 0
            ≡ (if is_on frame frames.now then number else slice_index_or self.old frame 0) }
    {
        for frame in frames {
            self.frames[frame.0 as usize] = number;
        }
    }

    /// Returns whether no block of a list has its buddy on the list. The first frames of the list's
    /// blocks must be set to `number`, and no other frame.
    pub fn is_joined(&self, frames: &[Frame], order: Order, number: u8) -> bool
        requires order { order ≤ 10 }
        requires heads { (frame : ℕ) → (slice_index_or self.now frame 0 ≡ number)
            ↔ (is_on frame frames.now ≡ true) }
        ensures { MatchBool result (IsListJoined frames.now order) (IsListJoined frames.now order → ⊥) }
    {
        for first in frames {
            if self.at(buddy(*first, order)) == number {
                return false;
            }
        }
        true
    }

    /// Returns the number that was set last for the frame, or 0 if none was set.
    fn at(&self, frame: Frame) -> u8
        ensures { result ≡ slice_index_or self.now frame 0 }
    {
        match self.frames.get(frame.0 as usize) {
            Some(number) => *number,
            None => 0,
        }
    }
}
