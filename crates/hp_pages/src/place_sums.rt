//! The page of each frame, as a sum of indexes of pages.
ghost use Rattle.std.specs.Prelude.{◌≡◌, ◌+◌, ◌<◌, ◌≤◌, ◌^◌, IfOk, IfSome, length, nat_lt, replicate, slice_index, slice_set};
ghost use Rattle.hp_pages.specs.FrameSets.{FindsLowest};
ghost use Rattle.hp_pages.specs.Places.{CanJoin, CanLeave, joined, left};

use crate::frame_set::FrameSet;
use hp_units::Frame;
use std::alloc::{AllocError, Global};
use std::marker::Model;

/// For each frame, the sum of the indexes of the pages that are mapped to it. The index of a page
/// (`place`) counts the pages of all owners from 1, owner after owner.
///
/// It is a sum, because two pages may be mapped to one frame while deltas are undone.
#[derive(Drop)]
pub(crate) struct PlaceSums {
    sums: Vec<u64>,
    mapped: FrameSet,
}

impl Model for PlaceSums {
    ghost use Rattle.std.specs.Prelude.{List, ℕ};
    ghost use Rattle.hp_pages.specs.Places.{AreMarked};

    ghost Value = { List ℕ };

    ghost view = { λ s. s.sums.items };

    ghost invariant = { λ s. AreMarked s.sums.items s.mapped };
}

impl PlaceSums {
    /// Creates the sums of `frames` frames without pages. There may be at most 2^20 frames.
    pub(crate) fn none(alloc: Global, frames: u32) -> Result<PlaceSums, AllocError>
        requires { frames ≤ 2 ^ 20 }
        ensures { IfOk result (λ sums. sums ≡ replicate frames 0) }
    {
        let sums = vec![in alloc; 0; frames as usize]?;
        let mapped = FrameSet::none(alloc, frames)?;
        Ok(PlaceSums { sums, mapped })
    }

    /// Returns a copy.
    pub(crate) fn copy(&self, alloc: Global) -> Result<PlaceSums, AllocError>
        ensures { IfOk result (λ sums. sums ≡ self.now) }
    {
        let sums = Vec::from_slice(alloc, self.sums.as_slice())?;
        let mapped = self.mapped.copy(alloc)?;
        Ok(PlaceSums { sums, mapped })
    }

    /// Returns the sum of a frame.
    pub(crate) fn at(&self, frame: Frame) -> u64
        requires { frame < length self.now }
        ensures { result ≡ slice_index self.now frame }
    {
        self.sums[frame.0 as usize]
    }

    /// Adds a page's index to the sum of the frame that the page gets, if any.
    pub(crate) fn join(&mut self, frame: Option<Frame>, place: u64)
        requires { IfSome frame (CanJoin self.old place) }
        ensures { self.new ≡ joined self.old frame place }
    {
        if let Some(frame) = frame {
            self.set(frame, self.at(frame) + place);
        }
    }

    /// Subtracts a page's index from the sum of the frame that the page leaves, if any.
    pub(crate) fn leave(&mut self, frame: Option<Frame>, place: u64)
        requires { IfSome frame (CanLeave self.old place) }
        ensures { self.new ≡ left self.old frame place }
    {
        if let Some(frame) = frame {
            self.set(frame, self.at(frame) - place);
        }
    }

    /// Sets the sum of a frame.
    fn set(&mut self, frame: Frame, sum: u64)
        requires { frame < length self.old }
        ensures { self.new ≡ slice_set self.old frame sum }
    {
        self.sums[frame.0 as usize] = sum;
        self.mapped.set(frame, sum != 0);
    }

    /// Returns the lowest frame with a page, with first <= frame < past. Takes one step per 64
    /// frames.
    pub(crate) fn lowest(&self, first: u32, past: u32) -> Option<Frame>
        requires { past ≤ length self.now }
        ensures { FindsLowest (λ frame. nat_lt 0 (slice_index self.now frame)) first past result }
    {
        self.mapped.lowest(first, past)
    }
}
