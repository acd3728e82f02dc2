//! A list of frames.
ghost use Rattle.std.specs.Prelude.{◌≡◌, IfOk, [], ◌∷◌, ◌++◌, OnErr, OnOk};

pub(crate) mod many;

use hp_units::Frame;
use std::alloc::{AllocError, Global};
use std::marker::Model;

/// Frames in order, front first.
#[derive(Drop)]
pub(crate) struct FrameList {
    frames: Vec<Frame>,
}

impl Model for FrameList {
    ghost use Rattle.std.specs.Prelude.{List, ℕ};

    ghost Value = { List ℕ };

    ghost view = { λ f. f.frames.items };
}

impl PartialEq for FrameList {
    ghost use Rattle.std.specs.Prelude.{nat_eq};
    ghost use Rattle.std.specs.Cmp.{partial_equiv_from_equiv};
    ghost use Rattle.std.specs.Cmp.Lexicographic.{nat_list_eq_equiv, pointwise};

    ghost eq = { pointwise nat_eq };

    ghost laws = { partial_equiv_from_equiv nat_list_eq_equiv };

    fn eq(&self, other: &FrameList) -> bool {
        self.frames.as_slice() == other.frames.as_slice()
    }
}

impl FrameList {
    /// Creates an empty list. Allocates nothing.
    pub(crate) fn new(alloc: Global) -> FrameList
        ensures { result ≡ [] }
    {
        FrameList {
            frames: Vec::new(alloc),
        }
    }

    /// Returns the frames in order.
    pub(crate) fn as_slice(&self) -> &[Frame]
        ensures { result.now ≡ self.now }
    {
        self.frames.as_slice()
    }

    /// Returns a copy.
    pub(crate) fn copy(&self, alloc: Global) -> Result<FrameList, AllocError>
        ensures { IfOk result (λ list. list ≡ self.now) }
    {
        let frames = Vec::from_slice(alloc, self.frames.as_slice())?;
        Ok(FrameList { frames })
    }

    /// Adds a frame at the back. If memory runs out, nothing changes.
    pub(crate) fn push_back(&mut self, frame: Frame) -> Result<(), AllocError>
        ensures value { OnOk result (self.new ≡ self.old ++ frame ∷ []) }
        ensures err { OnErr result (self.new ≡ self.old) }
    {
        self.frames.push(frame)?;
        Ok(())
    }
}
