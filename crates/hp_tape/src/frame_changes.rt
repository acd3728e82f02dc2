//! A change of an owner's page.
ghost use Rattle.std.specs.Prelude.{◌≡◌};
ghost use Rattle.hp_tape.specs.FrameChanges.{frame_before};

use hp_units::Frame;

/// A change of an owner's page.
#[derive(Clone, Copy, PartialEq, Eq, Drop)]
pub enum FrameChange {
    /// The page got this frame.
    Mapped(Frame),
    /// The page lost this frame.
    Unmapped(Frame),
    /// The page moved from one frame to another.
    Moved { was: Frame, now: Frame },
}

impl FrameChange {
    /// Returns the frame before the change, if the page had one.
    pub fn before(self) -> Option<Frame>
        ensures { result ≡ frame_before self }
    {
        match self {
            FrameChange::Mapped(_) => None,
            FrameChange::Unmapped(frame) => Some(frame),
            FrameChange::Moved { was, .. } => Some(was),
        }
    }
}
