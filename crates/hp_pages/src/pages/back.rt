//! Undoes deltas.
ghost use Rattle.std.specs.Prelude.{◌≡◌};
ghost use Rattle.hp_tape.specs.FrameChanges.{frame_after};
ghost use Rattle.hp_tape.specs.Deltas.{FitsPages, IsDeltaOf, pages_undo};
ghost use Rattle.hp_pages.specs.Pages.{IsInPlace};

use crate::pages::Pages;
use hp_tape::{Delta, FrameChange};
use hp_units::{Frame, Owner, Page};

impl Pages {
    /// Undoes a delta, which must fit and have numbers within the layout. A delta of another layer
    /// changes nothing.
    pub fn back(&mut self, delta: Delta)
        requires fits { FitsPages delta self.old.pages }
        requires numbers { IsDeltaOf self.old.layout delta }
        ensures back { self.new.pages ≡ pages_undo delta self.old.pages }
        ensures layout { self.new.layout ≡ self.old.layout }
    {
        match delta {
            Delta::Emptied { frame, words } => self.buffers.put(frame, words),
            other => self.back_in_place(&other),
        }
    }

    /// Undoes a delta that holds no buffer.
    fn back_in_place(&mut self, delta: &Delta)
        requires fits { FitsPages delta.now self.old.pages }
        requires numbers { IsDeltaOf self.old.layout delta.now }
        requires other { IsInPlace delta.now }
        ensures back { self.new.pages ≡ pages_undo delta.now self.old.pages }
        ensures layout { self.new.layout ≡ self.old.layout }
    {
        match delta {
            Delta::Map {
                owner,
                page,
                change,
            } => {
                let owner = Owner(u32::from(*owner));
                let page = Page(u32::from(*page));
                self.table
                    .set(owner, page, frame_after(*change), change.before());
            }
            Delta::Swap { a, b } => self.buffers.swap(*a, *b),
            Delta::Word {
                index,
                frame,
                was,
                ..
            } => self
                .buffers
                .set_word(*frame, u32::from(*index), u64::from(*was)),
            Delta::LargeWord {
                index,
                frame,
                change,
            } => self
                .buffers
                .set_word(*frame, u32::from(*index), change.was()),
            Delta::Filled { frame, .. } => self.buffers.clear(*frame),
            _ => {}
        }
    }
}

/// Returns the page's frame after the change, if it has one then.
fn frame_after(change: FrameChange) -> Option<Frame>
    ensures { result ≡ frame_after change }
{
    match change {
        FrameChange::Mapped(frame) => Some(frame),
        FrameChange::Unmapped(_) => None,
        FrameChange::Moved { now, .. } => Some(now),
    }
}
