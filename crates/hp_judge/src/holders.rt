//! What holds the memory that starts at a frame.
ghost use Rattle.std.specs.Prelude.{ℕ, ◌≡◌, ◌++◌, OnOk};
ghost use Rattle.hp_judge.specs.Pieces.{alloc_events, free_events, same_piece};
ghost use Rattle.hp_judge.specs.Snapshots.{holder_by, page_in, piece_in};

use crate::LogEvent;
use crate::step_events::add;
use hp_units::{Frame, Order, Owner, Page};
use std::alloc::AllocError;

/// What holds the memory that starts at a frame.
#[derive(Clone, Copy, Drop)]
pub enum FrameHolder {
    /// Nothing starts there.
    Nobody,
    /// A block of the kernel, of 2^order frames.
    Kernel { order: Order },
    /// A page of an owner.
    Owner { owner: Owner, page: Page },
}

impl FrameHolder {
    /// Makes the holder of a frame. `kernel` is the order of the kernel's block that starts there,
    /// and `page` the page that the frame holds. If there are both, the kernel's block counts.
    pub fn new(kernel: Option<Order>, page: Option<(Owner, Page)>) -> FrameHolder
        ensures { result ≡ holder_by kernel page }
    {
        match kernel {
            Some(order) => FrameHolder::Kernel { order },
            None => FrameHolder::of_page(page),
        }
    }

    /// Returns the holder of a frame at which no block of the kernel starts.
    fn of_page(page: Option<(Owner, Page)>) -> FrameHolder
        ensures { result ≡ holder_by None page }
    {
        match page {
            Some(page) => FrameHolder::Owner {
                owner: page.0,
                page: page.1,
            },
            None => FrameHolder::Nobody,
        }
    }

    /// Returns whether memory in use starts at both frames, with the same number of frames, and
    /// both or neither can move.
    pub(crate) fn has_same_piece(self, other: FrameHolder) -> bool
        ensures { result ≡ same_piece (piece_in self) (piece_in other) }
    {
        match self {
            FrameHolder::Nobody => false,
            FrameHolder::Kernel { order } => other.is_kernel(order),
            FrameHolder::Owner { .. } => other.is_owner(),
        }
    }

    /// Returns whether a block of the kernel of this order starts at the frame.
    fn is_kernel(self, order: Order) -> bool
        ensures { result ≡ same_piece (piece_in (FrameHolder.Kernel order)) (piece_in self) }
    {
        match self {
            FrameHolder::Kernel { order: own } => order.0 == own.0,
            FrameHolder::Nobody | FrameHolder::Owner { .. } => false,
        }
    }

    /// Returns whether the frame holds a page.
    fn is_owner(self) -> bool
        ensures { (owner page : ℕ) → result
            ≡ same_piece (piece_in (FrameHolder.Owner owner page)) (piece_in self) }
    {
        match self {
            FrameHolder::Owner { .. } => true,
            FrameHolder::Nobody | FrameHolder::Kernel { .. } => false,
        }
    }

    /// Returns the page that the frame holds.
    pub(crate) fn page(self) -> Option<(Owner, Page)>
        ensures { result ≡ page_in self }
    {
        match self {
            FrameHolder::Owner { owner, page } => Some((owner, page)),
            FrameHolder::Nobody | FrameHolder::Kernel { .. } => None,
        }
    }
}

/// Adds the free of the memory that starts at a frame; nothing if `holder` is `Nobody`.
pub(crate) fn push_free(
    log: &mut Vec<LogEvent>,
    frame: Frame,
    holder: FrameHolder,
) -> Result<(), AllocError>
    ensures { OnOk result (log.new.items ≡ log.old.items ++ free_events frame (piece_in holder)) }
{
    match holder {
        FrameHolder::Nobody => Ok(()),
        FrameHolder::Kernel { order } => add(log, LogEvent::Free { frame, order }),
        FrameHolder::Owner { .. } => add(
            log,
            LogEvent::Free {
                frame,
                order: Order(0),
            },
        ),
    }
}

/// Adds the alloc of the memory that starts at a frame; nothing if `holder` is `Nobody`.
pub(crate) fn push_alloc(
    log: &mut Vec<LogEvent>,
    frame: Frame,
    holder: FrameHolder,
) -> Result<(), AllocError>
    ensures { OnOk result (log.new.items ≡ log.old.items ++ alloc_events frame (piece_in holder)) }
{
    match holder {
        FrameHolder::Nobody => Ok(()),
        FrameHolder::Kernel { order } => add(
            log,
            LogEvent::Alloc {
                frame,
                order,
                movable: false,
            },
        ),
        FrameHolder::Owner { .. } => add(
            log,
            LogEvent::Alloc {
                frame,
                order: Order(0),
                movable: true,
            },
        ),
    }
}
