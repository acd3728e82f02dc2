//! The machine's replies and refusals, and the records made of them.
ghost use Rattle.std.specs.Prelude.{◌≡◌, ◌↔◌, IsTrue};

use crate::events::Event;
use crate::{Block, Cpu, Frame, Serial};

/// Why an event was refused: the first check that fails, in the event's order of checks. A refusal
/// is recorded and changes no state.
#[derive(Clone, Copy, PartialEq, Eq, Drop)]
pub enum Refusal {
    /// The owner is not in the layout.
    NoOwner,
    /// The page is not in the layout.
    NoPage,
    /// The word is not in the layout.
    NoWord,
    /// The page already has a frame.
    AlreadyMapped,
    /// The page has no frame.
    NotMapped,
    /// The order is above the layout's greatest.
    BadOrder,
    /// No frame, or no block of this order, is available.
    NoFrame,
    /// The frame is not in the layout.
    NoSuchFrame,
    /// No kernel block starts at the frame.
    NotKernel,
    /// The processor is not in the layout.
    NoCpu,
    /// The memory block is not in the layout.
    NoBlock,
    /// The plan has no items.
    EmptyPlan,
    /// The plan names the block twice.
    Twice { block: Block },
    /// An operation holds the block.
    Busy { block: Block },
    /// The block is not online.
    NotOnline { block: Block },
    /// The block is not offline.
    NotOffline { block: Block },
    /// A kernel block starts at this frame. It is the lowest such frame in the plan's first block
    /// that is to go offline and has a kernel block.
    Unmovable { frame: Frame },
    /// No operation with this number holds a memory block: it has ended, was undone, or never
    /// began.
    NoOp,
    /// No frame of the blocks that the operation is taking offline is mapped.
    NothingToMove,
    /// A frame of the blocks that the operation is taking offline is in no free block. It is the
    /// lowest such frame.
    NotFree { frame: Frame },
    /// The serial is above the last one, or below that of the last sealed record (sealed records
    /// cannot be undone).
    Gone,
    /// The address is not a multiple of the size of a memory block in bytes.
    BadAddress,
    /// The block is there already.
    NotAbsent { block: Block },
}

/// The machine's reply to an event.
#[derive(Clone, Copy, PartialEq, Eq, Drop)]
pub enum Reply {
    /// The event was carried out.
    Done,
    /// The first frame of the block that was taken.
    Frame(Frame),
    /// The word that was read.
    Word(u64),
    /// The page at `from` has moved to `to`.
    Moved { from: Frame, to: Frame },
    /// The operation has begun, with this number.
    Opened { op: Serial },
    /// The operation's steps are dropped: the state is that before its Begin.
    Restored,
    /// The operation has ended, and the steps after its Begin stay.
    Released,
    /// This many steps are undone.
    Undone { count: u64 },
    /// The event was refused, and changed no state.
    Refused(Refusal),
}

impl Refusal {
    /// Returns whether both refusals are equal.
    pub fn same(self, other: Refusal) -> bool
        ensures { IsTrue result ↔ (self ≡ other) }
    {
        self == other
    }
}

impl Reply {
    /// Returns whether both replies are equal.
    pub fn same(&self, other: &Reply) -> bool
        ensures { IsTrue result ↔ (self.now ≡ other.now) }
    {
        *self == *other
    }
}

/// One entry of the history.
#[derive(Drop)]
pub struct Record {
    /// The record's number.
    pub serial: Serial,
    /// The processor that made the call.
    pub cpu: Cpu,
    /// The request.
    pub event: Event,
    /// The reply.
    pub reply: Reply,
}

/// What a caller keeps of its call.
#[derive(Drop)]
pub struct Receipt {
    /// The record's number.
    pub serial: Serial,
    /// The request.
    pub event: Event,
    /// The reply.
    pub reply: Reply,
}

/// Why a call left no record. Such a call changes nothing.
#[derive(Clone, Copy, PartialEq, Eq, Drop)]
pub enum CallFault {
    /// The history is at its limit, or the last serial is 2^64 - 1.
    HistoryFull,
    /// Memory allocation failed.
    OutOfMemory,
}

/// How a driver's run of an operation ended.
#[derive(Clone, Copy, PartialEq, Eq, Drop)]
pub enum OpEnd {
    /// The plan was committed.
    Done,
    /// The Begin was refused.
    Refused(Refusal),
    /// The operation was cancelled. `why` is the last refusal of a migration or a commit, if any;
    /// `restored` is whether its steps were dropped.
    Cancelled {
        why: Option<Refusal>,
        restored: bool,
    },
    /// The operation was no longer live: it was undone, or another caller ended it.
    Undone,
    /// A call left no record. If the operation has begun, it may still be live.
    Left {
        op: Option<Serial>,
        fault: CallFault,
    },
}
