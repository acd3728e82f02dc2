//! What can be wrong with a log.
ghost use Rattle.std.specs.Prelude.{◌≡◌};
ghost use Rattle.hp_logs.specs.declared.faults.LineFault.TheVariants.{OutOfMemory};

use std::alloc::AllocError;

/// What is wrong with a line of a log.
#[derive(Clone, Copy, Debug, PartialEq, Eq, Drop)]
pub enum LineFault {
    /// The line is longer than 65,536 bytes.
    TooLong,
    /// The line is not a JSON object.
    NotAnObject,
    /// A key does not belong to any event.
    UnknownKey,
    /// A key comes twice.
    RepeatedKey,
    /// A key's value has the wrong type, is too large, or is a word that the key does not take.
    WrongValue,
    /// Several keys name an event, or none does although a key belongs to one. Or a key does not
    /// belong to the line's event, or a move has no `to`.
    NotAnEvent,
    /// A line that is not the first has the number of frames per memory block.
    LateBlockFrames,
    /// A page event of ftrace lacks a frame or an order that can be read.
    WrongFields,
    /// The kernel's buffer was full, and events are missing.
    EventsLost,
    /// Out of memory.
    OutOfMemory,
}

impl From<AllocError> for LineFault {
    ghost from_gives = { λ _ e. e ≡ OutOfMemory };

    fn from(_e: AllocError) -> LineFault {
        LineFault::OutOfMemory
    }
}

/// Why the rest of a log cannot be read.
#[derive(Clone, Copy, Debug, PartialEq, Eq, Drop)]
pub enum LogFault {
    /// A read of the stream failed.
    ReadFailed,
    /// The line with this number, from 1, has a fault.
    Line { number: u64, fault: LineFault },
}
