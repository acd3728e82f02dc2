//! Why parts cannot be added up.
ghost use Rattle.std.specs.Prelude.{◌≡◌};
ghost use Rattle.hp_search.specs.declared.lab_fault.LabFault.TheVariants.{OutOfMemory};
ghost use Rattle.hp_search.specs.declared.part_fault.PartFault.TheVariants.{Lab};

use crate::lab_fault::LabFault;
use std::alloc::AllocError;
use thiserror::Error;

/// Why parts cannot be added up. Lines and parts are counted from 1.
#[derive(Error, Clone, Copy, Debug, PartialEq, Eq, Drop)]
pub enum PartFault {
    /// The line does not belong to a part, or has no newline; or line 1 is not the head of a part;
    /// or the input is empty.
    #[error("line {line} is none of a part")]
    NotPart { line: u64 },
    /// The line is the head of a part, but not byte for byte one that the search of line 1 writes.
    /// It has another scenario, setup, number of parts, or number of first calls that decide a
    /// part; or the search has no part with its number; or it is written in another way.
    #[error("line {line} begins a part of another search")]
    OtherSearch { line: u64 },
    /// The processors of the line are not a complete interleaving of its part.
    #[error("line {line}: its processors are no interleaving of its part")]
    NotOfPart { line: u64 },
    /// The line is not what the search writes for its interleaving: something in it was changed.
    #[error("line {line} is not what its interleaving leads to")]
    Changed { line: u64 },
    /// The line reports that its part was stopped before all its interleavings were counted, at its
    /// limit or by a watch.
    #[error("line {line}: the part was stopped before its end")]
    Stopped { line: u64 },
    /// A part has another number of ends than its head names: its file was cut off, or has too many
    /// lines.
    #[error("part {part} has another number of ends than its first line says")]
    OtherCount { part: u32 },
    /// A part is missing.
    #[error("part {part} is missing")]
    Missing { part: u64 },
    /// A part comes twice.
    #[error("part {part} comes twice")]
    Twice { part: u64 },
    /// There are 2^64 interleavings or more.
    #[error("more than 2^64-1 interleavings")]
    TooMany,
    /// The scenario that the head of this part names cannot be explored.
    #[error("part {part}: its scenario: {fault}")]
    Head { part: u32, fault: LabFault },
    /// The history has no room for a call of a line's interleaving; or memory ran out, also while
    /// reading.
    #[error("{0}")]
    Lab(LabFault),
}

impl From<AllocError> for PartFault {
    ghost from_gives = { λ _ e. e ≡ Lab OutOfMemory };

    fn from(_e: AllocError) -> PartFault {
        PartFault::Lab(LabFault::OutOfMemory)
    }
}

impl From<LabFault> for PartFault {
    ghost from_gives = { λ fault e. e ≡ Lab fault };

    fn from(fault: LabFault) -> PartFault {
        PartFault::Lab(fault)
    }
}
