//! Why a line of a part's file is refused.
ghost use Rattle.std.specs.Prelude.{◌≡◌};
ghost use Rattle.hp_parts.specs.Faults.{fault_of_line};

use hp_search::{LabFault, PartFault};
use std::alloc::AllocError;

/// Why a line is refused, given the lines before it.
#[derive(Drop)]
pub(crate) enum LineFault {
    /// The line cannot be read as a line of a part.
    NotPart,
    /// The line is a head, but not byte for byte the head of a part of this search.
    OtherSearch,
    /// The processors in the line are not a complete interleaving of the part.
    NotOfPart,
    /// The line is not what the search writes for its interleaving.
    Changed,
    /// The line reports that the part was stopped before all its interleavings were counted.
    Stopped,
    /// The line is a head, but part `part`, which comes before it, does not have as many ends as
    /// its own head names.
    OtherCount { part: u32 },
    /// The history has no room for a call of the interleaving in the line; or memory ran out.
    Lab(LabFault),
}

impl LineFault {
    /// Returns this fault for the line with the number `line`, counted from 1.
    pub(crate) fn of_line(self, line: u64) -> PartFault
        ensures { result ≡ fault_of_line self line }
    {
        match self {
            LineFault::NotPart => PartFault::NotPart { line },
            LineFault::OtherSearch => PartFault::OtherSearch { line },
            LineFault::NotOfPart => PartFault::NotOfPart { line },
            LineFault::Changed => PartFault::Changed { line },
            LineFault::Stopped => PartFault::Stopped { line },
            LineFault::OtherCount { part } => PartFault::OtherCount { part },
            LineFault::Lab(fault) => PartFault::Lab(fault),
        }
    }
}

impl From<AllocError> for LineFault {
    ghost use Rattle.std.specs.Prelude.{◌≡◌};
    ghost use Rattle.hp_search.specs.declared.lab_fault.LabFault.TheVariants.{OutOfMemory};
    ghost use Rattle.hp_parts.specs.declared.line_fault.LineFault.TheVariants.{Lab};

    ghost from_gives = { λ _ e. e ≡ Lab OutOfMemory };

    fn from(_e: AllocError) -> LineFault {
        LineFault::Lab(LabFault::OutOfMemory)
    }
}
