//! Why the program failed.
ghost use Rattle.std.specs.Prelude.{◌≡◌};
ghost use Rattle.hp_search.specs.declared.lab_fault.LabFault.TheVariants.{OutOfMemory};
ghost use Rattle.hp_search.specs.FaultOrigins.{is_of_input, is_of_scenario, is_of_text, read_fault_from};
ghost use Rattle.hp_search.specs.declared.program_fault.LabProgramFault.TheVariants.{Lab, Parts, Scenario};

use crate::lab_fault::LabFault;
use crate::part_fault::PartFault;
use hp_scenario::ScenarioFault;
use hp_streams::ReadFault;
use std::alloc::AllocError;
use thiserror::Error;

/// Why the program failed. Nothing was written, except that `WriteFailed` may leave part of the
/// text.
#[derive(Error, Clone, Copy, Debug, Drop)]
pub enum LabProgramFault {
    /// The file could not be opened.
    #[error("file not opened")]
    NotOpened,
    /// The reader failed.
    #[error("reading failed")]
    ReadFailed,
    /// The input is longer than 16,777,216 bytes.
    #[error("input too long")]
    TooLong,
    /// The exploration or the search failed; or memory ran out, in any command or while reading.
    #[error("{0}")]
    Lab(LabFault),
    /// The parts cannot be added up.
    #[error("{0}")]
    Parts(PartFault),
    /// The input is not a scenario.
    #[error("{0}")]
    Scenario(ScenarioFault),
    /// The line number `asked`, counted from 1, is past the scenario's last line, `lines`.
    #[error("{asked} is past the last line, {lines}")]
    PastEnd { asked: u64, lines: u64 },
    /// The writer failed.
    #[error("writing failed")]
    WriteFailed,
}

impl LabProgramFault {
    /// Returns whether the input could not be read.
    pub fn is_of_input(&self) -> bool
        ensures { result ≡ is_of_input self.now }
    {
        matches!(
            self,
            LabProgramFault::NotOpened | LabProgramFault::ReadFailed | LabProgramFault::TooLong
        )
    }

    /// Returns whether the input is not a scenario; `check` then reports more.
    pub fn is_of_scenario(&self) -> bool
        ensures { result ≡ is_of_scenario self.now }
    {
        match self {
            LabProgramFault::Scenario(fault) => !matches!(fault, ScenarioFault::OutOfMemory),
            LabProgramFault::Lab(fault) => is_of_text(*fault),
            _ => false,
        }
    }
}

/// Returns whether an exploration failed because the input is not a scenario.
fn is_of_text(fault: LabFault) -> bool
    ensures { result ≡ is_of_text fault }
{
    match fault {
        LabFault::NotJson => true,
        LabFault::BadShape => true,
        LabFault::Layout(_) => true,
        LabFault::BadLine { line: _ } => true,
        _ => false,
    }
}

impl From<AllocError> for LabProgramFault {
    ghost from_gives = { λ _ e. e ≡ Lab OutOfMemory };

    fn from(_e: AllocError) -> LabProgramFault {
        LabProgramFault::Lab(LabFault::OutOfMemory)
    }
}

impl From<ReadFault> for LabProgramFault {
    ghost from_gives = { λ fault e. e ≡ read_fault_from fault };

    fn from(fault: ReadFault) -> LabProgramFault {
        match fault {
            ReadFault::ReadFailed => LabProgramFault::ReadFailed,
            ReadFault::TooLong => LabProgramFault::TooLong,
            ReadFault::OutOfMemory => LabProgramFault::Lab(LabFault::OutOfMemory),
        }
    }
}

impl From<LabFault> for LabProgramFault {
    ghost from_gives = { λ fault e. e ≡ Lab fault };

    fn from(fault: LabFault) -> LabProgramFault {
        LabProgramFault::Lab(fault)
    }
}

impl From<PartFault> for LabProgramFault {
    ghost from_gives = { λ fault e. e ≡ Parts fault };

    fn from(fault: PartFault) -> LabProgramFault {
        LabProgramFault::Parts(fault)
    }
}

impl From<ScenarioFault> for LabProgramFault {
    ghost from_gives = { λ fault e. e ≡ Scenario fault };

    fn from(fault: ScenarioFault) -> LabProgramFault {
        LabProgramFault::Scenario(fault)
    }
}
