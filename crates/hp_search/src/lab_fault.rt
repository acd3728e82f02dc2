//! Why an exploration or a search of a scenario failed.
ghost use Rattle.std.specs.Prelude.{◌≡◌};
ghost use Rattle.hp_search.specs.declared.lab_fault.LabFault.TheVariants.{OutOfMemory};

use hp_scenario::{ScenarioFault, Unfit};
use hp_scripts::StartFault;
use hp_units::LayoutFault;
use std::alloc::AllocError;
use std::fmt;
use thiserror::Error;

/// Why an exploration or a search of a scenario failed. `OutOfMemory` may come in place of any
/// other.
#[derive(Error, Clone, Copy, Debug, PartialEq, Eq, Drop)]
pub enum LabFault {
    /// The input is not JSON.
    #[error("not JSON")]
    NotJson,
    /// The input is JSON but not a scenario: a key, a type or a word is wrong.
    #[error("wrong shape")]
    BadShape,
    /// The scenario's layout is out of its limits.
    #[error("layout fault {0}")]
    Layout(LayoutFault),
    /// A string of `calls` cannot be read as a line; lines are counted from 1.
    #[error("line {line} not understood")]
    BadLine { line: u64 },
    /// A line after the setup may not be in a script; lines are counted from 1.
    #[error("line {line} not for a script: {why}")]
    NotForScript { line: u64, why: Unfit },
    /// A wanted line names a processor, a memory block or a frame past the layout's last; wanted
    /// lines are counted from 1.
    #[error("wanted line {number} names what is past the layout")]
    PastLayout { number: u64 },
    /// The layout's history has no room for all calls of an interleaving. It needs room for
    /// `needed` records; `None` if a script holds a plan, whose calls only a search can count, or
    /// if the number is 2^64 or more.
    #[error("no room in the history for all calls of an interleaving{}", Room(*needed))]
    HistoryFull { needed: Option<u64> },
    /// Out of memory.
    #[error("out of memory")]
    OutOfMemory,
}

/// How much room a full history would need, as the end of a fault's text.
#[derive(Drop)]
struct Room(Option<u64>);

impl fmt::Display for Room {
    fn fmt<W: fmt::Write>(&self, f: &mut fmt::Formatter<W>) -> fmt::Result {
        match self.0 {
            Some(records) => write!(f, ": it needs {records} records"),
            None => Ok(()),
        }
    }
}

impl From<AllocError> for LabFault {
    ghost from_gives = { λ _ e. e ≡ OutOfMemory };

    fn from(_e: AllocError) -> LabFault {
        LabFault::OutOfMemory
    }
}

impl From<ScenarioFault> for LabFault {
    ghost use Rattle.std.specs.Prelude.{◌≡◌};
    ghost use Rattle.hp_search.specs.FaultOrigins.{fault_from};

    ghost from_gives = { λ f e. e ≡ fault_from f };

    fn from(fault: ScenarioFault) -> LabFault {
        match fault {
            ScenarioFault::NotJson => LabFault::NotJson,
            ScenarioFault::BadShape => LabFault::BadShape,
            ScenarioFault::Layout(fault) => LabFault::Layout(fault),
            ScenarioFault::BadLine { line } => LabFault::BadLine { line },
            ScenarioFault::NotForRun { line } => LabFault::BadLine { line },
            ScenarioFault::OutOfMemory => LabFault::OutOfMemory,
        }
    }
}

impl From<StartFault> for LabFault {
    ghost use Rattle.std.specs.Prelude.{◌≡◌};
    ghost use Rattle.hp_search.specs.FaultOrigins.{start_fault_from};

    ghost from_gives = { λ f e. e ≡ start_fault_from f };

    fn from(fault: StartFault) -> LabFault {
        match fault {
            StartFault::NotForScript { line, why } => LabFault::NotForScript { line, why },
            StartFault::OutOfMemory => LabFault::OutOfMemory,
        }
    }
}
