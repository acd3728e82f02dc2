//! Why a text is not a scenario.
ghost use Rattle.std.specs.Prelude.{◌≡◌};
ghost use Rattle.hp_scenario.specs.declared.fault.ScenarioFault.TheVariants.{OutOfMemory};

use hp_units::LayoutFault;
use std::alloc::{AllocError, AllocFailed};
use thiserror::Error;

/// The first fault of a scenario, in this order. `OutOfMemory` may come in place of any result.
#[derive(Clone, Copy, Debug, Error)]
pub enum ScenarioFault {
    /// The text is not JSON.
    #[error("not JSON")]
    NotJson,
    /// Keys, types or words are not those of a scenario.
    #[error("wrong shape")]
    BadShape,
    /// The layout is out of its limits.
    #[error("layout fault {0:?}")]
    Layout(LayoutFault),
    /// A string of `calls` cannot be read as a line; lines are counted from 1.
    #[error("line {line} not understood")]
    BadLine { line: u64 },
    /// No worker (a thread of `hotplug run`) may run the line: it reads a control file, or its
    /// processor is not in the layout. Lines are counted from 1.
    #[error("line {line} not for run")]
    NotForRun { line: u64 },
    /// Out of memory.
    #[error("out of memory")]
    OutOfMemory,
}

impl From<AllocError> for ScenarioFault {
    ghost from_gives = { λ _ e. e ≡ OutOfMemory };

    fn from(_e: AllocError) -> ScenarioFault {
        ScenarioFault::OutOfMemory
    }
}

impl<T: Drop> From<AllocFailed<T>> for ScenarioFault {
    ghost from_gives = { λ _ e. e ≡ OutOfMemory };

    fn from(_e: AllocFailed<T>) -> ScenarioFault {
        ScenarioFault::from(AllocError)
    }
}
