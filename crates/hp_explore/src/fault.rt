//! Why a search has no result.

use crate::ExploreFault;
use std::alloc::AllocError;

/// Why a search has no result.
#[derive(Clone, Copy, Debug, PartialEq, Eq, Drop)]
pub enum FindFault {
    /// The layout's history has no room for a call of some schedule, or no serial is left for it.
    HistoryFull,
    /// Memory allocation failed.
    OutOfMemory,
    /// The watch ended the search.
    Stopped,
}

impl From<AllocError> for FindFault {
    ghost use Rattle.std.specs.Prelude.{◌≡◌};
    ghost use Rattle.hp_explore.specs.declared.fault.FindFault.TheVariants.{OutOfMemory};

    ghost from_gives = { λ _ e. e ≡ OutOfMemory };

    fn from(_error: AllocError) -> FindFault {
        FindFault::OutOfMemory
    }
}

impl From<ExploreFault> for FindFault {
    ghost use Rattle.std.specs.Prelude.{◌≡◌};
    ghost use Rattle.hp_explore.specs.FindFaults.{find_fault_from};

    ghost from_gives = { λ fault e. e ≡ find_fault_from fault };

    fn from(fault: ExploreFault) -> FindFault {
        match fault {
            ExploreFault::HistoryFull => FindFault::HistoryFull,
            ExploreFault::OutOfMemory => FindFault::OutOfMemory,
        }
    }
}
