//! Why a search of a scenario cannot start.
ghost use Rattle.std.specs.Prelude.{◌≡◌};
ghost use Rattle.hp_scripts.specs.declared.start_fault.StartFault.TheVariants.{OutOfMemory};

use hp_scenario::Unfit;
use std::alloc::AllocError;

/// Why a search of a scenario cannot start. `OutOfMemory` may come in place of the other.
#[derive(Clone, Copy, Drop)]
pub enum StartFault {
    /// A line after the setup may not be in a script; lines are counted from 1.
    NotForScript { line: u64, why: Unfit },
    /// Out of memory.
    OutOfMemory,
}

impl From<AllocError> for StartFault {
    ghost from_gives = { λ _ e. e ≡ OutOfMemory };

    fn from(_e: AllocError) -> StartFault {
        StartFault::OutOfMemory
    }
}
