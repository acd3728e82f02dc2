//! Why a control file was not read or written.
ghost use Rattle.std.specs.Prelude.{◌≡◌, Some};
ghost use Rattle.hp_requests.specs.declared.fault.ControlFault.TheVariants.{OutOfMemory};

use std::alloc::AllocError;
use std::error::Error;
use std::fmt;

/// The first fault of reading or writing a control file. `OutOfMemory` may come in place of any
/// other result.
#[derive(Clone, Copy, Debug, PartialEq, Eq, Drop)]
pub enum ControlFault {
    /// There is no such file: the path is unknown, or the memory block is not in the layout or is
    /// absent.
    NoFile,
    /// The file cannot be written.
    ReadOnly,
    /// The file does not accept this text.
    BadText,
    /// Out of memory.
    OutOfMemory,
    /// The file cannot be read.
    WriteOnly,
}

impl fmt::Display for ControlFault {
    ghost use Rattle.hp_requests.specs.FaultName.{fault_name};

    ghost output = { λ f. Some (fault_name f) };

    fn fmt<W: fmt::Write>(&self, f: &mut fmt::Formatter<W>) -> fmt::Result {
        match self {
            ControlFault::NoFile => write!(f, "NoFile"),
            ControlFault::ReadOnly => write!(f, "ReadOnly"),
            ControlFault::BadText => write!(f, "BadText"),
            ControlFault::OutOfMemory => write!(f, "OutOfMemory"),
            ControlFault::WriteOnly => write!(f, "WriteOnly"),
        }
    }
}

impl Error for ControlFault {}

impl From<AllocError> for ControlFault {
    ghost from_gives = { λ _ e. e ≡ OutOfMemory };

    fn from(_e: AllocError) -> ControlFault {
        ControlFault::OutOfMemory
    }
}
