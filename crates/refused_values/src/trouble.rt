//! Why a case stopped, and how many calls ran out of memory.
use hp_machine::{ChainFault, ReplayFault};
use hp_requests::ControlFault;
use hp_scenario::ScenarioFault;
use hp_units::{CallFault, Serial};
use std::alloc::{AllocError, AllocFailed, Global};

/// Why a case stopped.
#[derive(Clone, Copy, Drop)]
pub enum Trouble {
    /// A call ran out of memory.
    OutOfMemory,
    /// A plan ran out of memory, and left an operation.
    Left { op: Serial },
    /// A reply, or a state, is not what it should be.
    Wrong,
}

/// The value of a check that passed, or why it did not pass.
pub type Outcome<T = ()> = Result<T, Trouble>;

/// What a case is run with.
#[derive(Drop)]
pub struct Case<'a> {
    /// The allocator.
    pub alloc: Global,
    /// How many calls ran out of memory so far.
    pub refusals: u32,
    host: &'a HostRuntime,
}

impl<'a> Case<'a> {
    /// Creates a case in which no call has run out of memory.
    pub fn new(host: &'a HostRuntime) -> Case<'a> {
        Case {
            alloc: host.alloc(),
            refusals: 0,
            host,
        }
    }

    /// Counts a call that ran out of memory.
    pub fn note(&mut self) {
        self.refusals = self.refusals.saturating_add(1);
    }

    /// Counts a call that ran out of memory, and returns `is_kept`: whether all was as before. If
    /// `trouble` is `Wrong`, returns `Wrong` instead and counts nothing.
    pub fn refused(&mut self, trouble: Trouble, is_kept: Outcome) -> Outcome {
        match trouble {
            Trouble::Wrong => Err(Trouble::Wrong),
            _ => {
                self.note();
                is_kept
            }
        }
    }

    /// Prints that everything that the calls need is prepared. After this line, allocations may be
    /// refused.
    pub fn say_set_up(&self) {
        let _said = eprintln!(self.host; "set up");
    }
}

/// Returns `Wrong` if the condition is false.
pub fn expect(is_so: bool) -> Outcome {
    if is_so { Ok(()) } else { Err(Trouble::Wrong) }
}

impl From<AllocError> for Trouble {
    fn from(_error: AllocError) -> Trouble {
        Trouble::OutOfMemory
    }
}

impl<T: Drop> From<AllocFailed<T>> for Trouble {
    fn from(_error: AllocFailed<T>) -> Trouble {
        Trouble::OutOfMemory
    }
}

impl From<CallFault> for Trouble {
    fn from(fault: CallFault) -> Trouble {
        match fault {
            CallFault::OutOfMemory => Trouble::OutOfMemory,
            _ => Trouble::Wrong,
        }
    }
}

impl From<ControlFault> for Trouble {
    fn from(fault: ControlFault) -> Trouble {
        match fault {
            ControlFault::OutOfMemory => Trouble::OutOfMemory,
            _ => Trouble::Wrong,
        }
    }
}

impl From<ScenarioFault> for Trouble {
    fn from(fault: ScenarioFault) -> Trouble {
        match fault {
            ScenarioFault::OutOfMemory => Trouble::OutOfMemory,
            _ => Trouble::Wrong,
        }
    }
}

impl From<ReplayFault> for Trouble {
    fn from(fault: ReplayFault) -> Trouble {
        match fault {
            ReplayFault::OutOfMemory => Trouble::OutOfMemory,
            _ => Trouble::Wrong,
        }
    }
}

impl From<ChainFault> for Trouble {
    fn from(fault: ChainFault) -> Trouble {
        match fault {
            ChainFault::OutOfMemory => Trouble::OutOfMemory,
            _ => Trouble::Wrong,
        }
    }
}
