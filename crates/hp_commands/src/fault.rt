//! Why the program failed.

ghost use Rattle.std.specs.Prelude.{◌≡◌, ◌++◌, Some, codes};
ghost use Rattle.hp_commands.specs.FaultText.{fault_text, said_text};
ghost use Rattle.hp_commands.specs.declared.fault.ProgramFault.TheVariants.{OutOfMemory};

use hp_machine::{ChainFault, ReplayFault};
use hp_scenario::ScenarioFault;
use hp_shared::{CloseFault, RunFault};
use hp_streams::ReadFault;
use hp_units::{Cpu, LayoutFault, Serial};
use std::alloc::AllocError;
use std::error::Error;
use std::fmt;

/// Why the program failed. Nothing was written, except for `WriteFailed`: then some of the text may
/// have been written.
#[derive(Clone, Copy, Debug, PartialEq, Eq)]
pub enum ProgramFault {
    /// The reader failed.
    ReadFailed,
    /// The input is longer than 16,777,216 bytes.
    TooLong,
    /// The input is not JSON.
    NotJson,
    /// The input is not a scenario: keys, types or words differ.
    BadShape,
    /// The scenario's layout is out of its limits.
    Layout(LayoutFault),
    /// A string of `calls` cannot be read as a line; lines are counted from 1.
    BadLine { line: u64 },
    /// No worker (a thread of `hotplug run`) may run the line: it reads a control file, or its
    /// processor is not in the layout. Lines are counted from 1.
    NotForRun { line: u64 },
    /// Out of memory.
    OutOfMemory,
    /// No thread could be started for the worker of this processor.
    NotStarted { cpu: Cpu },
    /// There was not exactly one seat (access to the machine) per processor at the end of a run.
    SeatMissing,
    /// The lowest serial at which a processor's receipts and its records differ.
    Mismatch { serial: Serial },
    /// The record with this serial has another reply than the replay gives.
    WrongReply { serial: Serial },
    /// The record with index `at`, in its volume or in the machine's history, does not
    /// have the next serial.
    WrongSerial { at: u64 },
    /// The records that the seals handed out do not lead to the machine's base (its state at the
    /// last seal or at boot), or its later records do not lead to its state.
    AuditDiffers,
    /// The writer failed.
    WriteFailed,
    /// Volume `at` (what one seal handed out), counted from 0, does not follow those before it. If
    /// `at` is the number of volumes, they do not hold all sealed records.
    BrokenChain { at: u64 },
}

impl fmt::Display for ProgramFault {
    ghost use Rattle.hp_commands.specs.FaultText.{fault_text};

    ghost output = { λ f. Some (fault_text f) };

    fn fmt<W: fmt::Write>(&self, f: &mut fmt::Formatter<W>) -> fmt::Result {
        let (before, said, after) = said_of(*self);
        write!(f, "hotplug: {before}{said}{after}")
    }
}

/// The middle piece of a fault's text.
#[derive(Clone, Copy)]
enum Said {
    Nothing,
    Number(u64),
    Layout(LayoutFault),
}

impl fmt::Display for Said {
    ghost use Rattle.hp_commands.specs.FaultText.{said_text};

    ghost output = { λ said. Some (said_text said) };

    fn fmt<W: fmt::Write>(&self, f: &mut fmt::Formatter<W>) -> fmt::Result {
        match self {
            Said::Nothing => Ok(()),
            Said::Number(number) => write!(f, "{number}"),
            Said::Layout(fault) => write!(f, "{fault}"),
        }
    }
}

/// Returns the text of a fault in three pieces: a fixed text, a middle piece, and a fixed text.
fn said_of(fault: ProgramFault) -> (&'static str, Said, &'static str)
    ensures { codes "hotplug: " ++ result.0.now ++ said_text result.1 ++ result.2.now ≡ fault_text fault }
{
    match fault {
        ProgramFault::ReadFailed => ("reading failed", Said::Nothing, ""),
        ProgramFault::TooLong => ("input too long", Said::Nothing, ""),
        ProgramFault::NotJson => ("not JSON", Said::Nothing, ""),
        ProgramFault::BadShape => ("wrong shape", Said::Nothing, ""),
        ProgramFault::Layout(fault) => ("layout fault ", Said::Layout(fault), ""),
        ProgramFault::BadLine { line } => ("line ", Said::Number(line), " not understood"),
        ProgramFault::NotForRun { line } => ("line ", Said::Number(line), " not for run"),
        ProgramFault::OutOfMemory => ("out of memory", Said::Nothing, ""),
        ProgramFault::NotStarted { cpu } => {
            ("worker ", Said::Number(u64::from(cpu.0)), " not started")
        }
        ProgramFault::SeatMissing => ("seat missing", Said::Nothing, ""),
        ProgramFault::Mismatch { serial } => {
            ("record ", Said::Number(serial.0), " does not match")
        }
        ProgramFault::WrongReply { serial } => {
            ("audit fault at record ", Said::Number(serial.0), "")
        }
        ProgramFault::WrongSerial { at } => ("audit fault at position ", Said::Number(at), ""),
        ProgramFault::AuditDiffers => ("audit differs", Said::Nothing, ""),
        ProgramFault::WriteFailed => ("writing failed", Said::Nothing, ""),
        ProgramFault::BrokenChain { at } => ("volume ", Said::Number(at), " does not follow"),
    }
}

impl Error for ProgramFault {}

impl From<AllocError> for ProgramFault {
    ghost from_gives = { λ _ e. e ≡ OutOfMemory };

    fn from(_e: AllocError) -> ProgramFault {
        ProgramFault::OutOfMemory
    }
}

impl From<ReadFault> for ProgramFault {
    ghost use Rattle.std.specs.Prelude.{◌≡◌};
    ghost use Rattle.hp_commands.specs.Faults.{read_fault_from};

    ghost from_gives = { λ f e. e ≡ read_fault_from f };

    fn from(fault: ReadFault) -> ProgramFault {
        match fault {
            ReadFault::ReadFailed => ProgramFault::ReadFailed,
            ReadFault::TooLong => ProgramFault::TooLong,
            ReadFault::OutOfMemory => ProgramFault::OutOfMemory,
        }
    }
}

impl From<ScenarioFault> for ProgramFault {
    ghost use Rattle.std.specs.Prelude.{◌≡◌};
    ghost use Rattle.hp_commands.specs.Faults.{fault_from};

    ghost from_gives = { λ f e. e ≡ fault_from f };

    fn from(fault: ScenarioFault) -> ProgramFault {
        match fault {
            ScenarioFault::NotJson => ProgramFault::NotJson,
            ScenarioFault::BadShape => ProgramFault::BadShape,
            ScenarioFault::Layout(fault) => ProgramFault::Layout(fault),
            ScenarioFault::BadLine { line } => ProgramFault::BadLine { line },
            ScenarioFault::NotForRun { line } => ProgramFault::NotForRun { line },
            ScenarioFault::OutOfMemory => ProgramFault::OutOfMemory,
        }
    }
}

impl From<RunFault> for ProgramFault {
    ghost use Rattle.std.specs.Prelude.{◌≡◌};
    ghost use Rattle.hp_commands.specs.Faults.{run_fault_from};

    ghost from_gives = { λ f e. e ≡ run_fault_from f };

    fn from(fault: RunFault) -> ProgramFault {
        match fault {
            RunFault::NotStarted { cpu } => ProgramFault::NotStarted { cpu },
            RunFault::OutOfMemory => ProgramFault::OutOfMemory,
        }
    }
}

impl From<CloseFault> for ProgramFault {
    ghost use Rattle.std.specs.Prelude.{◌≡◌};
    ghost use Rattle.hp_commands.specs.Faults.{close_fault_from};

    ghost from_gives = { λ f e. e ≡ close_fault_from f };

    fn from(fault: CloseFault) -> ProgramFault {
        match fault {
            CloseFault::SeatMissing => ProgramFault::SeatMissing,
            CloseFault::WrongVolume { at } => ProgramFault::BrokenChain { at },
            CloseFault::Mismatch { serial } => ProgramFault::Mismatch { serial },
            CloseFault::OutOfMemory => ProgramFault::OutOfMemory,
        }
    }
}

impl From<ReplayFault> for ProgramFault {
    ghost use Rattle.std.specs.Prelude.{◌≡◌};
    ghost use Rattle.hp_commands.specs.Faults.{replay_fault_from};

    ghost from_gives = { λ f e. e ≡ replay_fault_from f };

    fn from(fault: ReplayFault) -> ProgramFault {
        match fault {
            ReplayFault::WrongReply { serial } => ProgramFault::WrongReply { serial },
            ReplayFault::WrongSerial { at } => ProgramFault::WrongSerial { at },
            ReplayFault::OutOfMemory => ProgramFault::OutOfMemory,
        }
    }
}

impl From<ChainFault> for ProgramFault {
    ghost use Rattle.std.specs.Prelude.{◌≡◌};
    ghost use Rattle.hp_commands.specs.Faults.{chain_fault_from};

    ghost from_gives = { λ f e. e ≡ chain_fault_from f };

    fn from(fault: ChainFault) -> ProgramFault {
        match fault {
            ChainFault::WrongCount { at } => ProgramFault::BrokenChain { at },
            ChainFault::WrongBase { at } => ProgramFault::BrokenChain { at },
            ChainFault::Replay { at: _, fault } => ProgramFault::from(fault),
            ChainFault::OutOfMemory => ProgramFault::OutOfMemory,
        }
    }
}
