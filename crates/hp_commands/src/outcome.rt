//! How a call of the program ends.
ghost use Rattle.std.specs.Prelude.{◌≡◌, Some};
ghost use Rattle.hp_commands.specs.Outcomes.{status_of};

use crate::fault::ProgramFault;
use std::fmt;

/// How a call of the program ended.
#[derive(Clone, Copy, PartialEq, Eq)]
pub enum ProgramEnd {
    /// Everything was written.
    Done,
    /// The command line names no command.
    NoCommand,
    /// The command failed.
    Failed(ProgramFault),
}

impl ProgramEnd {
    /// Returns the exit status: 0; 1 after a fault; 2 if there was no command.
    pub fn status(self) -> u8
        ensures { result ≡ status_of self }
    {
        match self {
            ProgramEnd::Done => 0,
            ProgramEnd::NoCommand => 2,
            ProgramEnd::Failed(_) => 1,
        }
    }
}

/// The line for standard error, if there is one.
impl fmt::Display for ProgramEnd {
    ghost use Rattle.hp_commands.specs.Outcomes.{outcome_text};

    ghost output = { λ outcome. Some (outcome_text outcome) };

    fn fmt<W: fmt::Write>(&self, f: &mut fmt::Formatter<W>) -> fmt::Result {
        match self {
            ProgramEnd::Done => Ok(()),
            ProgramEnd::NoCommand => write!(f, "hotplug: serial, run or audit"),
            ProgramEnd::Failed(fault) => write!(f, "{fault}"),
        }
    }
}
