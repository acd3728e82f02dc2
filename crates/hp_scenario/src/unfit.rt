//! Lines that make no call.
ghost use Rattle.std.specs.Prelude.{◌≡◌, Some};
ghost use Rattle.hp_scenario.specs.Unfit.{unfit};

use crate::asked::Asked;
use crate::lines::Line;
use hp_requests::ControlFault;
use std::fmt;

/// Why a line makes no call, and so may not be in a script that is explored.
#[derive(Clone, Copy, Debug, PartialEq, Eq, Drop)]
pub enum Unfit {
    /// Its processor is not in the layout.
    Processor,
    /// It reads a control file.
    Cat,
    /// It seals.
    Seal,
    /// It writes a word to a control file that does not take it.
    Echo(ControlFault),
}

impl fmt::Display for Unfit {
    ghost use Rattle.hp_scenario.specs.Unfit.{unfit_text};

    ghost output = { λ why. Some (unfit_text why) };

    fn fmt<W: fmt::Write>(&self, f: &mut fmt::Formatter<W>) -> fmt::Result {
        match self {
            Unfit::Processor => write!(f, "its processor is not in the layout"),
            Unfit::Cat => write!(f, "cat makes no call"),
            Unfit::Seal => write!(f, "seal makes no call"),
            Unfit::Echo(fault) => write!(f, "echo: fault {fault}"),
        }
    }
}

impl Line {
    /// Returns why the line makes no call on a machine of `cpus` processors, or `None` if it makes
    /// one.
    pub fn unfit(&self, cpus: u32) -> Option<Unfit>
        ensures { result ≡ unfit cpus self.now }
    {
        if self.cpu.0 >= cpus {
            return Some(Unfit::Processor);
        }
        match self.work.asked() {
            Asked::Event(_event) => None,
            Asked::Plan { plan: _, turns: _ } => None,
            Asked::NotTaken(fault) => Some(Unfit::Echo(fault)),
            Asked::Cat { path: _ } => Some(Unfit::Cat),
            Asked::Seal => Some(Unfit::Seal),
        }
    }
}
