//! The lines of a scenario.
ghost use Rattle.std.specs.Prelude.{◌≡◌};

use hp_requests::Echo;
use hp_units::{Cpu, Event, Plan, Text};
use std::marker::Model;
use std::mem::size_of;

/// The work of a line.
#[derive(Drop)]
pub enum Work {
    /// One event of the machine.
    Event(Event),
    /// A run of a plan's driver, with at most `turns` migrations.
    Plan { plan: Plan, turns: u32 },
    /// A word to write to a control file.
    Echo(Echo),
    /// A control file to read.
    Cat { path: Text },
    /// A seal: the records since the last seal are handed out.
    Seal,
}

/// A line: a processor and its work.
#[derive(Drop)]
pub struct Line {
    /// The caller's processor.
    pub cpu: Cpu,
    /// The work.
    pub work: Work,
}

/// The size of a line decides how much memory a long scenario takes.
const _: () = prove!(size_of::<Line>() <= 40);

/// Lines in order. In contracts, their value is a list.
#[derive(Drop)]
pub struct Lines {
    lines: Vec<Line>,
}

impl Model for Lines {
    ghost use Rattle.std.specs.Prelude.{List};
    ghost use Rattle.hp_scenario.specs.declared.lines.Line.{Line};

    ghost Value = { List Line };

    ghost view = { λ l. l.lines.items };
}

impl Lines {
    /// Wraps lines without copying them.
    pub fn new(lines: Vec<Line>) -> Lines
        ensures { result ≡ lines.items }
    {
        Lines { lines }
    }

    /// Returns the lines in order.
    pub fn as_slice(&self) -> &[Line]
        ensures { result.now ≡ self.now }
    {
        self.lines.as_slice()
    }

    /// Returns the lines as a vector, without copying them.
    pub fn into_vec(self) -> Vec<Line>
        ensures { result.items ≡ self }
    {
        let Lines { lines: all } = self;
        all
    }
}
