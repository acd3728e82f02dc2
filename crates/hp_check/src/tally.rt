//! What earlier lines did to the serials and to the history.
ghost use Rattle.std.specs.Prelude.{◌≡◌, nat_le};

use hp_scenario::{Asked, Line, Work};
use hp_scripts::work_begins;
use hp_units::{Layout, Serial, mark_of};
use std::alloc::{AllocError, Global};

/// Which records begin an operation, and how many records there are since the last seal. In scripts
/// the order of the calls is not known.
#[derive(Drop)]
pub(crate) struct Tally {
    /// Whether each record begins an operation, up to the first plan. How many records a plan makes
    /// is not known.
    begins: Vec<bool>,
    /// Whether a record after those in `begins` may begin an operation.
    any_later: bool,
    /// Whether the lines that are added are in scripts.
    pub(crate) in_scripts: bool,
    /// Whether the next line works on the result of an earlier line, which it gives by name. The
    /// number in such a line is 0.
    pub(crate) by_name: bool,
    used: u64,
}

impl Tally {
    /// Creates a tally before any line.
    pub(crate) fn new(alloc: Global) -> Tally {
        Tally {
            begins: Vec::new(alloc),
            any_later: false,
            in_scripts: false,
            by_name: false,
            used: 0,
        }
    }

    /// Adds the records of a line's work, on a machine of this layout. A seal empties the history.
    pub(crate) fn add(&mut self, layout: &Layout, work: &Work) -> Result<(), AllocError> {
        match work.asked() {
            Asked::Event(event) => self.add_record(layout.history(), mark_of(event).is_opening()),
            Asked::Plan { plan: _, turns: _ } => {
                self.add_plan(layout.history());
                Ok(())
            }
            Asked::NotTaken(_fault) => Ok(()),
            Asked::Cat { path: _ } => Ok(()),
            Asked::Seal => {
                self.used = 0;
                Ok(())
            }
        }
    }

    /// Adds a record, if the history has room for it.
    fn add_record(&mut self, history: u64, begins: bool) -> Result<(), AllocError> {
        if self.is_full(history) {
            return Ok(());
        }
        if !self.any_later {
            self.begins.push(begins)?;
        }
        self.used += 1;
        Ok(())
    }

    /// Adds a plan, if the history has room for its first record. Only that one is counted: how
    /// many records a plan makes is not known.
    fn add_plan(&mut self, history: u64) {
        if !self.is_full(history) {
            self.any_later = true;
            self.used += 1;
        }
    }

    /// Ends the setup. `lines` are all lines after it; they are in scripts.
    pub(crate) fn end_setup(&mut self, lines: &[Line]) {
        self.any_later |= lines.iter().any(|line| work_begins(&line.work));
        self.in_scripts = true;
    }

    /// Returns whether the records since the last seal fill a history of this many records.
    pub(crate) fn is_full(&self, history: u64) -> bool
        ensures { result ≡ nat_le history self.now.used }
    {
        history <= self.used
    }

    /// Returns whether the record with this serial may begin an operation. Serial 0 means the
    /// result of an earlier line if the line gives it by name, and in scripts the operation that
    /// the processor began last.
    pub(crate) fn may_begin(&self, op: Serial) -> bool {
        if op.0 == 0 {
            return self.in_scripts || self.by_name;
        }
        let place = op.0 - 1;
        if place < self.begins.len() as u64 {
            self.begins[place as usize]
        } else {
            self.any_later
        }
    }
}
