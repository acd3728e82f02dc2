//! The rows of a trace as JSON, each with the line that it belongs to.
ghost use Rattle.std.specs.Prelude.{◌≡◌, OnOk, Some, string_bytes};
ghost use Rattle.hp_trace_json.specs.Ascii.{AddsLine};
ghost use Rattle.hp_trace_json.specs.Parts.{state_of};
ghost use Rattle.hp_trace_json.specs.Traces.{no_trace};

use hp_machine::Machine;
use hp_scenario::{Line, Work};
use hp_text::write_line;
use hp_trace_json::{JsonTrace, TraceRow};
use hp_units::{Cpu, Receipt, Text};
use indexmap::IndexSet;
use std::alloc::{AllocError, Global};
use std::marker::Model;

/// The rows so far, and what the next one has besides a call and the state.
#[derive(Drop)]
pub(crate) struct JsonRows {
    trace: JsonTrace,
    names: IndexSet<Text>,
    /// The number of the line; 0 before the first.
    number: u64,
    /// The line, until its first row is added.
    text: Option<String>,
    /// The processor of the line.
    cpu: Option<Cpu>,
    /// How many records the line sealed.
    sealed: Option<u64>,
}

impl Model for JsonRows {
    ghost use Rattle.hp_trace_json.specs.Traces.{TraceValue};

    ghost Value = { TraceValue };

    ghost view = { λ r. r.trace };
}

impl JsonRows {
    /// Creates an empty list of rows. The next row is that of the memory at boot.
    pub(crate) fn new(alloc: Global) -> JsonRows
        ensures { result ≡ no_trace }
    {
        JsonRows {
            trace: JsonTrace::new(alloc),
            names: IndexSet::new(alloc),
            number: 0,
            text: None,
            cpu: None,
            sealed: None,
        }
    }

    /// Begins a line: the next rows are its own.
    pub(crate) fn begin_line(
        &mut self,
        alloc: Global,
        names: &IndexSet<Text>,
        number: u64,
        line: &Line,
    ) -> Result<(), AllocError>
        ensures { OnOk result (self.new ≡ self.old) }
    {
        if self.names.len() < names.len() {
            self.names = names_of(alloc, names)?;
        }
        let mut text = String::new(alloc);
        write_own_text(&mut text, names, line)?;
        self.number = number;
        self.text = Some(text);
        self.cpu = Some(line.cpu);
        self.sealed = None;
        Ok(())
    }

    /// Notes how many records the line sealed, for its next row.
    pub(crate) fn set_sealed(&mut self, count: u64)
        ensures { self.new ≡ self.old }
    {
        self.sealed = Some(count);
    }

    /// Adds a row with the machine's state, and with the call if one was made.
    pub(crate) fn draw(
        &mut self,
        alloc: Global,
        machine: &Machine,
        receipt: Option<&Receipt>,
    ) -> Result<(), AllocError>
        ensures line { OnOk result (AddsLine self.old.text self.new.text) }
        ensures seen { OnOk result (self.new.seen ≡ Some (state_of machine.now)) }
    {
        let text = self.text.take();
        let row = TraceRow {
            line: self.number,
            text: row_text(self.number, &text),
            cpu: self.cpu,
            receipt,
            sealed: self.sealed,
        };
        self.trace.add(alloc, &self.names, machine, &row)
    }

    /// Adds a row with a text alone.
    pub(crate) fn say(&mut self, alloc: Global, text: &str) -> Result<(), AllocError>
        ensures line { OnOk result (AddsLine self.old.text self.new.text) }
        ensures seen { OnOk result (self.new.seen ≡ self.old.seen) }
    {
        self.trace.add_output(alloc, self.number, text)
    }

    /// Returns the text of the rows.
    pub(crate) fn into_text(self) -> String
        ensures { string_bytes result ≡ self.text }
    {
        let JsonRows {
            trace,
            names: _,
            number: _,
            text: _,
            cpu: _,
            sealed: _,
        } = self;
        trace.into_text()
    }
}

/// Writes a line as it is, without escapes.
fn write_own_text(out: &mut String, names: &IndexSet<Text>, line: &Line) -> Result<(), AllocError> {
    let cpu = line.cpu;
    match &line.work {
        Work::Echo(echo) => {
            let word = echo.word();
            let path = echo.path();
            write!(out, "{cpu} echo {word} {path}")
        }
        Work::Cat { path } => {
            let path = path.as_str();
            write!(out, "{cpu} cat {path}")
        }
        _ => write_line(out, names, line),
    }
}

/// Returns the text of a line's first row, and `boot` for the memory at boot. Returns `None` for a
/// later row of a line.
fn row_text(number: u64, text: &Option<String>) -> Option<&str> {
    match text {
        Some(text) => Some(text.as_str()),
        None if number == 0 => Some("boot"),
        None => None,
    }
}

/// Returns a copy of the names.
fn names_of(alloc: Global, names: &IndexSet<Text>) -> Result<IndexSet<Text>, AllocError> {
    let mut same = IndexSet::new(alloc);
    for name in names.as_slice() {
        let name = String::from_str(alloc, name.as_str())?;
        let _ = same.insert_full(Text::new(name))?;
    }
    Ok(same)
}
