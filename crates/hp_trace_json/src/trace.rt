//! The rows of a trace, as lines of JSON.
ghost use Rattle.std.specs.Prelude.{◌≡◌, [], IfOk, OnOk, Some, length, string_bytes};
ghost use Rattle.std.specs.Option.{option_map_or};
ghost use Rattle.hp_units.specs.History.{net_of};
ghost use Rattle.hp_trace_json.specs.Ascii.{AddsLine};
ghost use Rattle.hp_trace_json.specs.Parts.{state_of};
ghost use Rattle.hp_trace_json.specs.Steps.{steps_after};
ghost use Rattle.hp_trace_json.specs.Traces.{no_trace};

use crate::ascii::write_line;
use crate::change::StateChange;
use crate::seen::SeenState;
use crate::steps::NetSerials;
use crate::writing::{RowJson, head_json, output_json, row_json};
use hp_machine::Machine;
use hp_units::{Cpu, Layout, Receipt, Serial, Text};
use indexmap::IndexSet;
use std::alloc::{AllocError, Global};
use std::marker::Model;

/// What a row reports besides the machine's state: what was asked, and the answer.
#[derive(Clone, Copy, Drop)]
pub struct TraceRow<'a> {
    /// The number of the line, from 1; 0 is the memory at boot.
    pub line: u64,
    /// The line, in its first row.
    pub text: Option<&'a str>,
    /// The processor that asks.
    pub cpu: Option<Cpu>,
    /// The call, if there was one.
    pub receipt: Option<&'a Receipt>,
    /// How many records a seal handed out.
    pub sealed: Option<u64>,
}

/// The rows of a trace so far, a line of JSON each.
#[derive(Drop)]
pub struct JsonTrace {
    text: String,
    seen: SeenState,
    steps: NetSerials,
}

impl Model for JsonTrace {
    ghost use Rattle.std.specs.Prelude.{string_bytes};
    ghost use Rattle.hp_trace_json.specs.Traces.{TraceValue};

    ghost Value = { TraceValue };

    ghost view = { λ t. record { text = string_bytes t.text; seen = t.seen; steps = t.steps } };
}

impl JsonTrace {
    /// Creates a trace without rows.
    pub fn new(alloc: Global) -> JsonTrace
        ensures { result ≡ no_trace }
    {
        JsonTrace {
            text: String::new(alloc),
            seen: SeenState::new(),
            steps: NetSerials::new(alloc),
        }
    }

    /// Adds a row: one line, with how the machine's state differs from that of the row above.
    pub fn add(
        &mut self,
        alloc: Global,
        names: &IndexSet<Text>,
        machine: &Machine,
        row: &TraceRow<'_>,
    ) -> Result<(), AllocError>
        ensures line { OnOk result (AddsLine self.old.text self.new.text) }
        ensures seen { OnOk result (self.new.seen ≡ Some (state_of machine.now)) }
        ensures steps { OnOk result (self.new.steps ≡ steps_after self.old.steps
            (length (net_of machine.now.history)) (option_map_or (λ r. r.now.serial) row.now.receipt 0)) }
    {
        let before = self.steps.len() as u64;
        let dropped = self
            .steps
            .follow(alloc, machine.journal_len(), serial_of(row.receipt))?;
        let change = self.seen.observe(alloc, machine)?;
        let told = RowJson {
            row,
            journal: machine.entry(before),
            dropped: dropped.as_slice(),
            change: &change,
        };
        let json = row_json(alloc, names, &told)?;
        write_line(&mut self.text, json.as_str())
    }

    /// Adds a row for other text that a line printed. The row shows no state.
    pub fn add_output(&mut self, alloc: Global, line: u64, output: &str) -> Result<(), AllocError>
        ensures line { OnOk result (AddsLine self.old.text self.new.text) }
        ensures seen { OnOk result (self.new.seen ≡ self.old.seen) }
        ensures steps { OnOk result (self.new.steps ≡ self.old.steps) }
    {
        let json = output_json(alloc, line, output)?;
        write_line(&mut self.text, json.as_str())
    }

    /// Updates the steps after a line or a call whose row is left out.
    pub fn pass(
        &mut self,
        alloc: Global,
        machine: &Machine,
        receipt: Option<&Receipt>,
    ) -> Result<(), AllocError>
        ensures { OnOk result (self.new ≡ record self.old {
          steps = steps_after self.old.steps
              (length (net_of machine.now.history)) (option_map_or (λ r. r.now.serial) receipt.entry 0);
        }) }
    {
        let serial = serial_of(receipt);
        self.steps.follow(alloc, machine.journal_len(), serial)?;
        Ok(())
    }

    /// Returns the text.
    pub fn into_text(self) -> String
        ensures { string_bytes result ≡ self.text }
    {
        let JsonTrace {
            text,
            seen: _,
            steps: _,
        } = self;
        text
    }
}

/// Returns the line before the rows: the layout, the owners' names, and how many lines the scenario
/// has.
pub fn head_line(
    alloc: Global,
    layout: &Layout,
    names: &IndexSet<Text>,
    lines: u64,
) -> Result<String, AllocError>
    ensures { IfOk result (λ text. AddsLine [] (string_bytes text)) }
{
    let mut text = String::new(alloc);
    let head = head_json(alloc, layout, names, lines)?;
    write_line(&mut text, head.as_str())?;
    Ok(text)
}

/// Returns the serial of a call; 0 if there was none.
fn serial_of(receipt: Option<&Receipt>) -> Serial
    ensures { result ≡ option_map_or (λ r. r.now.serial) receipt.entry 0 }
{
    match receipt {
        Some(receipt) => receipt.serial,
        None => Serial(0),
    }
}
