//! The rows of a trace.
use crate::change::StateChange;
use crate::trace::TraceRow;
use crate::writing::changes::write_change;
use crate::writing::deltas::write_deltas;
use hp_tape::Delta;
use hp_text::{write_event, write_reply_words};
use hp_units::{Event, Receipt, Reply, Serial, Text};
use indexmap::IndexSet;
use json::Writer;
use std::alloc::{AllocError, Global};

/// What a row reports.
#[derive(Clone, Copy, Drop)]
pub(crate) struct RowJson<'a> {
    /// What was asked, and the answer.
    pub row: &'a TraceRow<'a>,
    /// The deltas of the call, if it was a step.
    pub journal: Option<&'a [Delta]>,
    /// The steps that the call dropped.
    pub dropped: &'a [Serial],
    /// How the state differs from that of the row above.
    pub change: &'a StateChange,
}

/// Returns the JSON of a row.
pub(crate) fn row_json(
    alloc: Global,
    names: &IndexSet<Text>,
    told: &RowJson<'_>,
) -> Result<String, AllocError> {
    let mut out = Writer::new(Vec::new(alloc));
    out.begin_object()?;
    write_line(&mut out, told.row)?;
    write_call(&mut out, alloc, names, told.row.receipt)?;
    write_sealed(&mut out, told.row.sealed)?;
    write_steps(&mut out, alloc, names, told)?;
    write_change(&mut out, alloc, names, told.change)?;
    out.end_object()?;
    let bytes = out.into_inner();
    String::from_utf8_lossy(alloc, bytes.as_slice())
}

/// Returns the JSON of a row for other text that a line printed.
pub(crate) fn output_json(alloc: Global, line: u64, output: &str) -> Result<String, AllocError> {
    let mut out = Writer::new(Vec::new(alloc));
    out.begin_object()?;
    out.key("line")?;
    out.u64(line)?;
    out.key("output")?;
    out.string(output)?;
    out.end_object()?;
    let bytes = out.into_inner();
    String::from_utf8_lossy(alloc, bytes.as_slice())
}

/// Writes the number of the line, the line, and its processor.
fn write_line(out: &mut Writer, row: &TraceRow<'_>) -> Result<(), AllocError> {
    out.key("line")?;
    out.u64(row.line)?;
    if let Some(text) = row.text {
        out.key("text")?;
        out.string(text)?;
    }
    if let Some(cpu) = row.cpu {
        out.key("cpu")?;
        out.u64(u64::from(cpu.0))?;
    }
    Ok(())
}

/// Writes a call and its answer, if there is a call.
fn write_call(
    out: &mut Writer,
    alloc: Global,
    names: &IndexSet<Text>,
    receipt: Option<&Receipt>,
) -> Result<(), AllocError> {
    match receipt {
        Some(receipt) => {
            let mut words = String::new(alloc);
            write_event_words(&mut words, names, &receipt.event)?;
            out.key("call")?;
            out.string(words.as_str())?;
            out.key("serial")?;
            out.u64(receipt.serial.0)?;
            write_answer(out, alloc, receipt.reply)
        }
        None => Ok(()),
    }
}

/// Writes an event as a line has it, without its processor. An event that only a control file can
/// ask for is written as `probe 0x80` or `auto online`.
fn write_event_words(
    out: &mut String,
    names: &IndexSet<Text>,
    event: &Event,
) -> Result<(), AllocError> {
    match event {
        Event::Probe { address } => write!(out, "probe 0x{address:x}"),
        Event::SetAuto { auto } => write!(out, "auto {auto}"),
        _ => write_event(out, names, event),
    }
}

/// Writes an answer.
fn write_answer(out: &mut Writer, alloc: Global, reply: Reply) -> Result<(), AllocError> {
    let mut words = String::new(alloc);
    write_reply_words(&mut words, reply)?;
    out.key("answer")?;
    out.string(words.as_str())
}

/// Writes how many records a seal handed out, if it is one.
fn write_sealed(out: &mut Writer, sealed: Option<u64>) -> Result<(), AllocError> {
    if let Some(sealed) = sealed {
        out.key("sealed")?;
        out.u64(sealed)?;
    }
    Ok(())
}

/// Writes the deltas of a step, or the steps that an undo or a cancel dropped.
fn write_steps(
    out: &mut Writer,
    alloc: Global,
    names: &IndexSet<Text>,
    told: &RowJson<'_>,
) -> Result<(), AllocError> {
    if goes_back(told.row.receipt) {
        out.key("drops")?;
        out.begin_array()?;
        for serial in told.dropped {
            out.u64(serial.0)?;
        }
        out.end_array()?;
    }
    match told.journal {
        Some(deltas) => {
            out.key("journal")?;
            write_deltas(out, alloc, names, deltas)
        }
        None => Ok(()),
    }
}

/// Returns whether a call was an undo that was not refused, or a cancel that restored.
fn goes_back(receipt: Option<&Receipt>) -> bool {
    match receipt {
        Some(receipt) => matches!(receipt.reply, Reply::Undone { .. } | Reply::Restored),
        None => false,
    }
}
