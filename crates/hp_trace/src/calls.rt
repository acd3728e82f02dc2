//! Does what a line asks for, and adds the line's rows to the trace.
ghost use Rattle.std.specs.Prelude.{◌≡◌, ◌++◌, OnOk, string_bytes};
ghost use Rattle.hp_scenario.specs.Asked.{asked_by};
ghost use Rattle.hp_text.specs.ControlFiles.{file_text};
ghost use Rattle.hp_trace.specs.Calls.{MakesEvent, MakesSeal, MakesWork, file_rows, remark_text};
ghost use Rattle.hp_trace.specs.Rows.{Adds, AreDrawn, noted};

use crate::plans::{draw_receipt, trace_plan};
use crate::rows::Rows;
use hp_machine::Machine;
use hp_requests::ControlFault;
use hp_scenario::{Asked, Work};
use hp_text::{read_text, write_echo_fault, write_read_fault, write_sealed, write_unrecorded};
use hp_units::{CallFault, Cpu, Event};
use std::alloc::{AllocError, Global};

/// What the text below a row reports.
#[derive(Clone, Copy)]
enum Remark {
    /// The history is full.
    Full,
    /// A control file does not take the word of an `echo`, for this reason.
    Untaken(ControlFault),
    /// A control file cannot be read, for this reason.
    Unread(ControlFault),
    /// A seal handed out this many records.
    Sealed(u64),
}

/// Does what a line asks for, and adds the line's rows.
pub(crate) fn trace_work(
    rows: &mut Rows,
    alloc: Global,
    machine: &mut Machine,
    cpu: Cpu,
    work: &Work,
    asked: &str,
) -> Result<(), AllocError>
    ensures { OnOk result (Adds rows.old rows.new
        (λ list. MakesWork machine.old cpu (asked_by work.now) asked.now list machine.new)) }
{
    match work.asked() {
        Asked::Event(event) => trace_event(rows, alloc, machine, cpu, event, asked),
        Asked::Plan { plan, turns } => trace_plan(rows, alloc, machine, cpu, plan, turns, asked),
        Asked::NotTaken(fault) => note(rows, alloc, machine, asked, Remark::Untaken(fault)),
        Asked::Cat { path } => trace_file(rows, alloc, machine, path, asked),
        Asked::Seal => trace_seal(rows, alloc, machine, asked),
    }
}

/// Calls the machine with an event and draws its row, or a row with a text if the history is full.
fn trace_event(
    rows: &mut Rows,
    alloc: Global,
    machine: &mut Machine,
    cpu: Cpu,
    event: &Event,
    asked: &str,
) -> Result<(), AllocError>
    ensures { OnOk result (Adds rows.old rows.new
        (λ list. MakesEvent machine.old cpu event.now asked.now list machine.new)) }
{
    match machine.call(alloc, cpu, event) {
        Ok(receipt) => draw_receipt(rows, alloc, machine, asked, &receipt),
        Err(CallFault::HistoryFull) => note(rows, alloc, machine, asked, Remark::Full),
        Err(CallFault::OutOfMemory) => Err(AllocError),
    }
}

/// Adds a row without an answer, and below it a text.
fn note(
    rows: &mut Rows,
    alloc: Global,
    machine: &Machine,
    asked: &str,
    remark: Remark,
) -> Result<(), AllocError>
    ensures { OnOk result
        (AreDrawn (noted machine.now asked.now (remark_text remark)) rows.old rows.new) }
{
    let mut out = String::new(alloc);
    write_remark(&mut out, remark)?;
    rows.note(alloc, machine, asked, out.as_str())
}

/// Writes a text below a row.
fn write_remark(out: &mut String, remark: Remark) -> Result<(), AllocError>
    ensures { OnOk result (string_bytes out.new ≡ string_bytes out.old ++ remark_text remark) }
{
    match remark {
        Remark::Full => write_unrecorded(out, CallFault::HistoryFull),
        Remark::Untaken(fault) => write_echo_fault(out, fault),
        Remark::Unread(fault) => write_read_fault(out, fault),
        Remark::Sealed(count) => write_sealed(out, count),
    }
}

/// Reads a control file. Adds a row, and below it the file's text or why it cannot be read.
fn trace_file(
    rows: &mut Rows,
    alloc: Global,
    machine: &Machine,
    path: &str,
    asked: &str,
) -> Result<(), AllocError>
    ensures { OnOk result (AreDrawn
        (file_rows machine.now (file_text machine.now.layout machine.now.state path.now) asked.now)
        rows.old rows.new) }
{
    match read_text(alloc, machine, path) {
        Ok(text) => rows.note(alloc, machine, asked, text.as_str()),
        Err(ControlFault::OutOfMemory) => Err(AllocError),
        Err(fault) => note(rows, alloc, machine, asked, Remark::Unread(fault)),
    }
}

/// Seals the machine's history, and drops the records that this hands out. Adds a row, and below it
/// how many records there were.
fn trace_seal(
    rows: &mut Rows,
    alloc: Global,
    machine: &mut Machine,
    asked: &str,
) -> Result<(), AllocError>
    ensures { OnOk result
        (Adds rows.old rows.new (λ list. MakesSeal machine.old asked.now list machine.new)) }
{
    let volume = machine.seal(alloc)?;
    let count = volume.records.as_slice().len() as u64;
    rows.set_sealed(count);
    note(rows, alloc, machine, asked, Remark::Sealed(count))
}
