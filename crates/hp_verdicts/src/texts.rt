//! The report on a log as text.
ghost use Rattle.std.specs.Prelude.{◌<◌};

use crate::counts::BlockCounts;
use crate::judged_log::JudgedLog;
use crate::words::{MALFORMED, broken, is_of_frame, kind_name};
use hp_judge::{Fault, MachineSize, NumberedFault, Violation};
use hp_text::{Brackets, write_start};
use hp_units::Frame;
use std::alloc::{AllocError, Global};

/// At most this many characters of a log's line are shown.
const SHOWN: usize = 200;

/// Returns the report on a log. `first` is the log's line with the first fault that is not allowed.
pub(crate) fn report_text(
    alloc: Global,
    log: &JudgedLog,
    first: &str,
) -> Result<String, AllocError> {
    let mut out = String::new(alloc);
    write_events(&mut out, log)?;
    write_blocks(&mut out, log)?;
    write_faults(&mut out, log, first)?;
    write_verdict(&mut out, log)?;
    Ok(out)
}

/// Writes how many events of each kind the log has.
fn write_events(out: &mut String, log: &JudgedLog) -> Result<(), AllocError> {
    let events = log.events();
    let lines = log.verdict().event_count();
    let (allocs, frees, moves) = (events.allocs, events.frees, events.moves);
    let (onlines, offlines) = (events.onlines, events.offlines);
    let (ends, others) = (events.ends, events.others);
    writeln!(
        out,
        "{lines} lines: {allocs} allocs, {frees} frees, {moves} moves, {onlines} onlines, \
         {offlines} offlines, {ends} ends, {others} others"
    )
}

/// Writes what happened to each memory block that the log names.
fn write_blocks(out: &mut String, log: &JudgedLog) -> Result<(), AllocError> {
    let mut block = 0u64;
    for row in log.blocks().rows() {
        if row.is_named {
            write_block(out, block, row)?;
        }
        block = block.saturating_add(1);
    }
    Ok(())
}

/// Writes what happened to a memory block.
fn write_block(out: &mut String, block: u64, row: &BlockCounts) -> Result<(), AllocError> {
    let (onlines, failed_onlines) = (row.onlines, row.failed_onlines);
    let (offlines, failed_offlines) = (row.offlines, row.failed_offlines);
    let (most, handed_out, moved) = (row.most_in_use, row.handed_out, row.moved);
    writeln!(
        out,
        "block {block}: onlines {onlines} ok, {failed_onlines} failed; offlines {offlines} ok, \
         {failed_offlines} failed; at most {most} frames in use, {handed_out} handed out while \
         going offline, {moved} pages moved away"
    )
}

/// Writes the faults that are kept, the text of the line with the first of them, and how many more
/// there are.
fn write_faults(out: &mut String, log: &JudgedLog, first: &str) -> Result<(), AllocError> {
    let size = log.size();
    let mut is_first = true;
    for fault in log.verdict().report().kept() {
        write_fault(out, &size, fault)?;
        if is_first {
            write_line(out, first)?;
        }
        is_first = false;
    }
    write_rest(out, log)
}

/// Writes how many faults are not shown.
fn write_rest(out: &mut String, log: &JudgedLog) -> Result<(), AllocError> {
    let report = log.verdict().report();
    let rest = report.count().saturating_sub(report.kept().len() as u64);
    if rest == 0 {
        return Ok(());
    }
    writeln!(out, "and {rest} more")
}

/// Writes a fault: its line and event, its kind, and what it is.
fn write_fault(
    out: &mut String,
    size: &MachineSize,
    fault: &NumberedFault,
) -> Result<(), AllocError>
    requires { size.now.block_order < 32 }
{
    let event = fault.number;
    let line = event.saturating_add(1);
    let kind = kind_name(fault.fault);
    write!(out, "line {line}, event {event}: {kind}: ")?;
    match fault.fault {
        Fault::Malformed => writeln!(out, "{MALFORMED}"),
        Fault::Unlawful(violation) => write_violation(out, size, violation),
    }
}

/// Writes the broken law, its frame or memory block, and the earlier event that makes this one a
/// fault.
fn write_violation(
    out: &mut String,
    size: &MachineSize,
    violation: Violation,
) -> Result<(), AllocError>
    requires { size.now.block_order < 32 }
{
    let Violation { law, place, since } = violation;
    let line = since.saturating_add(1);
    let text = broken(law);
    if !is_of_frame(law) {
        return writeln!(out, "block {place} {text} line {line}, event {since}");
    }
    let block = size.block_of(Frame(place));
    writeln!(
        out,
        "frame {place} (0x{place:x}, of block {block}) {text} line {line}, event {since}"
    )
}

/// Writes the log's line that has the fault, between quotation marks.
fn write_line(out: &mut String, line: &str) -> Result<(), AllocError> {
    out.push_str("    \"")?;
    write_start(out, line, Brackets::Kept, SHOWN)?;
    out.push_str("\"\n")
}

/// Writes the verdict.
fn write_verdict(out: &mut String, log: &JudgedLog) -> Result<(), AllocError> {
    let verdict = log.verdict();
    let (faults, allowed) = (verdict.report().count(), verdict.report().allowed_count());
    let word = if verdict.is_lawful() {
        "lawful"
    } else {
        "unlawful"
    };
    writeln!(out, "{word}: {faults} faults, {allowed} allowed")
}
