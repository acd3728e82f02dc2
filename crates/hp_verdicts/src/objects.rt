//! The report on a log as JSON, one object per line.
ghost use Rattle.std.specs.Prelude.{◌<◌};

use crate::counts::BlockCounts;
use crate::judged_log::JudgedLog;
use crate::words::{MALFORMED, broken, is_of_frame, kind_name};
use hp_judge::{Fault, MachineSize, NumberedFault, Violation};
use hp_text::{Brackets, write_escaped};
use hp_units::Frame;
use std::alloc::{AllocError, Global};

/// Returns the report on a log. `first` is the log's line with the first fault that is not allowed.
pub(crate) fn report_objects(
    alloc: Global,
    log: &JudgedLog,
    first: &str,
) -> Result<String, AllocError> {
    let mut out = String::new(alloc);
    write_events(&mut out, log)?;
    write_blocks(&mut out, log)?;
    write_faults(&mut out, log, first)?;
    write_verdict(&mut out, log)?;
    Ok(out)
}

/// Writes how many events of each kind the log has.
fn write_events(out: &mut String, log: &JudgedLog) -> Result<(), AllocError> {
    let events = log.events();
    let lines = log.verdict().event_count();
    let (allocs, frees, moves) = (events.allocs, events.frees, events.moves);
    let (onlines, offlines) = (events.onlines, events.offlines);
    let (ends, others) = (events.ends, events.others);
    writeln!(
        out,
        "{{\"lines\":{lines},\"allocs\":{allocs},\"frees\":{frees},\"moves\":{moves},\
         \"onlines\":{onlines},\"offlines\":{offlines},\"ends\":{ends},\"others\":{others}}}"
    )
}

/// Writes what happened to each memory block that the log names.
fn write_blocks(out: &mut String, log: &JudgedLog) -> Result<(), AllocError> {
    let mut block = 0u64;
    for row in log.blocks().rows() {
        if row.is_named {
            write_block(out, block, row)?;
        }
        block = block.saturating_add(1);
    }
    Ok(())
}

/// Writes what happened to a memory block.
fn write_block(out: &mut String, block: u64, row: &BlockCounts) -> Result<(), AllocError> {
    let (onlines, failed_onlines) = (row.onlines, row.failed_onlines);
    let (offlines, failed_offlines) = (row.offlines, row.failed_offlines);
    let (most, handed_out, moved) = (row.most_in_use, row.handed_out, row.moved);
    writeln!(
        out,
        "{{\"block\":{block},\"onlines\":{onlines},\"failed_onlines\":{failed_onlines},\
         \"offlines\":{offlines},\"failed_offlines\":{failed_offlines},\"most_in_use\":{most},\
         \"handed_out\":{handed_out},\"moved\":{moved}}}"
    )
}

/// Writes the faults that are kept, and the text of the line with the first of them.
fn write_faults(out: &mut String, log: &JudgedLog, first: &str) -> Result<(), AllocError> {
    let size = log.size();
    let mut is_first = true;
    for fault in log.verdict().report().kept() {
        write_fault(out, &size, fault)?;
        if is_first {
            write_line(out, first)?;
        }
        out.push_str("}\n")?;
        is_first = false;
    }
    Ok(())
}

/// Writes a fault without its object's closing bracket.
fn write_fault(
    out: &mut String,
    size: &MachineSize,
    fault: &NumberedFault,
) -> Result<(), AllocError>
    requires { size.now.block_order < 32 }
{
    let event = fault.number;
    let line = event.saturating_add(1);
    let kind = kind_name(fault.fault);
    write!(
        out,
        "{{\"fault\":\"{kind}\",\"line\":{line},\"event\":{event}"
    )?;
    match fault.fault {
        Fault::Malformed => write!(out, ",\"why\":\"{MALFORMED}\""),
        Fault::Unlawful(violation) => write_violation(out, size, violation),
    }
}

/// Writes the broken law, its frame or memory block, and the earlier event that makes this one a
/// fault.
fn write_violation(
    out: &mut String,
    size: &MachineSize,
    violation: Violation,
) -> Result<(), AllocError>
    requires { size.now.block_order < 32 }
{
    let Violation { law, place, since } = violation;
    let line = since.saturating_add(1);
    let why = broken(law);
    if is_of_frame(law) {
        let block = size.block_of(Frame(place));
        write!(out, ",\"frame\":{place},\"block\":{block}")?;
    } else {
        write!(out, ",\"block\":{place}")?;
    }
    write!(
        out,
        ",\"why\":\"{why}\",\"since_line\":{line},\"since_event\":{since}"
    )
}

/// Writes the log's line that has the fault.
fn write_line(out: &mut String, line: &str) -> Result<(), AllocError> {
    out.push_str(",\"text\":\"")?;
    write_escaped(out, line, Brackets::Kept)?;
    out.push_str("\"")
}

/// Writes the verdict.
fn write_verdict(out: &mut String, log: &JudgedLog) -> Result<(), AllocError> {
    let verdict = log.verdict();
    let (faults, allowed) = (verdict.report().count(), verdict.report().allowed_count());
    let is_lawful = verdict.is_lawful();
    writeln!(
        out,
        "{{\"lawful\":{is_lawful},\"faults\":{faults},\"allowed\":{allowed}}}"
    )
}
