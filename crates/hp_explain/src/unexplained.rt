//! The text for answers that no order explains: the longest explained beginning of an order, and
//! how far each processor is after it.

use crate::standing::{Next, Standing};
use hp_schedules::LineAnswer;
use hp_text::{write_calls, write_mark, write_plan_end, write_reply_words};
use hp_units::{Record, Text};
use indexmap::IndexSet;
use std::alloc::AllocError;

/// The separator of two values of a list.
const BETWEEN: &str = ", ";

// ---- words

/// Writes that no order explains the answers, the calls of the longest explained beginning, and
/// how far each processor is after it, one line per processor. Owners are written by name.
pub(crate) fn write_unexplained(
    out: &mut String,
    names: &IndexSet<Text>,
    calls: &[Record],
    standings: &[Standing],
) -> Result<(), AllocError> {
    out.push_str("explained: none\nlongest beginning: ")?;
    write_played(out, names, calls)?;
    write_standings(out, standings)
}

/// Writes how many calls there are, and the calls as strings of a scenario's `calls`, one per line.
fn write_played(
    out: &mut String,
    names: &IndexSet<Text>,
    calls: &[Record],
) -> Result<(), AllocError> {
    let count = calls.len();
    let noun = if count == 1 { "call" } else { "calls" };
    writeln!(out, "{count} {noun}")?;
    if count == 0 {
        return Ok(());
    }
    write_calls(out, names, calls, ",\n")?;
    out.push('\n')
}

/// Writes how far each processor is, one per line.
fn write_standings(out: &mut String, standings: &[Standing]) -> Result<(), AllocError> {
    for standing in standings {
        write_standing(out, *standing)?;
    }
    Ok(())
}

/// Writes how far a processor is, as a line.
fn write_standing(out: &mut String, standing: Standing) -> Result<(), AllocError> {
    let cpu = standing.cpu;
    let lines = standing.lines;
    if standing.finished == lines {
        return writeln!(out, "cpu {cpu}: finished");
    }
    let number = number_of(standing.finished);
    write!(out, "cpu {cpu}: line {number} of {lines} ")?;
    write_next(out, standing.next, standing.seen)?;
    out.push('\n')
}

/// Writes what comes next for a processor, given the answer that was seen of its next line.
fn write_next(out: &mut String, next: Next, seen: Option<LineAnswer>) -> Result<(), AllocError> {
    match next {
        Next::Finished => out.push_str("has no call"),
        Next::Waits(unfinished) => {
            let number = number_of(unfinished.line);
            let cpu = unfinished.cpu;
            write!(out, "began after line {number} of cpu {cpu} was answered")
        }
        Next::Answered(answer) => {
            write_quoted(out, "would be answered ", Some(answer))?;
            write_quoted(out, ", not ", seen)
        }
        Next::GoesOn => write_quoted(out, "would go on, not be answered ", seen),
        Next::HistoryFull => out.push_str("has no room in the history"),
    }
}

/// Writes an answer in quotes, with words before it; writes nothing if there is none.
fn write_quoted(
    out: &mut String,
    before: &str,
    answer: Option<LineAnswer>,
) -> Result<(), AllocError> {
    match answer {
        Some(answer) => {
            write!(out, "{before}`")?;
            write_line_answer(out, answer)?;
            out.push('`')
        }
        None => Ok(()),
    }
}

// ---- JSON

/// Writes what `write_unexplained` writes, as a JSON object.
pub(crate) fn write_unexplained_object(
    out: &mut String,
    names: &IndexSet<Text>,
    calls: &[Record],
    standings: &[Standing],
) -> Result<(), AllocError> {
    out.push_str("{\"found\": false, \"first\": [")?;
    write_calls(out, names, calls, BETWEEN)?;
    out.push_str("], \"processors\": [")?;
    write_standing_objects(out, standings)?;
    out.push_str("]}\n")
}

/// Writes how far each processor is, one JSON object per processor.
fn write_standing_objects(out: &mut String, standings: &[Standing]) -> Result<(), AllocError> {
    let mut is_first = true;
    for standing in standings {
        write_mark(out, BETWEEN, is_first)?;
        write_standing_object(out, *standing)?;
        is_first = false;
    }
    Ok(())
}

/// Writes how far a processor is, as a JSON object.
fn write_standing_object(out: &mut String, standing: Standing) -> Result<(), AllocError> {
    let finished = standing.finished;
    let lines = standing.lines;
    write!(out, "{{\"finished\": {finished}, \"lines\": {lines}")?;
    write_next_keys(out, standing.next)?;
    write_answer_key(out, "answer", standing.seen)?;
    out.push('}')
}

/// Writes what comes next for a processor, as a key of its JSON object. Writes nothing for a
/// processor that has no call.
fn write_next_keys(out: &mut String, next: Next) -> Result<(), AllocError> {
    match next {
        Next::Waits(unfinished) => {
            let number = number_of(unfinished.line);
            let cpu = unfinished.cpu;
            write!(out, ", \"after\": {{\"cpu\": {cpu}, \"line\": {number}}}")
        }
        Next::Answered(answer) => write_answer_key(out, "next", Some(answer)),
        Next::Finished => Ok(()),
        Next::GoesOn => out.push_str(", \"goes_on\": true"),
        Next::HistoryFull => out.push_str(", \"no_room\": true"),
    }
}

/// Writes an answer under a key; writes nothing if there is none.
fn write_answer_key(
    out: &mut String,
    key: &str,
    answer: Option<LineAnswer>,
) -> Result<(), AllocError> {
    match answer {
        Some(answer) => {
            write!(out, ", \"{key}\": \"")?;
            write_line_answer(out, answer)?;
            out.push('"')
        }
        None => Ok(()),
    }
}

// ---- both

/// Returns the number of a line, counted from 1, given its number counted from 0.
fn number_of(line: usize) -> u128 {
    line as u128 + 1
}

/// Writes the answer to a line as `hotplug run` does, without a newline.
fn write_line_answer(out: &mut String, answer: LineAnswer) -> Result<(), AllocError> {
    match answer {
        LineAnswer::Reply(reply) => write_reply_words(out, reply),
        LineAnswer::Plan(end) => {
            write_plan_end(out, end)?;
            let _newline = out.pop();
            Ok(())
        }
    }
}
