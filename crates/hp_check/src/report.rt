//! The text of findings.
use crate::checking::fault_count;
use crate::expected::write_expected;
use crate::finding::{Finding, Hint, OutOfRange, ScenarioObject, Shape, Warning};
use crate::json_positions::call_lines;
use crate::quotes::{write_quoted, write_unexpected};
use crate::shape::keys_of;
use std::alloc::{AllocError, Global};

/// Writes findings on a scenario, one per line, and how many faults and warnings there are. A
/// finding on a text of `calls` has the text's number, and the line of the input in which the text
/// begins, if that is known.
pub fn write_report(
    out: &mut String,
    alloc: Global,
    input: &[u8],
    findings: &[Finding],
) -> Result<(), AllocError> {
    let lines = call_lines(alloc, input)?;
    for finding in findings {
        write_finding(out, &lines, finding)?;
    }
    let faults = fault_count(findings);
    let warnings = findings.len() - faults;
    writeln!(out, "faults: {faults}, warnings: {warnings}")
}

/// Writes a finding. `lines` has the line of the input in which each text of `calls` begins, as far
/// as it is known.
fn write_finding(out: &mut String, lines: &[u64], finding: &Finding) -> Result<(), AllocError> {
    match finding {
        Finding::NotJson { hint, line, column } => {
            write!(out, "line {line}, column {column}: not JSON")?;
            write_hint(out, *hint)?;
            out.push_str("\n")
        }
        Finding::Shape(shape) => write_shape(out, lines, shape),
        Finding::Layout(part) => write_range(out, *part),
        Finding::BadCall {
            number,
            text,
            names,
        } => {
            let text = text.as_str();
            write_head(out, lines, *number)?;
            write_quoted(out, text)?;
            out.push_str(": ")?;
            write_expected(out, text, names)?;
            out.push_str("\n")
        }
        Finding::Repeat { place, key } => {
            let name = key.name();
            writeln!(
                out,
                "{place}: warning: `{name}` stands more than once, and the last counts"
            )
        }
        Finding::Warning { number, warning } => {
            write_head(out, lines, *number)?;
            write_warning(out, *warning)
        }
    }
}

/// Writes the likely reason why a text is not JSON.
fn write_hint(out: &mut String, hint: Hint) -> Result<(), AllocError> {
    match hint {
        Hint::NoText => out.push_str(": there is no text"),
        Hint::ByteOrderMark => {
            out.push_str(": it begins with a byte order mark, which JSON has not")
        }
        Hint::Comma => out.push_str(": a comma too many before it"),
        Hint::Unexpected(c) => {
            out.push_str(": ")?;
            write_unexpected(out, c)
        }
        Hint::TooDeep => out.push_str(": more than 127 objects and lists in one another"),
        Hint::Comment => out.push_str(": it has a comment, and JSON has none"),
        Hint::Nothing => Ok(()),
    }
}

/// Writes the number of a text of `calls`, and the line in which it begins, if that is known.
fn write_head(out: &mut String, lines: &[u64], number: u64) -> Result<(), AllocError> {
    match lines.get(number.saturating_sub(1) as usize) {
        Some(line) => write!(out, "calls {number} (line {line}): "),
        None => write!(out, "calls {number}: "),
    }
}

/// Writes what is wrong with a key or a value.
fn write_shape(out: &mut String, lines: &[u64], shape: &Shape) -> Result<(), AllocError> {
    match shape {
        Shape::NotObject(place) => writeln!(out, "{place}: no object"),
        Shape::KeyCount { place, count } => {
            let wanted = keys_of(*place).len();
            writeln!(out, "{place}: keys: {count}, wanted: {wanted}")
        }
        Shape::UnknownKey { place, key } => {
            write_key(out, *place, key.as_str(), "is no key of it")
        }
        Shape::MissingKey { place, key } => write_key(out, *place, key.name(), "is missing"),
        Shape::NotNumber(key) => write_key(
            out,
            ScenarioObject::Layout,
            key.name(),
            "is no integer from 0 to 2^64-1",
        ),
        Shape::NotList(key) => {
            let name = key.name();
            writeln!(out, "`{name}` is no list")
        }
        Shape::NotBoot { number } => writeln!(
            out,
            "layout: word {number} of `boot` is none of normal, movable, offline, absent"
        ),
        Shape::NotText { number } => {
            write_head(out, lines, *number)?;
            out.push_str("no text\n")
        }
    }
}

/// Writes a key of an object, and what is wrong with it.
fn write_key(
    out: &mut String,
    place: ScenarioObject,
    name: &str,
    what: &str,
) -> Result<(), AllocError> {
    write!(out, "{place}: ")?;
    write_quoted(out, name)?;
    writeln!(out, " {what}")
}

/// Writes a part of the layout that is out of its range.
fn write_range(out: &mut String, part: OutOfRange) -> Result<(), AllocError> {
    out.push_str("layout: ")?;
    match part {
        OutOfRange::Order(n) => write_limit(out, "order", n, "0 to 10"),
        OutOfRange::Pageblocks(n) => {
            write_limit(out, "pageblocks", n, "1, 2, 4, 8, 16, 32 or 64")
        }
        OutOfRange::Blocks(n) => write_limit(out, "blocks", n, "1 to 256"),
        OutOfRange::Frames(n) => writeln!(
            out,
            "blocks * pageblocks * 2^order is {n} frames, and may be at most 1048576"
        ),
        OutOfRange::Cpus(n) => write_limit(out, "cpus", n, "1 to 64"),
        OutOfRange::Batch { batch, high } => writeln!(
            out,
            "`batch` is {batch}, and may be 1 to `high`, which is {high}"
        ),
        OutOfRange::High(n) => write_limit(out, "high", n, "1 to 1024"),
        OutOfRange::Owners(n) => write_limit(out, "owners", n, "1 to 64"),
        OutOfRange::Pages(n) => write_limit(out, "pages", n, "1 to 65536"),
        OutOfRange::Words(n) => write_limit(out, "words", n, "1 to 512"),
        OutOfRange::History(n) => write_limit(out, "history", n, "1 to 16777216"),
        OutOfRange::Boot { words, blocks } => {
            writeln!(out, "`boot` has {words} words, and `blocks` is {blocks}")
        }
    }
}

/// Writes a number of the layout, and the numbers that it may be.
fn write_limit(out: &mut String, key: &str, n: u64, limits: &str) -> Result<(), AllocError> {
    writeln!(out, "`{key}` is {n}, and may be {limits}")
}

/// Writes a warning.
fn write_warning(out: &mut String, warning: Warning) -> Result<(), AllocError> {
    out.push_str("warning: ")?;
    match warning {
        Warning::Past {
            subject,
            number,
            count,
        } => writeln!(
            out,
            "{subject} {number} is past the layout, which has {count}, counted from 0"
        ),
        Warning::NoBegin { op } => {
            let op = op.0;
            writeln!(out, "no line before begins operation {op}")
        }
        Warning::Turns { turns, history } => writeln!(
            out,
            "a history of {history} records has no room for a plan with {turns} turns"
        ),
        Warning::Full { history } => writeln!(
            out,
            "the lines before fill the history of {history} records"
        ),
        Warning::Unexpected(c) => {
            write_unexpected(out, c)?;
            out.push_str("\n")
        }
        Warning::Echo(fault) => writeln!(out, "echo: fault {fault}"),
        Warning::Cat(fault) => writeln!(out, "cat: fault {fault}"),
        Warning::NotForScript(why) => writeln!(out, "not for a script: {why}"),
    }
}
