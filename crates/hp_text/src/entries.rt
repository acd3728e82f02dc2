//! Lines and calls as the strings of a scenario's `calls`, one per line, separated by commas.
ghost use Rattle.std.specs.Prelude.{◌≡◌, ◌++◌, OnOk, codes, string_bytes, true};
ghost use Rattle.hp_text.specs.Entries.{call_entry, calls_text, entries_text, line_entry};
ghost use Rattle.hp_text.specs.Separated.{separated};

use crate::lines::write_line;
use crate::separated::write_mark;
use crate::spelling::write_call;
use hp_scenario::Line;
use hp_units::{Record, Text};
use indexmap::IndexSet;
use std::alloc::AllocError;

/// The separator of two entries of `calls`.
const BETWEEN: &str = ",\n";

/// Writes `calls` as strings of a scenario's `calls`, separated by `between`. Owners are written by
/// name.
pub fn write_calls(
    out: &mut String,
    names: &IndexSet<Text>,
    calls: &[Record],
    between: &str,
) -> Result<(), AllocError>
    ensures { OnOk result (string_bytes out.new
        ≡ string_bytes out.old ++ calls_text between.now names.now.keys calls.now) }
{
    write_calls_after(out, names, calls, between, true)
}

/// Writes `lines`, then `calls`, as the entries of one list.
pub(crate) fn write_entries(
    out: &mut String,
    names: &IndexSet<Text>,
    lines: &[Line],
    calls: &[Record],
) -> Result<(), AllocError>
    ensures { OnOk result (string_bytes out.new
        ≡ string_bytes out.old ++ entries_text names.now.keys lines.now calls.now) }
{
    write_lines(out, names, lines)?;
    write_calls_after(out, names, calls, BETWEEN, lines.is_empty())
}

/// Writes lines as entries.
fn write_lines(out: &mut String, names: &IndexSet<Text>, lines: &[Line]) -> Result<(), AllocError>
    ensures { OnOk result (string_bytes out.new
        ≡ string_bytes out.old ++ separated (codes ",\n") (line_entry names.now.keys) true lines.now) }
{
    let mut is_first = true;
    for line in lines {
        write_mark(out, BETWEEN, is_first)?;
        write_line_entry(out, names, line)?;
        is_first = false;
    }
    Ok(())
}

/// Writes a line between quotation marks.
fn write_line_entry(out: &mut String, names: &IndexSet<Text>, line: &Line) -> Result<(), AllocError>
    ensures { OnOk result
        (string_bytes out.new ≡ string_bytes out.old ++ line_entry names.now.keys line.now) }
{
    out.push_str("\"")?;
    write_line(out, names, line)?;
    out.push_str("\"")
}

/// Writes calls as entries, with `between` before each. None comes before the first if `is_first`.
fn write_calls_after(
    out: &mut String,
    names: &IndexSet<Text>,
    calls: &[Record],
    between: &str,
    mut is_first: bool,
) -> Result<(), AllocError>
    ensures { OnOk result (string_bytes out.new
        ≡ string_bytes out.old ++ separated between.now (call_entry names.now.keys) is_first calls.now) }
{
    for call in calls {
        write_mark(out, between, is_first)?;
        write_call_entry(out, names, call)?;
        is_first = false;
    }
    Ok(())
}

/// Writes a call as a line between quotation marks.
fn write_call_entry(
    out: &mut String,
    names: &IndexSet<Text>,
    call: &Record,
) -> Result<(), AllocError>
    ensures { OnOk result
        (string_bytes out.new ≡ string_bytes out.old ++ call_entry names.now.keys call.now) }
{
    out.push_str("\"")?;
    write_call(out, names, call.cpu, &call.event)?;
    out.push_str("\"")
}
