//! Lines of a scenario's `calls`.
ghost use Rattle.std.specs.Prelude.{◌≡◌, ◌++◌, OnOk, string_bytes};
ghost use Rattle.hp_text.specs.Lines.{line_text, shown_line, shown_work};

use crate::escapes::{Brackets, write_escaped};
use crate::spelling::{write_event, write_plan};
use hp_scenario::{Line, Work};
use hp_units::Text;
use indexmap::IndexSet;
use std::alloc::AllocError;

/// Writes a line as a string of a scenario's `calls`, without the quotation marks: the processor,
/// then its work. Owners are written by name. The texts of an `echo` or a `cat` are written as in
/// JSON, and each character that a terminal might obey is escaped.
pub fn write_line(out: &mut String, names: &IndexSet<Text>, line: &Line) -> Result<(), AllocError>
    ensures { OnOk result (string_bytes out.new ≡ string_bytes out.old ++ line_text names.now.keys line.now) }
{
    write_shown_line(out, names, line, Brackets::Kept)
}

/// Writes a line like `write_line`. `brackets` is how the square brackets in the texts of an `echo`
/// or a `cat` are written.
pub fn write_shown_line(
    out: &mut String,
    names: &IndexSet<Text>,
    line: &Line,
    brackets: Brackets,
) -> Result<(), AllocError>
    ensures { OnOk result
        (string_bytes out.new ≡ string_bytes out.old ++ shown_line brackets names.now.keys line.now) }
{
    let cpu = line.cpu;
    write!(out, "{cpu} ")?;
    write_work(out, names, &line.work, brackets)
}

/// Writes the work of a line.
fn write_work(
    out: &mut String,
    names: &IndexSet<Text>,
    work: &Work,
    brackets: Brackets,
) -> Result<(), AllocError>
    ensures { OnOk result
        (string_bytes out.new ≡ string_bytes out.old ++ shown_work brackets names.now.keys work.now) }
{
    match work {
        Work::Event(event) => write_event(out, names, event),
        Work::Plan { plan, turns } => write_plan(out, plan, *turns),
        Work::Echo(echo) => {
            out.push_str("echo ")?;
            write_escaped(out, echo.word(), brackets)?;
            out.push_str(" ")?;
            write_escaped(out, echo.path(), brackets)
        }
        Work::Cat { path } => {
            out.push_str("cat ")?;
            write_escaped(out, path.as_str(), brackets)
        }
        Work::Seal => out.push_str("seal"),
    }
}
