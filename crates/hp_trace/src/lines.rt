//! Traces a scenario line by line.
ghost use Rattle.std.specs.Prelude.{◌≡◌, ◌+◌, ◌^◌, ◌<◌, ◌≤◌, IfOk, OnOk, length, string_bytes};
ghost use Rattle.hp_scenario.specs.Seen.{scenario_seen};
ghost use Rattle.hp_trace.specs.declared.rows.Form.TheVariants.{Joined, Kept};
ghost use Rattle.hp_trace.specs.Traces.{AreRowsOf, IsJoinedTraceOf, IsJsonOf, IsScenarioTraced, IsStart, TracesLine, TracesLines, numbered_text, skipped, start_text};

use crate::calls::trace_work;
use crate::rows::{Form, Rows};
use crate::view::{View, whole_view};
use hp_machine::Machine;
use hp_map::RowPicture;
use hp_scenario::{Line, Scenario};
use hp_text::{Brackets, write_shown_line};
use hp_trace_json::head_line;
use hp_units::Text;
use indexmap::IndexSet;
use std::alloc::{AllocError, Global};

/// Returns the trace of a scenario as text. The first row has the memory at boot, or before the
/// first line that may be shown. Each line that is shown then has its number, the line, the reply,
/// and the memory after each of its calls.
///
/// A line that makes no record has a row of the memory, and below it the text that `hotplug serial`
/// writes for it. A plan has a row of the memory when it begins, a row for each of its calls, and
/// below them how it ended. Only the first of equal rounds of a plan's calls is shown, and below it
/// how many more there are.
///
/// The contract fixes what each row asks and answers, in which order the rows come, and which are
/// not shown. How they are laid out is tested.
pub fn trace(alloc: Global, scenario: &Scenario, view: View) -> Result<String, AllocError>
    ensures { IfOk result (λ text.
        IsJoinedTraceOf view (scenario_seen scenario.now) (string_bytes text)) }
{
    let rows = trace_scenario(alloc, scenario, view, Form::Joined)?;
    rows.into_joined_text(alloc)
}

/// Returns the rows of a scenario's trace as values. A row of the memory has all memory blocks,
/// whatever the width of the view. Each line of a text below a row is a row without memory blocks.
pub fn trace_rows(
    alloc: Global,
    scenario: &Scenario,
    view: View,
) -> Result<Vec<RowPicture>, AllocError>
    ensures { IfOk result (λ rows. AreRowsOf view (scenario_seen scenario.now) rows.items) }
{
    let rows = trace_scenario(alloc, scenario, view, Form::Kept)?;
    Ok(rows.into_kept(alloc))
}

/// Returns the trace of a scenario as JSON: a line about the scenario, and then one line for each
/// row. The rows are those of all lines. docs/LAB.md has the keys. Each row has the changes of the
/// state since the row above it; a text below a row is a row without a state.
pub fn trace_json(alloc: Global, scenario: &Scenario) -> Result<String, AllocError>
    ensures { IfOk result (λ text. IsJsonOf (scenario_seen scenario.now) (string_bytes text)) }
{
    let count = scenario.lines.as_slice().len() as u64;
    let mut text = head_line(alloc, &scenario.layout, &scenario.names, count)?;
    let rows = trace_scenario(alloc, scenario, whole_view(), Form::Told)?;
    let rows = rows.into_json(alloc);
    text.push_str(rows.as_str())?;
    Ok(text)
}

/// Returns the rows of a scenario's trace, in this form.
fn trace_scenario(
    alloc: Global,
    scenario: &Scenario,
    view: View,
    form: Form,
) -> Result<Rows, AllocError>
    ensures { IfOk result (λ rows. IsScenarioTraced form view (scenario_seen scenario.now) rows) }
{
    let mut machine = Machine::boot(alloc, &scenario.layout)?;
    let all = scenario.lines.as_slice();
    let before = skipped(view, all.len());
    let (front, shown) = all.split_at(before);
    let names = &scenario.names;
    let mut unseen = Rows::new(alloc, Form::Unseen, view);
    trace_lines(&mut unseen, alloc, &mut machine, names, view, 0, front)?;
    let mut rows = start(alloc, &machine, view, form)?;
    trace_lines(
        &mut rows,
        alloc,
        &mut machine,
        names,
        view,
        before as u64,
        shown,
    )?;
    Ok(rows)
}

/// Returns how many of n lines come before the first that may be shown.
fn skipped(view: View, n: usize) -> usize
    ensures is { result ≡ skipped view n }
    ensures inside { result ≤ n }
{
    let before = view.from.saturating_sub(1);
    if before < n as u64 {
        before as usize
    } else {
        n
    }
}

/// Returns the rows, in this form, that begin a trace: one row with the memory at boot, or before
/// the first line that may be shown.
pub(crate) fn start(
    alloc: Global,
    machine: &Machine,
    view: View,
    form: Form,
) -> Result<Rows, AllocError>
    ensures { IfOk result (IsStart form view machine.now) }
{
    let asked = start_text(alloc, view)?;
    let mut rows = Rows::new(alloc, form, view);
    rows.draw(alloc, machine, asked.as_str(), "", None, None)?;
    Ok(rows)
}

/// Returns the text of the first row.
fn start_text(alloc: Global, view: View) -> Result<String, AllocError>
    ensures { IfOk result (λ text. string_bytes text ≡ start_text view) }
{
    let from = view.from;
    if from <= 1 {
        return String::from_str(alloc, "   0 boot");
    }
    format!(in alloc; "     before line {from}")
}

/// Runs all of these lines, and draws the rows of those that are shown. The scenario has `before`
/// earlier lines.
pub(crate) fn trace_lines(
    rows: &mut Rows,
    alloc: Global,
    machine: &mut Machine,
    names: &IndexSet<Text>,
    view: View,
    before: u64,
    lines: &[Line],
) -> Result<(), AllocError>
    requires { before + length lines.now < 2 ^ 64 }
    ensures { OnOk result (TracesLines view names.now.keys before machine.old lines.now rows.old
        rows.new machine.new) }
{
    for (index, line) in lines.iter().enumerate() {
        let number = before + index as u64 + 1;
        trace_line(rows, alloc, machine, names, view, number, line)?;
    }
    Ok(())
}

/// Runs a line, and draws its rows if it is shown.
pub(crate) fn trace_line(
    rows: &mut Rows,
    alloc: Global,
    machine: &mut Machine,
    names: &IndexSet<Text>,
    view: View,
    number: u64,
    line: &Line,
) -> Result<(), AllocError>
    ensures { OnOk result
        (TracesLine view names.now.keys number machine.old line.now rows.old rows.new machine.new) }
{
    let asked = numbered_text(alloc, names, number, line)?;
    if view.shows(number) {
        rows.begin_line(alloc, names, number, line)?;
        trace_work(rows, alloc, machine, line.cpu, &line.work, asked.as_str())
    } else {
        let mut unseen = Rows::new(alloc, Form::Unseen, view);
        trace_work(
            &mut unseen,
            alloc,
            machine,
            line.cpu,
            &line.work,
            asked.as_str(),
        )
    }
}

/// Returns a line's number and the line.
fn numbered_text(
    alloc: Global,
    names: &IndexSet<Text>,
    number: u64,
    line: &Line,
) -> Result<String, AllocError>
    ensures { IfOk result (λ text.
        string_bytes text ≡ numbered_text names.now.keys number line.now) }
{
    let mut out = format!(in alloc; "{number:>4} ")?;
    write_shown_line(&mut out, names, line, Brackets::Escaped)?;
    Ok(out)
}
