//! Puts the numbers of results into lines.
ghost use Rattle.std.specs.Prelude.{◌≡◌, ◌≤◌, [], ◌++◌, IfOk, OnOk, drop, length, min, take};
ghost use Rattle.std.specs.List.{list_any};
ghost use Rattle.hp_machine.specs.Machine.{MachineValue, booted};
ghost use Rattle.hp_scripts.specs.Resolved as spec;
ghost use Rattle.hp_scripts.specs.Resolved.{PutsNumbers, Resolves, RunsFront};
ghost use Rattle.hp_scripts.specs.Seen.{named_seen};

use crate::bindings::Bindings;
use crate::named::{NamedScenario, Sources};
use crate::runs::run_line;
use crate::script_results::source_at;
use hp_machine::Machine;
use hp_scenario::{Line, Lines, Scenario, Work};
use hp_units::{Event, Frame, Layout, Serial};
use std::alloc::{AllocError, Global};

/// Runs the first `count` lines in order on a machine just booted, as `hotplug serial` does. Puts
/// the number of each result into the lines that work on it by name, and into the names that later
/// lines may use. For a line that got a number, `sources` then has `None`. Runs nothing if no
/// result has a name and no line works on a result of the first `count` lines.
pub fn resolve_front(
    alloc: Global,
    named: NamedScenario,
    count: u64,
) -> Result<NamedScenario, AllocError>
    ensures { IfOk result (λ resolved. Resolves count (named_seen named) (named_seen resolved)) }
{
    if named.bound.is_empty() && !is_any_below(named.sources.as_slice(), count) {
        return Ok(named);
    }
    let NamedScenario {
        scenario,
        sources,
        bound,
    } = named;
    let Scenario {
        layout,
        names,
        lines,
    } = scenario;
    let mut lines = lines.into_vec();
    let mut sources = sources.into_vec();
    let mut bound = bound;
    resolve_lines(alloc, &layout, &mut lines, &mut sources, &mut bound, count)?;
    Ok(NamedScenario {
        scenario: Scenario {
            layout,
            names,
            lines: Lines::new(lines),
        },
        sources: Sources::new(sources),
        bound,
    })
}

/// Runs the first `count` lines, and puts the numbers of their results into all lines and names.
fn resolve_lines(
    alloc: Global,
    layout: &Layout,
    lines: &mut [Line],
    sources: &mut [Option<usize>],
    bound: &mut Bindings,
    count: u64,
) -> Result<(), AllocError>
    ensures { OnOk result (PutsNumbers layout.now count lines.old sources.old bound.old lines.new sources.new
        bound.new) }
{
    let front = front_len(lines.len(), count);
    let numbers = run_front(alloc, layout, lines, sources, front)?;
    put_numbers(lines, sources, front, numbers.as_slice());
    take_away(sources, numbers.as_slice());
    bound.number(numbers.as_slice());
    Ok(())
}

/// Returns how many of `len` lines are among the first `count`.
fn front_len(len: usize, count: u64) -> usize
    ensures { result ≡ min count len }
{
    if count < len as u64 {
        count as usize
    } else {
        len
    }
}

/// Returns whether any line works by name on a result of the first `count` lines.
fn is_any_below(sources: &[Option<usize>], count: u64) -> bool
    ensures { result ≡ list_any (spec.is_below count) sources.now }
{
    sources.iter().any(|source| is_below(*source, count))
}

/// Returns whether there is a source (the index of a line), and it is below `count`.
fn is_below(source: Option<usize>, count: u64) -> bool
    ensures { result ≡ spec.is_below count source }
{
    match source {
        Some(place) => (place as u64) < count,
        None => false,
    }
}

/// Runs the first `front` lines on a machine just booted. Before a line runs, it gets the number of
/// the result that it works on by name, if it does. Returns the numbers of the results of all these
/// lines.
fn run_front(
    alloc: Global,
    layout: &Layout,
    lines: &mut [Line],
    sources: &[Option<usize>],
    front: usize,
) -> Result<Vec<u64>, AllocError>
    requires { front ≤ length lines.old }
    ensures run { IfOk result (λ numbers. (m : MachineValue) × RunsFront (booted layout.now) [] sources.now
        (take front lines.old) (take front lines.new) m numbers.items) }
    ensures later { OnOk result (drop front lines.new ≡ drop front lines.old) }
{
    let mut machine = Machine::boot(alloc, layout)?;
    let mut numbers = Vec::new(alloc);
    for index in 0..front {
        let number = number_at(&numbers, source_at(sources, index));
        put_number(&mut lines[index], number);
        let number = run_line(alloc, &mut machine, &lines[index])?;
        numbers.push(number)?;
    }
    Ok(numbers)
}

/// Puts numbers of results into the lines from index `from` on: into each line that works by name
/// on a result whose number is known.
fn put_numbers(lines: &mut [Line], sources: &[Option<usize>], from: usize, numbers: &[u64])
    requires { from ≤ length lines.old }
    ensures { lines.new ≡ take from lines.old
        ++ spec.lines_after numbers.now (drop from sources.now) (drop from lines.old) }
{
    for index in from..lines.len() {
        let number = number_at(numbers, source_at(sources, index));
        put_number(&mut lines[index], number);
    }
}

/// Replaces each source (the index of a line) by `None` if `numbers` has the number of that line's
/// result.
fn take_away(sources: &mut [Option<usize>], numbers: &[u64])
    ensures { sources.new ≡ spec.sources_after numbers.now sources.old }
{
    for index in 0..sources.len() {
        if number_at(numbers, sources[index]).is_some() {
            sources[index] = None;
        }
    }
}

/// Returns the number of the result of the line at index `source`, if `numbers` has it.
fn number_at(numbers: &[u64], source: Option<usize>) -> Option<u64>
    ensures { result ≡ spec.number_at numbers.now source }
{
    match source {
        Some(place) => numbers.get(place).copied(),
        None => None,
    }
}

/// Puts a number, if there is one, into a line as the number of the result that it works on.
fn put_number(line: &mut Line, number: Option<u64>)
    ensures { line.new ≡ spec.line_with number line.old }
{
    let Some(number) = number else {
        return;
    };
    if let Work::Event(event) = &mut line.work {
        set_number(event, number);
    }
}

/// Sets the number of the operation that an event works on, or of the frame that it gives back.
fn set_number(event: &mut Event, number: u64)
    ensures { event.new ≡ spec.event_with number event.old }
{
    match event {
        Event::KernelFree { frame } => *frame = frame_of(number),
        Event::DrainFor { op, cpu: _ } => *op = Serial(number),
        Event::Migrate { op } => *op = Serial(number),
        Event::Commit { op } => *op = Serial(number),
        Event::Cancel { op } => *op = Serial(number),
        _ => {}
    }
}

/// Returns the frame with this number. A number that is too large becomes the greatest one, which
/// no layout has.
fn frame_of(number: u64) -> Frame
    ensures { result ≡ spec.frame_of number }
{
    if number < u64::from(u32::MAX) {
        Frame(number as u32)
    } else {
        Frame(u32::MAX)
    }
}
