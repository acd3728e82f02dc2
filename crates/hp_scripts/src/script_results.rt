//! The results of earlier lines: the operation that a line began, or the frame that it got.
ghost use Rattle.std.specs.Prelude.{◌≡◌, ◌<◌, IfOk, drop, length, option_and_then, slice_get};
ghost use Rattle.std.specs.List.{count_by};
ghost use Rattle.std.specs.Option.{option_flatten};
ghost use Rattle.hp_scenario.specs.Asked as asks;
ghost use Rattle.hp_scenario.specs.Asked.{asked_by};
ghost use Rattle.hp_schedules.specs.Scripts.{takes_frame};
ghost use Rattle.hp_scripts.specs.Begins.{line_begins};
ghost use Rattle.hp_scripts.specs.ScriptResults.{asked_allocs, asked_on, asked_opens, is_free, line_allocs, line_opens, named_at, on_begun, script_source, script_sources, work_in};

use crate::begins::line_begins;
use crate::starts::rest_of;
use hp_scenario::{Asked, Line, Work};
use hp_schedules::{OwnWork, StepWork};
use hp_units::{Cpu, Event, mark_of};
use std::alloc::{AllocError, Global};

/// Returns the entries of `sources` for the lines after the setup, as indices among these lines. A
/// source is the line whose result another line works on; a source in the setup becomes `None`.
pub(crate) fn script_sources(
    alloc: Global,
    sources: &[Option<usize>],
    setup: u64,
) -> Result<Vec<Option<usize>>, AllocError>
    ensures { IfOk result (λ later. later.items ≡ script_sources setup sources.now) }
{
    let mut later = Vec::new(alloc);
    for source in rest_of(sources, setup) {
        later.push(place_after(*source, setup))?;
    }
    Ok(later)
}

/// Returns a source (the line whose result another line works on) as an index among the lines after
/// the setup. Returns `None` if there is no source, or if it is in the setup.
fn place_after(source: Option<usize>, setup: u64) -> Option<usize>
    ensures { result ≡ option_and_then (script_source setup) source }
{
    match source {
        Some(line) => {
            if (line as u64) < setup {
                None
            } else {
                Some(line - setup as usize)
            }
        }
        None => None,
    }
}

/// Returns what the line at `place`, whose work is `work`, does with the result of its source (the
/// line whose result it works on). Returns `None` without a source, or if the source is not an
/// earlier line of this processor with a result that `work` can use.
///
/// May fail as if out of memory if more than `u32::MAX` lines before `place` begin operations or
/// ask for kernel blocks.
pub(crate) fn named_at(
    cpu: Cpu,
    lines: &[Line],
    sources: &[Option<usize>],
    place: usize,
    work: &Work,
) -> Result<Option<OwnWork>, AllocError>
    requires { place < length lines.now }
    ensures { IfOk result (λ named. named ≡ named_at cpu lines.now sources.now place (asked_by work.now)) }
{
    let Some(source) = source_at(sources, place) else {
        return Ok(None);
    };
    let earlier = &lines[..place];
    match earlier.get(source) {
        Some(line) => asked_on(cpu, earlier, source, line, work),
        None => Ok(None),
    }
}

/// Returns the source of the line at `place` (the line whose result it works on), if it has one.
pub(crate) fn source_at(sources: &[Option<usize>], place: usize) -> Option<usize>
    ensures { result ≡ option_flatten (slice_get sources.now place) }
{
    match sources.get(place) {
        Some(source) => *source,
        None => None,
    }
}

/// Returns what `work` does with the result of `line`, or `None` if `line` has no result that it
/// can use. `earlier` has the lines before the line with this work, and `line` has index `place`
/// there.
fn asked_on(
    cpu: Cpu,
    earlier: &[Line],
    place: usize,
    line: &Line,
    work: &Work,
) -> Result<Option<OwnWork>, AllocError>
    requires { place < length earlier.now }
    ensures { IfOk result (λ named.
        named ≡ asked_on cpu earlier.now place line.now (asked_by work.now)) }
{
    match work.asked() {
        Asked::Event(event) => on_result(cpu, earlier, place, line, event),
        Asked::Plan { plan: _, turns: _ } => Ok(None),
        Asked::NotTaken(_fault) => Ok(None),
        Asked::Cat { path: _ } => Ok(None),
        Asked::Seal => Ok(None),
    }
}

/// Returns what an event does with the result of `line`, or `None` if `line` has no result that it
/// can use. `earlier` has the lines before the line with this event, and `line` has index `place`
/// there.
fn on_result(
    cpu: Cpu,
    earlier: &[Line],
    place: usize,
    line: &Line,
    event: &Event,
) -> Result<Option<OwnWork>, AllocError>
    requires { place < length earlier.now }
    ensures { IfOk result (λ named.
        named ≡ asked_on cpu earlier.now place line.now (asks.event event.now)) }
{
    if line_opens(cpu, line) {
        return match work_in(event) {
            Some(work) => Ok(Some(on_begun(cpu, earlier, place, work)?)),
            None => Ok(None),
        };
    }
    if line_allocs(cpu, line) && is_free(event) {
        let nth = allocs_in(cpu, &earlier[..place])?;
        return Ok(Some(OwnWork::Free { nth }));
    }
    Ok(None)
}

/// Returns work on the operation that the line at `place` of `earlier` began. `earlier` has the
/// lines before the line that does the work.
fn on_begun(cpu: Cpu, earlier: &[Line], place: usize, work: StepWork) -> Result<OwnWork, AllocError>
    requires { place < length earlier.now }
    ensures { IfOk result (λ own. own ≡ on_begun cpu earlier.now place work) }
{
    if begun_in(cpu, &earlier[place + 1..])? == 0 {
        return Ok(OwnWork::Latest(work));
    }
    let nth = begun_in(cpu, &earlier[..place])?;
    Ok(OwnWork::Nth { nth, work })
}

/// Returns how many operations the processor begins in these lines.
fn begun_in(cpu: Cpu, lines: &[Line]) -> Result<u32, AllocError>
    ensures { IfOk result (λ count. count ≡ count_by (line_begins cpu) lines.now) }
{
    let mut count = 0;
    for line in lines {
        if line_begins(cpu, line) {
            count += 1;
        }
    }
    number_of(count)
}

/// Returns how many kernel blocks the processor asks for in these lines.
fn allocs_in(cpu: Cpu, lines: &[Line]) -> Result<u32, AllocError>
    ensures { IfOk result (λ count. count ≡ count_by (line_allocs cpu) lines.now) }
{
    let mut count = 0;
    for line in lines {
        if line_allocs(cpu, line) {
            count += 1;
        }
    }
    number_of(count)
}

/// Returns a count of lines as the number of a result. Fails as if out of memory above `u32::MAX`.
fn number_of(count: usize) -> Result<u32, AllocError>
    ensures { IfOk result (λ number. number ≡ count) }
{
    match u32::try_from(count) {
        Ok(number) => Ok(number),
        Err(_) => Err(AllocError),
    }
}

/// Returns whether a line is the processor's and is a Begin.
fn line_opens(cpu: Cpu, line: &Line) -> bool
    ensures { result ≡ line_opens cpu line.now }
{
    line.cpu == cpu && work_opens(&line.work)
}

/// Returns whether a line's work is a Begin.
fn work_opens(work: &Work) -> bool
    ensures { result ≡ asked_opens (asked_by work.now) }
{
    match work.asked() {
        Asked::Event(event) => mark_of(event).is_opening(),
        _ => false,
    }
}

/// Returns whether a line is the processor's and asks for a kernel block.
fn line_allocs(cpu: Cpu, line: &Line) -> bool
    ensures { result ≡ line_allocs cpu line.now }
{
    line.cpu == cpu && work_allocs(&line.work)
}

/// Returns whether a line's work asks for a kernel block.
fn work_allocs(work: &Work) -> bool
    ensures { result ≡ asked_allocs (asked_by work.now) }
{
    match work.asked() {
        Asked::Event(event) => is_alloc(event),
        _ => false,
    }
}

/// Returns whether an event asks for a kernel block.
fn is_alloc(event: &Event) -> bool
    ensures { result ≡ takes_frame event.now }
{
    matches!(event, Event::KernelAlloc { .. })
}

/// Returns whether an event gives a kernel block back.
fn is_free(event: &Event) -> bool
    ensures { result ≡ is_free event.now }
{
    matches!(event, Event::KernelFree { .. })
}

/// Returns the work that an event does on an operation that has begun, or `None` if it does none.
fn work_in(event: &Event) -> Option<StepWork>
    ensures { result ≡ work_in event.now }
{
    match event {
        Event::DrainFor { op: _, cpu } => Some(StepWork::DrainFor { cpu: *cpu }),
        Event::Migrate { op: _ } => Some(StepWork::Migrate),
        Event::Commit { op: _ } => Some(StepWork::Commit),
        Event::Cancel { op: _ } => Some(StepWork::Cancel),
        _ => None,
    }
}
