//! The lines after the setup, as one script per processor.
ghost use Rattle.std.specs.Prelude.{◌≡◌, ◌==◌, ◌<◌, ◌++◌, IfOk, None, OnOk, Some, if◌then◌else◌, length, slice_get};
ghost use Rattle.hp_schedules.specs.Scripts.{step_work_of};
ghost use Rattle.hp_scenario.specs.Asked.{asked_by};
ghost use Rattle.hp_scenario.specs.declared.lines.Line.{Line as AnyLine};
ghost use Rattle.hp_scripts.specs.ScriptResults.{named_at};
ghost use Rattle.hp_scripts.specs.Scripts.{event_step, explored, own_work, script_of, scripts_of, step_for, steps_of};

use crate::begins::{Begin, last_begun, line_begins};
use crate::script_results::named_at;
use hp_scenario::{Asked, Line, Work};
use hp_schedules::{CallScript, OwnWork, Step, StepWork};
use hp_units::{Cpu, Event, Plan, Serial};
use std::alloc::{AllocError, Global};

/// Returns the script of each processor, from processor 0. `begins` are the Begins before the
/// scripts. `sources` has, for each line that works on the result of another, the index of that
/// line in `lines`. Lines that may not be in a script are left out.
pub(crate) fn scripts_of(
    alloc: Global,
    cpus: u32,
    begins: &[Begin],
    lines: &[Line],
    sources: &[Option<usize>],
) -> Result<Vec<CallScript>, AllocError>
    ensures { IfOk result
        (λ scripts. scripts.items ≡ scripts_of cpus begins.now lines.now sources.now) }
{
    let mut scripts = Vec::new(alloc);
    for cpu in 0..cpus {
        scripts.reserve(1)?;
        let script = script_of(alloc, Cpu(cpu), begins, lines, sources)?;
        scripts.push_reserved(script);
    }
    Ok(scripts)
}

/// Returns the script of a processor: its lines in order, without those that may not be in a
/// script.
fn script_of(
    alloc: Global,
    cpu: Cpu,
    begins: &[Begin],
    lines: &[Line],
    sources: &[Option<usize>],
) -> Result<CallScript, AllocError>
    ensures { IfOk result (λ script. script ≡ script_of begins.now lines.now sources.now cpu) }
{
    let op = last_begun(cpu, begins);
    let mut steps = Vec::new(alloc);
    let mut has_begun = false;
    for place in 0..lines.len() {
        let line = &lines[place];
        let step = step_for(alloc, cpu, op, has_begun, lines, sources, place)?;
        push_some(&mut steps, step)?;
        has_begun = has_begun || line_begins(cpu, line);
    }
    Ok(CallScript::new(steps))
}

/// Returns the line at `place` as a step of a processor's script. Returns `None` if it is not the
/// processor's line, or may not be in a script.
///
/// `op` is the operation that the processor began last before the scripts, and `has_begun` states
/// whether an earlier line of its script begins one.
fn step_for(
    alloc: Global,
    cpu: Cpu,
    op: Serial,
    has_begun: bool,
    lines: &[Line],
    sources: &[Option<usize>],
    place: usize,
) -> Result<Option<Step>, AllocError>
    requires { place < length lines.now }
    ensures { IfOk result (λ step. (line : AnyLine) → slice_get lines.now place ≡ Some line
        → step ≡ step_for cpu op has_begun
        (named_at cpu lines.now sources.now place (asked_by line.work)) line) }
{
    let line = &lines[place];
    if line.cpu != cpu {
        return Ok(None);
    }
    let named = named_at(cpu, lines, sources, place, &line.work)?;
    explored(alloc, op, has_begun, named, &line.work)
}

/// Appends a step, if there is one.
fn push_some(steps: &mut Vec<Step>, step: Option<Step>) -> Result<(), AllocError>
    ensures { OnOk result (steps.new.items ≡ steps.old.items ++ steps_of step) }
{
    if let Some(step) = step {
        steps.push(step)?;
    }
    Ok(())
}

/// Returns a line's work as a step, or `None` if it may not be in a script.
fn explored(
    alloc: Global,
    op: Serial,
    has_begun: bool,
    named: Option<OwnWork>,
    work: &Work,
) -> Result<Option<Step>, AllocError>
    ensures { IfOk result (λ step. step ≡ explored op has_begun named (asked_by work.now)) }
{
    match work.asked() {
        Asked::Event(event) => Ok(Some(named_or_called(alloc, op, has_begun, named, event)?)),
        Asked::Plan { plan, turns } => Ok(Some(carried(alloc, plan, turns)?)),
        Asked::NotTaken(_fault) => Ok(None),
        Asked::Cat { path: _ } => Ok(None),
        Asked::Seal => Ok(None),
    }
}

/// Returns an event as a step. If it works on the result of an earlier line, `named` is this work.
fn named_or_called(
    alloc: Global,
    op: Serial,
    has_begun: bool,
    named: Option<OwnWork>,
    event: &Event,
) -> Result<Step, AllocError>
    ensures { IfOk result (λ step. step ≡ event_step op has_begun named event.now) }
{
    match named {
        Some(work) => Ok(Step::Own(work)),
        None => called(alloc, op, has_begun, event),
    }
}

/// Returns an event as a step. Operation 0 becomes the one that the processor began last.
fn called(alloc: Global, op: Serial, has_begun: bool, event: &Event) -> Result<Step, AllocError>
    ensures { IfOk result (λ step. step ≡ event_step op has_begun None event.now) }
{
    match own_work(event) {
        Some(work) => Ok(own_step(op, has_begun, work)),
        None => Ok(Step::Ask(event.copy(alloc)?)),
    }
}

/// Returns work on the operation that the processor began last. It is `op`, the last one before the
/// scripts, unless the processor's script has begun one.
fn own_step(op: Serial, has_begun: bool, work: StepWork) -> Step
    ensures { result
        ≡ if has_begun then Step.Own (OwnWork.Latest work) else Step.Ask (step_work_of op work) }
{
    if has_begun {
        Step::Own(OwnWork::Latest(work))
    } else {
        Step::Ask(work_on(op, work))
    }
}

/// Returns the event of work on operation `op`.
fn work_on(op: Serial, work: StepWork) -> Event
    ensures { result ≡ step_work_of op work }
{
    match work {
        StepWork::DrainFor { cpu } => Event::DrainFor { op, cpu },
        StepWork::Migrate => Event::Migrate { op },
        StepWork::Commit => Event::Commit { op },
        StepWork::Cancel => Event::Cancel { op },
    }
}

/// Returns a plan as a step.
fn carried(alloc: Global, plan: &Plan, turns: u32) -> Result<Step, AllocError>
    ensures { IfOk result (λ step. step ≡ Step.Carry plan.now turns) }
{
    let plan = plan.copy(alloc)?;
    Ok(Step::Carry { plan, turns })
}

/// Returns the work that an event does on operation 0, or `None` if it works on no operation or on
/// another.
pub(crate) fn own_work(event: &Event) -> Option<StepWork>
    ensures { result ≡ own_work event.now }
{
    match event {
        Event::DrainFor { op, cpu } => own_if_last(*op, StepWork::DrainFor { cpu: *cpu }),
        Event::Migrate { op } => own_if_last(*op, StepWork::Migrate),
        Event::Commit { op } => own_if_last(*op, StepWork::Commit),
        Event::Cancel { op } => own_if_last(*op, StepWork::Cancel),
        _ => None,
    }
}

/// Returns the work if `op` is 0.
fn own_if_last(op: Serial, work: StepWork) -> Option<StepWork>
    ensures { result ≡ if op == 0 then Some work else None }
{
    if op == Serial(0) { Some(work) } else { None }
}
