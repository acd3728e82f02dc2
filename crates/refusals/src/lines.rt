//! Runs the lines of a situation, each of which is a call that may run out of memory.
use crate::calls::{call, plan, seal};
use hp_machine::Machine;
use hp_requests::{CONTROL_TURNS, Echo, Request, echo_answer, parse_write};
use hp_scenario::{Line, Scenario, Work};
use hp_text::{buddyinfo, read_file, read_text};
use hp_units::{Cpu, Event, Serial};
use refused_values::{Case, Outcome, Trouble, expect};
use std::alloc::Global;

/// Runs the lines of a scenario on a machine, then undoes the calls since the last seal, or since
/// boot.
pub fn run(case: &mut Case<'_>, scenario: &Scenario) -> Outcome {
    let mut machine = Machine::boot(case.alloc, &scenario.layout)?;
    for line in scenario.lines.as_slice() {
        run_line(case, &mut machine, line)?;
    }
    go_back(case, &mut machine)
}

/// Undoes all calls since the last seal, or since boot, and checks that the state is again the
/// machine's base.
fn go_back(case: &mut Case<'_>, machine: &mut Machine) -> Outcome {
    let serial = Serial(machine.sealed());
    call(case, machine, Cpu(0), &Event::UndoAfter { serial })?;
    let image = machine.image(case.alloc)?;
    expect(image.same(machine.base()))
}

/// Runs a line.
fn run_line(case: &mut Case<'_>, machine: &mut Machine, line: &Line) -> Outcome {
    match &line.work {
        Work::Event(event) => call(case, machine, line.cpu, event),
        Work::Plan { plan: asked, turns } => plan(case, machine, line.cpu, asked, *turns),
        Work::Echo(asked) => echo(case, machine, line.cpu, asked),
        Work::Cat { path } => cat(case.alloc, machine, path.as_str()),
        Work::Seal => seal(case, machine),
    }
}

/// Carries out an `echo`: a write to a control file.
fn echo(case: &mut Case<'_>, machine: &mut Machine, cpu: Cpu, asked: &Echo) -> Outcome {
    match asked.request() {
        Ok(request) => {
            expect_written(case.alloc, asked, request)?;
            expect_echoed(case.alloc, asked, request)?;
            ask(case, machine, cpu, request)
        }
        Err(fault) => Err(Trouble::from(*fault)),
    }
}

/// Checks that the bytes of a word, written to the file, are parsed as this request.
fn expect_written(alloc: Global, asked: &Echo, request: &Request) -> Outcome {
    let other = parse_write(alloc, asked.path(), asked.word().as_bytes())?;
    expect(same_requests(request, &other))
}

/// Checks that an `echo` of a word is parsed as this request.
fn expect_echoed(alloc: Global, asked: &Echo, request: &Request) -> Outcome {
    match echo_answer(alloc, asked.path(), asked.word())? {
        Ok(other) => expect(same_requests(request, &other)),
        Err(fault) => Err(Trouble::from(fault)),
    }
}

/// Makes the call that a request asks for, or carries out its plan.
fn ask(case: &mut Case<'_>, machine: &mut Machine, cpu: Cpu, request: &Request) -> Outcome {
    match request {
        Request::Event(event) => call(case, machine, cpu, event),
        Request::Plan(asked) => plan(case, machine, cpu, asked, CONTROL_TURNS),
    }
}

/// Returns whether two requests are the same.
fn same_requests(one: &Request, other: &Request) -> bool {
    match (one, other) {
        (Request::Event(event), Request::Event(wanted)) => event.same(wanted),
        (Request::Plan(asked), Request::Plan(wanted)) => asked.same(wanted),
        _ => false,
    }
}

/// Reads a control file with each of the functions that read one.
fn cat(alloc: Global, machine: &Machine, path: &str) -> Outcome {
    let bytes = read_file(alloc, machine, path)?;
    expect_text(alloc, machine, path, &bytes)?;
    expect(!bytes.is_empty())?;
    expect_bytes(alloc, machine, path, &bytes)
}

/// Checks that a control file reads as these bytes, as text.
fn expect_text(alloc: Global, machine: &Machine, path: &str, bytes: &[u8]) -> Outcome {
    let text = read_text(alloc, machine, path)?;
    expect(text.as_str().as_bytes() == bytes)
}

/// Checks that a control file reads as these bytes again. Reads `buddyinfo` by its own function.
fn expect_bytes(alloc: Global, machine: &Machine, path: &str, bytes: &[u8]) -> Outcome {
    let shown = if path == "buddyinfo" {
        buddyinfo(alloc, machine)?
    } else {
        read_file(alloc, machine, path)?
    };
    expect(shown.as_slice() == bytes)
}
