//! The text of a scenario that runs in order on one machine.
ghost use Rattle.std.specs.Prelude.{◌≡◌, ℕ, List, [], ◌++◌, Ok, Some, OnOk, IfOk, IfErr, IfSome, IsTrue, string_bytes};
ghost use Rattle.hp_machine.specs.Machine.{booted};
ghost use Rattle.hp_scenario.specs.Calls.{IsOpened};
ghost use Rattle.hp_scenario.specs.Gives.{Gives};
ghost use Rattle.hp_scenario.specs.Scenario.{scenario_in};
ghost use Rattle.hp_scenario.specs.Seen.{asked_seen, scenario_seen};
ghost use Rattle.hp_text.specs.State.{state_text};
ghost use Rattle.hp_commands.specs.Called.{WritesAll};
ghost use Rattle.hp_commands.specs.Faults.{IsFaultOf};
ghost use Rattle.hp_commands.specs.Serial.{GrowsBy, LeavesImage, WritesAsked, WritesLine, WritesLines};
ghost use Rattle.hp_commands.specs.Served.{IsTextOf};
ghost use Rattle.hp_commands.specs.declared.commands.Command.TheVariants.{Serial};

use crate::events::write_event;
use crate::fault::ProgramFault;
use crate::files::write_file;
use crate::plans::write_plan;
use crate::seals::write_seal;
use hp_machine::UnrecordedMachine;
use hp_plain::Image;
use hp_scenario::{Asked, Calls, Line, Lines, Next, Scenario, ScenarioFault};
use hp_text::{write_echo_fault, write_state};
use hp_units::{Cpu, Layout};
use std::alloc::{AllocError, Global};
use std::mem::forget;

/// Runs the scenario in `input`, and returns its text: what each line writes, then the state.
///
/// Input in the usual form without a fault is run line by line as it is read, and the machine's
/// memory is then not freed before the program ends. Any other input is read as a whole, and then
/// run from its first line.
pub fn serial(alloc: Global, input: Vec<u8>) -> Result<String, ProgramFault>
    ensures ok { IfOk result (λ out. IsTextOf input.items (string_bytes out)) }
    ensures err { IfErr result (IsFaultOf Serial (Some input.items) ⊥ ⊥) }
{
    match usual_text(alloc, &input) {
        Ok(Some(out)) => Ok(out),
        Ok(None) => any_text(alloc, input),
        Err(AllocError) => Err(ProgramFault::OutOfMemory),
    }
}

/// Returns the output of a scenario that has the usual form and no fault. After `None`, the bytes
/// may still be a scenario.
fn usual_text(alloc: Global, input: &[u8]) -> Result<Option<String>, AllocError>
    ensures { IfOk result (λ out. IfSome out (λ out. IsTextOf input.now (string_bytes out))) }
{
    let Some(mut calls) = Calls::open(alloc, input)? else {
        return Ok(None);
    };
    calls_text(alloc, &mut calls, input.len() / 16)
}

/// Runs the lines of `calls` as they are read, on a machine with room for `count` lines. No line
/// may have been taken before. Returns the output if there is no fault; after `None`, the bytes may
/// still be a scenario.
fn calls_text(
    alloc: Global,
    calls: &mut Calls<'_>,
    count: usize,
) -> Result<Option<String>, AllocError>
    ensures { IfOk result (λ out. IfSome out
        (λ out. (input : List ℕ) → IsOpened input calls.old → IsTextOf input (string_bytes out))) }
{
    let mut machine = boot(alloc, calls.layout(), count)?;
    let mut out = room_for(alloc, count)?;
    if !write_calls(&mut out, alloc, &mut machine, calls)? {
        return Ok(None);
    }
    write_end(&mut out, alloc, &machine, calls)?;
    // The program ends after this text: the many pieces of memory are not freed one by one.
    forget(machine);
    Ok(Some(out))
}

/// Writes the state of a machine, with the names from the lines.
fn write_end(
    out: &mut String,
    alloc: Global,
    machine: &UnrecordedMachine,
    calls: &Calls<'_>,
) -> Result<(), AllocError>
    ensures { OnOk result (string_bytes out.new ≡ string_bytes out.old
        ++ state_text machine.now.layout calls.now.names.keys machine.now.state) }
{
    let end = machine.image(alloc)?;
    write_state(out, alloc, &end, calls.names())?;
    // The state is not freed before the program ends.
    forget(end);
    Ok(())
}

/// Runs lines as they are read, and writes the text of each. Returns whether the scenario then
/// ended without a fault; `false` may also mean that it goes on in another form.
fn write_calls(
    out: &mut String,
    alloc: Global,
    machine: &mut UnrecordedMachine,
    calls: &mut Calls<'_>,
) -> Result<bool, AllocError>
    ensures { IfOk result (λ sure. IsTrue sure → WritesAll calls.old calls.new
        (string_bytes out.old) (string_bytes out.new) machine.old machine.new) }
{
    loop {
        match calls.next(alloc)? {
            Next::Another(line) => write_taken(out, alloc, machine, line)?,
            Next::End => return Ok(true),
            Next::Unsure => return Ok(false),
        }
    }
}

/// Runs a line, writes its text, and drops it.
#[inline(always)]
fn write_taken(
    out: &mut String,
    alloc: Global,
    machine: &mut UnrecordedMachine,
    line: Line,
) -> Result<(), AllocError>
    ensures { OnOk result (GrowsBy (string_bytes out.old) (string_bytes out.new)
        (λ text. WritesLine machine.old line text machine.new)) }
{
    write_line(out, alloc, machine, &line)
}

/// Returns the output of any scenario. Frees the input once it is read.
fn any_text(alloc: Global, input: Vec<u8>) -> Result<String, ProgramFault>
    ensures ok { IfOk result (λ out. IsTextOf input.items (string_bytes out)) }
    ensures err { IfErr result (IsFaultOf Serial (Some input.items) ⊥ ⊥) }
{
    let scenario = read_scenario(alloc, input)?;
    Ok(scenario_text(alloc, scenario)?)
}

/// Runs a scenario and returns its output: each line's text, then the final state. Frees the lines
/// before it copies the state.
fn scenario_text(alloc: Global, scenario: Scenario) -> Result<String, AllocError>
    ensures { IfOk result (λ out. (input : List ℕ) → scenario_in input ≡ Ok (scenario_seen scenario)
        → IsTextOf input (string_bytes out)) }
{
    let mut out = room_for(alloc, scenario.lines.as_slice().len())?;
    write_scenario(&mut out, alloc, scenario)?;
    Ok(out)
}

/// Runs a scenario and writes its output to `out`, which must be empty.
fn write_scenario(out: &mut String, alloc: Global, scenario: Scenario) -> Result<(), AllocError>
    ensures { OnOk result (string_bytes out.old ≡ [] → (input : List ℕ)
        → scenario_in input ≡ Ok (scenario_seen scenario) → IsTextOf input (string_bytes out.new)) }
{
    let Scenario {
        layout,
        names,
        lines,
    } = scenario;
    let image = run_lines(out, alloc, &layout, lines)?;
    write_state(out, alloc, &image, &names)
}

/// Runs lines on a machine just booted, and writes the text of each. Returns the state after them.
fn run_lines(
    out: &mut String,
    alloc: Global,
    layout: &Layout,
    lines: Lines,
) -> Result<Image, AllocError>
    ensures { IfOk result (λ image. GrowsBy (string_bytes out.old) (string_bytes out.new)
        (λ text. LeavesImage (booted layout.now) lines text image)) }
{
    let mut machine = boot(alloc, layout, lines.as_slice().len())?;
    write_lines(out, alloc, &mut machine, lines.as_slice())?;
    drop(lines);
    machine.image(alloc)
}

/// Boots a machine that keeps no records, since no line shows one. Reserves room for two steps per
/// line if there is memory; otherwise steps allocate as they come. (A plan makes several steps.)
fn boot(alloc: Global, layout: &Layout, lines: usize) -> Result<UnrecordedMachine, AllocError>
    ensures { IfOk result (λ machine. machine ≡ booted layout.now) }
{
    let mut machine = UnrecordedMachine::boot(alloc, layout)?;
    let _ = machine.reserve(lines.saturating_mul(2));
    Ok(machine)
}

/// Reads the scenario in `input`, and drops the input.
fn read_scenario(alloc: Global, input: Vec<u8>) -> Result<Scenario, ScenarioFault>
    ensures { Gives scenario_seen result (scenario_in input.items) }
{
    Scenario::read_any(alloc, &input)
}

/// Returns an empty text with room for the replies to `lines` lines, most of which have at most 24
/// bytes.
fn room_for(alloc: Global, lines: usize) -> Result<String, AllocError>
    ensures { IfOk result (λ out. string_bytes out ≡ []) }
{
    String::with_capacity(alloc, lines.saturating_mul(24))
}

/// Runs lines one after another, and writes the text of each.
fn write_lines(
    out: &mut String,
    alloc: Global,
    machine: &mut UnrecordedMachine,
    lines: &[Line],
) -> Result<(), AllocError>
    ensures { OnOk result (GrowsBy (string_bytes out.old) (string_bytes out.new)
        (λ text. WritesLines machine.old lines.now text machine.new)) }
{
    for line in lines {
        write_line(out, alloc, machine, line)?;
    }
    Ok(())
}

/// Runs a line, and writes its text.
#[inline(always)]
fn write_line(
    out: &mut String,
    alloc: Global,
    machine: &mut UnrecordedMachine,
    line: &Line,
) -> Result<(), AllocError>
    ensures { OnOk result (GrowsBy (string_bytes out.old) (string_bytes out.new)
        (λ text. WritesLine machine.old line.now text machine.new)) }
{
    write_asked(out, alloc, machine, line.cpu, line.work.asked())
}

/// Does a line's work, and writes the result, or why a control file refuses it.
#[inline(always)]
fn write_asked(
    out: &mut String,
    alloc: Global,
    machine: &mut UnrecordedMachine,
    cpu: Cpu,
    asked: Asked<'_>,
) -> Result<(), AllocError>
    ensures { OnOk result (GrowsBy (string_bytes out.old) (string_bytes out.new)
        (λ text. WritesAsked machine.old cpu (asked_seen asked.entry) text machine.new)) }
{
    match asked {
        Asked::Event(event) => write_event(out, alloc, machine, cpu, event),
        Asked::Plan { plan, turns } => write_plan(out, alloc, machine, cpu, plan, turns),
        Asked::NotTaken(fault) => write_echo_fault(out, fault),
        Asked::Cat { path } => write_file(out, alloc, machine, path),
        Asked::Seal => write_seal(out, machine),
    }
}
