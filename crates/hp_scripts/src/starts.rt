//! The start of a search: runs a scenario's setup and makes the scripts of its later lines.
ghost use Rattle.std.specs.Prelude.{◌≡◌, ◌^◌, ◌<◌, IfErr, IfOk, drop, length, take};
ghost use Rattle.hp_scenario.specs.Seen.{scenario_seen};
ghost use Rattle.hp_scripts.specs.Starts.{HasNoStart, HasStart, IsStart};

use crate::begins::note_begins;
use crate::checks::check_lines;
use crate::script_results::script_sources;
use crate::scripts::scripts_of;
use crate::setup::run_lines;
use crate::start_fault::StartFault;
use hp_machine::Machine;
use hp_scenario::{Line, Scenario};
use hp_schedules::CallScript;
use hp_units::Layout;
use std::alloc::{AllocError, Global};

/// The start of a search: the machine after the setup, and the scripts of the later lines.
pub struct Start {
    /// The machine after the setup.
    pub machine: Machine,
    /// The script of each processor, from processor 0.
    pub scripts: Vec<CallScript>,
}

/// Keeps callers from proving again how each field is dropped.
impl Drop for Start {
    fn drop(self) {
        let Start {
            machine: _machine,
            scripts: _scripts,
        } = self;
    }
}

/// Returns the start of a search: runs the scenario's first `setup` lines in order on one machine,
/// and puts each later line into the script of its processor. In a script, operation 0 is the one
/// that the processor began last.
///
/// `sources` has an entry for each line, from line 0; an empty slice means none. `Some(i)` at a
/// line means that its first argument is the result of line `i`: the operation that line `i` began,
/// or the frame that it got, in whichever order the calls are made. An entry counts if both lines
/// are after the setup and line `i` is an earlier line of the same processor that has such a
/// result. Other entries are ignored.
///
/// Errors: `NotForScript` with the first line after the setup that may not be in a script;
/// `OutOfMemory`, which may come in place of any other result.
pub fn start_of(
    alloc: Global,
    scenario: &Scenario,
    sources: &[Option<usize>],
    setup: u64,
) -> Result<Start, StartFault>
    ensures ok { IfOk result (λ start. HasStart (scenario_seen scenario.now) sources.now setup
        start.machine start.scripts.items) }
    ensures few { IfOk result (λ start. length start.scripts.items < 2 ^ 32) }
    ensures err { IfErr result (HasNoStart (scenario_seen scenario.now) setup) }
{
    let cpus = scenario.layout.cpus();
    let lines = scenario.lines.as_slice();
    let before = front_of(lines, setup);
    let after = rest_of(lines, setup);
    check_lines(cpus, before.len() as u64, after)?;
    let sources = script_sources(alloc, sources, setup)?;
    Ok(start_after(alloc, &scenario.layout, before, after, &sources)?)
}

/// Runs `before` on a machine just booted, and returns the machine with the scripts of `after`.
/// `sources` has, for each line of `after` that works on the result of another, the index of that
/// line in `after`.
fn start_after(
    alloc: Global,
    layout: &Layout,
    before: &[Line],
    after: &[Line],
    sources: &[Option<usize>],
) -> Result<Start, AllocError>
    ensures is { IfOk result (λ start. IsStart layout.now before.now after.now sources.now
        start.machine start.scripts.items) }
    ensures few { IfOk result (λ start. length start.scripts.items < 2 ^ 32) }
{
    let mut machine = Machine::boot(alloc, layout)?;
    let mut begins = Vec::new(alloc);
    run_lines(alloc, &mut machine, &mut begins, before)?;
    note_begins(&mut begins, machine.history())?;
    let scripts = scripts_of(alloc, layout.cpus(), &begins, after, sources)?;
    Ok(Start { machine, scripts })
}

/// Returns the first `count` lines, or all if there are fewer.
pub fn front_of(lines: &[Line], count: u64) -> &[Line]
    ensures { result.now ≡ take count lines.now }
{
    if count < lines.len() as u64 {
        &lines[..count as usize]
    } else {
        lines
    }
}

/// Returns the items after the first `count`.
pub(crate) fn rest_of<T>(items: &[T], count: u64) -> &[T]
    ensures { result.now ≡ drop count items.now }
{
    if count < items.len() as u64 {
        &items[count as usize..]
    } else {
        &items[items.len()..]
    }
}
