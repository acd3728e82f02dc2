//! The log of a scenario.
ghost use Rattle.std.specs.Prelude.{IfOk, OnOk};
ghost use Rattle.hp_scenario.specs.Seen.{scenario_seen};
ghost use Rattle.hp_trace.specs.Logs.{AreLinesDrawn, IsLogOfScenario};

use crate::calls::trace_work;
use crate::lines::start;
use crate::rows::{Form, Rows};
use crate::view::whole_view;
use hp_judge::LogEvent;
use hp_machine::Machine;
use hp_scenario::{Line, Scenario};
use std::alloc::{AllocError, Global};

/// The log of a scenario's run, as the judge of logs reads it.
#[derive(Drop)]
pub struct ScenarioLog {
    /// How many frames a memory block has.
    pub block_frames: u32,
    /// What happened to the memory, from boot on.
    pub events: Vec<LogEvent>,
}

/// Returns the log of a scenario's run: what happened to frames and memory blocks, call by call. A
/// seal changes no state, so it has no events.
pub fn trace_log(alloc: Global, scenario: &Scenario) -> Result<ScenarioLog, AllocError>
    ensures { IfOk result
        (λ log. IsLogOfScenario (scenario_seen scenario.now) log.block_frames log.events.items) }
{
    let mut machine = Machine::boot(alloc, &scenario.layout)?;
    let mut rows = start(alloc, &machine, whole_view(), Form::Logged)?;
    draw_lines(&mut rows, alloc, &mut machine, scenario.lines.as_slice())?;
    Ok(ScenarioLog {
        block_frames: scenario.layout.block_size(),
        events: rows.into_events(alloc),
    })
}

/// Runs all lines, and draws all their rows.
fn draw_lines(
    rows: &mut Rows,
    alloc: Global,
    machine: &mut Machine,
    lines: &[Line],
) -> Result<(), AllocError>
    ensures { OnOk result (AreLinesDrawn machine.old lines.now rows.old rows.new machine.new) }
{
    for line in lines {
        trace_work(rows, alloc, machine, line.cpu, &line.work, "")?;
    }
    Ok(())
}
