//! The lines of each processor.
ghost use Rattle.std.specs.Prelude.{◌≡◌, true, [], IfOk, IfSome, length, map};
ghost use Rattle.std.specs.List.{list_all, range_with_len};
ghost use Rattle.hp_scenario.specs.Gives.{Gives};
ghost use Rattle.hp_scenario.specs.Scripts.{AreAllOf, AreForRun, first_unfit as unfit, is_for_run, script_of, scripts_of};
ghost use Rattle.hp_scenario.specs.Seen.{scenario_seen};

use crate::asked::Asked;
use crate::fault::ScenarioFault;
use crate::lines::{Line, Lines};
use crate::scenario::Scenario;
use std::alloc::{AllocError, Global};
use std::marker::Model;

/// The lines of one processor, in order.
#[derive(Drop)]
pub struct Script {
    lines: Vec<Line>,
}

impl Model for Script {
    ghost use Rattle.std.specs.Prelude.{List};
    ghost use Rattle.hp_scenario.specs.declared.lines.Line.{Line};

    ghost Value = { List Line };

    ghost view = { λ s. s.lines.items };
}

impl Script {
    /// Wraps lines without copying them.
    pub fn new(lines: Vec<Line>) -> Script
        ensures { result ≡ lines.items }
    {
        Script { lines }
    }

    /// Returns the lines in order.
    pub fn as_slice(&self) -> &[Line]
        ensures { result.now ≡ self.now }
    {
        self.lines.as_slice()
    }
}

impl Scenario {
    /// Returns the lines by processor: one script per processor of the layout, in order from 0.
    /// Takes the scenario, whose lines move into the scripts.
    ///
    /// Errors: `NotForRun` with the first line, counted from 1, that reads a control file or whose
    /// processor is not in the layout; `OutOfMemory`, which may come in place of any other result.
    #[tactic(auto, unfolding(crate::specs::Scripts::scripts_of))]
    pub fn scripts(self, alloc: Global) -> Result<Vec<Script>, ScenarioFault>
        ensures scripts { Gives (λ scripts. scripts.items) result (scripts_of (scenario_seen self)) }
        ensures count { IfOk result (λ scripts. length scripts.items ≡ (scenario_seen self).layout.cpus) }
        ensures run { IfOk result (λ scripts. AreForRun scripts.items) }
    {
        let Scenario {
            layout,
            names,
            lines,
        } = self;
        let cpus = layout.cpus();
        drop(layout);
        drop(names);
        let lines = lines.into_vec();
        if let Some(index) = first_unfit(&lines, cpus) {
            let line = index as u64 + 1;
            return Err(ScenarioFault::NotForRun { line });
        }
        Ok(dealt(alloc, lines, cpus)?)
    }
}

/// Returns the index of the first line that no worker may run.
fn first_unfit(lines: &[Line], cpus: u32) -> Option<usize>
    ensures { result ≡ unfit cpus lines.now }
{
    lines.iter().position(|line| !line.is_for_run(cpus))
}

/// Deals the lines out to their processors. Each must be a line that a worker may run.
fn dealt(alloc: Global, lines: Vec<Line>, cpus: u32) -> Result<Vec<Script>, AllocError>
    requires { list_all (is_for_run cpus) lines.items ≡ true }
    ensures { IfOk result (λ scripts. scripts.items ≡ map (script_of lines.items) (range_with_len 0 cpus)) }
{
    let scripts = no_scripts(alloc, cpus)?;
    match only_place(&lines) {
        Some(place) => Ok(left_together(scripts, place, lines, cpus)),
        None => dealt_singly(scripts, lines, cpus),
    }
}

/// Returns the index of the script to which all lines belong. Returns `None` if they belong to
/// several processors, or if there are no lines.
fn only_place(lines: &[Line]) -> Option<usize>
    ensures { IfSome result (AreAllOf lines.now) }
{
    let place = lines.first()?.place();
    for line in lines {
        if line.place() != place {
            return None;
        }
    }
    Some(place)
}

/// Returns the scripts if all lines belong to the one with index `place`. The lines stay where they
/// are, and nothing is allocated.
fn left_together(scripts: Vec<Script>, place: usize, lines: Vec<Line>, cpus: u32) -> Vec<Script>
    requires bare { scripts.items ≡ map (script_of []) (range_with_len 0 cpus) }
    requires fit { list_all (is_for_run cpus) lines.items ≡ true }
    requires together { AreAllOf lines.items place }
    ensures { result.items ≡ map (script_of lines.items) (range_with_len 0 cpus) }
{
    let mut scripts = scripts;
    scripts[place] = Script::new(lines);
    scripts
}

/// Returns the scripts of lines of several processors: each line moves to the end of its script.
fn dealt_singly(
    scripts: Vec<Script>,
    lines: Vec<Line>,
    cpus: u32,
) -> Result<Vec<Script>, AllocError>
    requires bare { scripts.items ≡ map (script_of []) (range_with_len 0 cpus) }
    requires fit { list_all (is_for_run cpus) lines.items ≡ true }
    ensures { IfOk result (λ scripts. scripts.items ≡ map (script_of lines.items) (range_with_len 0 cpus)) }
{
    let mut scripts = scripts;
    let mut left = lines;
    left.reverse();
    while let Some(line) = left.pop() {
        scripts[line.place()].lines.push(line)?;
    }
    Ok(scripts)
}

/// Returns an empty script for each processor.
fn no_scripts(alloc: Global, cpus: u32) -> Result<Vec<Script>, AllocError>
    ensures { IfOk result (λ scripts. scripts.items ≡ map (script_of []) (range_with_len 0 cpus)) }
{
    let mut scripts = Vec::with_capacity(alloc, cpus as usize)?;
    for _cpu in 0..cpus {
        scripts.push_reserved(Script::new(Vec::new(alloc)));
    }
    Ok(scripts)
}

impl Line {
    /// Returns the index of the line's script.
    fn place(&self) -> usize
        ensures { result ≡ self.now.cpu }
    {
        self.cpu.0 as usize
    }

    /// Returns whether a worker may run the line: its processor is below `cpus`, and it does not
    /// read a control file.
    fn is_for_run(&self, cpus: u32) -> bool
        ensures { result ≡ is_for_run cpus self.now }
    {
        self.cpu.0 < cpus && !matches!(self.work.asked(), Asked::Cat { .. })
    }
}
