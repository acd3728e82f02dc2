//! A scenario with names.
ghost use Rattle.std.specs.Prelude.{◌≡◌, IfOk, option_map};
ghost use Rattle.serde_json.specs.View.{view};
ghost use Rattle.hp_units.specs.PartsSeen.{parts_seen};
ghost use Rattle.hp_scenario.specs.Gives.{Gives};
ghost use Rattle.hp_scenario.specs.Seen.{scenario_seen};
ghost use Rattle.hp_scripts.specs.Named.{named_if, named_in, named_of, plainly};
ghost use Rattle.hp_scripts.specs.Seen.{named_seen};

use crate::bindings::Bindings;
use crate::reading::Reading;
use hp_scenario::{
    Scenario, ScenarioFault, Texts, boots_at, has_keys, json_from, layout_from, parts_with,
    texts_at,
};
use hp_units::Parts;
use serde_json::Value;
use std::alloc::{AllocError, Global};
use std::marker::Model;

/// For each line of a scenario, the index of the line whose result it works on by name, if it does.
/// In contracts, its value is the list of these.
#[derive(Drop)]
pub struct Sources {
    sources: Vec<Option<usize>>,
}

impl Model for Sources {
    ghost use Rattle.std.specs.Prelude.{List, Option, ℕ};

    ghost Value = { List (Option ℕ) };

    ghost view = { λ s. s.sources.items };
}

impl Sources {
    /// Wraps sources without copying them.
    pub fn new(sources: Vec<Option<usize>>) -> Sources
        ensures { result ≡ sources.items }
    {
        Sources { sources }
    }

    /// Returns the sources in the order of the lines.
    pub fn as_slice(&self) -> &[Option<usize>]
        ensures { result.now ≡ self.now }
    {
        self.sources.as_slice()
    }

    /// Returns the sources as a vector, without copying them.
    pub(crate) fn into_vec(self) -> Vec<Option<usize>>
        ensures { result.items ≡ self }
    {
        let Sources { sources: all } = self;
        all
    }
}

/// A scenario whose lines may use names for results. A line that works on an earlier line's result
/// by its name has 0 in place of the result's number.
#[derive(Drop)]
pub struct NamedScenario {
    /// The scenario.
    pub scenario: Scenario,
    /// For each line, the index of the earlier line whose result it works on by name, if it does.
    pub sources: Sources,
    /// What names are bound to after the last line.
    pub bound: Bindings,
}

impl NamedScenario {
    /// Reads a scenario whose lines may have names for their results. One without names is read as
    /// by [`Scenario::read`], and just as fast if it has no `$` byte and no fault in a line.
    ///
    /// A text of `calls` whose names are not understood cannot be read as a line: `BadLine`.
    pub fn read(alloc: Global, bytes: &[u8]) -> Result<NamedScenario, ScenarioFault>
        ensures { Gives named_seen result (named_in bytes.now) }
    {
        if bytes.contains(&b'$') {
            return read_named(alloc, bytes);
        }
        match Scenario::read(alloc, bytes) {
            Ok(scenario) => Ok(without_names(alloc, scenario)?),
            Err(fault) => match fault {
                ScenarioFault::BadLine { line: _ } => read_named(alloc, bytes),
                _ => Err(fault),
            },
        }
    }
}

/// Returns a scenario without names: no line works on a result by its name.
fn without_names(alloc: Global, scenario: Scenario) -> Result<NamedScenario, AllocError>
    ensures { IfOk result (λ named. named_seen named ≡ plainly (scenario_seen scenario)) }
{
    let sources = vec![in alloc; None; scenario.lines.as_slice().len()]?;
    Ok(NamedScenario {
        scenario,
        sources: Sources::new(sources),
        bound: Bindings::new(alloc),
    })
}

/// Reads a scenario by way of its JSON value.
#[tactic(auto, unfolding(crate::specs::Named::named_in))]
fn read_named(alloc: Global, bytes: &[u8]) -> Result<NamedScenario, ScenarioFault>
    ensures { Gives named_seen result (named_in bytes.now) }
{
    let value = json_from(alloc, bytes)?;
    named_from(alloc, &value)
}

/// Returns the scenario in a JSON value. Checks its shape before the layout and the lines.
#[tactic(auto, unfolding(crate::proofs::NamedReads::named_of_values))]
fn named_from(alloc: Global, value: &Value) -> Result<NamedScenario, ScenarioFault>
    ensures { Gives named_seen result (named_of (view value.now)) }
{
    if !has_keys(value, 2) {
        return Err(ScenarioFault::BadShape);
    }
    let layout = value.get("layout").ok_or(ScenarioFault::BadShape)?;
    if !has_keys(layout, 11) {
        return Err(ScenarioFault::BadShape);
    }
    let boot = boots_at(alloc, layout, "boot")?;
    named_with(alloc, parts_with(layout, &boot), texts_at(value, "calls"))
}

/// Returns the scenario of a layout's parts and of the lines' texts; `BadShape` if one is missing.
#[tactic(auto, unfolding(crate::specs::Named::named_with))]
fn named_with(
    alloc: Global,
    parts: Option<Parts<'_>>,
    calls: Option<Texts<'_>>,
) -> Result<NamedScenario, ScenarioFault>
    ensures { Gives named_seen result
        (named_if (option_map parts_seen parts.entry) calls.entry) }
{
    let (Some(parts), Some(calls)) = (parts, calls) else {
        return Err(ScenarioFault::BadShape);
    };
    let layout = layout_from(alloc, &parts)?;
    let mut reading = Reading::new(alloc);
    reading.add_all(alloc, &calls)?;
    Ok(reading.into_named(layout))
}
