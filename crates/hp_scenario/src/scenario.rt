//! A scenario.
ghost use Rattle.std.specs.Prelude.{◌≡◌, [], option_map};
ghost use Rattle.serde_json.specs.View.{view};
ghost use Rattle.hp_units.specs.LayoutParts.{layout_fault};
ghost use Rattle.hp_units.specs.PartsSeen.{parts_seen};
ghost use Rattle.hp_scenario.specs.Gives.{Gives, or_fault};
ghost use Rattle.hp_scenario.specs.Scenario.{nothing, lines_from, layout_or, json_of, scenario_in, scenario_if, scenario_of};
ghost use Rattle.hp_scenario.specs.Seen.{scenario_seen};

use crate::calls::read_usual;
use crate::fault::ScenarioFault;
use crate::form::{boots_at, has_keys, parts_with, texts_at};
use crate::lines::{Line, Lines};
use crate::names::line_from;
use crate::texts::Texts;
use hp_units::{Layout, LayoutFault, Parts, Text};
use indexmap::IndexSet;
use serde_json::Value;
use std::alloc::Global;

/// A layout, the owners' names by number, and the lines that run on it.
#[derive(Drop)]
pub struct Scenario {
    /// The layout.
    pub layout: Layout,
    /// The owners' names; an owner's number is the index of its name.
    pub names: IndexSet<Text>,
    /// The lines in order.
    pub lines: Lines,
}

impl Scenario {
    /// Reads a scenario from its bytes. Most scenarios in the usual form are read token by token,
    /// without a tree of JSON values. All other bytes are read by `read_any`.
    pub fn read(alloc: Global, bytes: &[u8]) -> Result<Scenario, ScenarioFault>
        ensures { Gives scenario_seen result (scenario_in bytes.now) }
    {
        if let Some(scenario) = read_usual(alloc, bytes)? {
            return Ok(scenario);
        }
        Scenario::read_any(alloc, bytes)
    }

    /// Reads a scenario by way of a tree of JSON values. Unlike `Calls`, reads every form.
    #[tactic(auto, unfolding(crate::specs::Scenario::scenario_in))]
    pub fn read_any(alloc: Global, bytes: &[u8]) -> Result<Scenario, ScenarioFault>
        ensures { Gives scenario_seen result (scenario_in bytes.now) }
    {
        let value = json_from(alloc, bytes)?;
        scenario_from(alloc, &value)
    }
}

/// Parses the bytes of a scenario as JSON.
///
/// # Errors
///
/// `NotJson` if they are not JSON, `OutOfMemory` if memory allocation fails.
#[tactic(auto, unfolding(crate::specs::Scenario::json_of))]
pub fn json_from(alloc: Global, bytes: &[u8]) -> Result<Value, ScenarioFault>
    ensures { Gives view result (or_fault ScenarioFault.NotJson (json_of bytes.now)) }
{
    match Value::from_slice(alloc, bytes) {
        Ok(value) => Ok(value),
        Err(error) => {
            if error.is_memory() {
                Err(ScenarioFault::OutOfMemory)
            } else {
                Err(ScenarioFault::NotJson)
            }
        }
    }
}

/// Returns the scenario in a JSON value. Checks the shape before the layout and the lines.
#[tactic(auto, unfolding(crate::specs::Scenario::scenario_of, crate::specs::Form::form_of, crate::specs::Form::parts_of))]
fn scenario_from(alloc: Global, value: &Value) -> Result<Scenario, ScenarioFault>
    ensures { Gives scenario_seen result (scenario_of (view value.now)) }
{
    if !has_keys(value, 2) {
        return Err(ScenarioFault::BadShape);
    }
    let layout = value.get("layout").ok_or(ScenarioFault::BadShape)?;
    if !has_keys(layout, 11) {
        return Err(ScenarioFault::BadShape);
    }
    let boot = boots_at(alloc, layout, "boot")?;
    scenario_with(alloc, parts_with(layout, &boot), texts_at(value, "calls"))
}

/// Returns the scenario of a layout's parts and of the lines' texts; `BadShape` if one is missing.
#[tactic(auto, unfolding(crate::specs::Scenario::scenario_with))]
fn scenario_with(
    alloc: Global,
    parts: Option<Parts<'_>>,
    calls: Option<Texts<'_>>,
) -> Result<Scenario, ScenarioFault>
    ensures { Gives scenario_seen result
        (scenario_if (option_map parts_seen parts.entry) calls.entry) }
{
    let (Some(parts), Some(calls)) = (parts, calls) else {
        return Err(ScenarioFault::BadShape);
    };
    let layout = layout_from(alloc, &parts)?;
    let mut names = IndexSet::new(alloc);
    let mut lines = Vec::new(alloc);
    add_lines(alloc, &mut names, &mut lines, &calls)?;
    Ok(Scenario {
        layout,
        names,
        lines: Lines::new(lines),
    })
}

/// Returns the layout with these parts.
///
/// # Errors
///
/// `Layout` with the first fault of the parts, `OutOfMemory` if memory allocation fails.
pub fn layout_from(alloc: Global, parts: &Parts<'_>) -> Result<Layout, ScenarioFault>
    ensures { Gives (λ l. l) result (layout_or (parts_seen parts.now) (layout_fault (parts_seen parts.now))) }
{
    match Layout::new(alloc, parts) {
        Ok(layout) => Ok(layout),
        Err(LayoutFault::OutOfMemory) => Err(ScenarioFault::OutOfMemory),
        Err(fault) => Err(ScenarioFault::Layout(fault)),
    }
}

/// Adds the lines in the texts, and the names in them. There are no lines and no names yet.
fn add_lines(
    alloc: Global,
    names: &mut IndexSet<Text>,
    lines: &mut Vec<Line>,
    texts: &Texts<'_>,
) -> Result<(), ScenarioFault>
    requires names { names.old.keys ≡ [] }
    requires lines { lines.old.items ≡ [] }
    ensures { Gives (λ _. record { names = names.new.keys; lines = lines.new.items }) result
        (lines_from 1 nothing texts.now) }
{
    lines.reserve_exact(texts.len())?;
    let mut words = Vec::new(alloc);
    for index in 0..texts.len() {
        let Some(line) = line_from(alloc, names, &mut words, texts.at(index))? else {
            let line = index as u64 + 1;
            return Err(ScenarioFault::BadLine { line });
        };
        lines.push_reserved(line);
    }
    Ok(())
}
