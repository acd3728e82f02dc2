//! All that is wrong with a scenario.
ghost use Rattle.std.specs.Prelude.{◌≡◌, [], IfOk, Some, count_by, length};
ghost use Rattle.std.specs.List.{All};
ghost use Rattle.serde_json.specs.Errors.{IsMemory};
ghost use Rattle.serde_json.specs.View.{view};
ghost use Rattle.hp_scripts.specs.Named.{named_in, named_of};
ghost use Rattle.hp_check.specs.Adds.{Adds, IsNotJson, IsWarning, ValueCause, fault_in};
ghost use Rattle.hp_check.specs.Checking.{Agrees, HasCause, HaveCauses};
ghost use Rattle.hp_check.specs.Findings.{is_fault};

use crate::calls::push_calls;
use crate::finding::Finding;
use crate::hints::hint_of;
use crate::ranges::push_ranges;
use crate::repeats::push_repeats;
use crate::shape::push_shape;
use crate::warnings::push_warnings;
use hp_scenario::ScenarioFault;
use hp_scripts::NamedScenario;
use serde_json::{Error, Value};
use std::alloc::{AllocError, Global};

/// Finds all that is wrong with a scenario: its faults, or the warnings of a text without faults.
///
/// Faults come in the order in which `NamedScenario::read` checks for them; that function stops at
/// the first. A text that is not JSON has one fault. Other faults concern the keys and the kinds of
/// values, the layout's ranges if all its parts can be read, and each text of `calls` that cannot
/// be read as a line.
///
/// Warnings concern keys that the text has more than once, and then lines; a line has at most one.
/// The first `setup` lines run in order, before the scripts of the processors.
pub fn check(alloc: Global, input: &[u8], setup: u64) -> Result<Vec<Finding>, AllocError>
    ensures agrees { IfOk result (λ found. Agrees (named_in input.now) found.items) }
    ensures causes { IfOk result (λ found. HaveCauses input.now found.items) }
{
    match NamedScenario::read(alloc, input) {
        Ok(named) => warnings_in(alloc, input, &named, setup),
        Err(fault) => unless_memory(alloc, input, &fault),
    }
}

/// Returns all that is wrong with bytes that `NamedScenario::read` refused with this fault. Fails
/// if the fault is `OutOfMemory`.
fn unless_memory(
    alloc: Global,
    input: &[u8],
    fault: &ScenarioFault,
) -> Result<Vec<Finding>, AllocError>
    ensures { IfOk result (λ found.
        Adds (HasCause input.now) (fault_in (named_in input.now)) [] found.items) }
{
    match fault {
        ScenarioFault::OutOfMemory => Err(AllocError),
        _ => faults_of(alloc, input),
    }
}

/// Returns the warnings about a scenario: first about repeated keys of its text, then about its
/// lines.
#[tactic(auto, using(crate::proofs::Agreement::repeats_are_warnings))]
fn warnings_in(
    alloc: Global,
    input: &[u8],
    named: &NamedScenario,
    setup: u64,
) -> Result<Vec<Finding>, AllocError>
    ensures { IfOk result (λ found. All (IsWarning (length named.now.scenario.lines)) found.items) }
{
    let mut found = Vec::new(alloc);
    push_repeats(&mut found, alloc, input)?;
    let layout = &named.scenario.layout;
    let lines = named.scenario.lines.as_slice();
    let sources = named.sources.as_slice();
    push_warnings(&mut found, alloc, layout, setup, lines, sources)?;
    Ok(found)
}

/// Returns all that is wrong with bytes that are not a scenario.
fn faults_of(alloc: Global, input: &[u8]) -> Result<Vec<Finding>, AllocError>
    ensures { IfOk result (λ found.
        Adds (HasCause input.now) (fault_in (named_in input.now)) [] found.items) }
{
    match Value::from_slice(alloc, input) {
        Ok(value) => value_faults(alloc, &value),
        Err(error) => no_value(alloc, input, &error),
    }
}

/// Returns all that is wrong with a value that is not a scenario.
fn value_faults(alloc: Global, value: &Value) -> Result<Vec<Finding>, AllocError>
    ensures { IfOk result (λ found.
        Adds (ValueCause (view value.now)) (fault_in (named_of (view value.now))) [] found.items) }
{
    let mut found = Vec::new(alloc);
    push_shape(&mut found, alloc, value)?;
    push_ranges(&mut found, alloc, value)?;
    push_calls(&mut found, alloc, value)?;
    Ok(found)
}

/// Returns the fault of a text that is not JSON, given the error of the JSON reader. Fails if the
/// reader ran out of memory.
fn no_value(alloc: Global, input: &[u8], error: &Error) -> Result<Vec<Finding>, AllocError>
    ensures { IfOk result (λ found.
        Adds IsNotJson (Some ScenarioFault.NotJson) [] found.items × (¬ IsMemory error.now)) }
{
    if error.is_memory() {
        return Err(AllocError);
    }
    let line = error.line() as u64;
    let column = error.column() as u64;
    let hint = hint_of(input, line, column);
    let mut found = Vec::new(alloc);
    found.push(Finding::NotJson { hint, line, column })?;
    Ok(found)
}

/// Returns how many of the findings are faults.
pub fn fault_count(findings: &[Finding]) -> usize
    ensures { result ≡ count_by is_fault findings.now }
{
    let mut count = 0;
    for finding in findings {
        if finding.is_fault() {
            count += 1;
        }
    }
    count
}
