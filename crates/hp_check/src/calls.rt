//! The texts of `calls` that cannot be read as lines.
ghost use Rattle.std.specs.Prelude.{◌≡◌, ◌^◌, ◌<◌, [], OnOk, map};
ghost use Rattle.serde_json.specs.View.{view};
ghost use Rattle.hp_scripts.specs.Bindings.{bound_after};
ghost use Rattle.hp_check.specs.Adds.{Adds};
ghost use Rattle.hp_check.specs.Calls.{AddsBadCall, IsBadCall, IsBadText, bound_past, calls_fault, entries_in, entry_fault};

use crate::finding::Finding;
use crate::name_typos::name_typo;
use hp_scenario::is_line;
use hp_scripts::{Bindings, Naming, plain_line};
use hp_units::Text;
use serde_json::Value;
use std::alloc::{AllocError, Global};

/// Adds a finding for each text of a scenario's `calls` that cannot be read as a line.
pub(crate) fn push_calls(
    found: &mut Vec<Finding>,
    alloc: Global,
    value: &Value,
) -> Result<(), AllocError>
    ensures { OnOk result (Adds (IsBadCall (entries_in (view value.now)))
        (calls_fault 0 [] (entries_in (view value.now))) found.old.items found.new.items) }
{
    let calls = entries_of(value);
    let mut bound = Bindings::new(alloc);
    for index in 0..calls.len() {
        push_entry(found, &mut bound, alloc, index, &calls[index])?;
    }
    Ok(())
}

/// Returns the entries of the list at `calls`, or none if there is no list.
#[tactic(auto, using(crate::proofs::Entries::items_seen), unfolding(crate::specs::Calls::entries_in))]
fn entries_of(value: &Value) -> &[Value]
    ensures { map view result.now ≡ entries_in (view value.now) }
{
    match value.get("calls") {
        Some(calls) => match calls.as_array() {
            Some(texts) => texts,
            None => &[],
        },
        None => &[],
    }
}

/// Adds a finding if the entry at index `place` is a text that cannot be read as a line. `bound`
/// has the names that the lines before it gave to their results. If the entry is a line that names
/// its result, adds that name to `bound`.
fn push_entry(
    found: &mut Vec<Finding>,
    bound: &mut Bindings,
    alloc: Global,
    place: usize,
    call: &Value,
) -> Result<(), AllocError>
    requires { place < 2 ^ 63 }
    ensures found { OnOk result (Adds (IsBadText place bound.old (view call.now))
        (entry_fault place bound.old (view call.now)) found.old.items found.new.items) }
    ensures bound { OnOk result (bound.new ≡ bound_past place bound.old (view call.now)) }
{
    let Some(text) = call.as_str() else {
        return Ok(());
    };
    let plain = plain_line(alloc, text, bound)?;
    if is_line(alloc, plain.text.as_str())? {
        return bind(bound, plain.naming, place);
    }
    push_bad_call(found, bound, alloc, place as u64 + 1, text)
}

/// Binds the name that the line at index `place` gives to its result, if it gives one. The result's
/// number is not known; it is set to 0.
fn bind(bound: &mut Bindings, naming: Option<Naming>, place: usize) -> Result<(), AllocError>
    ensures { OnOk result (bound.new ≡ bound_after bound.old naming place 0) }
{
    match naming {
        Some(naming) => bound.bind(naming, place, 0),
        None => Ok(()),
    }
}

/// Adds the finding for text `number` of `calls`, which cannot be read as a line. `bound` has the
/// names that the lines before it gave to their results.
fn push_bad_call(
    found: &mut Vec<Finding>,
    bound: &Bindings,
    alloc: Global,
    number: u64,
    text: &str,
) -> Result<(), AllocError>
    ensures { OnOk result (AddsBadCall number text.now found.old.items found.new.items) }
{
    let names = name_typo(alloc, text, bound)?;
    let text = Text::new(String::from_str(alloc, text)?);
    found.push(Finding::BadCall {
        number,
        text,
        names,
    })?;
    Ok(())
}
