//! Keys that come twice in a scenario's text.
ghost use Rattle.std.specs.Prelude.{OnOk};
ghost use Rattle.std.specs.List.{All};
ghost use Rattle.hp_check.specs.Adds.{IsRepeat};

use crate::finding::{Finding, ScenarioObject};
use crate::shape::keys_of;
use json::{Error, Scratch, Value};
use std::alloc::{AllocError, Global};

/// Adds a finding for each key of a scenario that its text has more than once; the last one counts.
///
/// Keys of the layout are added only if no key of the scenario itself comes twice.
pub(crate) fn push_repeats(
    found: &mut Vec<Finding>,
    alloc: Global,
    input: &[u8],
) -> Result<(), AllocError>
    requires { All IsRepeat found.old.items }
    ensures { OnOk result (All IsRepeat found.new.items) }
{
    let mut scratch = Scratch::new(alloc);
    match Value::from_slice(alloc, input, &mut scratch) {
        Ok(value) => push_repeats_in(found, &value),
        Err(Error::OutOfMemory) => Err(AllocError),
        Err(_) => Ok(()),
    }
}

/// Adds the keys that a scenario's value has more than once. If there are none, adds those of its
/// layout.
fn push_repeats_in(found: &mut Vec<Finding>, value: &Value<'_>) -> Result<(), AllocError>
    requires { All IsRepeat found.old.items }
    ensures { OnOk result (All IsRepeat found.new.items) }
{
    let before = found.len();
    push_repeats_of(found, ScenarioObject::Whole, value)?;
    if found.len() > before {
        return Ok(());
    }
    match value.get("layout") {
        Some(layout) => push_repeats_of(found, ScenarioObject::Layout, layout),
        None => Ok(()),
    }
}

/// Adds those of an object's required keys that it has more than once.
fn push_repeats_of(
    found: &mut Vec<Finding>,
    place: ScenarioObject,
    value: &Value<'_>,
) -> Result<(), AllocError>
    requires { All IsRepeat found.old.items }
    ensures { OnOk result (All IsRepeat found.new.items) }
{
    let Value::Object(members) = value else {
        return Ok(());
    };
    let keys = keys_of(place);
    for key in keys {
        let key = *key;
        let name = key.name();
        if members.iter().filter(|member| member.0 == name).count() < 2 {
            continue;
        }
        found.push(Finding::Repeat { place, key })?;
    }
    Ok(())
}
