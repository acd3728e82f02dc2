//! The form of a scenario: its keys, and the types of their values.

ghost use Rattle.std.specs.Prelude.{◌≡◌, option_and_then, option_map};
ghost use Rattle.serde_json.specs.Find.{as_array, get};
ghost use Rattle.serde_json.specs.View.{view, items_view};
ghost use Rattle.hp_units.specs.PartsSeen.{parts_seen};
ghost use Rattle.hp_scenario.specs.Gives.{Gives, or_fault};
ghost use Rattle.hp_scenario.specs.Form.{has_keys as keys, number_at as number, pair_at as pair, boot_of, boot_at as boot_in, each_in, texts_at as texts, boots_at as boots, parts_with as with_boot};

use crate::fault::ScenarioFault;
use crate::texts::Texts;
use hp_units::{Boot, Parts};
use serde_json::Value;
use std::alloc::Global;

/// Returns whether a value is an object with this many keys.
#[tactic(auto, unfolding(crate::specs::Form::has_keys))]
pub fn has_keys(value: &Value, count: usize) -> bool
    ensures { result ≡ keys count (view value.now) }
{
    match value.as_object() {
        Some(members) => members.len() == count,
        None => false,
    }
}

#[tactic(auto, unfolding(crate::specs::Form::number_at))]
fn number_at(value: &Value, key: &str) -> Option<u64>
    ensures { result ≡ number key.now (view value.now) }
{
    value.get(key)?.as_u64()
}

/// Returns the numbers at two keys, or `None` if one is missing or is not an unsigned 64-bit
/// integer.
#[tactic(auto, unfolding(crate::specs::Form::pair_at))]
fn pair_at(value: &Value, first: &str, second: &str) -> Option<(u64, u64)>
    ensures { result ≡ pair first.now second.now (view value.now) }
{
    let one = number_at(value, first)?;
    let other = number_at(value, second)?;
    Some((one, other))
}

#[tactic(auto, unfolding(crate::specs::Form::boot_of))]
pub(crate) fn boot_from(word: &str) -> Option<Boot>
    ensures { result ≡ boot_of word.now }
{
    match word {
        "offline" => Some(Boot::Offline),
        "normal" => Some(Boot::Normal),
        "movable" => Some(Boot::Movable),
        "absent" => Some(Boot::Absent),
        _ => None,
    }
}

/// Returns a block's state at boot from the word in a value, or `None` if the value is no text or
/// another word.
#[tactic(auto, unfolding(crate::specs::Form::boot_of))]
pub fn boot_at(value: &Value) -> Option<Boot>
    ensures { result ≡ boot_in (view value.now) }
{
    boot_from(value.as_str()?)
}

fn boots_from(alloc: Global, values: &Vec<Value>) -> Result<Vec<Boot>, ScenarioFault>
    ensures { Gives (λ v. v.items) result
        (or_fault ScenarioFault.BadShape (each_in boot_in (items_view values.now.items))) }
{
    let mut boots = Vec::new(alloc);
    for value in values {
        let Some(boot) = boot_at(value) else {
            return Err(ScenarioFault::BadShape);
        };
        boots.push(boot)?;
    }
    Ok(boots)
}

/// Returns the items of the array at a key.
fn items_at<'a>(value: &'a Value, key: &str) -> Option<&'a Vec<Value>>
    ensures { option_map (λ items. items_view items.now.items) result
        ≡ option_and_then as_array (get key.now (view value.now)) }
{
    value.get(key)?.as_array()
}

/// Returns the texts in the array at a key, or `None` if there is no array of texts.
#[tactic(auto, unfolding(crate::specs::Form::texts_at))]
pub fn texts_at<'a>(value: &'a Value, key: &str) -> Option<Texts<'a>>
    ensures { result ≡ texts key.now (view value.now) }
{
    Texts::new(items_at(value, key)?)
}

/// Returns the blocks' states at boot from the words at a key. Errors: `BadShape` if there is no
/// list of such words; `OutOfMemory`.
#[tactic(auto, unfolding(crate::specs::Form::boots_at))]
pub fn boots_at(alloc: Global, value: &Value, key: &str) -> Result<Vec<Boot>, ScenarioFault>
    ensures { Gives (λ v. v.items) result (or_fault ScenarioFault.BadShape (boots key.now (view value.now))) }
{
    match items_at(value, key) {
        Some(values) => boots_from(alloc, values),
        None => Err(ScenarioFault::BadShape),
    }
}

/// Returns the parts of a layout, with `boot` as its blocks' states at boot; `None` if one of its
/// ten numbers is missing or is not an integer from 0 to 2^64 - 1. Checks neither other keys nor
/// limits.
#[tactic(auto, unfolding(crate::specs::Form::parts_with))]
pub fn parts_with<'a>(layout: &Value, boot: &'a [Boot]) -> Option<Parts<'a>>
    ensures { option_map parts_seen result ≡ with_boot boot.now (view layout.now) }
{
    let (order, pageblocks) = pair_at(layout, "order", "pageblocks")?;
    let (blocks, cpus) = pair_at(layout, "blocks", "cpus")?;
    let (batch, high) = pair_at(layout, "batch", "high")?;
    let (owners, pages) = pair_at(layout, "owners", "pages")?;
    let (words, history) = pair_at(layout, "words", "history")?;
    Some(Parts {
        order,
        pageblocks,
        blocks,
        cpus,
        batch,
        high,
        owners,
        pages,
        words,
        history,
        boot,
    })
}
