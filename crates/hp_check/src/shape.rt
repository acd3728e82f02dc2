//! The keys of a scenario, and the kinds of their values.
ghost use Rattle.std.specs.Prelude.{◌≡◌, ◌==◌, ◌&&◌, Bool, false, OnOk, is_some, length, option_map};
ghost use Rattle.std.specs.List.{list_all};
ghost use Rattle.serde_json.specs.Find.{as_str};
ghost use Rattle.serde_json.specs.View.{view, members_view};
ghost use Rattle.hp_scenario.specs.Form.{boot_at as boot_in, form_of};
ghost use Rattle.hp_check.specs.Adds.{Adds, IsShape, lacks};
ghost use Rattle.hp_check.specs.Findings.{keys_of, number_keys};
ghost use Rattle.hp_check.specs.Shape as means;

use crate::finding::{Finding, Key, ScenarioObject, Shape};
use hp_scenario::boot_at;
use hp_units::Text;
use serde_json::{Map, Value};
use std::alloc::{AllocError, Global};

/// Adds all that is wrong with the keys of a scenario and with the kinds of their values.
pub(crate) fn push_shape(
    found: &mut Vec<Finding>,
    alloc: Global,
    value: &Value,
) -> Result<(), AllocError>
    ensures { OnOk result
        (Adds IsShape (lacks (is_some (form_of (view value.now)))) found.old.items found.new.items) }
{
    let Some(members) = value.as_object() else {
        return push(found, Shape::NotObject(ScenarioObject::Whole));
    };
    push_keys(found, alloc, ScenarioObject::Whole, value, members)?;
    push_layout(found, alloc, value.get("layout"))?;
    push_calls(found, value.get("calls"))
}

/// Adds a fault of the shape.
fn push(found: &mut Vec<Finding>, shape: Shape) -> Result<(), AllocError>
    ensures { OnOk result (Adds IsShape (lacks false) found.old.items found.new.items) }
{
    found.push(Finding::Shape(shape))?;
    Ok(())
}

/// Adds a fault of the shape unless `holds` is true.
fn push_unless(found: &mut Vec<Finding>, holds: bool, shape: Shape) -> Result<(), AllocError>
    ensures { OnOk result (Adds IsShape (lacks holds) found.old.items found.new.items) }
{
    if holds { Ok(()) } else { push(found, shape) }
}

/// Adds what is wrong with the keys of an object.
fn push_keys(
    found: &mut Vec<Finding>,
    alloc: Global,
    place: ScenarioObject,
    value: &Value,
    members: &Map<String, Value>,
) -> Result<(), AllocError>
    ensures { OnOk result (Adds IsShape
        (lacks (means.has_its_keys place (view value.now) (members_view members.now.entries)))
        found.old.items found.new.items) }
{
    let count = members.len();
    if has_its_keys(place, value, count) {
        return Ok(());
    }
    let is_right = count == keys_of(place).len();
    let count = count as u64;
    push_unless(found, is_right, Shape::KeyCount { place, count })?;
    push_unknown(found, alloc, place, members)?;
    push_missing(found, place, value)
}

/// Returns the keys that an object must have.
pub(crate) fn keys_of(place: ScenarioObject) -> &'static [Key]
    ensures { result.now ≡ keys_of place }
{
    match place {
        ScenarioObject::Whole => &[Key::Layout, Key::Calls],
        ScenarioObject::Layout => &[
            Key::Order,
            Key::Pageblocks,
            Key::Blocks,
            Key::Cpus,
            Key::Batch,
            Key::High,
            Key::Owners,
            Key::Pages,
            Key::Words,
            Key::History,
            Key::Boot,
        ],
    }
}

/// Returns whether an object of this many members has its keys and no others.
fn has_its_keys(place: ScenarioObject, value: &Value, count: usize) -> bool
    ensures { result ≡ ((count == length (keys_of place))
        && list_all (means.is_there (view value.now)) (keys_of place)) }
{
    count == keys_of(place).len() && has_all(place, value)
}

/// Returns whether an object has each of its keys.
fn has_all(place: ScenarioObject, value: &Value) -> bool
    ensures { result ≡ list_all (means.is_there (view value.now)) (keys_of place) }
{
    keys_of(place).iter().all(|key| is_there(value, *key))
}

/// Returns whether the object has a key.
fn is_there(value: &Value, key: Key) -> bool
    ensures { result ≡ means.is_there (view value.now) key }
{
    value.get(key.name()).is_some()
}

/// Adds a finding for each key of the object that does not belong in it.
fn push_unknown(
    found: &mut Vec<Finding>,
    alloc: Global,
    place: ScenarioObject,
    members: &Map<String, Value>,
) -> Result<(), AllocError>
    ensures { OnOk result ((fine : Bool) × Adds IsShape (lacks fine) found.old.items found.new.items) }
{
    let names = members.keys();
    for name in names {
        let name = name.as_str();
        if keys_of(place).iter().any(|key| name == key.name()) {
            continue;
        }
        let key = Text::new(String::from_str(alloc, name)?);
        push(found, Shape::UnknownKey { place, key })?;
    }
    Ok(())
}

/// Adds the keys that the object lacks.
fn push_missing(
    found: &mut Vec<Finding>,
    place: ScenarioObject,
    value: &Value,
) -> Result<(), AllocError>
    ensures { OnOk result (Adds IsShape (lacks (list_all (means.is_there (view value.now)) (keys_of place)))
        found.old.items found.new.items) }
{
    let keys = keys_of(place);
    for key in keys {
        let key = *key;
        let is_there = is_there(value, key);
        push_unless(found, is_there, Shape::MissingKey { place, key })?;
    }
    Ok(())
}

/// Adds what is wrong with the value at `layout`, if there is one.
fn push_layout(
    found: &mut Vec<Finding>,
    alloc: Global,
    layout: Option<&Value>,
) -> Result<(), AllocError>
    ensures { OnOk result (Adds IsShape
        (lacks (means.if_there means.are_parts (option_map (λ v. view v.now) layout.entry)))
        found.old.items found.new.items) }
{
    let Some(layout) = layout else {
        return Ok(());
    };
    let Some(members) = layout.as_object() else {
        return push(found, Shape::NotObject(ScenarioObject::Layout));
    };
    push_keys(found, alloc, ScenarioObject::Layout, layout, members)?;
    push_numbers(found, layout)?;
    push_boot(found, layout.get("boot"))
}

/// Returns the keys of a layout whose values are numbers.
fn number_keys() -> &'static [Key]
    ensures { result.now ≡ number_keys }
{
    &[
        Key::Order,
        Key::Pageblocks,
        Key::Blocks,
        Key::Cpus,
        Key::Batch,
        Key::High,
        Key::Owners,
        Key::Pages,
        Key::Words,
        Key::History,
    ]
}

/// Adds the keys of a layout whose values must be numbers and are not.
fn push_numbers(found: &mut Vec<Finding>, layout: &Value) -> Result<(), AllocError>
    ensures { OnOk result (Adds IsShape (lacks (list_all (means.is_number_at (view layout.now)) number_keys))
        found.old.items found.new.items) }
{
    let keys = number_keys();
    for key in keys {
        let key = *key;
        let is_fine = may_be_number(layout.get(key.name()));
        push_unless(found, is_fine, Shape::NotNumber(key))?;
    }
    Ok(())
}

/// Returns whether a value is an integer from 0 to 2^64-1, or is missing. A missing value is
/// reported elsewhere, as a missing key.
fn may_be_number(value: Option<&Value>) -> bool
    ensures { result ≡ means.if_there means.is_number (option_map (λ v. view v.now) value.entry) }
{
    match value {
        Some(value) => value.as_u64().is_some(),
        None => true,
    }
}

/// Adds what is wrong with the value at `boot`, if there is one.
fn push_boot(found: &mut Vec<Finding>, boot: Option<&Value>) -> Result<(), AllocError>
    ensures { OnOk result (Adds IsShape
        (lacks (means.if_there means.are_boots (option_map (λ v. view v.now) boot.entry)))
        found.old.items found.new.items) }
{
    let Some(boot) = boot else {
        return Ok(());
    };
    let Some(words) = boot.as_array() else {
        return push(found, Shape::NotList(Key::Boot));
    };
    push_boots(found, words)
}

/// Adds a finding for each entry of `boot` that is not a word for a block's state.
fn push_boots(found: &mut Vec<Finding>, words: &[Value]) -> Result<(), AllocError>
    ensures { OnOk result (Adds IsShape (lacks (list_all (λ v. is_some (boot_in (view v))) words.now))
        found.old.items found.new.items) }
{
    for index in 0..words.len() {
        let is_boot = boot_at(&words[index]).is_some();
        let number = index as u64 + 1;
        push_unless(found, is_boot, Shape::NotBoot { number })?;
    }
    Ok(())
}

/// Adds what is wrong with the value at `calls`, if there is one.
fn push_calls(found: &mut Vec<Finding>, calls: Option<&Value>) -> Result<(), AllocError>
    ensures { OnOk result (Adds IsShape
        (lacks (means.if_there means.are_texts (option_map (λ v. view v.now) calls.entry)))
        found.old.items found.new.items) }
{
    let Some(calls) = calls else {
        return Ok(());
    };
    let Some(texts) = calls.as_array() else {
        return push(found, Shape::NotList(Key::Calls));
    };
    push_texts(found, texts)
}

/// Adds a finding for each entry of `calls` that is not a text.
fn push_texts(found: &mut Vec<Finding>, texts: &[Value]) -> Result<(), AllocError>
    ensures { OnOk result (Adds IsShape (lacks (list_all (λ v. is_some (as_str (view v))) texts.now))
        found.old.items found.new.items) }
{
    for index in 0..texts.len() {
        let is_text = texts[index].is_string();
        let number = index as u64 + 1;
        push_unless(found, is_text, Shape::NotText { number })?;
    }
    Ok(())
}
