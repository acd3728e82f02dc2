//! Reads the lines of a part's file.
ghost use Rattle.std.specs.Prelude.{◌≡◌, Some, codes, IfOk, option_map};
ghost use Rattle.serde_json.specs.View.{items_view, view};
ghost use Rattle.hp_scenario.specs.Scenario.{json_of};
ghost use Rattle.hp_scenario.specs.Form.{each_in, number_at as number};
ghost use Rattle.hp_parts.specs.Reading.{IsLine, IsLineOf, IsRest, narrow, processor_of as processor, schedule_in as schedule, text_at as text};

use hp_units::Cpu;
use serde_json::Value;
use std::alloc::{AllocError, Global};

/// A line of a part's file.
#[derive(Drop)]
pub enum PartLine {
    /// The head of the part with this number, and how many ends it names.
    Head { number: u64, ends: u64 },
    /// An end: how many interleavings lead to it, and the first of them.
    End { count: u64, schedule: Vec<Cpu> },
    /// A report that the part was stopped before all its interleavings were counted.
    Stop,
    /// Neither a head, nor an end, nor a report that the part was stopped.
    Other,
}

/// Parses bytes as JSON, or returns `None` if they are not JSON.
#[tactic(auto, unfolding(hp_scenario::specs::Scenario::json_of))]
pub fn json_in(alloc: Global, text: &[u8]) -> Result<Option<Value>, AllocError>
    ensures { IfOk result (λ value. option_map view value ≡ json_of text.now) }
{
    match Value::from_slice(alloc, text) {
        Ok(value) => Ok(Some(value)),
        Err(error) => {
            if error.is_memory() {
                Err(AllocError)
            } else {
                Ok(None)
            }
        }
    }
}

/// Reads a line. Its keys decide what it is; a line that is not JSON is `Other`.
#[tactic(auto, using(crate::proofs::Values::in_none))]
pub fn line_in(alloc: Global, text: &[u8]) -> Result<PartLine, AllocError>
    ensures { IfOk result (IsLine text.now) }
{
    let value = json_in(alloc, text)?;
    match value {
        Some(value) => line_of(alloc, &value),
        None => Ok(PartLine::Other),
    }
}

/// Reads a line from its JSON value.
fn line_of(alloc: Global, value: &Value) -> Result<PartLine, AllocError>
    ensures { IfOk result (IsLineOf (view value.now)) }
{
    if let Some(number) = number_at(value, "part") {
        return Ok(head_of(value, number));
    }
    let schedule = schedule_in(alloc, value)?;
    match number_at(value, "interleavings") {
        Some(count) => match schedule {
            Some(schedule) => Ok(PartLine::End { count, schedule }),
            None => Ok(rest_of(value)),
        },
        None => Ok(rest_of(value)),
    }
}

/// Reads a head from a value that has the number of a part.
fn head_of(value: &Value, part: u64) -> PartLine
    requires { number (codes "part") (view value.now) ≡ Some part }
    ensures { IsLineOf (view value.now) result }
{
    match number_at(value, "ends") {
        Some(ends) => PartLine::Head { number: part, ends },
        None => PartLine::Other,
    }
}

/// Reads a line that is neither a head nor an end.
fn rest_of(value: &Value) -> PartLine
    ensures { IsRest (view value.now) result }
{
    if number_at(value, "first").is_some() {
        PartLine::Stop
    } else {
        PartLine::Other
    }
}

/// Returns the number at a key, if there is one.
#[tactic(auto, unfolding(hp_scenario::specs::Form::number_at))]
pub(crate) fn number_at(value: &Value, key: &str) -> Option<u64>
    ensures { result ≡ number key.now (view value.now) }
{
    value.get(key).and_then(Value::as_u64)
}

/// Returns the text at a key, if there is one.
#[tactic(auto, unfolding(crate::specs::Reading::text_at))]
pub(crate) fn text_at<'a>(value: &'a Value, key: &str) -> Option<&'a str>
    ensures { option_map (λ t. t.now) result ≡ text key.now (view value.now) }
{
    value.get(key).and_then(Value::as_str)
}

/// Returns the processors of a schedule, from the key `processors`, or `None` if its value is no
/// list of processors.
#[tactic(auto, unfolding(crate::specs::Reading::schedule_in))]
fn schedule_in(alloc: Global, value: &Value) -> Result<Option<Vec<Cpu>>, AllocError>
    ensures { IfOk result (λ s. option_map (λ v. v.items) s ≡ schedule (view value.now)) }
{
    match value.get("processors").and_then(Value::as_array) {
        Some(values) => processors_of(alloc, values),
        None => Ok(None),
    }
}

/// Returns the processors that `values` name, or `None` if one of them names none.
fn processors_of(alloc: Global, values: &Vec<Value>) -> Result<Option<Vec<Cpu>>, AllocError>
    ensures { IfOk result
        (λ s. option_map (λ v. v.items) s ≡ each_in processor (items_view values.now.items)) }
{
    let mut processors = Vec::new(alloc);
    for value in values {
        let Some(cpu) = processor_of(value) else {
            return Ok(None);
        };
        processors.push(cpu)?;
    }
    Ok(Some(processors))
}

/// Returns the processor whose number the value is.
fn processor_of(value: &Value) -> Option<Cpu>
    ensures { result ≡ processor (view value.now) }
{
    let number = value.as_u64()?;
    let number = narrow(number)?;
    Some(Cpu(number))
}

/// Returns the number if it fits into 32 bits.
pub(crate) fn narrow(number: u64) -> Option<u32>
    ensures { result ≡ narrow number }
{
    if number < 4_294_967_296 {
        Some(number as u32)
    } else {
        None
    }
}
