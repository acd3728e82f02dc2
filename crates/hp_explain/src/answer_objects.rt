//! An answer as a JSON object.
ghost use Rattle.std.specs.Prelude.{◌≡◌, IfOk, IfSome, Some, codes, option_map};
ghost use Rattle.std.specs.Fmt.{decimal};
ghost use Rattle.json.specs.Value.{value_view};
ghost use Rattle.hp_explain.specs.Answers.{answer_text};
ghost use Rattle.hp_explain.specs.AnswerObjects.{HasTime, IsObject, IsObjectLine, number_at, text_at};

use crate::answer_lines::not_understood;
use crate::answer_words::answer_in;
use crate::answers_fault::AnswersFault;
use crate::observed::ObservedLine;
use hp_units::{number64, numbers_are_spelled};
use json::{Error, Scratch, Value};
use std::alloc::Global;

/// An answer of a processor, and what is known of its times.
#[derive(Clone, Copy, Drop)]
pub(crate) struct SeenObject {
    /// The processor.
    pub cpu: u64,
    /// What was seen of its line.
    pub line: ObservedLine,
}

/// Reads an answer from `text`, which is line number `line` of the whole text.
pub(crate) fn read_object(
    alloc: Global,
    text: &str,
    line: u64,
    scratch: &mut Scratch,
) -> Result<SeenObject, AnswersFault>
    ensures { IfOk result (IsObjectLine text.now) }
{
    match Value::parse_strict(alloc, text, scratch) {
        Ok(value) => object_of(alloc, &value, line),
        Err(Error::OutOfMemory) => Err(AnswersFault::OutOfMemory),
        Err(_) => Err(AnswersFault::BadLine { line }),
    }
}

/// Reads an answer from a JSON value.
fn object_of(alloc: Global, value: &Value<'_>, line: u64) -> Result<SeenObject, AnswersFault>
    ensures { IfOk result (IsObject (value_view value.now)) }
{
    if !has_known_keys(value) {
        return Err(AnswersFault::BadLine { line });
    }
    let Some(cpu) = number_at(value, "cpu") else {
        return Err(AnswersFault::BadLine { line });
    };
    let Some(from) = time_at(value, "from", 0) else {
        return Err(AnswersFault::BadLine { line });
    };
    let Some(to) = time_at(value, "to", u64::MAX) else {
        return Err(AnswersFault::BadLine { line });
    };
    let Some(text) = text_at(value, "answer") else {
        return Err(AnswersFault::BadLine { line });
    };
    match answer_in(alloc, text) {
        Ok(Some(answer)) => Ok(SeenObject {
            cpu,
            line: ObservedLine { answer, from, to },
        }),
        Ok(None) => Err(not_understood(text, line)),
        Err(_) => Err(AnswersFault::OutOfMemory),
    }
}

/// Returns whether the value is an object with no other keys than those of an answer.
fn has_known_keys(value: &Value<'_>) -> bool {
    let Value::Object(members) = value else {
        return false;
    };
    for index in 0..members.len() {
        let known = matches!(members[index].0, "cpu" | "answer" | "from" | "to");
        if !known {
            return false;
        }
    }
    true
}

/// Returns the text at a key, if there is one.
fn text_at<'a>(value: &'a Value<'_>, key: &str) -> Option<&'a str>
    ensures { option_map (λ t. t.now) result ≡ text_at key.now (value_view value.now) }
{
    value.get(key).and_then(Value::as_str)
}

/// Returns the whole number below 2^64 at a key, if there is one.
fn number_at(value: &Value<'_>, key: &str) -> Option<u64>
    ensures { IfSome result (λ n. number_at key.now (value_view value.now) ≡ Some (decimal n)) }
{
    numbers_are_spelled();
    let text = value.get(key).and_then(Value::as_number)?;
    number64(text)
}

/// Returns the time at a key, or `unknown` if there is no such key. Returns `None` if the value at
/// the key is not a whole number below 2^64.
fn time_at(value: &Value<'_>, key: &str, unknown: u64) -> Option<u64>
    ensures { IfSome result (HasTime key.now unknown (value_view value.now)) }
{
    if value.get(key).is_none() {
        return Some(unknown);
    }
    number_at(value, key)
}
