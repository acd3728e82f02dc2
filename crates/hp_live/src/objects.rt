//! An answer as an object of JSON.
ghost use Rattle.std.specs.Prelude.{◌∷◌, [], ◌++◌, ℕ, List, IfOk, OnOk, codes, decimal};
ghost use Rattle.json.specs.Token.{Token, begin_array, end_array, key, number};
ghost use Rattle.hp_live.specs.Objects.{Adds, AddsDid, AddsObject, TellsCalls, WritesObject, call_object, fault_keys, head_of, pair, reply_keys, serial_keys};

use crate::answers::{Did, LiveAnswer};
use hp_text::{write_event, write_reply_words};
use hp_units::{Event, Receipt, Reply, Serial};
use indexmap::IndexSet;
use json::Writer;
use std::alloc::{AllocError, Global};

/// Appends an answer to `out` as one object of JSON and a newline.
///
/// Its keys are `line`, the number; `text`; for an event `serial` and `answer`; for an event that
/// left no record, or an `echo` that is not taken, `answer` alone; for a plan `calls` and `end`;
/// for a seal `sealed`; and for a text that cannot be read as a line `fault` and `hint`. Takes and
/// returns the buffer, so that its memory can be reused.
pub fn write_object(
    alloc: Global,
    out: Vec<u8>,
    number: u64,
    answer: &LiveAnswer,
    hint: &str,
) -> Result<Vec<u8>, AllocError>
    ensures { IfOk result (λ new. WritesObject out.items number answer.now new.items) }
{
    let mut writer = Writer::new(out);
    write_tokens(&mut writer, alloc, number, answer, hint)?;
    let mut out = writer.into_inner();
    out.push(b'\n')?;
    Ok(out)
}

/// Writes the tokens of an answer's object.
fn write_tokens(
    writer: &mut Writer,
    alloc: Global,
    number: u64,
    answer: &LiveAnswer,
    hint: &str,
) -> Result<(), AllocError>
    ensures { OnOk result (AddsObject writer.old number answer.now writer.new) }
{
    begin(writer, number, answer.text())?;
    write_parts(writer, alloc, answer, hint)?;
    writer.end_object()
}

/// Writes the keys that each object has.
pub(crate) fn begin(writer: &mut Writer, number: u64, text: &str) -> Result<(), AllocError>
    ensures { OnOk result (Adds writer.old writer.new (head_of number text.now)) }
{
    writer.begin_object()?;
    writer.key("line")?;
    writer.u64(number)?;
    writer.key("text")?;
    writer.string(text)
}

/// Writes the keys for what the line did.
fn write_parts(
    writer: &mut Writer,
    alloc: Global,
    answer: &LiveAnswer,
    hint: &str,
) -> Result<(), AllocError>
    ensures { OnOk result (AddsDid writer.old answer.now writer.new) }
{
    let words = words_of(answer.text());
    match answer.did() {
        Did::NoLine => write_fault_keys(writer, hint),
        Did::Event { serial, reply } => write_answer(writer, alloc, serial, reply),
        Did::Unrecorded(_) | Did::NotTaken(_) => write_pair(writer, "answer", words),
        Did::Plan(_) => write_plan(writer, alloc, answer.calls(), words),
        Did::File => Ok(()),
        Did::Sealed(count) => write_number(writer, "sealed", count),
    }
}

/// Returns what comes after the first `: ` in a line's text, without the newline. If there is none,
/// returns all of the text.
fn words_of(text: &str) -> &str {
    let words = match text.split_once(": ") {
        Some((_, words)) => words,
        None => text,
    };
    words.trim_end()
}

/// Writes the keys that report that a text cannot be read as a line.
pub(crate) fn write_fault_keys(writer: &mut Writer, hint: &str) -> Result<(), AllocError>
    ensures { OnOk result (Adds writer.old writer.new (fault_keys hint.now)) }
{
    write_pair(writer, "fault", "no line")?;
    write_pair(writer, "hint", hint)
}

/// Writes the serial of a call and its reply.
fn write_answer(
    writer: &mut Writer,
    alloc: Global,
    serial: Serial,
    reply: Reply,
) -> Result<(), AllocError>
    ensures { OnOk result (Adds writer.old writer.new (serial_keys serial ++ reply_keys reply)) }
{
    write_number(writer, "serial", serial.0)?;
    write_reply(writer, alloc, reply)
}

/// Writes a reply.
fn write_reply(writer: &mut Writer, alloc: Global, reply: Reply) -> Result<(), AllocError>
    ensures { OnOk result (Adds writer.old writer.new (reply_keys reply)) }
{
    let mut words = String::new(alloc);
    write_reply_words(&mut words, reply)?;
    write_pair(writer, "answer", words.as_str())
}

/// Writes the calls of a plan, and how it ended.
fn write_plan(
    writer: &mut Writer,
    alloc: Global,
    calls: &[Receipt],
    words: &str,
) -> Result<(), AllocError>
    ensures { OnOk result ((told : List Token) × TellsCalls calls.now told
        × Adds writer.old writer.new
        (key (codes "calls") ∷ begin_array ∷ (told ++ end_array ∷ pair (codes "end") words.now))) }
{
    writer.key("calls")?;
    writer.begin_array()?;
    write_calls(writer, alloc, calls)?;
    writer.end_array()?;
    write_pair(writer, "end", words)
}

/// Writes the calls of a plan as objects.
fn write_calls(writer: &mut Writer, alloc: Global, calls: &[Receipt]) -> Result<(), AllocError>
    ensures { OnOk result
        ((told : List Token) × TellsCalls calls.now told × Adds writer.old writer.new told) }
{
    for call in calls {
        write_call(writer, alloc, call)?;
    }
    Ok(())
}

/// Writes a call of a plan as an object.
fn write_call(writer: &mut Writer, alloc: Global, call: &Receipt) -> Result<(), AllocError>
    ensures { OnOk result
        ((words : List ℕ) × Adds writer.old writer.new (call_object call.now words)) }
{
    let mut words = String::new(alloc);
    write_step(&mut words, alloc, &call.event)?;
    writer.begin_object()?;
    write_number(writer, "serial", call.serial.0)?;
    write_pair(writer, "call", words.as_str())?;
    write_reply(writer, alloc, call.reply)?;
    writer.end_object()
}

/// Writes an event of a plan's driver. It accesses no page, so it needs no owner's name.
fn write_step(out: &mut String, alloc: Global, event: &Event) -> Result<(), AllocError> {
    write_event(out, &IndexSet::new(alloc), event)
}

/// Writes a key and its text.
fn write_pair(writer: &mut Writer, name: &str, text: &str) -> Result<(), AllocError>
    ensures { OnOk result (Adds writer.old writer.new (pair name.now text.now)) }
{
    writer.key(name)?;
    writer.string(text)
}

/// Writes a key and its number.
fn write_number(writer: &mut Writer, name: &str, value: u64) -> Result<(), AllocError>
    ensures { OnOk result
        (Adds writer.old writer.new (key name.now ∷ number (decimal value) ∷ [])) }
{
    writer.key(name)?;
    writer.u64(value)
}
