//! Ends, and a schedule that was found, as JSON, one object per line.
ghost use Rattle.std.specs.Prelude.{◌≡◌, ◌++◌, IfOk, OnOk, codes, option_map, string_bytes, true};
ghost use Rattle.hp_text.specs.Separated.{separated};
ghost use Rattle.hp_text.specs.State.{zone_word};
ghost use Rattle.hp_search.specs.Objects.{answer_list, block_string, first_object, found_object, keys_text, more_object, played_list, reply_string};

use hp_schedules::{Ending, HowMany, Replies};
use hp_text::{write_calls, write_mark, write_reply_words};
use hp_units::{Record, Reply, Row, State, Text, Zone};
use indexmap::IndexSet;
use std::alloc::{AllocError, Global};

/// The separator of two values of a list.
const BETWEEN: &str = ", ";

/// Writes an object with how many interleavings were counted, and how many there are, or `null` if
/// that is not known. Writes nothing if all were counted.
pub fn write_more(out: &mut String, counted: u128, more: Option<HowMany>) -> Result<(), AllocError>
    ensures { OnOk result (string_bytes out.new ≡ string_bytes out.old ++ more_object counted more) }
{
    match more {
        Some(known) => write_first(out, counted, known),
        None => Ok(()),
    }
}

/// Writes an object with how many interleavings were counted, and how many there are, or `null` if
/// that is not known.
fn write_first(out: &mut String, counted: u128, known: HowMany) -> Result<(), AllocError>
    ensures { OnOk result (string_bytes out.new ≡ string_bytes out.old ++ first_object counted known) }
{
    match known {
        HowMany::Exactly(count) => {
            writeln!(out, "{{\"first\": {counted}, \"interleavings\": {count}}}")
        }
        HowMany::MoreThanLimit => {
            writeln!(out, "{{\"first\": {counted}, \"interleavings\": null}}")
        }
        HowMany::Unknown => { writeln!(out, "{{\"first\": {counted}, \"interleavings\": null}}") }
    }
}

/// Writes the JSON object of an end without its closing bracket. The object has the end's number,
/// how many interleavings lead to it, the processors' replies, the states of the memory blocks, and
/// the calls of the first interleaving, if it can be played. Owners are written by name.
pub fn write_keys(
    out: &mut String,
    names: &IndexSet<Text>,
    number: usize,
    end: &Ending,
    calls: Option<&[Record]>,
) -> Result<(), AllocError>
    ensures { OnOk result (string_bytes out.new ≡ string_bytes out.old
        ++ keys_text names.now.keys number end.now (option_map (λ c. c.now) calls.entry)) }
{
    let count = end.count;
    let answers = end.outcome.replies();
    let rows = end.outcome.blocks();
    write!(
        out,
        "{{\"end\": {number}, \"interleavings\": {count}, \"answers\": ["
    )?;
    write_answers(out, answers)?;
    out.push_str("], \"blocks\": [")?;
    write_blocks(out, rows)?;
    out.push_str("], \"first\": [")?;
    write_played(out, names, calls)?;
    out.push_str("]")?;
    Ok(())
}

/// Writes the replies of each processor, from processor 0.
pub(crate) fn write_answers(out: &mut String, all: &[Replies]) -> Result<(), AllocError>
    ensures { OnOk result
        (string_bytes out.new ≡ string_bytes out.old ++ separated (codes ", ") answer_list true all.now) }
{
    let mut is_first = true;
    for answers in all {
        write_mark(out, BETWEEN, is_first)?;
        write_answer_list(out, answers.as_slice())?;
        is_first = false;
    }
    Ok(())
}

/// Writes a list of replies.
fn write_answer_list(out: &mut String, replies: &[Reply]) -> Result<(), AllocError>
    ensures { OnOk result (string_bytes out.new ≡ string_bytes out.old ++ answer_list replies.now) }
{
    out.push_str("[")?;
    let mut is_first = true;
    for reply in replies {
        write_mark(out, BETWEEN, is_first)?;
        write_reply(out, *reply)?;
        is_first = false;
    }
    out.push_str("]")
}

/// Writes a reply between quotation marks.
fn write_reply(out: &mut String, reply: Reply) -> Result<(), AllocError>
    ensures { OnOk result (string_bytes out.new ≡ string_bytes out.old ++ reply_string reply) }
{
    out.push('"')?;
    write_reply_words(out, reply)?;
    out.push('"')
}

/// Writes the states of the memory blocks, from block 0.
pub(crate) fn write_blocks(out: &mut String, rows: &[Row]) -> Result<(), AllocError>
    ensures { OnOk result (string_bytes out.new
        ≡ string_bytes out.old ++ separated (codes ", ") block_string true rows.now) }
{
    let mut is_first = true;
    for row in rows {
        write_mark(out, BETWEEN, is_first)?;
        write_block(out, *row)?;
        is_first = false;
    }
    Ok(())
}

/// Writes a memory block's state between quotation marks, with its zone if it is online or going
/// offline.
fn write_block(out: &mut String, row: Row) -> Result<(), AllocError>
    ensures { OnOk result (string_bytes out.new ≡ string_bytes out.old ++ block_string row) }
{
    match row.state {
        State::Offline => out.push_str("\"offline\""),
        State::Online => write_zoned(out, "online", row.zone),
        State::Going => write_zoned(out, "going", row.zone),
        State::Absent => out.push_str("\"absent\""),
    }
}

/// Writes a word, and the zone after it if there is one, between quotation marks.
fn write_zoned(out: &mut String, word: &str, zone: Option<Zone>) -> Result<(), AllocError>
    ensures { OnOk result (string_bytes out.new
        ≡ string_bytes out.old ++ codes "\"" ++ (word.now ++ zone_word zone) ++ codes "\"") }
{
    match zone {
        Some(zone) => write!(out, "\"{word} {zone}\""),
        None => write!(out, "\"{word}\""),
    }
}

/// Writes the calls of a schedule as the elements of a list. Writes nothing if `calls` is `None`,
/// because the schedule cannot be played.
fn write_played(
    out: &mut String,
    names: &IndexSet<Text>,
    calls: Option<&[Record]>,
) -> Result<(), AllocError>
    ensures { OnOk result (string_bytes out.new
        ≡ string_bytes out.old ++ played_list names.now.keys (option_map (λ c. c.now) calls.entry)) }
{
    match calls {
        Some(calls) => write_calls(out, names, calls, BETWEEN),
        None => Ok(()),
    }
}

/// Returns the JSON object of a schedule that was found: its number of processor changes, and its
/// calls if it can be played. Owners are written by name.
pub(crate) fn found_object(
    alloc: Global,
    names: &IndexSet<Text>,
    changes: usize,
    calls: Option<&[Record]>,
) -> Result<String, AllocError>
    ensures { IfOk result (λ text. string_bytes text
        ≡ found_object names.now.keys changes (option_map (λ c. c.now) calls.entry)) }
{
    let mut text = format!(in alloc; "{{\"found\": true, \"changes\": {changes}, \"first\": [")?;
    write_played(&mut text, names, calls)?;
    text.push_str("]}\n")?;
    Ok(text)
}
