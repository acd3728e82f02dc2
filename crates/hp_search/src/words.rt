//! Ends, and a schedule that was found, as words.
ghost use Rattle.std.specs.Prelude.{◌≡◌, ◌++◌, IfOk, OnOk, option_map, string_bytes};
ghost use Rattle.std.specs.List.{flat_map};
ghost use Rattle.hp_text.specs.Answers.{bare_reply_line};
ghost use Rattle.hp_text.specs.State.{block_line};
ghost use Rattle.hp_search.specs.Words.{answers_text, blocks_text, counts_text, end_text, nearest_text, played_text, processors_text, total_text};

use hp_schedules::{Ending, HowMany, Replies, total_of};
use hp_text::{write_calls, write_reply, write_row};
use hp_units::{Block, Cpu, Layout, Record, Reply, Row, Text};
use indexmap::IndexSet;
use std::alloc::{AllocError, Global};

/// Writes how many interleavings and ends there are. If not all interleavings were counted, `more`
/// is what is known of their number.
pub fn write_counts(
    out: &mut String,
    ends: &[Ending],
    more: Option<HowMany>,
) -> Result<(), AllocError>
    ensures { OnOk result (string_bytes out.new ≡ string_bytes out.old ++ counts_text ends.now more) }
{
    let count = ends.len();
    write_total(out, total_of(ends), more)?;
    writeln!(out, "\nends: {count}")
}

/// Writes how many interleavings there are, and how many were counted if not all were.
fn write_total(out: &mut String, counted: u128, more: Option<HowMany>) -> Result<(), AllocError>
    ensures { OnOk result (string_bytes out.new ≡ string_bytes out.old ++ total_text counted more) }
{
    match more {
        Some(HowMany::Exactly(count)) => {
            write!(out, "{count} interleavings; these are the first {counted}")
        }
        Some(HowMany::MoreThanLimit | HowMany::Unknown) => {
            write!(
                out,
                "more than {counted} interleavings; these are the first {counted}"
            )
        }
        None => write!(out, "interleavings: {counted}"),
    }
}

/// Writes an end on a machine of `layout`, after an empty line. The text has the end's number, how
/// many interleavings lead to it, the processors' replies, the states of the memory blocks, and the
/// calls of the first interleaving, if it can be played. Owners are written by name.
pub fn write_end(
    out: &mut String,
    names: &IndexSet<Text>,
    layout: &Layout,
    number: usize,
    end: &Ending,
    calls: Option<&[Record]>,
) -> Result<(), AllocError>
    ensures { OnOk result (string_bytes out.new ≡ string_bytes out.old
        ++ end_text names.now.keys layout.now number end.now (option_map (λ c. c.now) calls.entry)) }
{
    let count = end.count;
    let answers = end.outcome.replies();
    let blocks = layout.blocks();
    let rows = end.outcome.blocks();
    writeln!(out, "\nend {number}\ninterleavings: {count}")?;
    write_processors(out, layout.cpus(), answers)?;
    write_blocks(out, blocks, rows)?;
    out.push_str("first:\n")?;
    write_played(out, names, calls)
}

/// Writes the replies of each processor, from processor 0.
fn write_processors(out: &mut String, cpus: u32, replies: &[Replies]) -> Result<(), AllocError>
    ensures { OnOk result (string_bytes out.new ≡ string_bytes out.old ++ processors_text cpus replies.now) }
{
    for number in 0..cpus {
        write_answers(out, Cpu(number), replies.get(number as usize))?;
    }
    Ok(())
}

/// Writes a processor's number and its replies. Writes nothing if `answers` is `None`.
fn write_answers(out: &mut String, cpu: Cpu, answers: Option<&Replies>) -> Result<(), AllocError>
    ensures { OnOk result (string_bytes out.new
        ≡ string_bytes out.old ++ answers_text cpu (option_map (λ a. a.now) answers.entry)) }
{
    match answers {
        Some(answers) => {
            writeln!(out, "cpu {cpu}")?;
            write_replies(out, answers.as_slice())
        }
        None => Ok(()),
    }
}

/// Writes replies without their serials.
fn write_replies(out: &mut String, replies: &[Reply]) -> Result<(), AllocError>
    ensures { OnOk result
        (string_bytes out.new ≡ string_bytes out.old ++ flat_map bare_reply_line replies.now) }
{
    for reply in replies {
        write_reply(out, *reply)?;
    }
    Ok(())
}

/// Writes the state of each memory block, from block 0.
fn write_blocks(out: &mut String, blocks: u32, rows: &[Row]) -> Result<(), AllocError>
    ensures { OnOk result (string_bytes out.new ≡ string_bytes out.old ++ blocks_text blocks rows.now) }
{
    for number in 0..blocks {
        write_block(out, Block(number), rows.get(number as usize).copied())?;
    }
    Ok(())
}

/// Writes the state of a memory block, if `row` has one.
fn write_block(out: &mut String, block: Block, row: Option<Row>) -> Result<(), AllocError>
    ensures { OnOk result (string_bytes out.new ≡ string_bytes out.old ++ block_line block row) }
{
    match row {
        Some(row) => write_row(out, block, row),
        None => Ok(()),
    }
}

/// Writes the calls of a schedule, if it can be played, as strings of a scenario's `calls`, one per
/// line, separated by commas.
fn write_played(
    out: &mut String,
    names: &IndexSet<Text>,
    calls: Option<&[Record]>,
) -> Result<(), AllocError>
    ensures { OnOk result (string_bytes out.new
        ≡ string_bytes out.old ++ played_text names.now.keys (option_map (λ c. c.now) calls.entry)) }
{
    match calls {
        Some([]) => Ok(()),
        Some(calls) => {
            write_calls(out, names, calls, ",\n")?;
            out.push('\n')
        }
        None => Ok(()),
    }
}

/// Returns the text of a schedule that was found: its number of processor changes, and its calls if
/// it can be played. Owners are written by name.
pub(crate) fn nearest_text(
    alloc: Global,
    names: &IndexSet<Text>,
    changes: usize,
    calls: Option<&[Record]>,
) -> Result<String, AllocError>
    ensures { IfOk result (λ text. string_bytes text
        ≡ nearest_text names.now.keys changes (option_map (λ c. c.now) calls.entry)) }
{
    let mut text = format!(in alloc; "changes: {changes}\nfirst:\n")?;
    write_played(&mut text, names, calls)?;
    Ok(text)
}
