//! A summary of ends: one line for each.
ghost use Rattle.std.specs.Prelude.{OnOk, string_bytes};
ghost use Rattle.hp_search.specs.Summaries.{Continues, WritesLine, WritesSummary};

use crate::write_counts;
use hp_schedules::{Ending, HowMany, Replies, total_of};
use hp_units::{Reply, Row, State, Zone};
use std::alloc::{AllocError, Global};

/// The most bytes of a line, without its newline. Only a line in which no block has room may be
/// longer.
const WIDTH: usize = 100;

/// Written in a line in place of the blocks that have no room.
const CUT: &str = " ..";

/// Writes how many interleavings and ends there are, and then a line for each end, in order, such
/// as `end 2: 31, 55.3 %, 1 refused, 0:N 1:M`. The line has the end's number, how many
/// interleavings lead to it, and their share of those that were counted. Then it has how many calls
/// were refused, if any were, and the memory blocks.
///
/// A block is drawn as `trace` draws it, without its frames: `N` or `M` if it is online in this
/// zone, `N>off` or `M>off` if it is going offline, `off` or `absent`. Neighbours that are drawn
/// alike are joined, as in `0-3:N`. If a line would be longer than 100 bytes, it has only as many
/// blocks as leave room for ` ..`, and ` ..` in place of the others.
pub fn write_summary(
    out: &mut String,
    alloc: Global,
    ends: &[Ending],
    more: Option<HowMany>,
) -> Result<(), AllocError>
    ensures { OnOk result (WritesSummary ends.now more (string_bytes out.old) (string_bytes out.new)) }
{
    write_counts(out, ends, more)?;
    let total = total_of(ends);
    for index in 0..ends.len() {
        write_line(out, alloc, index + 1, &ends[index], total)?;
    }
    Ok(())
}

/// Writes the line of an end. `total` is the number of interleavings that were counted.
fn write_line(
    out: &mut String,
    alloc: Global,
    number: usize,
    end: &Ending,
    total: u128,
) -> Result<(), AllocError>
    ensures { OnOk result (WritesLine number end.now (string_bytes out.old) (string_bytes out.new)) }
{
    let count = end.count;
    let most = out.len().saturating_add(WIDTH);
    write!(out, "end {number}: {count}, ")?;
    write_share(out, count, total)?;
    write_refusals(out, end.outcome.replies())?;
    write_blocks(out, alloc, end.outcome.blocks(), most)?;
    out.push('\n')?;
    Ok(())
}

/// Writes a count's share of the total, in per cent with one digit after the point.
fn write_share(out: &mut String, count: u64, total: u128) -> Result<(), AllocError>
    ensures { OnOk result (Continues (string_bytes out.old) (string_bytes out.new)) }
{
    let share = per_mille(count, total);
    let whole = share / 10;
    let tenths = share % 10;
    write!(out, "{whole}.{tenths} %")
}

/// Returns a count's share of the total in thousandths, rounded down; 0 if the total is 0.
fn per_mille(count: u64, total: u128) -> u128 {
    if total == 0 {
        return 0;
    }
    u128::from(count) * 1000 / total
}

/// Writes how many calls were refused, if any were.
fn write_refusals(out: &mut String, all: &[Replies]) -> Result<(), AllocError>
    ensures { OnOk result (Continues (string_bytes out.old) (string_bytes out.new)) }
{
    let refused = refusals_in(all);
    if refused == 0 {
        return Ok(());
    }
    write!(out, ", {refused} refused")
}

/// Returns how many of all processors' calls were refused.
fn refusals_in(all: &[Replies]) -> u64 {
    let mut refused: u64 = 0;
    for answers in all {
        for reply in answers.as_slice() {
            if let Reply::Refused(_) = reply {
                refused = refused.saturating_add(1);
            }
        }
    }
    refused
}

/// Writes the states of the memory blocks, from block 0, if `out` then has at most `most` bytes. If
/// not, writes as many as leave room for `CUT`, and `CUT` in place of the others. Neighbours with
/// equal states are joined.
fn write_blocks(
    out: &mut String,
    alloc: Global,
    rows: &[Row],
    most: usize,
) -> Result<(), AllocError>
    ensures { OnOk result (Continues (string_bytes out.old) (string_bytes out.new)) }
{
    out.push(',')?;
    let mut first = 0;
    for place in 0..rows.len() {
        if !is_like_next(rows, place) {
            let run = run_text(alloc, first, place, &rows[place])?;
            let is_last = place + 1 == rows.len();
            if !has_room(out, &run, is_last, most) {
                out.push_str(CUT)?;
                return Ok(());
            }
            out.push_str(&run)?;
            first = place + 1;
        }
    }
    Ok(())
}

/// Returns whether `out`, followed by `more` and then by `CUT` unless `more` is the last, has at
/// most `most` bytes.
fn has_room(out: &str, more: &str, is_last: bool, most: usize) -> bool {
    let long = out.len().saturating_add(more.len());
    let after = if is_last { 0 } else { CUT.len() };
    long.saturating_add(after) <= most
}

/// Returns whether there are a row at index `place` and a next one, and both are equal.
fn is_like_next(rows: &[Row], place: usize) -> bool {
    match (rows.get(place), rows.get(place.saturating_add(1))) {
        (Some(row), Some(next)) => *row == *next,
        _ => false,
    }
}

/// Returns the text of the memory blocks from `first` to `last`, which all have this row.
fn run_text(alloc: Global, first: usize, last: usize, row: &Row) -> Result<String, AllocError> {
    let state = state_word(row);
    if first == last {
        format!(in alloc; " {first}:{state}")
    } else {
        format!(in alloc; " {first}-{last}:{state}")
    }
}

/// Returns the short word for a memory block's state.
fn state_word(row: &Row) -> &'static str {
    match row.state {
        State::Offline => "off",
        State::Absent => "absent",
        State::Online => match row.zone {
            Some(Zone::Normal) => "N",
            Some(Zone::Movable) => "M",
            None => "on",
        },
        State::Going => match row.zone {
            Some(Zone::Normal) => "N>off",
            Some(Zone::Movable) => "M>off",
            None => "on>off",
        },
    }
}
