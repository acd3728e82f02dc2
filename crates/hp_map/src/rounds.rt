//! Equal rounds of a plan's calls, of which the first is shown.
ghost use Rattle.std.specs.Prelude.{◌≡◌, ◌<◌, ◌^◌, IfOk, IfSome, IsTrue, OnOk, codes, map, nat_eq, suc, ◌↔◌, ◌++◌, option_map, string_bytes};
ghost use Rattle.std.specs.Fmt.{decimal};
ghost use Rattle.std.specs.List.{starts_with};
ghost use Rattle.hp_map.specs.Rounds.{IsOneMore, begins_round, continues_round, counted_on, first_serial, goes_on, halves_of, is_round, memory_after, more_text, next_row, once, rounds_word, serial_of};

use crate::block_picture::BlockPicture;
use crate::row_picture::RowPicture;
use hp_units::number64;
use std::alloc::{AllocError, Global};
use std::marker::Model;

/// A round of a plan's calls, and how many rounds right after it repeat it. A round repeats another
/// if its calls are the same, got the same replies, and left the memory as it was. Instead of a
/// round, this may be a single row that belongs to no round, with 0 repetitions.
#[derive(Drop)]
pub struct Rounds {
    rows: Vec<RowPicture>,
    more: u64,
}

impl Model for Rounds {
    ghost use Rattle.hp_map.specs.Rounds.{RoundsValue};

    ghost Value = { RoundsValue };

    ghost view = { λ r. record { rows = r.rows.items; more = r.more } };
}

impl Rounds {
    /// Creates an entry of rows without repetitions.
    pub(crate) fn once(rows: Vec<RowPicture>) -> Rounds
        ensures { result ≡ once rows.items }
    {
        Rounds { rows, more: 0 }
    }

    /// Returns the rows of the first round.
    pub fn rows(&self) -> &[RowPicture]
        ensures { result.now ≡ self.now.rows }
    {
        self.rows.as_slice()
    }

    /// Returns how many more rounds there are after the first.
    pub fn more(&self) -> u64
        ensures { result ≡ self.now.more }
    {
        self.more
    }

    /// Returns the rows of the first round.
    pub fn into_rows(self) -> Vec<RowPicture>
        ensures { result.items ≡ self.rows }
    {
        let Rounds { rows: all, more: _ } = self;
        all
    }

    /// Returns the entry with one more round. Fails as if out of memory if there would be 2^64 more
    /// rounds.
    pub(crate) fn with_one_more(self) -> Result<Rounds, AllocError>
        ensures { IfOk result (λ now. now ≡ record self { more = suc self.more }) }
    {
        let Rounds { rows, more } = self;
        match more.checked_add(1) {
            Some(more) => Ok(Rounds { rows, more }),
            None => Err(AllocError),
        }
    }

    /// Returns whether rows repeat this round once more.
    pub(crate) fn is_one_more(&self, alloc: Global, rows: &[RowPicture]) -> Result<bool, AllocError>
        ensures { IfOk result (λ is. IsTrue is ↔ IsOneMore self.now rows.now) }
    {
        if !is_round(&self.rows) {
            return Ok(false);
        }
        let n = (self.more as u128 + 1) * self.rows.len() as u128;
        are_next(alloc, n, memory_after(&self.rows), &self.rows, rows)
    }

    /// Writes how many more rounds there are, and the serials of their calls.
    pub fn write_more(&self, out: &mut String) -> Result<(), AllocError>
        ensures { OnOk result (string_bytes out.new ≡ string_bytes out.old ++ more_text self.now) }
    {
        let more = self.more;
        let word = rounds_word(more);
        let length = self.rows.len() as u128;
        let serial = first_serial(&self.rows) as u128;
        let first = serial + length;
        let last = serial + (length * (more as u128 + 1)).saturating_sub(1);
        write!(out, "({more}{word}{first} to {last})")
    }
}

/// Returns what comes between a number of rounds and the serials of their calls.
fn rounds_word(more: u64) -> &'static str
    ensures { result.now ≡ rounds_word more }
{
    if more == 1 {
        " more round like this, serials "
    } else {
        " more rounds like this, serials "
    }
}

/// Returns the serial of the first row's call, or 0 if it has none.
fn first_serial(rows: &[RowPicture]) -> u64
    ensures { result ≡ first_serial rows.now }
{
    match rows {
        [first, ..] => serial_of(first.answer()).unwrap_or(0),
        [] => 0,
    }
}

/// Returns whether what a row asks begins with these words.
fn asks(row: &RowPicture, words: &str) -> bool
    ensures { result ≡ starts_with nat_eq row.now.asked words.now }
{
    row.asked().starts_with(words)
}

/// Returns whether a row begins a round of a plan's calls: with a migration.
fn begins_round(row: &RowPicture) -> bool
    ensures { result ≡ begins_round row.now }
{
    asks(row, "     migrate ")
}

/// Returns whether a row may be in a round after its migration: a drain or a commit.
fn continues_round(row: &RowPicture) -> bool
    ensures { result ≡ continues_round row.now }
{
    asks(row, "     drainfor ") || asks(row, "     commit ")
}

/// Returns whether the first of the rows begins a round.
fn is_round(rows: &[RowPicture]) -> bool
    ensures { result ≡ is_round rows.now }
{
    match rows {
        [first, ..] => begins_round(first),
        [] => false,
    }
}

/// Returns whether the rows begin a round, and this row continues it.
pub(crate) fn goes_on(rows: &[RowPicture], row: &RowPicture) -> bool
    ensures { result ≡ goes_on rows.now row.now }
{
    is_round(rows) && continues_round(row)
}

/// Returns the memory after the last row.
fn memory_after(rows: &[RowPicture]) -> &[BlockPicture]
    ensures { result.now ≡ memory_after rows.now }
{
    match rows.last() {
        Some(row) => row.blocks(),
        None => &[],
    }
}

/// Returns whether the rows are the same calls as the rows above, one by one, with serials n
/// higher. None may have moved a page, and the memory after each has to be `memory`.
fn are_next(
    alloc: Global,
    n: u128,
    memory: &[BlockPicture],
    above: &[RowPicture],
    rows: &[RowPicture],
) -> Result<bool, AllocError>
    requires { n < 2 ^ 127 }
    ensures { IfOk result (λ is. IsTrue is ↔ (rows.now ≡ map (next_row n memory.now) above.now)) }
{
    let mut left = rows;
    for row in above {
        let [next, rest @ ..] = left else {
            return Ok(false);
        };
        if !is_next(alloc, n, memory, row, next)? {
            return Ok(false);
        }
        left = rest;
    }
    Ok(left.is_empty())
}

/// Returns whether a row is the same call as one above, with a serial n higher. It may not have
/// moved a page, and the memory after it has to be `memory`.
fn is_next(
    alloc: Global,
    n: u128,
    memory: &[BlockPicture],
    above: &RowPicture,
    row: &RowPicture,
) -> Result<bool, AllocError>
    requires { n < 2 ^ 127 }
    ensures { IfOk result (λ is. IsTrue is ↔ (row.now ≡ next_row n memory.now above.now)) }
{
    let answer = counted_on(alloc, n, above.answer())?;
    Ok(row.is_unmoved(above.asked(), answer.as_str(), memory))
}

/// Returns the texts before and after the first colon.
fn halves(answer: &str) -> Option<(&str, &str)>
    ensures { option_map (λ p. (p.0.now, p.1.now)) result ≡ halves_of answer.now }
{
    answer.split_once(':')
}

/// Returns the serial with which an answer begins, if it begins with one.
fn serial_of(answer: &str) -> Option<u64>
    ensures { result ≡ serial_of answer.now }
{
    let (front, _) = halves(answer)?;
    number64(front)
}

/// Returns an answer whose serial is n higher; one without a serial stays as it is.
fn counted_on(alloc: Global, n: u128, answer: &str) -> Result<String, AllocError>
    requires { n < 2 ^ 127 }
    ensures { IfOk result (λ text. string_bytes text ≡ counted_on n answer.now) }
{
    let Some((front, words)) = halves(answer) else {
        return String::from_str(alloc, answer);
    };
    match number64(front) {
        Some(serial) => answer_of(alloc, serial as u128 + n, words),
        None => String::from_str(alloc, answer),
    }
}

/// Returns an answer with a serial.
fn answer_of(alloc: Global, serial: u128, words: &str) -> Result<String, AllocError>
    ensures { IfOk result (λ text. string_bytes text ≡ decimal serial ++ codes ":" ++ words.now) }
{
    let mut out = String::new(alloc);
    write!(out, "{serial}:{words}")?;
    Ok(out)
}
