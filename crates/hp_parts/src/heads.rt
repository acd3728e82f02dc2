//! The head of a part: the first line of its file.
ghost use Rattle.std.specs.Prelude.{◌≡◌, ◌++◌, ◌↔◌, IfOk, IfSome, IsTrue, OnOk, option_map, string_bytes};
ghost use Rattle.serde_json.specs.View.{view};
ghost use Rattle.hp_parts.specs.Heads.{IsNumber, head_counts, head_from as head, head_line, head_numbers, head_with as with_numbers, part_in};

use crate::reading::{narrow, number_at, text_at};
use hp_schedules::{Shard, ShardId};
use hp_text::{Brackets, write_escaped};
use serde_json::Value;
use std::alloc::{AllocError, Global};
use std::marker::Model;

/// The search that a part belongs to.
#[derive(Drop)]
pub struct Search<'a> {
    /// How many parts there are.
    pub of: u32,
    /// How many first calls of a schedule decide its part.
    pub calls: u32,
    /// How many lines of the scenario are its setup.
    pub setup: u64,
    /// The scenario's text.
    pub scenario: &'a str,
}

impl<'a> Model for Search<'a> {
    ghost use Rattle.hp_parts.specs.Heads.{SearchValue};

    ghost Value = { SearchValue };

    ghost view = { λ s. record { of = s.of; calls = s.calls; setup = s.setup; scenario = s.scenario.now } };
}

impl Search<'_> {
    /// Returns part `number`, counted from 1.
    pub fn part(&self, number: u32) -> Shard
        requires { IsNumber self.now number }
        ensures { result ≡ part_in self.now number }
    {
        match Shard::new(number - 1, self.of, self.calls) {
            Some(part) => part,
            None => unreachable!(),
        }
    }
}

/// The head of a part: the contents of the first line of its file.
#[derive(Drop)]
pub struct Head<'a> {
    /// The part's number, from 1.
    pub number: u32,
    /// How many ends the part has.
    pub ends: u64,
    /// The search that the part belongs to.
    pub search: Search<'a>,
}

impl<'a> Model for Head<'a> {
    ghost use Rattle.hp_parts.specs.Heads.{HeadValue};

    ghost Value = { HeadValue };

    ghost view = { λ h. record { number = h.number; ends = h.ends; search = h.search } };
}

/// Reads a head from a JSON value. Returns `None` if the value is not a head, or if there is no
/// part with its number. The scenario's text is borrowed from the value.
#[tactic(auto, unfolding(crate::specs::Heads::head_from))]
pub fn head_from<'a>(value: &'a Value) -> Option<Head<'a>>
    ensures is { option_map (λ h. h) result ≡ head (view value.now) }
    ensures number { IfSome result (λ h. IsNumber h.search h.number) }
{
    let number = number_at(value, "part")?;
    let of = number_at(value, "of")?;
    let wide = number_at(value, "calls")?;
    let calls = narrow(wide)?;
    let setup = number_at(value, "setup")?;
    let ends = number_at(value, "ends")?;
    let scenario = text_at(value, "scenario")?;
    head_with(number, of, calls, setup, ends, scenario)
}

/// Returns the head with these numbers and this scenario, or `None` if no search of `of` parts has
/// a part with this number.
fn head_with<'a>(
    number: u64,
    of: u64,
    calls: u32,
    setup: u64,
    ends: u64,
    scenario: &'a str,
) -> Option<Head<'a>>
    ensures is { option_map (λ h. h) result ≡ with_numbers number of calls setup ends scenario.now }
    ensures number { IfSome result (λ h. IsNumber h.search h.number) }
{
    let number = ShardId::new(number, of)?;
    Some(Head {
        number: number.number(),
        ends,
        search: Search {
            of: number.of(),
            calls,
            setup,
            scenario,
        },
    })
}

/// Writes the head of part `number`, counted from 1, with `ends` ends.
pub fn write_head(
    out: &mut String,
    search: &Search<'_>,
    number: u32,
    ends: u64,
) -> Result<(), AllocError>
    ensures { OnOk result
        (string_bytes out.new ≡ string_bytes out.old ++ head_line search.now number ends) }
{
    write_numbers(out, number, search.of, search.calls)?;
    write_counts(out, search.setup, ends)?;
    write_escaped(out, search.scenario, Brackets::Kept)?;
    out.push_str("\"}")?;
    Ok(())
}

/// Returns whether `text` is, byte for byte, the head of part `number` with `ends` ends.
pub fn is_head(
    alloc: Global,
    search: &Search<'_>,
    number: u32,
    ends: u64,
    text: &[u8],
) -> Result<bool, AllocError>
    ensures { IfOk result (λ is. IsTrue is ↔ (text.now ≡ head_line search.now number ends)) }
{
    let mut written = String::new(alloc);
    write_head(&mut written, search, number, ends)?;
    Ok(text == written.as_bytes())
}

/// Writes the part's number, how many parts there are, and how many first calls decide a part.
fn write_numbers(out: &mut String, number: u32, of: u32, calls: u32) -> Result<(), AllocError>
    ensures { OnOk result
        (string_bytes out.new ≡ string_bytes out.old ++ head_numbers number of calls) }
{
    write!(
        out,
        "{{\"part\": {number}, \"of\": {of}, \"calls\": {calls}"
    )
}

/// Writes how many lines are the setup, how many ends the part has, and the key of the scenario.
fn write_counts(out: &mut String, setup: u64, ends: u64) -> Result<(), AllocError>
    ensures { OnOk result (string_bytes out.new ≡ string_bytes out.old ++ head_counts setup ends) }
{
    write!(
        out,
        ", \"setup\": {setup}, \"ends\": {ends}, \"scenario\": \""
    )
}
