//! The number of interleavings, known before any call.
ghost use Rattle.std.specs.Prelude.{◌≡◌, ◌+◌, ◌^◌, ◌<◌, ◌≤◌, ℕ, IfNone, IfOk, IfSome};
ghost use Rattle.std.specs.List.{list_all};
ghost use Rattle.hp_schedules.specs.Interleavings.{IsCallCount, IsKnown, holds_no_plan, script_lengths};
ghost use Rattle.hp_schedules.specs.Multinomials.{ExceedsWith, IsMultinomial, IsMultinomialWith, sum};

use crate::scripts::CallScript;
use std::alloc::{AllocError, Global};

/// The number of interleavings, as far as it is known before any call.
#[derive(Clone, Copy, Drop)]
pub enum HowMany {
    /// This many, at most the limit.
    Exactly(u64),
    /// More than the limit.
    MoreThanLimit,
    /// Unknown: a script carries a plan, whose calls only a search can count, or the scripts have
    /// 2^64 lines or more.
    Unknown,
}

/// Returns how many interleavings the scripts have, or that there are more than `limit`. If each
/// line is one call, the number is the multinomial coefficient of the scripts' lengths (Knuth 1,
/// 1.2.6). It is unknown if a line is a plan, or if there are 2^64 lines or more.
pub fn interleavings_of(
    alloc: Global,
    scripts: &[CallScript],
    limit: u64,
) -> Result<HowMany, AllocError>
    ensures { IfOk result (IsKnown scripts.now limit) }
{
    if !hold_no_plan(scripts) {
        return Ok(HowMany::Unknown);
    }
    let lengths = lengths(alloc, scripts)?;
    if total(lengths.as_slice()).is_none() {
        return Ok(HowMany::Unknown);
    }
    match coefficient(lengths.as_slice(), limit) {
        Some(count) => Ok(HowMany::Exactly(count)),
        None => Ok(HowMany::MoreThanLimit),
    }
}

/// Returns how many calls a complete schedule has: one per line.
///
/// Returns `None` if a script carries a plan, whose calls only a search can count, or if the number
/// is 2^64 or more.
pub fn call_count(alloc: Global, scripts: &[CallScript]) -> Result<Option<u64>, AllocError>
    ensures { IfOk result (IsCallCount scripts.now) }
{
    if !hold_no_plan(scripts) {
        return Ok(None);
    }
    let lengths = lengths(alloc, scripts)?;
    Ok(total(lengths.as_slice()))
}

/// Returns the number of lines of each script.
fn lengths(alloc: Global, scripts: &[CallScript]) -> Result<Vec<u64>, AllocError>
    ensures { IfOk result (λ lengths. lengths.items ≡ script_lengths scripts.now) }
{
    let mut lengths = Vec::with_capacity(alloc, scripts.len())?;
    for script in scripts {
        lengths.push_reserved(script.lines().len() as u64);
    }
    Ok(lengths)
}

/// Returns whether each line of each script is one call.
fn hold_no_plan(scripts: &[CallScript]) -> bool
    ensures { result ≡ list_all holds_no_plan scripts.now }
{
    for script in scripts {
        if !script.holds_no_plan() {
            return false;
        }
    }
    true
}

/// Returns the sum of the lengths, or `None` if it is 2^64 or more.
fn total(lengths: &[u64]) -> Option<u64>
    ensures some { IfSome result (λ total. (total ≡ sum lengths.now) × (sum lengths.now < 2 ^ 64)) }
    ensures none { IfNone result (2 ^ 64 ≤ sum lengths.now) }
{
    let mut total: u64 = 0;
    for length in lengths {
        match total.checked_add(*length) {
            Some(more) => total = more,
            None => return None,
        }
    }
    Some(total)
}

/// Returns the multinomial coefficient of the lengths: the number of interleavings of sequences
/// with these lengths (Knuth 1, 1.2.6). Returns `None` if it is above the limit.
fn coefficient(lengths: &[u64], limit: u64) -> Option<u64>
    requires { sum lengths.now < 2 ^ 64 }
    ensures some { IfSome result (λ count. IsMultinomial lengths.now count × (count ≤ limit)) }
    ensures none { IfNone result ((m : ℕ) → IsMultinomial lengths.now m → limit < m) }
{
    let mut total = 0;
    let mut count = 1;
    for length in lengths {
        match with_length(count, total, *length, limit) {
            Some(more) => count = more,
            None => return None,
        }
        total += *length;
    }
    if count > limit {
        return None;
    }
    Some(count)
}

/// Returns the multinomial coefficient of the lengths so far and one more, `length`. `count` is the
/// coefficient of the lengths so far, and `total` their sum.
///
/// Returns `None` if the coefficient is above the limit. With a `length` of 0, returns `count`
/// without comparing it to the limit.
fn with_length(count: u64, total: u64, length: u64, limit: u64) -> Option<u64>
    requires { total + length < 2 ^ 64 }
    ensures some { IfSome result (IsMultinomialWith count total length) }
    ensures none { IfNone result (ExceedsWith count total length limit) }
{
    let mut reached = count;
    for turn in 0..length {
        let more = u128::from(reached) * u128::from(total + turn + 1) / u128::from(turn + 1);
        if more > u128::from(limit) {
            return None;
        }
        reached = more as u64;
    }
    Some(reached)
}
