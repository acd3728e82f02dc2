//! How one list of frames becomes another.
ghost use Rattle.std.specs.Prelude.{◌≡◌, ◌-◌, ◌≤◌, IfOk, drop, length, take};
ghost use Rattle.hp_trace_json.specs.Splices.{IsSplice, is_last_end, is_last_start};

use hp_units::Frame;
use std::alloc::{AllocError, Global};
use std::marker::Model;

/// A change of a list: from index `at` on, some entries are removed and others inserted.
#[derive(Drop)]
pub struct Splice {
    /// The index at which the change begins.
    pub at: usize,
    /// How many entries are removed.
    pub gone: usize,
    /// The entries that are inserted.
    pub put: Vec<Frame>,
}

impl Model for Splice {
    ghost use Rattle.hp_trace_json.specs.Splices.{SpliceValue};

    ghost Value = { SpliceValue };

    ghost view = { λ s. record { at = s.at; gone = s.gone; put = s.put.items } };
}

/// Returns the splice that turns one list into the other. It replaces what is between their longest
/// common start and their longest common end.
pub fn splice_between(alloc: Global, was: &[Frame], now: &[Frame]) -> Result<Splice, AllocError>
    ensures { IfOk result (IsSplice was.now now.now) }
{
    let at = common_start(was, now);
    let end = common_end(was, now, at);
    let put = Vec::from_slice(alloc, &now[at..now.len() - end])?;
    let gone = was.len() - end - at;
    Ok(Splice { at, gone, put })
}

/// Returns how many entries two lists have in common at their starts.
fn common_start(was: &[Frame], now: &[Frame]) -> usize
    ensures { is_last_start was.now now.now result }
{
    let most = was.len().min(now.len());
    for at in 0..most {
        if was[at] != now[at] {
            return at;
        }
    }
    most
}

/// Returns how many entries two lists have in common at their ends, besides those at their starts.
fn common_end(was: &[Frame], now: &[Frame], start: usize) -> usize
    requires was { start ≤ length was.now }
    requires now { start ≤ length now.now }
    ensures { is_last_end was.now now.now start result }
{
    let most = was.len().min(now.len()) - start;
    for end in 0..most {
        if was[was.len() - 1 - end] != now[now.len() - 1 - end] {
            return end;
        }
    }
    most
}
