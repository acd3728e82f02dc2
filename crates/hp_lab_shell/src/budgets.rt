//! How far a search may go, and which budget it has used up.
ghost use Rattle.std.specs.Prelude.{◌↔◌, IfNone, IfSome, IsTrue};
ghost use Rattle.hp_lab_shell.specs.Budgets.{HasLeft, HasReached, IsAbove, IsOver};

use crate::arguments::{MEMORY, SECONDS};
use clap::ArgMatches;

/// The default number of MiB of states that a search may keep.
pub(crate) const MEMORY_MIB: u64 = 2048;

/// A budget of a search. The search is ended when a budget is used up.
#[derive(Clone, Copy, PartialEq, Eq, Drop)]
pub(crate) enum Budget {
    /// How many states it reaches.
    States,
    /// How much memory it keeps.
    Memory,
    /// How much time it takes.
    Seconds,
}

/// How far a search may go.
#[derive(Clone, Copy, Drop)]
pub(crate) struct Budgets {
    /// The most states that it reaches, if there is a limit.
    pub limit: Option<u64>,
    /// The most bytes that it keeps.
    pub memory: u64,
    /// The most seconds that it takes, if there is a limit.
    pub seconds: Option<u64>,
}

/// How far a search has come.
#[derive(Clone, Copy, Drop)]
pub(crate) struct Reached {
    /// How many states it has reached.
    pub states: u64,
    /// How many bytes it keeps.
    pub bytes: u64,
    /// How many whole seconds had passed when the clock was last read.
    pub seconds: u64,
}

impl Budget {
    /// Returns the option that sets the budget.
    pub(crate) fn option(self) -> &'static str {
        match self {
            Budget::States => "--limit",
            Budget::Memory => "--memory",
            Budget::Seconds => "--seconds",
        }
    }
}

impl Budgets {
    /// Returns how many of these states are within the limit.
    pub(crate) fn within(&self, states: u64) -> u64 {
        match self.limit {
            Some(limit) => states.min(limit),
            None => states,
        }
    }

    /// Returns the first budget that a search has used up, if it has used up one.
    pub(crate) fn used_up(&self, reached: Reached) -> Option<Budget>
        ensures some { IfSome result (λ budget. IsOver budget self.now reached) }
        ensures none { IfNone result (HasLeft self.now reached) }
    {
        if is_above(reached.states, self.limit) {
            return Some(Budget::States);
        }
        if reached.bytes > self.memory {
            return Some(Budget::Memory);
        }
        if has_reached(reached.seconds, self.seconds) {
            return Some(Budget::Seconds);
        }
        None
    }
}

/// Returns whether there is a limit and the number is above it.
fn is_above(number: u64, limit: Option<u64>) -> bool
    ensures { IsTrue result ↔ IsAbove number limit }
{
    match limit {
        Some(limit) => limit < number,
        None => false,
    }
}

/// Returns whether there is a limit and the number has reached it.
fn has_reached(number: u64, limit: Option<u64>) -> bool
    ensures { IsTrue result ↔ HasReached number limit }
{
    match limit {
        Some(limit) => limit <= number,
        None => false,
    }
}

/// Returns how far a search with this limit on its states may go.
pub(crate) fn budgets_of(words: &ArgMatches<'_>, limit: Option<u64>) -> Budgets {
    let memory = words.get_one::<u64>(MEMORY).unwrap_or(MEMORY_MIB);
    Budgets {
        limit,
        memory: memory.saturating_mul(1 << 20),
        seconds: words.get_one::<u64>(SECONDS),
    }
}
