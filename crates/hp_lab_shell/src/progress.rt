//! Shows on standard error how far a search has come, and ends the search when a budget is used up.
ghost use Rattle.std.specs.Prelude.{◌≡◌, false};
ghost use Rattle.hp_lab_shell.specs.Budgets.{IsUsedUp};

use crate::budgets::{Budgets, Reached};
use hp_states::Watch;
use std::io::{self, Write};
use std::time::{Clock, Duration, Instant};

/// How many reports of progress are skipped after one that is shown in place. After one on a line
/// of its own, 64 times as many are skipped. A search makes some hundred thousand reports per
/// second.
const SILENT: u32 = 1024;

/// How many states a search reaches between two looks at the clock.
const UNTIMED: u64 = 1024;

/// Where progress is shown.
#[derive(Clone, Copy, Drop)]
pub(crate) enum Shown {
    /// Nowhere.
    Nowhere,
    /// On one line of a terminal, overwritten each time.
    InPlace,
    /// Each time on a line of its own.
    InLines,
}

/// Returns where progress is shown. If standard error is not a terminal, it is shown only if
/// `is_wanted`.
pub(crate) fn shown_on(is_terminal: bool, is_wanted: bool) -> Shown {
    if is_terminal {
        Shown::InPlace
    } else if is_wanted {
        Shown::InLines
    } else {
        Shown::Nowhere
    }
}

/// How a search is watched.
#[derive(Clone, Copy, Drop)]
pub(crate) struct Watching {
    /// Where progress is shown.
    pub shown: Shown,
    /// Whether states are shown, and not interleavings.
    pub shows_states: bool,
    /// How far the search may go.
    pub budgets: Budgets,
}

/// Shows the progress of a search, and ends it when a budget is used up.
pub(crate) struct Progress<W: Write + Drop, C: Clock + Drop> {
    out: W,
    clock: C,
    started: Option<Instant>,
    passed: Duration,
    budgets: Budgets,
    reached: Reached,
    shown: Shown,
    shows_states: bool,
    is_open: bool,
    silent: u32,
}

impl<W: Write + Drop, C: Clock + Drop> Progress<W, C> {
    /// Creates the progress of a search that begins now.
    pub(crate) fn new(out: W, clock: C, watching: Watching) -> Progress<W, C> {
        let started = match Instant::now(&clock) {
            Ok(now) => Some(now),
            Err(_) => None,
        };
        Progress {
            out,
            clock,
            started,
            passed: Duration::ZERO,
            budgets: watching.budgets,
            reached: Reached {
                states: 0,
                bytes: 0,
                seconds: 0,
            },
            shown: watching.shown,
            shows_states: watching.shows_states,
            is_open: false,
            silent: SILENT,
        }
    }

    /// Reads the clock. If it cannot be read, `passed` stays as it was.
    fn look_at_clock(&mut self)
        ensures { self.new ≡ record self.old { passed = self.new.passed } }
    {
        if let Some(started) = self.started {
            if let Ok(passed) = started.elapsed(&self.clock) {
                self.passed = passed;
            }
        }
    }

    /// Returns whether a report is due. If so, the caller must make it.
    fn is_due(&mut self) -> bool
        ensures budgets { self.new.budgets ≡ self.old.budgets }
        ensures reached { self.new.reached ≡ self.old.reached }
    {
        if self.silent > 0 {
            self.silent -= 1;
            return false;
        }
        match self.shown {
            Shown::Nowhere => false,
            Shown::InPlace => {
                self.silent = SILENT;
                self.is_open = true;
                true
            }
            Shown::InLines => {
                self.silent = 64 * SILENT;
                true
            }
        }
    }

    /// Reports how many states were reached, if states are shown and a report is due.
    fn report_states(&mut self)
        ensures budgets { self.new.budgets ≡ self.old.budgets }
        ensures reached { self.new.reached ≡ self.old.reached }
    {
        if self.shows_states && self.is_due() {
            let states = self.reached.states;
            let rate = rate_of(states, self.passed.as_millis());
            let _ = match self.shown {
                Shown::InPlace => {
                    write!(self.out, "\r{states} states so far, {rate} a second  ")
                }
                _ => writeln!(self.out, "{states} states so far, {rate} a second"),
            };
        }
    }
}

/// Ends the line that is overwritten, if there is one.
impl<W: Write + Drop, C: Clock + Drop> Drop for Progress<W, C> {
    fn drop(self) {
        let Self {
            mut out,
            clock: _clock,
            started: _,
            passed: _,
            budgets: _,
            reached: _,
            shown: _,
            shows_states: _,
            is_open,
            silent: _,
        } = self;
        if is_open {
            let _ = writeln!(&mut out);
        }
    }
}

impl<W: Write + Drop, C: Clock + Drop> Watch for Progress<W, C> {
    ghost has_ended = { λ p. IsUsedUp p.budgets p.reached };

    fn counted(&mut self, schedules: u64) {
        if !self.shows_states && self.is_due() {
            let _ = match self.shown {
                Shown::InPlace => write!(self.out, "\r{schedules} interleavings so far"),
                _ => writeln!(self.out, "{schedules} interleavings so far"),
            };
        }
    }

    fn memory(&self) -> u64 {
        self.budgets.memory
    }

    fn goes_on(&mut self, places: u64, bytes: u64) -> bool
        ensures ended { result ≡ false → IsUsedUp self.new.budgets self.new.reached }
        ensures states { self.new.reached.states ≡ places }
        ensures bytes { self.new.reached.bytes ≡ bytes }
        ensures budgets { self.new.budgets ≡ self.old.budgets }
    {
        if places % UNTIMED == 0 {
            self.look_at_clock();
        }
        self.reached = Reached {
            states: places,
            bytes,
            seconds: self.passed.as_secs(),
        };
        match self.budgets.used_up(self.reached) {
            Some(budget) => {
                let states = self.budgets.within(places);
                let option = budget.option();
                let _ = say_stopped(&mut self.out, self.is_open, states, option);
                self.is_open = false;
                false
            }
            None => {
                self.report_states();
                true
            }
        }
    }
}

/// Returns how many states per second were reached in this many milliseconds.
fn rate_of(states: u64, millis: u128) -> u128 {
    if millis == 0 {
        return 0;
    }
    u128::from(states) * 1000 / millis
}

/// Prints after how many states a search was ended, and which option ended it.
fn say_stopped<W: Write>(out: &mut W, is_open: bool, states: u64, option: &str) -> io::Result<()> {
    if is_open {
        writeln!(out)?;
    }
    writeln!(out, "hotplug_lab: stopped after {states} states ({option})")
}
