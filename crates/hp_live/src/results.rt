//! The names of results in a session.
ghost use Rattle.std.specs.Prelude.{◌≡◌, true};
ghost use Rattle.hp_scripts.specs.Bindings.{bound_after};
ghost use Rattle.hp_scenario.specs.Asked.{asked_by};
ghost use Rattle.hp_live.specs.Results as spec;
ghost use Rattle.hp_live.specs.Results.{IsKnown};

use hp_machine::Machine;
use hp_scenario::{Asked, Work};
use hp_scripts::{Bindings, Naming, missing_number, result_number};
use hp_units::{Event, Reply, Serial};

/// What became of a line that was run.
#[derive(Clone, Copy)]
pub(crate) struct Ran {
    /// The number of its result.
    pub(crate) number: u64,
    /// Whether there was memory for its answer.
    pub(crate) is_answered: bool,
}

/// Returns the number of the result of a line, or 0 if the line calls no event. `left` has the
/// serial and the reply of the record that the event left, if it left one.
pub(crate) fn number_of(work: &Work, left: Option<(Serial, Reply)>) -> u64
    ensures { result ≡ spec.number_of (asked_by work.now) left }
{
    match work.asked() {
        Asked::Event(event) => event_result(event, left),
        Asked::Plan { plan: _, turns: _ } => 0,
        Asked::NotTaken(_fault) => 0,
        Asked::Cat { path: _ } => 0,
        Asked::Seal => 0,
    }
}

/// Returns the number of the result of an event. `left` has the serial and the reply of the record
/// that it left, if it left one.
fn event_result(event: &Event, left: Option<(Serial, Reply)>) -> u64
    ensures { result ≡ spec.event_result event.now left }
{
    match left {
        Some((serial, reply)) => result_number(event, serial, &reply),
        None => missing_number(event),
    }
}

/// Returns the serial and the reply of the record at index `before` of a machine's history, if
/// there is one.
pub(crate) fn left_in(machine: &Machine, before: usize) -> Option<(Serial, Reply)>
    ensures { result ≡ spec.left_in machine.now before }
{
    match machine.history().get(before) {
        Some(record) => Some((record.serial, record.reply)),
        None => None,
    }
}

/// Binds the name of a line's result, if the line gives one. Returns whether there was memory for
/// that; if not, no result has the name.
pub(crate) fn note(bound: &mut Bindings, naming: Option<Naming>, line: usize, number: u64) -> bool
    ensures noted { result ≡ true → bound.new ≡ bound_after bound.old naming line number }
    ensures known { IsKnown bound.old naming line number bound.new }
{
    match naming {
        Some(naming) => bound.bind(naming, line, number).is_ok(),
        None => true,
    }
}
