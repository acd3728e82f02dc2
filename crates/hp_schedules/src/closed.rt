//! Tests whether a history is closed: no later Cancel can drop a step of it.
ghost use Rattle.std.specs.Prelude.{◌≡◌};
ghost use Rattle.hp_schedules.specs.Alike.{closed_after, is_closed};

use hp_units::{Event, Record, Reply};

/// Returns whether no later Cancel can drop a step of the history.
///
/// Looks only at events and refusals, so it may return false for a history that is closed.
pub fn is_closed(history: &[Record]) -> bool
    ensures { result ≡ is_closed history.now }
{
    let mut closed = true;
    for record in history {
        closed = closed_after(closed, record);
    }
    closed
}

/// Returns whether the history is closed after one more record, given whether it was closed before.
fn closed_after(was: bool, last: &Record) -> bool
    ensures { result ≡ closed_after was last.now }
{
    if matches!(last.reply, Reply::Refused(_)) {
        return was;
    }
    match &last.event {
        Event::Read { .. } | Event::DrainFor { .. } | Event::Migrate { .. } => was,
        Event::Begin { .. } | Event::Cancel { .. } | Event::UndoAfter { .. } => false,
        _ => true,
    }
}
