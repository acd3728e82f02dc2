//! How a call changes the list of operations that a Cancel can undo completely.
ghost use Rattle.std.specs.Prelude.{◌≡◌};
ghost use Rattle.hp_schedules.specs.Openings.{change_of};

use hp_units::{Event, Record, Reply, Serial};

/// How a call changes the list of operations that a Cancel can undo completely.
#[derive(Clone, Copy, Drop)]
pub enum Change {
    /// Leaves the list as it is: the call was refused, or only reads.
    Stays,
    /// Begins an operation.
    Begins,
    /// Is a drain or a migration for the operation `op`.
    Works { op: Serial },
    /// Cancels the operation `op`.
    Cancels { op: Serial },
    /// Is any other event: the list becomes empty. Unless the event is an UndoAfter, no later
    /// Cancel takes back a step before it.
    Ends,
}

/// Returns how the call of this record changes the list of operations that a Cancel can undo
/// completely.
pub fn change_of(latest: &Record) -> Change
    ensures { result ≡ change_of latest.now }
{
    if matches!(latest.reply, Reply::Refused(_)) {
        return Change::Stays;
    }
    match &latest.event {
        Event::Read { .. } => Change::Stays,
        Event::Begin { .. } => Change::Begins,
        Event::DrainFor { op, .. } => Change::Works { op: *op },
        Event::Migrate { op } => Change::Works { op: *op },
        Event::Cancel { op } => Change::Cancels { op: *op },
        _ => Change::Ends,
    }
}
