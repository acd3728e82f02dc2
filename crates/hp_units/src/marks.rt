//! What undo and Cancel need to know of a step.
ghost use Rattle.std.specs.Prelude.{◌≡◌, ◌&&◌, not};
ghost use Rattle.hp_units.specs.History.{is_look, is_refused};
ghost use Rattle.hp_units.specs.Marks.{is_opening, is_work_of, mark_of};

use crate::Serial;
use crate::events::Event;
use crate::replies::Reply;

/// How a step relates to operations.
#[derive(Clone, Copy, PartialEq, Eq, Drop)]
pub enum Mark {
    /// A Begin: its serial is the operation's number.
    Opens,
    /// A drain or a migration of the operation `op`.
    Works { op: Serial },
    /// Any other step.
    Other,
}

impl Mark {
    /// Returns whether the step is a Begin.
    pub fn is_opening(self) -> bool
        ensures { result ≡ is_opening self }
    {
        matches!(self, Mark::Opens)
    }

    /// Returns whether the step is a drain or a migration of the operation `op`.
    pub fn is_work_of(self, op: Serial) -> bool
        ensures { result ≡ is_work_of op self }
    {
        match self {
            Mark::Works { op: own } => own == op,
            _ => false,
        }
    }
}

/// A step's serial and mark.
#[derive(Clone, Copy, PartialEq, Eq, Drop)]
pub struct Tag {
    /// The serial of the step's record.
    pub serial: Serial,
    /// The mark of the step's event.
    pub mark: Mark,
}

/// Returns the mark of an event.
pub fn mark_of(event: &Event) -> Mark
    ensures { result ≡ mark_of event.now }
{
    match event {
        Event::Begin { .. } => Mark::Opens,
        Event::DrainFor { op, .. } => Mark::Works { op: *op },
        Event::Migrate { op } => Mark::Works { op: *op },
        _ => Mark::Other,
    }
}

/// Returns whether an event with this reply counts as a step: it was not refused, and is not a
/// Read. Not meant for an undo or a Cancel that restores, which drop steps.
pub fn is_step(event: &Event, reply: &Reply) -> bool
    ensures { result ≡ (not (is_refused reply.now) && not (is_look event.now)) }
{
    !matches!(reply, Reply::Refused(_)) && !matches!(event, Event::Read { .. })
}
