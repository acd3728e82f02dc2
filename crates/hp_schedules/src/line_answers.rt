//! The answers to the lines of a script.
ghost use Rattle.std.specs.Prelude.{◌≡◌, ◌↔◌, IsTrue, option_map};
ghost use Rattle.hp_schedules.specs.declared.line_answers.LineAnswer.TheVariants.{Plan as Carried};

use hp_units::{OpEnd, Refusal, Reply};

/// The answer to a finished line.
#[derive(Clone, Copy, PartialEq, Eq, Drop)]
pub enum LineAnswer {
    /// The reply to the line's one call.
    Reply(Reply),
    /// How the line's plan ended.
    Plan(OpEnd),
}

/// A line that a call has finished.
#[derive(Clone, Copy, PartialEq, Eq, Drop)]
pub struct FinishedLine {
    /// The line's number in its script, from 0.
    pub line: usize,
    /// The line's answer, or `None` if a plan ended by a reply that no machine gives.
    pub answer: Option<LineAnswer>,
}

impl LineAnswer {
    /// Returns whether both answers are equal.
    pub fn same(&self, other: &LineAnswer) -> bool
        ensures { IsTrue result ↔ (self.now ≡ other.now) }
    {
        match self {
            LineAnswer::Reply(reply) => match other {
                LineAnswer::Reply(seen) => reply.same(seen),
                LineAnswer::Plan(_) => false,
            },
            LineAnswer::Plan(end) => match other {
                LineAnswer::Plan(seen) => same_end(end, seen),
                LineAnswer::Reply(_) => false,
            },
        }
    }
}

/// Returns whether both plans ended alike.
fn same_end(end: &OpEnd, other: &OpEnd) -> bool
    ensures { IsTrue result ↔ (end.now ≡ other.now) }
{
    match end {
        OpEnd::Done => matches!(other, OpEnd::Done),
        OpEnd::Undone => matches!(other, OpEnd::Undone),
        OpEnd::Refused(refusal) => match other {
            OpEnd::Refused(seen) => refusal.same(*seen),
            _ => false,
        },
        OpEnd::Cancelled { why, restored } => match other {
            OpEnd::Cancelled {
                why: seen,
                restored: also,
            } => *restored == *also && same_cause(why, seen),
            _ => false,
        },
        OpEnd::Left { op, fault } => match other {
            OpEnd::Left {
                op: seen,
                fault: also,
            } => *op == *seen && *fault == *also,
            _ => false,
        },
    }
}

/// Returns whether both have the same refusal, or neither has one.
fn same_cause(why: &Option<Refusal>, other: &Option<Refusal>) -> bool
    ensures { IsTrue result ↔ (why.now ≡ other.now) }
{
    match why {
        Some(refusal) => match other {
            Some(seen) => refusal.same(*seen),
            None => false,
        },
        None => other.is_none(),
    }
}

/// Returns the answer to a line whose plan has this end, or `None` without an end.
pub(crate) fn plan_answer(end: Option<OpEnd>) -> Option<LineAnswer>
    ensures { result ≡ option_map Carried end }
{
    match end {
        Some(end) => Some(LineAnswer::Plan(end)),
        None => None,
    }
}
