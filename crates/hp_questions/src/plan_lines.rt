//! Patterns for the ends of plans.
ghost use Rattle.std.specs.Prelude.{◌≡◌, ◌↔◌, IfOk, IsTrue, None};
ghost use Rattle.hp_questions.specs.PlanEnds.{all_plan_ends};
ghost use Rattle.hp_questions.specs.PlanLines.{HasEnd, HasPlanEnd, IsCauseAsWanted, IsCancelledAs, IsEndAsWanted, IsRefusedAs};

use crate::plan_ends::{PlanEnds, all_plan_ends};
use crate::wanted::Pattern;
use hp_schedules::{CallScript, Replies};
use hp_units::{Cpu, OpEnd, Refusal, Reply};
use std::alloc::{AllocError, Global};

/// A pattern for the end of a plan.
#[derive(Clone, Copy, PartialEq, Eq, Drop)]
pub enum EndPattern {
    /// The plan was committed.
    Done,
    /// The plan's operation was undone, or another call ended it.
    Undone,
    /// The Begin was refused, and the refusal matches.
    Refused(Pattern),
    /// The plan was cancelled, for any reason.
    Cancelled,
    /// The plan was cancelled, and its last refusal matches `why`; with `None`, it had no refusal.
    /// `restored` is whether the Cancel dropped its steps.
    CancelledAs {
        why: Option<Pattern>,
        restored: bool,
    },
}

impl EndPattern {
    /// Returns whether the end matches.
    pub fn is_met_by(&self, end: &OpEnd) -> bool
        ensures { IsTrue result ↔ IsEndAsWanted self.now end.now }
    {
        match self {
            EndPattern::Done => matches!(end, OpEnd::Done),
            EndPattern::Undone => matches!(end, OpEnd::Undone),
            EndPattern::Refused(refusal) => is_refused_as(refusal, end),
            EndPattern::Cancelled => matches!(end, OpEnd::Cancelled { .. }),
            EndPattern::CancelledAs { why, restored } => is_cancelled_as(why, *restored, end),
        }
    }

    /// Returns whether, by the replies in `all`, a plan of processor `cpu` has an end that matches.
    /// If `cpu` is `None`, a plan of any processor counts.
    pub(crate) fn is_end_of(
        &self,
        alloc: Global,
        cpus: u32,
        scripts: &[CallScript],
        all: &[Replies],
        cpu: Option<Cpu>,
    ) -> Result<bool, AllocError>
        ensures { IfOk result (λ is. IsTrue is
            ↔ HasPlanEnd self.now (all_plan_ends cpus scripts.now all.now) cpu) }
    {
        let ends = all_plan_ends(alloc, cpus, scripts, all)?;
        Ok(self.is_reached(ends.as_slice(), cpu))
    }

    /// Returns whether a plan of processor `cpu` has an end that matches. If `cpu` is `None`, a
    /// plan of any processor counts.
    fn is_reached(&self, all: &[PlanEnds], cpu: Option<Cpu>) -> bool
        ensures { IsTrue result ↔ HasPlanEnd self.now all.now cpu }
    {
        match cpu {
            Some(cpu) => match all.get(cpu.0 as usize) {
                Some(ends) => self.is_among(ends.as_slice()),
                None => false,
            },
            None => self.is_among_all(all),
        }
    }

    /// Returns whether any processor has an end that matches.
    fn is_among_all(&self, all: &[PlanEnds]) -> bool
        ensures { IsTrue result ↔ HasPlanEnd self.now all.now None }
    {
        for index in 0..all.len() {
            if self.is_among(all[index].as_slice()) {
                return true;
            }
        }
        false
    }

    /// Returns whether one of the ends matches.
    fn is_among(&self, ends: &[OpEnd]) -> bool
        ensures { IsTrue result ↔ HasEnd self.now ends.now }
    {
        for index in 0..ends.len() {
            if self.is_met_by(&ends[index]) {
                return true;
            }
        }
        false
    }
}

/// Returns whether the plan's Begin was refused, and the refusal matches.
fn is_refused_as(refusal: &Pattern, end: &OpEnd) -> bool
    ensures { IsTrue result ↔ IsRefusedAs refusal.now end.now }
{
    match end {
        OpEnd::Refused(seen) => refusal.is_met_by(&Reply::Refused(*seen)),
        _ => false,
    }
}

/// Returns whether the plan was cancelled, its last refusal matches `why`, and the Cancel dropped
/// its steps exactly if `restored` is true. If `why` is `None`, there must be no refusal.
fn is_cancelled_as(why: &Option<Pattern>, restored: bool, end: &OpEnd) -> bool
    ensures { IsTrue result ↔ IsCancelledAs why.now restored end.now }
{
    match end {
        OpEnd::Cancelled {
            why: seen,
            restored: dropped,
        } => *dropped == restored && is_cause(why, seen),
        _ => false,
    }
}

/// Returns whether the last refusal matches, or none is wanted and there is none.
fn is_cause(why: &Option<Pattern>, seen: &Option<Refusal>) -> bool
    ensures { IsTrue result ↔ IsCauseAsWanted why.now seen.now }
{
    match why {
        Some(refusal) => match seen {
            Some(seen) => refusal.is_met_by(&Reply::Refused(*seen)),
            None => false,
        },
        None => seen.is_none(),
    }
}
