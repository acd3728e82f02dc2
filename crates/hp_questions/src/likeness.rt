//! Comparison and hashes of the ends of plans.
ghost use Rattle.std.specs.Prelude.{◌≡◌, ◌↔◌, IsTrue};
ghost use Rattle.hp_questions.specs.Likeness.{end_number, ends_digest, plans_digest};

use crate::plan_ends::PlanEnds;
use hp_schedules::{LineAnswer, mixed};
use hp_units::OpEnd;

/// Returns whether each processor's plans ended alike in both lists.
pub fn same_plan_ends(all: &[PlanEnds], others: &[PlanEnds]) -> bool
    ensures { IsTrue result ↔ (all.now ≡ others.now) }
{
    if all.len() != others.len() {
        return false;
    }
    for place in 0..all.len() {
        if !same_ends(all[place].as_slice(), others[place].as_slice()) {
            return false;
        }
    }
    true
}

/// Returns whether both lists hold equal ends in the same order.
fn same_ends(ends: &[OpEnd], others: &[OpEnd]) -> bool
    ensures { IsTrue result ↔ (ends.now ≡ others.now) }
{
    if ends.len() != others.len() {
        return false;
    }
    for place in 0..ends.len() {
        if !same_end(&ends[place], &others[place]) {
            return false;
        }
    }
    true
}

/// Returns whether both plans ended alike.
fn same_end(end: &OpEnd, other: &OpEnd) -> bool
    ensures { IsTrue result ↔ (end.now ≡ other.now) }
{
    LineAnswer::Plan(*end).same(&LineAnswer::Plan(*other))
}

/// Returns a hash of the ends of all processors' plans. Equal ends have equal hashes.
pub fn plans_digest(all: &[PlanEnds]) -> u64
    ensures { result ≡ plans_digest all.now }
{
    let mut digest = 0;
    for ends in all {
        digest = mixed(digest, ends_digest(ends.as_slice()));
    }
    digest
}

/// Returns a hash of the ends of one processor's plans.
fn ends_digest(ends: &[OpEnd]) -> u64
    ensures { result ≡ ends_digest ends.now }
{
    let mut digest = 0;
    for end in ends {
        digest = mixed(digest, end_number(end));
    }
    digest
}

/// Returns a number for the kind of the end.
fn end_number(end: &OpEnd) -> u64
    ensures { result ≡ end_number end.now }
{
    match end {
        OpEnd::Done => 1,
        OpEnd::Refused(_) => 2,
        OpEnd::Cancelled { restored: true, .. } => 3,
        OpEnd::Cancelled { .. } => 4,
        OpEnd::Undone => 5,
        OpEnd::Left { .. } => 6,
    }
}
