//! The part of an outcome by which ends are grouped.
ghost use Rattle.std.specs.Prelude.{◌≡◌, ◌↔◌, IfOk, IsTrue, codes, fold, true};
ghost use Rattle.hp_questions.specs.PlanEnds.{all_plan_ends};
ghost use Rattle.hp_schedules.specs.Digests.{mixed};
ghost use Rattle.hp_search.specs.Groups.{Agree, part_digest};
ghost use Rattle.hp_search.specs.Objects.{answer_list, block_string};
ghost use Rattle.hp_text.specs.Separated.{separated};

use crate::groups::GroupBy;
use crate::objects::{write_answers, write_blocks};
use hp_questions::{PlanEnds, all_plan_ends, plans_digest, same_plan_ends};
use hp_schedules::{CallScript, Outcome, Replies, mixed};
use hp_units::Row;
use std::alloc::{AllocError, Global};
use std::marker::Model;

/// The part of the outcomes of these scripts by which ends are grouped.
#[derive(Drop)]
pub struct Grouping<'a> {
    by: GroupBy,
    cpus: u32,
    scripts: &'a [CallScript],
}

impl<'a> Model for Grouping<'a> {
    ghost use Rattle.hp_search.specs.Groups.{GroupingValue};

    ghost Value = { GroupingValue };

    ghost view = { λ g. record { by = g.by; cpus = g.cpus; scripts = g.scripts.now } };
}

impl<'a> Grouping<'a> {
    /// Creates a grouping by the part `by` of the outcomes of `scripts`, on a layout with `cpus`
    /// processors.
    pub fn new(by: GroupBy, cpus: u32, scripts: &'a [CallScript]) -> Grouping<'a>
        ensures { result ≡ record { by = by; cpus = cpus; scripts = scripts.now } }
    {
        Grouping { by, cpus, scripts }
    }

    /// Returns the part of an outcome by which ends are grouped.
    fn part(&self) -> GroupBy
        ensures { result ≡ self.now.by }
    {
        self.by
    }

    /// Returns how the plans of each processor ended, given the replies of an outcome.
    fn plan_ends(&self, alloc: Global, outcome: &Outcome) -> Result<Vec<PlanEnds>, AllocError>
        ensures { IfOk result
            (λ ends. ends.items ≡ all_plan_ends self.now.cpus self.now.scripts outcome.now.replies) }
    {
        all_plan_ends(alloc, self.cpus, self.scripts, outcome.replies())
    }
}

/// Returns whether two outcomes agree in the part by which ends are grouped.
pub(crate) fn agree(
    alloc: Global,
    by: &Grouping<'_>,
    outcome: &Outcome,
    other: &Outcome,
) -> Result<bool, AllocError>
    ensures { IfOk result (λ is. IsTrue is ↔ Agree by.now outcome.now other.now) }
{
    match by.part() {
        GroupBy::Blocks => Ok(outcome.same_blocks(other)),
        GroupBy::Answers => Ok(outcome.same_replies(other)),
        GroupBy::Plans => plans_agree(alloc, by, outcome, other),
    }
}

/// Returns whether the plans of each processor ended alike in both outcomes.
fn plans_agree(
    alloc: Global,
    by: &Grouping<'_>,
    outcome: &Outcome,
    other: &Outcome,
) -> Result<bool, AllocError>
    ensures { IfOk result (λ is. IsTrue is
        ↔ (all_plan_ends by.now.cpus by.now.scripts outcome.now.replies
        ≡ all_plan_ends by.now.cpus by.now.scripts other.now.replies)) }
{
    let ends = by.plan_ends(alloc, outcome)?;
    let others = by.plan_ends(alloc, other)?;
    Ok(same_plan_ends(ends.as_slice(), others.as_slice()))
}

/// Returns a hash of the part of an outcome by which ends are grouped. Equal parts have equal
/// hashes.
pub(crate) fn part_digest(
    alloc: Global,
    by: &Grouping<'_>,
    outcome: &Outcome,
) -> Result<u64, AllocError>
    ensures { IfOk result (λ digest. digest ≡ part_digest by.now outcome.now) }
{
    match by.part() {
        GroupBy::Blocks => blocks_digest(alloc, outcome.blocks()),
        GroupBy::Answers => answers_digest(alloc, outcome.replies()),
        GroupBy::Plans => Ok(plans_digest(by.plan_ends(alloc, outcome)?.as_slice())),
    }
}

/// Returns a hash of the memory blocks.
fn blocks_digest(alloc: Global, rows: &[Row]) -> Result<u64, AllocError>
    ensures { IfOk result (λ digest.
        digest ≡ fold mixed 0 (separated (codes ", ") block_string true rows.now)) }
{
    let mut text = String::new(alloc);
    write_blocks(&mut text, rows)?;
    Ok(text_digest(text.as_bytes()))
}

/// Returns a hash of the processors' replies.
fn answers_digest(alloc: Global, all: &[Replies]) -> Result<u64, AllocError>
    ensures { IfOk result (λ digest.
        digest ≡ fold mixed 0 (separated (codes ", ") answer_list true all.now)) }
{
    let mut text = String::new(alloc);
    write_answers(&mut text, all)?;
    Ok(text_digest(text.as_bytes()))
}

/// Returns a hash of a text.
fn text_digest(bytes: &[u8]) -> u64
    ensures { result ≡ fold mixed 0 bytes.now }
{
    let mut digest = 0;
    for byte in bytes {
        digest = mixed(digest, u64::from(*byte));
    }
    digest
}
