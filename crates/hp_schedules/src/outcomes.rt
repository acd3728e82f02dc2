//! How a schedule ends.
ghost use Rattle.std.specs.Prelude.{◌≡◌, ◌↔◌, IfOk, IsTrue, Some, slice_get};
ghost use Rattle.hp_schedules.specs.Digests.{digest_of};
ghost use Rattle.hp_schedules.specs.Outcomes.{outcome_with, replies_below, replies_to, told};

use crate::digests::{mixed, row_number};
use crate::likeness::{answers_digest, copies_of, same_answers};
use hp_units::{Cpu, Record, Reply, Row, Serial};
use std::alloc::{AllocError, Global};
use std::marker::Model;

/// One processor's replies, in the order of its calls. In contracts, the value is the list of these
/// replies.
#[derive(Drop)]
pub struct Replies {
    replies: Vec<Reply>,
}

impl Model for Replies {
    ghost use Rattle.std.specs.Prelude.{List};
    ghost use Rattle.hp_units.specs.declared.replies.Reply.{Reply};

    ghost Value = { List Reply };

    ghost view = { λ a. a.replies.items };
}

/// How a schedule ends: the replies to each processor, and the final row of each memory block.
#[derive(Drop)]
pub struct Outcome {
    replies: Vec<Replies>,
    blocks: Vec<Row>,
}

impl Model for Outcome {
    ghost use Rattle.hp_schedules.specs.Outcomes.{OutcomeValue};

    ghost Value = { OutcomeValue };

    ghost view = { λ o. record { replies = o.replies.items; blocks = o.blocks.items } };
}

impl Replies {
    /// Returns the replies in order.
    pub fn as_slice(&self) -> &[Reply]
        ensures { result.now ≡ self.now }
    {
        let Replies { replies } = self;
        replies.as_slice()
    }

    /// Returns a copy.
    pub(crate) fn copy(&self, alloc: Global) -> Result<Replies, AllocError>
        ensures { IfOk result (λ copy. copy ≡ self.now) }
    {
        let mut replies = Vec::new(alloc);
        replies.extend_from_slice(self.as_slice())?;
        Ok(Replies { replies })
    }
}

impl Outcome {
    /// Creates an outcome from its parts. Allocates nothing.
    pub fn new(replies: Vec<Replies>, blocks: Vec<Row>) -> Outcome
        ensures { result ≡ record { replies = replies.items; blocks = blocks.items } }
    {
        Outcome { replies, blocks }
    }

    /// Returns each processor's replies, from processor 0 on. If this is the outcome of a schedule,
    /// the number of an opened operation is always 0.
    pub fn replies(&self) -> &[Replies]
        ensures { result.now ≡ self.now.replies }
    {
        let answers = &self.replies;
        answers.as_slice()
    }

    /// Returns each memory block's row, from block 0 on. If this is the outcome of a schedule, no
    /// row names the operation that holds its block.
    pub fn blocks(&self) -> &[Row]
        ensures { result.now ≡ self.now.blocks }
    {
        let rows = &self.blocks;
        rows.as_slice()
    }

    /// Returns whether both are equal.
    pub fn same(&self, other: &Outcome) -> bool
        ensures { IsTrue result ↔ (self.now ≡ other.now) }
    {
        self.same_replies(other) && self.same_blocks(other)
    }

    /// Returns whether each processor got the same replies in both.
    pub fn same_replies(&self, other: &Outcome) -> bool
        ensures { IsTrue result ↔ (self.now.replies ≡ other.now.replies) }
    {
        same_answers(self.replies.as_slice(), other.replies.as_slice())
    }

    /// Returns whether the memory blocks are in the same states in both.
    pub fn same_blocks(&self, other: &Outcome) -> bool
        ensures { IsTrue result ↔ (self.now.blocks ≡ other.now.blocks) }
    {
        same_rows(self.blocks.as_slice(), other.blocks.as_slice())
    }

    /// Returns a hash. Equal outcomes have equal hashes.
    #[tactic(auto, unfolding(crate::specs::Digests::digest_of))]
    pub fn digest(&self) -> u64
        ensures { result ≡ digest_of self.now }
    {
        let mut digest = answers_digest(self.replies());
        for row in self.blocks() {
            digest = mixed(digest, row_number(row));
        }
        digest
    }

    /// Returns a copy.
    pub fn copy(&self, alloc: Global) -> Result<Outcome, AllocError>
        ensures { IfOk result (λ x. x ≡ self.now) }
    {
        let replies = copies_of(alloc, self.replies.as_slice())?;
        let mut blocks = Vec::new(alloc);
        blocks.extend_from_slice(self.blocks.as_slice())?;
        Ok(Outcome { replies, blocks })
    }

    /// Returns whether this is the outcome of these records and rows, for `processors` processors.
    pub(crate) fn is_of(&self, processors: u32, records: &[Record], blocks: &[Row]) -> bool
        ensures { IsTrue result ↔ (self.now ≡ outcome_with processors records.now blocks.now) }
    {
        are_answers_below(self.replies.as_slice(), processors, records)
            && same_rows(self.blocks.as_slice(), blocks)
    }
}

/// Returns the replies to each of `processors` processors among the records, with 0 for the number
/// of an opened operation.
pub fn all_answers(
    alloc: Global,
    processors: u32,
    records: &[Record],
) -> Result<Vec<Replies>, AllocError>
    ensures { IfOk result (λ all. all.items ≡ replies_below processors records.now) }
{
    let mut all = Vec::new(alloc);
    for cpu in 0..processors {
        all.reserve(1)?;
        let answers = answers_to(alloc, Cpu(cpu), records)?;
        all.push_reserved(answers);
    }
    Ok(all)
}

/// Returns the replies to one processor among the records, with 0 for the number of an opened
/// operation.
fn answers_to(alloc: Global, cpu: Cpu, records: &[Record]) -> Result<Replies, AllocError>
    ensures { IfOk result (λ answers. answers ≡ replies_to cpu records.now) }
{
    let mut replies = Vec::new(alloc);
    for record in records {
        if record.cpu != cpu {
            continue;
        }
        replies.reserve(1)?;
        replies.push_reserved(told(&record.reply));
    }
    Ok(Replies { replies })
}

/// Returns the reply with 0 in place of the number of an opened operation.
///
/// That number only counts the calls before, so two outcomes must not differ by it.
pub(crate) fn told(reply: &Reply) -> Reply
    ensures { result ≡ told reply.now }
{
    match reply {
        Reply::Opened { .. } => Reply::Opened { op: Serial(0) },
        _ => *reply,
    }
}

/// Returns whether `answers` are the replies to each of `processors` processors among the records,
/// with 0 for the number of an opened operation.
fn are_answers_below(answers: &[Replies], processors: u32, records: &[Record]) -> bool
    ensures { IsTrue result ↔ (answers.now ≡ replies_below processors records.now) }
{
    if answers.len() != processors as usize {
        return false;
    }
    for cpu in 0..processors {
        if !are_replies_to(answers[cpu as usize].as_slice(), Cpu(cpu), records) {
            return false;
        }
    }
    true
}

/// Returns whether `replies` are the replies to this processor among the records, with 0 for the
/// number of an opened operation.
fn are_replies_to(replies: &[Reply], cpu: Cpu, records: &[Record]) -> bool
    ensures { IsTrue result ↔ (replies.now ≡ replies_to cpu records.now) }
{
    let mut compared = 0;
    for record in records {
        if record.cpu == cpu {
            if !is_told_at(replies, compared, record) {
                return false;
            }
            compared += 1;
        }
    }
    compared == replies.len()
}

/// Returns whether the reply at index `place` is that of the record, with 0 for the number of an
/// opened operation.
fn is_told_at(replies: &[Reply], place: usize, latest: &Record) -> bool
    ensures { IsTrue result ↔ (slice_get replies.now place ≡ Some (told latest.now.reply)) }
{
    match replies.get(place) {
        Some(reply) => told(&latest.reply).same(reply),
        None => false,
    }
}

/// Returns whether both lists hold equal rows in the same order.
fn same_rows(rows: &[Row], others: &[Row]) -> bool
    ensures { IsTrue result ↔ (rows.now ≡ others.now) }
{
    if rows.len() != others.len() {
        return false;
    }
    for (place, row) in rows.iter().enumerate() {
        if *row != others[place] {
            return false;
        }
    }
    true
}
