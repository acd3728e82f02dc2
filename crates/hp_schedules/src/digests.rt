//! Hashes. This crate finds ends by them, and the crates above find keys, transcripts and more.
//! After a hit the values themselves are compared. Equal ends are proved to hash alike.
ghost use Rattle.std.specs.Prelude.{◌≡◌, ℕ, OnOk, Some, fold, nat_eq};
ghost use Rattle.indexmap.specs.IndexMap.{ContainsKey, Updates};
ghost use Rattle.hp_schedules.specs.Digests.{digest_of, mixed, mixed_reply, refusal_number, replies_digest, reply_number, row_number};
ghost use Rattle.hp_schedules.specs.Outcomes.{outcome_with, replies_below, replies_to};

use crate::outcomes::told;
use hp_units::{Cpu, Record, Refusal, Reply, Row};
use indexmap::IndexMap;
use std::alloc::AllocError;

/// Stores `number` under the hash `digest`, in place of an earlier number.
///
/// If memory runs out, all hashes stored before are still there.
pub fn learn(
    latest: &mut IndexMap<u64, usize>,
    digest: u64,
    number: usize,
) -> Result<(), AllocError>
    ensures kept { (d : ℕ) → ContainsKey nat_eq latest.old d → ContainsKey nat_eq latest.new d }
    ensures ok { OnOk result (ContainsKey nat_eq latest.new digest) }
    ensures is { OnOk result (Updates nat_eq latest.old latest.new digest (Some number)) }
{
    match latest.insert(digest, number) {
        Ok(_earlier) => Ok(()),
        Err(_failed) => Err(AllocError),
    }
}

/// Returns the hash of how a schedule ends: of the replies to `processors` processors and of the
/// blocks' rows.
#[tactic(auto, unfolding(crate::specs::Digests::digest_of))]
pub(crate) fn digest_of(processors: u32, records: &[Record], blocks: &[Row]) -> u64
    ensures { result ≡ digest_of (outcome_with processors records.now blocks.now) }
{
    let mut digest = replies_digest(processors, records);
    for row in blocks {
        digest = mixed(digest, row_number(row));
    }
    digest
}

/// Returns the hash of all processors' replies among the records.
fn replies_digest(processors: u32, records: &[Record]) -> u64
    ensures { result ≡ replies_digest (replies_below processors records.now) }
{
    let mut digest = 0;
    for cpu in 0..processors {
        digest = mixed(digest, processor_digest(Cpu(cpu), records));
    }
    digest
}

/// Returns the hash of one processor's replies among the records.
fn processor_digest(cpu: Cpu, records: &[Record]) -> u64
    ensures { result ≡ fold mixed_reply 0 (replies_to cpu records.now) }
{
    let mut digest = 0;
    for record in records {
        if record.cpu == cpu {
            digest = mixed(digest, reply_number(&told(&record.reply)));
        }
    }
    digest
}

/// Mixes one number into the hash.
#[tactic(auto, unfolding(crate::specs::Digests::mixed))]
pub fn mixed(digest: u64, number: u64) -> u64
    ensures { result ≡ mixed digest number }
{
    (digest ^ number)
        .wrapping_mul(0x9e37_79b9_7f4a_7c15)
        .rotate_left(29)
}

/// A hash input for a reply; not injective.
pub fn reply_number(reply: &Reply) -> u64
    ensures { result ≡ reply_number reply.now }
{
    match reply {
        Reply::Done => 1,
        Reply::Restored => 2,
        Reply::Released => 3,
        Reply::Frame(frame) => mixed(4, u64::from(frame.0)),
        Reply::Word(word) => mixed(5, *word),
        Reply::Moved { from, to } => mixed(mixed(6, u64::from(from.0)), u64::from(to.0)),
        Reply::Opened { op } => mixed(7, op.0),
        Reply::Undone { count } => mixed(8, *count),
        Reply::Refused(refusal) => mixed(9, refusal_number(refusal)),
    }
}

/// A hash input for a refusal; not injective.
fn refusal_number(refusal: &Refusal) -> u64
    ensures { result ≡ refusal_number refusal.now }
{
    match refusal {
        Refusal::NoOwner => 1,
        Refusal::NoPage => 2,
        Refusal::NoWord => 3,
        Refusal::AlreadyMapped => 4,
        Refusal::NotMapped => 5,
        Refusal::BadOrder => 6,
        Refusal::NoFrame => 7,
        Refusal::NoSuchFrame => 8,
        Refusal::NotKernel => 9,
        Refusal::NoCpu => 10,
        Refusal::NoBlock => 11,
        Refusal::EmptyPlan => 12,
        Refusal::NoOp => 13,
        Refusal::NothingToMove => 14,
        Refusal::Gone => 15,
        Refusal::BadAddress => 16,
        Refusal::Twice { block } => mixed(17, u64::from(block.0)),
        Refusal::Busy { block } => mixed(18, u64::from(block.0)),
        Refusal::NotOnline { block } => mixed(19, u64::from(block.0)),
        Refusal::NotOffline { block } => mixed(20, u64::from(block.0)),
        Refusal::Unmovable { frame } => mixed(21, u64::from(frame.0)),
        Refusal::NotFree { frame } => mixed(22, u64::from(frame.0)),
        Refusal::NotAbsent { block } => mixed(23, u64::from(block.0)),
    }
}

/// A hash input for a block's row; it leaves out the claim.
pub(crate) fn row_number(row: &Row) -> u64
    ensures { result ≡ row_number row.now }
{
    4 * u64::from(row.zone_number()) + u64::from(row.state.number())
}
