//! Comparison, hashes and copies of the processors' replies.
ghost use Rattle.std.specs.Prelude.{◌≡◌, ◌↔◌, IfOk, IsTrue, fold};
ghost use Rattle.hp_schedules.specs.Digests.{mixed_reply, replies_digest};

use crate::digests::{mixed, reply_number};
use crate::outcomes::Replies;
use hp_units::Reply;
use std::alloc::{AllocError, Global};

/// Returns whether `all` and `others` have equally many processors, and the same replies for each.
pub(crate) fn same_answers(all: &[Replies], others: &[Replies]) -> bool
    ensures { IsTrue result ↔ (all.now ≡ others.now) }
{
    if all.len() != others.len() {
        return false;
    }
    for place in 0..all.len() {
        if !same_replies(all[place].as_slice(), others[place].as_slice()) {
            return false;
        }
    }
    true
}

/// Returns whether both lists hold equal replies in the same order.
fn same_replies(replies: &[Reply], others: &[Reply]) -> bool
    ensures { IsTrue result ↔ (replies.now ≡ others.now) }
{
    if replies.len() != others.len() {
        return false;
    }
    for place in 0..replies.len() {
        if !replies[place].same(&others[place]) {
            return false;
        }
    }
    true
}

/// Returns copies of all processors' replies.
pub(crate) fn copies_of(alloc: Global, all: &[Replies]) -> Result<Vec<Replies>, AllocError>
    ensures { IfOk result (λ copies. copies.items ≡ all.now) }
{
    let mut copies = Vec::new(alloc);
    for answers in all {
        copies.reserve(1)?;
        let copy = answers.copy(alloc)?;
        copies.push_reserved(copy);
    }
    Ok(copies)
}

/// Returns the hash of all processors' replies.
pub(crate) fn answers_digest(all: &[Replies]) -> u64
    ensures { result ≡ replies_digest all.now }
{
    let mut digest = 0;
    for answers in all {
        digest = mixed(digest, replies_digest(answers.as_slice()));
    }
    digest
}

/// Returns the hash of one processor's replies.
fn replies_digest(replies: &[Reply]) -> u64
    ensures { result ≡ fold mixed_reply 0 replies.now }
{
    let mut digest = 0;
    for reply in replies {
        digest = mixed(digest, reply_number(reply));
    }
    digest
}
