//! A checksum of replies.
use hp_units::{Refusal, Reply};

/// Returns the checksum after one more reply.
pub fn mix(sum: u64, reply: &Reply) -> u64 {
    let (kind, value) = code_of(reply);
    (sum.rotate_left(7) ^ value ^ (kind.wrapping_mul(0x100_0000_0000_0000))).wrapping_mul(
        0x0000_0100_0000_01b3,
    )
}

/// Returns a reply as two numbers: its kind and its value.
fn code_of(reply: &Reply) -> (u64, u64) {
    match reply {
        Reply::Done => (0, 0),
        Reply::Frame(frame) => (1, frame.0 as u64),
        Reply::Word(word) => (2, *word),
        Reply::Moved { from, to } => (3, (from.0 as u64) * 0x1_0000_0000 + to.0 as u64),
        Reply::Opened { op } => (4, op.0),
        Reply::Restored => (5, 0),
        Reply::Released => (6, 0),
        Reply::Undone { count } => (7, *count),
        Reply::Refused(refusal) => refusal_code(refusal),
    }
}

/// Returns a refusal as two numbers: its kind and its value.
fn refusal_code(refusal: &Refusal) -> (u64, u64) {
    match refusal {
        Refusal::NoOwner => (101, 0),
        Refusal::NoPage => (102, 0),
        Refusal::NoWord => (103, 0),
        Refusal::AlreadyMapped => (104, 0),
        Refusal::NotMapped => (105, 0),
        Refusal::BadOrder => (106, 0),
        Refusal::NoFrame => (107, 0),
        Refusal::NoSuchFrame => (108, 0),
        Refusal::NotKernel => (109, 0),
        Refusal::NoCpu => (110, 0),
        Refusal::NoBlock => (111, 0),
        Refusal::EmptyPlan => (112, 0),
        Refusal::Twice { block } => (113, block.0 as u64),
        Refusal::Busy { block } => (114, block.0 as u64),
        Refusal::NotOnline { block } => (115, block.0 as u64),
        Refusal::NotOffline { block } => (116, block.0 as u64),
        Refusal::Unmovable { frame } => (117, frame.0 as u64),
        Refusal::NoOp => (118, 0),
        Refusal::NothingToMove => (119, 0),
        Refusal::NotFree { frame } => (120, frame.0 as u64),
        Refusal::Gone => (121, 0),
        Refusal::BadAddress => (122, 0),
        Refusal::NotAbsent { block } => (123, block.0 as u64),
    }
}
