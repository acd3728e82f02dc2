//! Why a text does not give the answers that a scenario's processors got.
ghost use Rattle.std.specs.Prelude.{◌≡◌};
ghost use Rattle.hp_explain.specs.declared.answers_fault.AnswersFault.TheVariants.{OutOfMemory};

use std::alloc::{AllocError, AllocFailed};
use thiserror::Error;

/// Why a text does not give the answers that a scenario's processors got. Lines are those of the
/// text, counted from 1. `OutOfMemory` may come in place of any other.
#[derive(Error, Clone, Copy, Debug, PartialEq, Eq, Drop)]
pub enum AnswersFault {
    /// The text is not UTF-8.
    #[error("the answers are not UTF-8")]
    NotUtf8,
    /// The line is neither an answer nor anything else that may come there.
    #[error("line {line} of the answers not understood")]
    BadLine { line: u64 },
    /// The line is missing, or is not the heading of the processor whose answers come next.
    #[error("line {line} of the answers is not `cpu {cpu}`")]
    NoHeading { cpu: u32, line: u64 },
    /// The scenario has no such processor.
    #[error("line {line} of the answers: there is no processor {cpu}")]
    NoProcessor { cpu: u64, line: u64 },
    /// The line is one answer more than the processor has lines.
    #[error("line {line} of the answers: processor {cpu} has fewer lines")]
    TooMany { cpu: u32, line: u64 },
    /// The processor has fewer answers than lines.
    #[error("processor {cpu}: answers to {answers} of {lines} lines")]
    TooFew { cpu: u32, answers: u64, lines: u64 },
    /// The answer begins like what `hotplug run` prints for a line of a script that no call
    /// finished: its call left no record, or it seals the history.
    #[error("line {line} of the answers: no call gets this answer")]
    NotOfACall { line: u64 },
    /// By the times in this line, a line of a script was answered before it began, or before an
    /// earlier line of its processor began or was answered.
    #[error("line {line} of the answers: its times are out of order")]
    TimesFall { line: u64 },
    /// Out of memory.
    #[error("out of memory")]
    OutOfMemory,
}

impl From<AllocError> for AnswersFault {
    ghost from_gives = { λ _ e. e ≡ OutOfMemory };

    fn from(_e: AllocError) -> AnswersFault {
        AnswersFault::OutOfMemory
    }
}

impl<T: Drop> From<AllocFailed<T>> for AnswersFault {
    ghost from_gives = { λ _ e. e ≡ OutOfMemory };

    fn from(_e: AllocFailed<T>) -> AnswersFault {
        AnswersFault::from(AllocError)
    }
}
