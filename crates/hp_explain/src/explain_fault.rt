//! Why a search for an order that explains answers failed.
ghost use Rattle.std.specs.Prelude.{◌≡◌};
ghost use Rattle.hp_search.specs.declared.lab_fault.LabFault.TheVariants.{OutOfMemory};
ghost use Rattle.hp_explain.specs.declared.explain_fault.ExplainFault.TheVariants.{Answers, Lab};

use crate::answers_fault::AnswersFault;
use hp_search::LabFault;
use std::alloc::AllocError;
use thiserror::Error;

/// Why a search for an order that explains the answers failed. `OutOfMemory` may come in place of
/// any other.
#[derive(Error, Clone, Copy, Debug, PartialEq, Eq, Drop)]
pub enum ExplainFault {
    /// The scenario cannot be read or searched, or memory ran out.
    #[error("{0}")]
    Lab(LabFault),
    /// The answers cannot be read.
    #[error("{0}")]
    Answers(AnswersFault),
}

impl From<AllocError> for ExplainFault {
    ghost from_gives = { λ _ e. e ≡ Lab OutOfMemory };

    fn from(_e: AllocError) -> ExplainFault {
        ExplainFault::Lab(LabFault::OutOfMemory)
    }
}

impl From<LabFault> for ExplainFault {
    ghost from_gives = { λ fault e. e ≡ Lab fault };

    fn from(fault: LabFault) -> ExplainFault {
        ExplainFault::Lab(fault)
    }
}

impl From<AnswersFault> for ExplainFault {
    ghost from_gives = { λ fault e. e ≡ Answers fault };

    fn from(fault: AnswersFault) -> ExplainFault {
        ExplainFault::Answers(fault)
    }
}
