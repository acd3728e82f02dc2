//! How a call is taken back.
ghost use Rattle.std.specs.Prelude.{◌≡◌, ◌∷◌, ◌++◌, [], IfOk, OnErr, OnOk};
ghost use Rattle.hp_units.specs.declared.replies.Record.{Record as NewRecord};
ghost use Rattle.hp_memory.specs.Steps.{StepsValue};
ghost use Rattle.hp_explore.specs.Paths.{IsWayOver};

use hp_memory::Steps;
use hp_schedules::Cursor;
use std::alloc::{AllocError, Global};
use std::mem::swap;

/// How to undo one call.
#[derive(Drop)]
pub(crate) enum Way {
    /// Undo the step of the call: all deltas from this index on.
    Mark(usize),
    /// Restore this state from before the call, kept whole because the call may itself go back to
    /// an earlier state. Boxed, because most calls need none.
    Kept(Box<Steps>),
}

/// A call that was made: how to undo it, and its processor's position before it.
#[derive(Drop)]
pub(crate) struct Turn {
    pub way: Way,
    pub from: Cursor,
}

impl Way {
    /// Replaces `here` by `there`, and returns the way back, which keeps the former `here`. If
    /// memory runs out, nothing changes.
    pub(crate) fn keep(alloc: Global, here: &mut Steps, there: Steps) -> Result<Way, AllocError>
        ensures there { OnOk result (here.new ≡ there) }
        ensures over { IfOk result (λ way. (r : NewRecord)
            → there.records ≡ here.old.records ++ r ∷ [] → IsWayOver way here.old r there) }
        ensures err { OnErr result (here.new ≡ here.old) }
    {
        match Box::new(alloc, there) {
            Ok(mut kept) => {
                swap(&mut *kept, here);
                Ok(Way::Kept(kept))
            }
            Err(_failed) => Err(AllocError),
        }
    }

    /// Restores the state and the records from before the call. Allocates nothing.
    pub(crate) fn lead_back(self, here: &mut Steps)
        requires { (old : StepsValue) × (r : NewRecord) × IsWayOver self old r here.old }
        ensures { (old : StepsValue) (r : NewRecord) → IsWayOver self old r here.old → here.new ≡ old }
    {
        match self {
            Way::Mark(mark) => here.take_back(mark),
            Way::Kept(steps) => *here = Box::into_inner(steps),
        }
    }
}
