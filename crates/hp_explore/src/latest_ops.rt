//! The latest operation of each processor, by which a search numbers operations.
ghost use Rattle.std.specs.Prelude.{◌≡◌, ◌≤◌, ◌++◌, ◌∷◌, [], IfOk, List, OnOk, length};
ghost use Rattle.hp_units.specs.declared.replies.Record.{Record as NewRecord};
ghost use Rattle.hp_schedules.specs.Cursors.{AreCursors};
ghost use Rattle.hp_schedules.specs.Openings.{change_of};
ghost use Rattle.hp_schedules.specs.Schedules.{Setting};
ghost use Rattle.hp_explore.specs.LatestOps.{AreLatestAt, is_end, latest_here, ops_after};

use hp_schedules::{Change, Positions, change_of};
use hp_units::{Record, Serial};
use std::alloc::{AllocError, Global};
use std::marker::Model;

/// One operation per processor, by which a search renumbers operations: at the place where the
/// search is, and at each place before it.
///
/// It is the operation that the processor had begun last when the latest call with `Change::Ends`
/// was made, or 0. If no script has an `UndoAfter`, no Cancel can take back that call or an earlier
/// one. So operations have the same numbers in the current state and in all states that a Cancel
/// can lead back to.
pub(crate) struct LatestOps {
    processors: u32,
    /// One operation per processor for each place on the path, from the first place on.
    ops: Vec<Serial>,
}

/// Keeps callers from proving again how each field is dropped.
impl Drop for LatestOps {
    fn drop(self) {
        let LatestOps {
            processors: _,
            ops: _,
        } = self;
    }
}

impl LatestOps {
    /// Starts at the place before any call. `positions` are those of the processors there.
    pub(crate) fn start(
        alloc: Global,
        positions: &Positions,
        processors: u32,
    ) -> Result<LatestOps, AllocError>
        requires { processors ≡ length positions.now.cursors.items }
        ensures { IfOk result (λ ops. (g : Setting) → AreCursors g [] positions.now.cursors.items
            → AreLatestAt g [] ops) }
    {
        let mut ops = Vec::new(alloc);
        push_operations(&mut ops, positions, processors)?;
        Ok(LatestOps { processors, ops })
    }

    /// Returns, from processor 0 on, the operations by which a search renumbers at this place.
    pub(crate) fn here(&self) -> &[Serial]
        ensures { result.now ≡ latest_here self.now }
    {
        let first = self.ops.len().saturating_sub(self.processors as usize);
        &self.ops[first..]
    }

    /// Moves to the place after a call. `positions` are those of the processors there.
    pub(crate) fn go_on(
        &mut self,
        call: &Record,
        positions: &Positions,
        processors: u32,
    ) -> Result<(), AllocError>
        requires { processors ≡ length positions.now.cursors.items }
        ensures { OnOk result ((g : Setting) (news : List NewRecord)
            → AreCursors g (news ++ call.now ∷ []) positions.now.cursors.items
            → AreLatestAt g news self.old → AreLatestAt g (news ++ call.now ∷ []) self.new) }
    {
        if leaves_nothing(call) {
            push_operations(&mut self.ops, positions, processors)?;
        } else {
            let first = self.ops.len().saturating_sub(self.processors as usize);
            self.ops.extend_from_within(first..)?;
        }
        Ok(())
    }

    /// Moves back to the place before the latest call.
    pub(crate) fn go_back(&mut self)
        ensures { (g : Setting) (news : List NewRecord) (r : NewRecord)
            → AreLatestAt g (news ++ r ∷ []) self.old → AreLatestAt g news self.new }
    {
        let left = self.ops.len().saturating_sub(self.processors as usize);
        self.ops.truncate(left);
    }
}

/// Returns whether the change of the call is `Change::Ends`, which empties the list of operations
/// that a Cancel can undo.
fn leaves_nothing(call: &Record) -> bool
    ensures { result ≡ is_end (change_of call.now) }
{
    matches!(change_of(call), Change::Ends)
}

/// Appends the operation that each processor began last, from processor 0 on.
fn push_operations(
    ops: &mut Vec<Serial>,
    positions: &Positions,
    processors: u32,
) -> Result<(), AllocError>
    requires { processors ≡ length positions.now.cursors.items }
    ensures { OnOk result ((g : Setting) (news : List NewRecord)
        → AreCursors g news positions.now.cursors.items
        → ops.new.items ≡ ops.old.items ++ ops_after g news) }
{
    for cpu in 0..processors {
        ops.push(positions.operation(cpu))?;
    }
    Ok(())
}
