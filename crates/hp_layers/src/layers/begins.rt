//! Begins operations.
ghost use Rattle.std.specs.Prelude.{◌≡◌, ◌*◌, ◌≤◌, IfOk, OnErr};
ghost use Rattle.hp_units.specs.declared.events.Event.TheVariants.{Begin};
ghost use Rattle.hp_plain.specs.Asked.{opened};
ghost use Rattle.hp_tape.specs.Bounds.{moved_block_bound};
ghost use Rattle.hp_layers.specs.Layers.{ArePlaced, IsAnswered, state_of};
ghost use Rattle.hp_layers.specs.Operations.{claimed_below};

use super::Layers;
use hp_tape::Tape;
use hp_units::{Item, Reply, Serial};
use std::alloc::AllocError;

impl Layers {
    /// Begins operation `op`, unless the plan is refused.
    #[tactic(auto, using(crate::proofs::Answers::refused))]
    pub(crate) fn begin(
        &mut self,
        op: Serial,
        plan: &[Item],
        tape: &mut Tape,
    ) -> Result<Reply, AllocError>
        requires placed { ArePlaced self.old }
        ensures ok { IfOk result (IsAnswered self.old (Begin plan.now)
            (opened self.old.layout (state_of self.old) op plan.now) self.new tape.old.deltas
            tape.new.deltas) }
        ensures err { OnErr result (self.new ≡ self.old) }
        ensures kept { OnErr result (tape.new ≡ tape.old) }
    {
        if let Some(refusal) = self.plan_refusal(plan) {
            return Ok(Reply::Refused(refusal));
        }
        tape.reserve(self.plan_room(plan))?;
        self.begin_plan(op, plan, tape);
        Ok(Reply::Opened { op })
    }

    /// Returns an upper bound on the number of deltas that claiming the blocks of a plan may note.
    fn plan_room(&self, plan: &[Item]) -> usize
        ensures { claimed_below plan.now self.now.layout.blocks * moved_block_bound self.now.layout ≤ result }
    {
        let items = plan.len().min(self.layout.blocks() as usize);
        items * self.moved_block_room()
    }
}
