//! The events that drain a processor's lists. The caller's processor is in the layout.
ghost use Rattle.std.specs.Prelude.{◌≡◌, IfOk, OnErr};
ghost use Rattle.hp_units.specs.declared.events.Event.TheVariants.{Drain, DrainFor};
ghost use Rattle.hp_plain.specs.Asked.{asked};
ghost use Rattle.hp_layers.specs.Layers.{ArePlaced, IsAnswered, state_of};

use super::Layers;
use hp_tape::Tape;
use hp_units::{Cpu, Refusal, Reply, Serial};
use std::alloc::AllocError;

impl Layers {
    /// Drains a processor's lists.
    #[tactic(auto, using(crate::proofs::Answers::refused))]
    pub(crate) fn drain(&mut self, drained: Cpu, tape: &mut Tape) -> Result<Reply, AllocError>
        requires placed { ArePlaced self.old }
        ensures ok { IfOk result (IsAnswered self.old (Drain drained)
            (asked self.old.layout (state_of self.old) 0 (Drain drained)) self.new tape.old.deltas
            tape.new.deltas) }
        ensures err { OnErr result (self.new ≡ self.old) }
        ensures kept { OnErr result (tape.new ≡ tape.old) }
    {
        if drained.0 >= self.layout.cpus() {
            return Ok(Reply::Refused(Refusal::NoCpu));
        }
        let room = self.frames.drain_room(&self.layout, drained);
        tape.reserve(room)?;
        self.frames.drain(drained, tape);
        Ok(Reply::Done)
    }

    /// Drains a processor's lists as a step of an operation.
    #[tactic(auto, using(crate::proofs::Answers::refused))]
    pub(crate) fn drain_for(
        &mut self,
        op: Serial,
        drained: Cpu,
        tape: &mut Tape,
    ) -> Result<Reply, AllocError>
        requires placed { ArePlaced self.old }
        ensures ok { IfOk result (IsAnswered self.old (DrainFor op drained)
            (asked self.old.layout (state_of self.old) 0 (DrainFor op drained)) self.new tape.old.deltas
            tape.new.deltas) }
        ensures err { OnErr result (self.new ≡ self.old) }
        ensures kept { OnErr result (tape.new ≡ tape.old) }
    {
        if drained.0 >= self.layout.cpus() {
            return Ok(Reply::Refused(Refusal::NoCpu));
        }
        if !self.blocks.is_live(op) {
            return Ok(Reply::Refused(Refusal::NoOp));
        }
        let room = self.frames.drain_room(&self.layout, drained);
        tape.reserve(room)?;
        self.frames.drain(drained, tape);
        Ok(Reply::Done)
    }
}
