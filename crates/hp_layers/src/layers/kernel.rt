//! The events of kernel blocks. The caller's processor is in the layout.
ghost use Rattle.std.specs.Prelude.{◌≡◌, ◌+◌, ◌<◌, IfOk, OnErr};
ghost use Rattle.hp_units.specs.declared.events.Event.TheVariants.{KernelAlloc, KernelFree};
ghost use Rattle.hp_plain.specs.Asked.{asked};
ghost use Rattle.hp_layers.specs.Layers.{ArePlaced, IsAnswered, state_of};

use super::Layers;
use hp_tape::Tape;
use hp_units::{Cpu, Frame, Order, Refusal, Reply};
use std::alloc::AllocError;

impl Layers {
    /// Takes a block for the kernel.
    #[tactic(auto, using(crate::proofs::Answers::refused, crate::proofs::Answers::refused_none))]
    pub(crate) fn kernel_alloc(
        &mut self,
        cpu: Cpu,
        order: Order,
        tape: &mut Tape,
    ) -> Result<Reply, AllocError>
        requires cpu { cpu < self.old.layout.cpus }
        requires placed { ArePlaced self.old }
        ensures ok { IfOk result (IsAnswered self.old (KernelAlloc order)
            (asked self.old.layout (state_of self.old) cpu (KernelAlloc order)) self.new tape.old.deltas
            tape.new.deltas) }
        ensures err { OnErr result (self.new ≡ self.old) }
        ensures kept { OnErr result (tape.new ≡ tape.old) }
    {
        if order.0 > self.layout.order() {
            return Ok(Reply::Refused(Refusal::BadOrder));
        }
        let room = self.frames.kernel_block_room(&self.layout, cpu, order);
        tape.reserve(room + 1)?;
        match self.frames.kernel_block(cpu, order, tape) {
            Some(frame) => {
                self.kernel.set(frame, Some(order), tape);
                Ok(Reply::Frame(frame))
            }
            None => Ok(Reply::Refused(Refusal::NoFrame)),
        }
    }

    /// Gives a block of the kernel back.
    #[tactic(auto, using(crate::proofs::Answers::refused))]
    pub(crate) fn kernel_free(
        &mut self,
        cpu: Cpu,
        frame: Frame,
        tape: &mut Tape,
    ) -> Result<Reply, AllocError>
        requires cpu { cpu < self.old.layout.cpus }
        requires placed { ArePlaced self.old }
        ensures ok { IfOk result (IsAnswered self.old (KernelFree frame)
            (asked self.old.layout (state_of self.old) cpu (KernelFree frame)) self.new tape.old.deltas
            tape.new.deltas) }
        ensures err { OnErr result (self.new ≡ self.old) }
        ensures kept { OnErr result (tape.new ≡ tape.old) }
    {
        if frame.0 >= self.layout.frames() {
            return Ok(Reply::Refused(Refusal::NoSuchFrame));
        }
        let Some(order) = self.kernel.order_at(frame) else {
            return Ok(Reply::Refused(Refusal::NotKernel));
        };
        let zone = self.zone_of(frame);
        let room = self
            .frames
            .give_back_room(&self.layout, cpu, zone, frame, order);
        tape.reserve(room + 1)?;
        self.kernel.set(frame, None, tape);
        self.frames.give_back(cpu, zone, frame, order, tape);
        Ok(Reply::Done)
    }
}
