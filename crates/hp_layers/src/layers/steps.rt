//! Carries out one step of any event.
ghost use Rattle.std.specs.Prelude.{◌≡◌, IfOk, OnErr};
ghost use Rattle.hp_units.specs.Step.{step};
ghost use Rattle.hp_layers.specs.Layers.{ArePlaced, IsAnswered, state_of};

use super::Layers;
use hp_tape::Tape;
use hp_units::{Cpu, Event, Refusal, Reply, Serial};
use std::alloc::{AllocError, Global};

impl Layers {
    /// Carries out one step of the definitions. Appends to the tape the deltas of what the step
    /// did.
    ///
    /// A Cancel only releases here, and an UndoAfter does nothing; the history does the rest. All
    /// memory is allocated before anything changes.
    pub fn step(
        &mut self,
        alloc: Global,
        serial: Serial,
        cpu: Cpu,
        event: &Event,
        tape: &mut Tape,
    ) -> Result<Reply, AllocError>
        requires placed { ArePlaced self.old }
        ensures ok { IfOk result (IsAnswered self.old event.now
            (step self.old.layout (state_of self.old) serial cpu event.now) self.new tape.old.deltas
            tape.new.deltas) }
        ensures err { OnErr result (self.new ≡ self.old) }
        ensures kept { OnErr result (tape.new ≡ tape.old) }
    {
        if cpu.0 >= self.layout.cpus() {
            return Ok(Reply::Refused(Refusal::NoCpu));
        }
        match event {
            Event::KernelAlloc { order } => self.kernel_alloc(cpu, *order, tape),
            Event::KernelFree { frame } => self.kernel_free(cpu, *frame, tape),
            Event::Map { owner, page } => self.map(cpu, *owner, *page, tape),
            Event::Unmap { owner, page } => self.unmap(cpu, *owner, *page, tape),
            Event::Write {
                owner,
                page,
                index,
                value,
            } => self.write(alloc, *owner, *page, *index, *value, tape),
            Event::Read { owner, page, index } => Ok(self.read(*owner, *page, *index)),
            Event::Migrate { op } => self.migrate(*op, tape),
            Event::Drain { cpu: drained } => self.drain(*drained, tape),
            Event::DrainFor { op, cpu: drained } => self.drain_for(*op, *drained, tape),
            Event::Begin { plan } => self.begin(serial, plan.as_slice(), tape),
            Event::Commit { op } => self.commit(alloc, *op, tape),
            Event::Cancel { op } => self.cancel(alloc, *op, tape),
            Event::Online { block, zone } => self.online(*block, *zone, tape),
            Event::Probe { address } => self.probe(*address, tape),
            Event::Remove { block } => self.remove(*block, tape),
            Event::SetAuto { auto } => self.set_auto(*auto, tape),
            Event::UndoAfter { .. } => Ok(Reply::Done),
        }
    }
}
