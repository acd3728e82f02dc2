//! A machine that keeps no records.
ghost use Rattle.std.specs.Prelude.{◌≡◌, ◌↔◌, false, Err, IfOk, IsOk, OnErr, IsTrue, length};
ghost use Rattle.hp_history.specs.Course.{NeedsNoMemory, receipt_for};
ghost use Rattle.hp_machine.specs.Machine.{IsCalled, IsSound, booted, is_full, sealed};
ghost use Rattle.hp_machine.specs.MachinePorts.{IsPlanRun};

use crate::machine_port::{CallMachine, carry_out};
use hp_history::Journal;
use hp_memory::Memory;
use hp_plain::Image;
use hp_units::{CallFault, Cpu, Event, Layout, OpEnd, Plan, Reply, Serial};
use std::alloc::{AllocError, Global};
use std::marker::Model;

/// A machine that keeps no records: a journal whose history may have as many records as
/// the layout allows.
///
/// It replies to each call as a `Machine` does. Its value is a machine's, with the base and the
/// records; these exist only in proofs, and take no bytes.
#[derive(Drop)]
pub struct UnrecordedMachine {
    journal: Journal,
}

impl Model for UnrecordedMachine {
    ghost use Rattle.hp_machine.specs.Kept.{IsMachine};
    ghost use Rattle.hp_machine.specs.Machine.{MachineValue};

    ghost Value = { MachineValue };

    ghost view = { λ m. m.journal };

    ghost invariant = { λ m. IsMachine m.journal };
}

impl UnrecordedMachine {
    /// Boots a machine: it has no records, and the layout's state at boot.
    pub fn boot(alloc: Global, layout: &Layout) -> Result<UnrecordedMachine, AllocError>
        ensures { IfOk result (λ machine. machine ≡ booted layout.now) }
    {
        let journal = Journal::boot(alloc, layout)?;
        Ok(UnrecordedMachine { journal })
    }

    /// Makes one call: replies to a processor's event. Returns the serial of the record and the
    /// reply.
    ///
    /// Errors: `HistoryFull` if the history holds its limit of records, or if the last serial is
    /// 2^64 - 1; otherwise `OutOfMemory`, which never comes from an undo or a Cancel that restores.
    /// On an error, nothing changes.
    pub fn answer(
        &mut self,
        alloc: Global,
        cpu: Cpu,
        event: &Event,
    ) -> Result<(Serial, Reply), CallFault>
        ensures full { (result ≡ Err CallFault.HistoryFull) ↔ IsTrue (is_full self.old) }
        ensures succeeds { is_full self.old ≡ false → NeedsNoMemory self.old cpu event.now → IsOk result }
        ensures err { OnErr result (self.new ≡ self.old) }
        ensures ok { IfOk result
            (λ answer. IsCalled self.old cpu event.now (receipt_for event.now answer) self.new) }
    {
        if self.is_full() {
            return Err(CallFault::HistoryFull);
        }
        match self.journal.answer(alloc, cpu, event) {
            Ok(answer) => Ok(answer),
            Err(AllocError) => Err(CallFault::OutOfMemory),
        }
    }

    /// Carries out a plan as a processor, with at most `turns` migrations, and returns how its
    /// operation ended: `run_plan` of hp_ops through the processor's port. Each call counts as a
    /// record, except one that ends the run as `Left`.
    pub fn run_plan(&mut self, alloc: Global, cpu: Cpu, plan: Plan, turns: u32) -> OpEnd
        ensures { IsPlanRun self.old cpu turns plan result self.new }
    {
        carry_out(alloc, self, cpu, plan, turns)
    }

    /// Reserves room for the journal entries of `steps` more steps. The tape of deltas may still
    /// grow.
    pub fn reserve(&mut self, steps: usize) -> Result<(), AllocError>
        ensures { self.new ≡ self.old }
    {
        self.journal.reserve(steps)
    }

    /// Goes on without the records, and returns how many there were: the present state becomes the
    /// base, and no earlier step can be undone. Makes no record, and allocates nothing.
    pub fn seal(&mut self) -> u64
        ensures count { result ≡ length self.old.history }
        ensures goes_on { self.new ≡ sealed self.old }
    {
        self.journal.seal()
    }

    /// Called for its contract, which is that of a `Machine`: each frame is in exactly one place,
    /// and the pages hold what the owners' steps wrote.
    pub fn stays_sound(&self)
        ensures { IsSound self.now }
    {
        let _ = &self.journal;
    }

    /// Returns the layout.
    pub fn layout(&self) -> &Layout
        ensures { result.now ≡ self.now.layout }
    {
        self.journal.memory().layout()
    }

    /// Returns the present state, in layers.
    pub fn memory(&self) -> &Memory
        ensures { result.now ≡ record { layout = self.now.layout; state = self.now.state } }
    {
        self.journal.memory()
    }

    /// Returns the present state as an `Image` of its own.
    pub fn image(&self, alloc: Global) -> Result<Image, AllocError>
        ensures { IfOk result
            (λ image. image ≡ record { layout = self.now.layout; memory = self.now.state }) }
    {
        self.journal.image(alloc)
    }

    /// Returns whether there is no room for another record, so that calls fail with `HistoryFull`.
    pub fn is_full(&self) -> bool
        ensures { result ≡ is_full self.now }
    {
        self.journal.len() >= self.journal.memory().layout().history() || self.journal.is_spent()
    }
}

impl CallMachine for UnrecordedMachine {
    ghost machine = { λ m. m };

    fn cpus(&self) -> u32 {
        self.layout().cpus()
    }

    fn answer(
        &mut self,
        alloc: Global,
        cpu: Cpu,
        event: &Event,
    ) -> Result<(Serial, Reply), CallFault> {
        UnrecordedMachine::answer(self, alloc, cpu, event)
    }
}
