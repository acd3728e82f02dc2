//! A memory, the records of its steps, and the way back over them.
ghost use Rattle.std.specs.Prelude.{◌≡◌, [], IfOk, OnErr};
ghost use Rattle.hp_units.specs.Placement.{IsWellPlaced};
ghost use Rattle.hp_units.specs.declared.replies.Record.{Record as StepRecord};
ghost use Rattle.hp_memory.specs.Steps.{IsLater, IsStepped, StepsValue};

use crate::Memory;
use hp_plain::Image;
use hp_tape::Tape;
use hp_units::{Cpu, Event, Record, Serial};
use std::alloc::{AllocError, Global};
use std::marker::Model;

/// A memory with the records of the steps that led to it, and the deltas of those steps that `make`
/// made.
pub struct Steps {
    memory: Memory,
    tape: Tape,
    records: Vec<Record>,
}

/// Keeps callers from proving again how each field is dropped.
impl Drop for Steps {
    fn drop(self) {
        let Steps {
            memory: _memory,
            tape: _tape,
            records: _records,
        } = self;
    }
}

impl Model for Steps {
    ghost use Rattle.hp_memory.specs.Steps.{StepsValue};

    ghost Value = { StepsValue };

    ghost view = { λ s. record {
      layout = s.memory.layout;
      state = s.memory.state;
      deltas = s.tape.deltas;
      records = s.records.items;
    } };
}

impl Steps {
    /// Starts at the well placed state of `image`, with `records` as the steps that led to it.
    pub fn start(alloc: Global, image: &Image, records: Vec<Record>) -> Result<Steps, AllocError>
        requires placed { IsWellPlaced image.now.layout image.now.memory }
        ensures { IfOk result (λ steps. steps ≡ record {
          layout = image.now.layout;
          state = image.now.memory;
          deltas = [];
          records = records.items;
        }) }
    {
        let memory = Memory::from_image(alloc, image)?;
        let tape = Tape::with_room(alloc, 0)?;
        Ok(Steps {
            memory,
            tape,
            records,
        })
    }

    /// Returns the present memory.
    pub fn memory(&self) -> &Memory
        ensures { result.now ≡ record { layout = self.now.layout; state = self.now.state } }
    {
        &self.memory
    }

    /// Returns the records, oldest first.
    pub fn records(&self) -> &[Record]
        ensures { result.now ≡ self.now.records }
    {
        self.records.as_slice()
    }

    /// Makes the step of a processor's event, and records it under `serial`. Returns the number of
    /// deltas before the step, which `take_back` needs. On an error, nothing changes.
    pub fn make(
        &mut self,
        alloc: Global,
        serial: Serial,
        cpu: Cpu,
        event: &Event,
    ) -> Result<usize, AllocError>
        ensures ok { IfOk result (λ mark. IsStepped self.old serial cpu event.now mark self.new) }
        ensures err { OnErr result (self.new ≡ self.old) }
    {
        let recorded = event.copy(alloc)?;
        self.records.reserve(1)?;
        let mark = self.tape.len();
        self.memory.is_placed();
        let reply = self.memory.step(alloc, serial, cpu, event, &mut self.tape)?;
        self.records.push_reserved(Record {
            serial,
            cpu,
            event: recorded,
            reply,
        });
        Ok(mark)
    }

    /// Takes the latest step back. `mark` is what `make` returned for it. Allocates nothing.
    pub fn take_back(&mut self, mark: usize)
        requires { (old : StepsValue) × (r : StepRecord) × IsLater old r mark self.old }
        ensures { (old : StepsValue) (r : StepRecord) → IsLater old r mark self.old → self.new ≡ old }
    {
        self.memory.back(&mut self.tape, mark);
        let _latest = self.records.pop();
    }
}
