//! What the proofs of a journal remember: the state that it began with, and its records.
ghost use Rattle.std.specs.Prelude.{◌≡◌, List, [], ◌∷◌, ◌++◌};
ghost use Rattle.std.specs.Borrow.{ftrue};
ghost use Rattle.hp_units.specs.Memory.{Memory as State};
ghost use Rattle.hp_units.specs.declared.replies.Record.{Record};

use hp_memory::Memory;
use hp_units::{Cpu, Event, Reply, Serial};
use std::marker::Model;
use std::mem::size_of;

/// A base state and the records since, oldest first. Only for proofs: its methods do nothing when
/// they run.
#[derive(Drop)]
pub(crate) struct Remembered {
    pub(crate) ghost base: { State },
    pub(crate) ghost history: { List Record },
}

/// A `Remembered` takes no bytes.
const _: () = prove!(size_of::<Remembered>() == 0);

impl Model for Remembered {
    ghost also_owns = { λ _. ftrue };
}

// A `Remembered` owns nothing.
unsafe impl Send for Remembered {}

unsafe impl Sync for Remembered {}

impl Remembered {
    /// Returns a memory's state as the base, with no record yet.
    #[inline(always)]
    pub(crate) fn start(memory: &Memory) -> Remembered
        ensures { result ≡ record { base = memory.now.state; history = [] } }
    {
        Remembered {}
    }

    /// Returns the base and the records, with one more record at the end.
    #[inline(always)]
    pub(crate) fn and(&self, serial: &Serial, cpu: &Cpu, event: &Event, reply: &Reply) -> Remembered
        ensures { result ≡ record {
          base = self.now.base;
          history = self.now.history
              ++ record { serial = serial.now; cpu = cpu.now; event = event.now; reply = reply.now } ∷ [];
        } }
    {
        Remembered {}
    }

    /// Returns a copy.
    #[inline(always)]
    pub(crate) fn again(&self) -> Remembered
        ensures { result ≡ self.now }
    {
        Remembered {}
    }
}
