//! The table of encoded states.
ghost use Rattle.std.specs.Prelude.{◌≡◌, [], IfOk};
ghost use Rattle.hp_laws.specs.Numberings.{number_of};
ghost use Rattle.hp_laws.specs.Renumbered.{renumbered};
ghost use Rattle.hp_states.specs.Codes.{IsCoded, KeepCodes};

use crate::code::Code;
use crate::memories::put_memory;
use crate::texts::Texts;
use hp_memory::Memory;
use hp_units::Serial;
use std::alloc::{AllocError, Global};
use std::marker::Model;

/// A table that interns states: it stores each state's code and gives it a number, from 0 on.
///
/// A search compares and keeps these numbers in place of whole states. In contracts, the table's
/// value is the list of codes.
pub struct Codes {
    written: Code,
    texts: Texts,
}

impl Model for Codes {
    ghost use Rattle.std.specs.Prelude.{ℕ, List};

    ghost Value = { List (List ℕ) };

    ghost view = { λ c. c.texts };
}

/// Keeps callers from proving again how each field is dropped.
impl Drop for Codes {
    fn drop(self) {
        let Codes {
            written: _,
            texts: _,
        } = self;
    }
}

impl Codes {
    /// Creates an empty table. Allocates nothing.
    pub fn new(alloc: Global) -> Codes
        ensures { result ≡ [] }
    {
        Codes {
            written: Code::new(alloc),
            texts: Texts::new(alloc),
        }
    }

    /// Returns the number of the memory's state, and adds the state if it is not found. In the
    /// stored state, operations have the numbers of [`number_of`](hp_laws::number_of). So if
    /// two states differ only in the numbers of operations that are in `latest` and above `fixed`,
    /// they nearly always share a number.
    ///
    /// If memory runs out, all earlier numbers still mean the same states.
    pub fn number_of(
        &mut self,
        alloc: Global,
        memory: &Memory,
        fixed: Serial,
        latest: &[Serial],
    ) -> Result<usize, AllocError>
        ensures kept { KeepCodes self.old self.new }
        ensures ok { IfOk result (λ n. IsCoded memory.now.layout self.new n
            (renumbered (number_of fixed latest.now) memory.now.state)) }
    {
        memory.is_placed();
        self.written.clear();
        put_memory(&mut self.written, memory, fixed, latest)?;
        self.texts.number_of(self.written.bytes())
    }

    /// Returns about how many bytes the states take.
    pub(crate) fn size(&self) -> u64 {
        self.texts.size()
    }
}
