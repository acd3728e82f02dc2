//! A list of deltas, with room for more.
ghost use Rattle.std.specs.Prelude.{◌≡◌, ◌+◌, ◌<◌, ◌≤◌, [], ◌∷◌, ◌++◌, length, IfOk, IsOk, MatchOption, OnErr, OnOk};
ghost use Rattle.hp_tape.specs.Tapes.{HasRoom};

use crate::deltas::Delta;
use std::alloc::{AllocError, Global};
use std::marker::Model;

/// Deltas, oldest first, with room for more. Noting a delta never allocates.
#[derive(Drop)]
pub struct Tape {
    deltas: Vec<Delta>,
}

impl Model for Tape {
    ghost use Rattle.std.specs.Prelude.{vec_capacity};
    ghost use Rattle.hp_tape.specs.Tapes.{TapeValue};

    ghost Value = { TapeValue };

    ghost view = { λ t. record { room = vec_capacity t.deltas; deltas = t.deltas.items } };
}

impl Tape {
    /// Creates an empty tape with room for `n` deltas.
    pub fn with_room(alloc: Global, n: usize) -> Result<Tape, AllocError>
        ensures room { IfOk result (λ tape. tape.room ≡ n) }
        ensures none { IfOk result (λ tape. tape.deltas ≡ []) }
    {
        let deltas = Vec::with_capacity(alloc, n)?;
        Ok(Tape { deltas })
    }

    /// Returns a copy, without room for more deltas.
    pub fn copy(&self, alloc: Global) -> Result<Tape, AllocError>
        ensures deltas { IfOk result (λ copy. copy.deltas ≡ self.now.deltas) }
        ensures room { IfOk result (λ copy. copy.room ≡ length self.now.deltas) }
    {
        let deltas = self.as_slice();
        let mut copy = Tape::with_room(alloc, deltas.len())?;
        for delta in deltas {
            copy.note(delta.copy(alloc)?);
        }
        Ok(copy)
    }

    /// Makes room for `n` more deltas. The room grows by a factor, so that many small calls copy
    /// each delta only a few times.
    ///
    /// Fails only if room was missing, and then the tape is as before.
    pub fn reserve(&mut self, n: usize) -> Result<(), AllocError>
        ensures deltas { self.new.deltas ≡ self.old.deltas }
        ensures room { OnOk result (HasRoom self.new n) }
        ensures grows { self.old.room ≤ self.new.room }
        ensures succeeds { HasRoom self.old n → IsOk result }
        ensures full { OnErr result (self.new ≡ self.old) }
    {
        self.deltas.reserve(n)
    }

    /// Notes a delta. There must be room for it.
    pub fn note(&mut self, delta: Delta)
        requires { length self.old.deltas < self.old.room }
        ensures room { self.new.room ≡ self.old.room }
        ensures noted { self.new.deltas ≡ self.old.deltas ++ delta ∷ [] }
    {
        self.deltas.push_reserved(delta);
    }

    /// Removes the latest delta and returns it.
    pub fn latest(&mut self) -> Option<Delta>
        ensures latest { MatchOption result ((self.old.deltas ≡ []) × (self.new.deltas ≡ []))
            (λ delta. self.old.deltas ≡ self.new.deltas ++ delta ∷ []) }
        ensures room { self.new.room ≡ self.old.room }
    {
        self.deltas.pop()
    }

    /// Returns the deltas, oldest first.
    pub fn as_slice(&self) -> &[Delta]
        ensures { result.now ≡ self.now.deltas }
    {
        self.deltas.as_slice()
    }

    /// Returns how many deltas are noted.
    pub fn len(&self) -> usize
        ensures { result ≡ length self.now.deltas }
    {
        self.deltas.len()
    }

    /// Frees the room that no delta uses: all of it if the tape is empty.
    pub fn trim(&mut self)
        ensures deltas { self.new.deltas ≡ self.old.deltas }
        ensures room { self.new.room ≤ self.old.room }
        ensures frees { self.old.deltas ≡ [] → self.new.room ≡ 0 }
    {
        self.deltas.shrink_to_fit();
    }
}
