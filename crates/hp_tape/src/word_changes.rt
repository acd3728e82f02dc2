//! A word before and after a change, in a box.
ghost use Rattle.std.specs.Prelude.{◌≡◌, IfOk};

use std::alloc::{AllocError, Global};
use std::marker::Model;

/// A word before and after a change. It is boxed, so that it takes 8 bytes of a delta.
#[derive(Drop)]
pub struct WordChange {
    words: Box<WasAndNow>,
}

#[derive(Drop)]
struct WasAndNow {
    was: u64,
    now: u64,
}

impl Model for WordChange {
    ghost use Rattle.hp_tape.specs.WordChanges.{WordChangeValue};

    ghost Value = { WordChangeValue };

    ghost view = { λ c. record { was = c.words.value.was; now = c.words.value.now } };
}

impl WordChange {
    /// Creates the change of a word. Allocates its box.
    pub(crate) fn new(alloc: Global, was: u64, now: u64) -> Result<WordChange, AllocError>
        ensures { IfOk result (λ change. change ≡ record { was = was; now = now }) }
    {
        let words = Box::new(alloc, WasAndNow { was, now })?;
        Ok(WordChange { words })
    }

    /// Returns a copy. Allocates its box.
    pub(crate) fn copy(&self, alloc: Global) -> Result<WordChange, AllocError>
        ensures { IfOk result (λ change. change ≡ self.now) }
    {
        WordChange::new(alloc, self.was(), self.now())
    }

    /// Returns the word before the change.
    pub fn was(&self) -> u64
        ensures { result ≡ self.now.was }
    {
        self.words.was
    }

    /// Returns the word after the change.
    pub fn now(&self) -> u64
        ensures { result ≡ self.now.now }
    {
        self.words.now
    }
}
