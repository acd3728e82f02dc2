//! The beginning of a line that has not ended yet.
ghost use Rattle.std.specs.Prelude.{◌≡◌, ◌≢◌, ◌≤◌, ◌++◌, List, ℕ, [], IfOk, IsTrue, false, vec_capacity, vec_len};
ghost use Rattle.hp_streams.specs.Talks.{Holds, nothing_held, quit};

use std::alloc::{AllocError, Global};
use std::marker::Model;

/// The greatest length of a line, in bytes, without its newline.
pub const LINE_LIMIT: usize = 65_536;

/// The bytes of a line so far, or that there are too many of them to be kept.
#[derive(Drop)]
pub(crate) struct Held {
    bytes: Vec<u8>,
    is_long: bool,
    ghost within: { vec_len bytes ≤ 65536 },
    ghost room: { 65536 ≤ vec_capacity bytes },
}

impl Model for Held {
    ghost use Rattle.hp_streams.specs.Talks.{HeldValue};

    ghost Value = { HeldValue };

    ghost view = { λ h. record { bytes = h.bytes.items; is_long = h.is_long } };
}

impl Held {
    /// Makes an empty beginning of a line, with room for a line of the greatest length.
    pub(crate) fn new(alloc: Global) -> Result<Held, AllocError>
        ensures { IfOk result (λ held. held ≡ nothing_held) }
    {
        Ok(Held {
            bytes: Vec::with_capacity(alloc, LINE_LIMIT)?,
            is_long: false,
        })
    }

    /// Returns whether the line is too long to be kept.
    pub(crate) fn is_long(&self) -> bool
        ensures { result ≡ self.now.is_long }
    {
        self.is_long
    }

    /// Returns the bytes of the line, if it is not too long.
    pub(crate) fn bytes(&self) -> &[u8]
        ensures { result.now ≡ self.now.bytes }
    {
        self.bytes.as_slice()
    }

    /// Returns whether the line has no byte yet.
    pub(crate) fn is_empty(&self) -> bool
        ensures yes { IsTrue result → (line : List ℕ) → Holds self.now line → line ≡ [] }
        ensures no { result ≡ false → (line : List ℕ) → Holds self.now line → line ≢ [] }
    {
        !self.is_long && self.bytes.is_empty()
    }

    /// Returns whether the line is the one that ends a talk.
    pub(crate) fn is_quit(&self) -> bool
        ensures yes { IsTrue result → (line : List ℕ) → Holds self.now line → line ≡ quit }
        ensures no { result ≡ false → (line : List ℕ) → Holds self.now line → line ≢ quit }
    {
        !self.is_long && self.bytes.as_slice() == b"quit".as_slice()
    }

    /// Adds bytes to the line.
    pub(crate) fn hold(&mut self, more: &[u8])
        ensures { (line : List ℕ) → Holds self.old line → Holds self.new (line ++ more.now) }
    {
        if self.is_long || more.len() > LINE_LIMIT - self.bytes.len() {
            self.is_long = true;
            return;
        }
        if let Err(AllocError) = self.bytes.extend_from_slice(more) {
            self.is_long = true;
        }
    }

    /// Begins the next line.
    pub(crate) fn clear(&mut self)
        ensures { self.new ≡ nothing_held }
    {
        self.bytes.clear();
        self.is_long = false;
    }
}
