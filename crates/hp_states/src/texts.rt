//! Interned byte strings.
ghost use Rattle.std.specs.Prelude.{◌≡◌, ◌<◌, ◌≤◌, ◌++◌, ◌∷◌, [], IfNone, IfOk, IfSome, OnErr, OnOk, Some, length, slice_get, true};
ghost use Rattle.hp_states.specs.Codes.{IsAmong, IsFoundOrAdded, KeepCodes};
ghost use Rattle.hp_states.specs.Texts.{AreTextsFrom, start_of, texts_from};

use crate::digests::digest_of;
use indexmap::IndexMap;
use std::alloc::{AllocError, Global};
use std::marker::Model;

/// About how many bytes a table takes per entry, besides the entry itself: hash, number, slot and
/// spare room.
const TABLE_BYTES: u64 = 64;

/// Byte strings in one buffer, with the end of each.
///
/// `latest` maps a hash to the newest string that has it, unless memory ran out when a later one
/// was added.
pub(crate) struct Texts {
    bytes: Vec<u8>,
    ends: Vec<usize>,
    latest: IndexMap<u64, usize>,
}

impl Model for Texts {
    ghost use Rattle.std.specs.Prelude.{ℕ, List, length};
    ghost use Rattle.hp_states.specs.Texts.{AreTextsFrom, texts_from};

    ghost Value = { List (List ℕ) };

    ghost view = { λ t. texts_from t.bytes.items 0 t.ends.items };

    ghost invariant = { λ t. AreTextsFrom (length t.bytes.items) 0 t.ends.items };
}

/// Keeps callers from proving again how each field is dropped.
impl Drop for Texts {
    fn drop(self) {
        let Texts {
            bytes: _,
            ends: _,
            latest: _,
        } = self;
    }
}

impl Texts {
    /// Creates an empty collection. Allocates nothing.
    pub(crate) fn new(alloc: Global) -> Texts
        ensures { result ≡ [] }
    {
        Texts {
            bytes: Vec::new(alloc),
            ends: Vec::new(alloc),
            latest: IndexMap::new(alloc),
        }
    }

    /// Returns the number of `text`, and adds it if it is not found.
    ///
    /// If memory runs out, all earlier numbers still mean the same strings.
    pub(crate) fn number_of(&mut self, text: &[u8]) -> Result<usize, AllocError>
        ensures kept { KeepCodes self.old self.new }
        ensures ok { IfOk result (λ n. slice_get self.new n ≡ Some text.now) }
    {
        let digest = digest_of(text);
        match self.found(digest, text) {
            Some(number) => Ok(number),
            None => self.append(digest, text),
        }
    }

    /// Returns whether `text` is found. If not, it may still be among the strings.
    pub(crate) fn has(&self, text: &[u8]) -> bool
        ensures { result ≡ true → IsAmong self.now text.now }
    {
        self.found(digest_of(text), text).is_some()
    }

    /// Returns whether `text` is found, and adds it if not. If memory runs out, the strings stay as
    /// they were.
    pub(crate) fn find_or_add(&mut self, text: &[u8]) -> Result<bool, AllocError>
        ensures ok { IfOk result (IsFoundOrAdded self.old self.new text.now) }
        ensures err { OnErr result (self.new ≡ self.old) }
    {
        let digest = digest_of(text);
        if self.found(digest, text).is_some() {
            return Ok(true);
        }
        let _number = self.append(digest, text)?;
        Ok(false)
    }

    /// Returns the number of `text` if it is the newest string with its hash.
    pub(crate) fn find(&self, text: &[u8]) -> Option<usize>
        ensures { IfSome result (λ n. slice_get self.now n ≡ Some text.now) }
    {
        self.found(digest_of(text), text)
    }

    /// Appends a string, also one that is there already, and returns its number. If memory runs
    /// out, the strings stay as they were.
    pub(crate) fn add(&mut self, text: &[u8]) -> Result<usize, AllocError>
        ensures ok { OnOk result (self.new ≡ self.old ++ text.now ∷ []) }
        ensures number { IfOk result (λ n. n ≡ length self.old) }
        ensures err { OnErr result (self.new ≡ self.old) }
    {
        self.append(digest_of(text), text)
    }

    /// Returns about how many bytes the strings take.
    pub(crate) fn size(&self) -> u64 {
        (self.bytes.len() as u64).saturating_add(
            (self.ends.len() as u64).saturating_mul(TABLE_BYTES),
        )
    }

    /// Returns the number of `text` if it is the newest string with this hash.
    ///
    /// An older string with the same hash is not looked for: a collision costs a second copy, never
    /// a wrong number.
    fn found(&self, digest: u64, text: &[u8]) -> Option<usize>
        ensures { IfSome result (λ n. slice_get self.now n ≡ Some text.now) }
    {
        let Some(number) = self.latest.get(&digest) else {
            return None;
        };
        let Some(kept) = text_in(&self.bytes, &self.ends, *number) else {
            return None;
        };
        if kept == text { Some(*number) } else { None }
    }

    /// Appends a string under its hash and returns its number. If memory runs out, the strings stay
    /// as they were.
    fn append(&mut self, digest: u64, text: &[u8]) -> Result<usize, AllocError>
        ensures ok { OnOk result (self.new ≡ self.old ++ text.now ∷ []) }
        ensures number { IfOk result (λ n. n ≡ length self.old) }
        ensures err { OnErr result (self.new ≡ self.old) }
    {
        self.ends.reserve(1)?;
        let number = self.ends.len();
        match self.latest.insert(digest, number) {
            Ok(_earlier) => {}
            Err(_failed) => return Err(AllocError),
        }
        self.bytes.extend_from_slice(text)?;
        self.ends.push_reserved(self.bytes.len());
        Ok(number)
    }
}

/// Returns the string with this number, if there is one. `bytes` has all strings, one after
/// another, and `ends` has the end of each.
fn text_in<'a>(bytes: &'a [u8], ends: &[usize], number: usize) -> Option<&'a [u8]>
    requires { AreTextsFrom (length bytes.now) 0 ends.now }
    ensures some { IfSome result (λ text. slice_get (texts_from bytes.now 0 ends.now) number
        ≡ Some text.now) }
    ensures none { IfNone result (length ends.now ≤ number) }
{
    if number >= ends.len() {
        return None;
    }
    let start = start_of(ends, number);
    bytes.get(start..ends[number])
}

/// Returns where a string or row starts in its buffer, which is where the one before it ends.
pub(crate) fn start_of(ends: &[usize], number: usize) -> usize
    requires { number < length ends.now }
    ensures { result ≡ start_of 0 ends.now number }
{
    if number == 0 { 0 } else { ends[number - 1] }
}
