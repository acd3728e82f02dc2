//! Stores each frame's buffer of words.
ghost use Rattle.std.specs.Prelude.{◌≡◌, ◌<◌, IfOk, IfSome, None, Some, length, option_map, replicate, slice_index_or, slice_set};
ghost use Rattle.hp_units.specs.Pages.{fresh_words};
ghost use Rattle.hp_tape.specs.Deltas.{is_blank};

use hp_units::{Frame, Layout, Words};
use std::alloc::{AllocError, Global};
use std::marker::Model;
use std::mem::replace;

/// Each frame's buffer of words, if it has one.
#[derive(Drop)]
pub(crate) struct Buffers {
    frames: Vec<Option<Words>>,
}

impl Model for Buffers {
    ghost use Rattle.std.specs.Prelude.{List, ℕ, Option};

    ghost Value = { List (Option (List ℕ)) };

    ghost view = { λ b. b.frames.items };
}

impl Buffers {
    /// Creates the entries of `count` frames without a buffer.
    pub(crate) fn none(alloc: Global, count: u32) -> Result<Buffers, AllocError>
        ensures { IfOk result (λ buffers. buffers ≡ replicate count None) }
    {
        let mut frames = Vec::with_capacity(alloc, count as usize)?;
        for _frame in 0..count {
            frames.push(None)?;
        }
        Ok(Buffers { frames })
    }

    /// Returns a copy.
    pub(crate) fn copy(&self, alloc: Global) -> Result<Buffers, AllocError>
        ensures { IfOk result (λ buffers. buffers ≡ self.now) }
    {
        let mut frames = Vec::with_capacity(alloc, self.frames.len())?;
        for words in &self.frames {
            frames.push(Words::copy_if_any(alloc, words)?)?;
        }
        Ok(Buffers { frames })
    }

    /// Returns the words of a frame, if it has a buffer.
    pub(crate) fn words(&self, frame: Frame) -> Option<&[u64]>
        requires { frame < length self.now }
        ensures { option_map (λ words. words.now) result ≡ slice_index_or self.now frame None }
    {
        match &self.frames[frame.0 as usize] {
            Some(words) => Some(words.as_slice()),
            None => None,
        }
    }

    /// Gives a frame a buffer.
    pub(crate) fn put(&mut self, frame: Frame, words: Words)
        requires { frame < length self.old }
        ensures { self.new ≡ slice_set self.old frame (Some words) }
    {
        self.frames[frame.0 as usize] = Some(words);
    }

    /// Takes a frame's buffer away and returns it, if there is one.
    pub(crate) fn take(&mut self, frame: Frame) -> Option<Words>
        requires { frame < length self.old }
        ensures taken { result ≡ slice_index_or self.old frame None }
        ensures gone { self.new ≡ slice_set self.old frame None }
    {
        replace(&mut self.frames[frame.0 as usize], None)
    }

    /// Drops a frame's buffer, if there is one.
    pub(crate) fn clear(&mut self, frame: Frame)
        requires { frame < length self.old }
        ensures { self.new ≡ slice_set self.old frame None }
    {
        self.frames[frame.0 as usize] = None;
    }

    /// Swaps the buffers of two frames. No word is copied.
    pub(crate) fn swap(&mut self, a: Frame, b: Frame)
        requires a { a < length self.old }
        requires b { b < length self.old }
        ensures { self.new ≡ slice_set (slice_set self.old a (slice_index_or self.old b None)) b
            (slice_index_or self.old a None) }
    {
        self.frames.swap(a.0 as usize, b.0 as usize);
    }

    /// Writes one word of a frame, if it has a buffer.
    pub(crate) fn set_word(&mut self, frame: Frame, index: u32, value: u64)
        requires frame { frame < length self.old }
        requires index { IfSome (slice_index_or self.old frame None) (λ words. index < length words) }
        ensures { self.new ≡ slice_set self.old frame
            (option_map (λ words. slice_set words index value) (slice_index_or self.old frame None)) }
    {
        if let Some(words) = &mut self.frames[frame.0 as usize] {
            words.set(index, value);
        }
    }
}

/// Returns whether all words are 0: then their page needs no buffer.
pub fn is_blank(words: &[u64]) -> bool
    ensures { result ≡ is_blank words.now }
{
    words.iter().all(|word| *word == 0)
}

/// Returns whether all words are 0, except possibly the one at `index`.
pub(crate) fn is_blank_beside(words: &[u64], index: u32) -> bool
    requires { index < length words.now }
    ensures { result ≡ is_blank (slice_set words.now index 0) }
{
    let at = index as usize;
    is_blank(&words[..at]) && is_blank(&words[at + 1..])
}

/// Creates the words of a new page, all 0.
pub(crate) fn zeros(alloc: Global, layout: &Layout) -> Result<Words, AllocError>
    ensures { IfOk result (λ words. words ≡ fresh_words layout.now) }
{
    let words = vec![in alloc; 0; layout.words() as usize]?;
    Words::new(alloc, words)
}
