//! A set of frames: a bitmap that is searched word by word.
ghost use Rattle.std.specs.Prelude.{◌≡◌, ℕ, ◌*◌, ◌<◌, ◌≤◌, ◌^◌, ◌/◌, ◌+◌, ◌==◌, IfOk, length, replicate, slice_index, if◌then◌else◌};
ghost use Rattle.std.specs.Int.{bit_at};
ghost use Rattle.hp_pages.specs.FrameSets.{FindsLowest, bit_of, has};

use hp_units::Frame;
use std::alloc::{AllocError, Global};
use std::marker::Model;

/// A set of frames, as a bitmap of 64 frames per word, lowest bit first. Only `none` and `copy`
/// allocate.
///
/// In contracts, its value is the list of words; `has` of specs/FrameSets tests whether a frame is
/// in the set.
#[derive(Drop)]
pub struct FrameSet {
    words: Vec<u64>,
}

impl Model for FrameSet {
    ghost use Rattle.std.specs.Prelude.{List, ℕ};

    ghost Value = { List ℕ };

    ghost view = { λ s. s.words.items };
}

impl FrameSet {
    /// Creates an empty set for frames below `frames`.
    pub fn none(alloc: Global, frames: u32) -> Result<FrameSet, AllocError>
        ensures none { IfOk result (λ set. set ≡ replicate (frames / 64 + 1) 0) }
    {
        let words = vec![in alloc; 0; (frames / 64 + 1) as usize]?;
        Ok(FrameSet { words })
    }

    /// Returns a copy.
    pub fn copy(&self, alloc: Global) -> Result<FrameSet, AllocError>
        ensures { IfOk result (λ set. set ≡ self.now) }
    {
        let words = Vec::from_slice(alloc, self.words.as_slice())?;
        Ok(FrameSet { words })
    }

    /// Puts the frame in if `is_in` is true, or takes it out.
    pub fn set(&mut self, frame: Frame, is_in: bool)
        requires { frame < 64 * length self.old }
        ensures len { length self.new ≡ length self.old }
        ensures has { (n : ℕ) → has self.new n ≡ (if n == frame then is_in else has self.old n) }
    {
        let at = (frame.0 / 64) as usize;
        self.words[at] = with_bit(self.words[at], frame.0 % 64, is_in);
    }

    /// Returns the lowest frame in the set with first <= frame < past. Takes one step per 64
    /// frames.
    pub fn lowest(&self, first: u32, past: u32) -> Option<Frame>
        requires within { past ≤ 64 * length self.now }
        requires small { past ≤ 2 ^ 20 }
        ensures { FindsLowest (has self.now) first past result }
    {
        let mut at = first;
        while at < past {
            if let Some(bit) = lowest_bit(self.words[(at / 64) as usize], at % 64) {
                let found = at / 64 * 64 + bit;
                return if found < past {
                    Some(Frame(found))
                } else {
                    None
                };
            }
            at = self.skip_empty(at / 64 + 1, past / 64) * 64;
        }
        None
    }

    /// Returns the index of the first word that is not 0, at or after `first` and before `past`. If
    /// there is none, returns `first` or `past`, whichever is greater.
    fn skip_empty(&self, first: u32, past: u32) -> u32
        requires within { past ≤ length self.now }
        requires small { first + past < 2 ^ 32 }
        ensures low { first ≤ result }
        ensures most { result ≤ first + past }
        ensures empty { (k : ℕ) → first ≤ k → k < result → slice_index self.now k ≡ 0 }
    {
        let mut at = first;
        while at < past && self.words[at as usize] == 0 {
            at += 1;
        }
        at
    }
}

/// Returns the word with one bit set or cleared. Bits are counted from the lowest.
fn with_bit(word: u64, at: u32, is_in: bool) -> u64
    requires { at < 64 }
    ensures { (i : ℕ) → i < 64 → bit_at result i ≡ (if i == at then bit_of is_in else bit_at word i) }
{
    let bit = 1u64 << at;
    if is_in { word | bit } else { word & !bit }
}

/// Returns the lowest bit that is 1, at or after `from`.
fn lowest_bit(word: u64, from: u32) -> Option<u32>
    requires { from < 64 }
    ensures { FindsLowest (λ i. bit_at word i == 1) from 64 result }
{
    let rest = word >> from;
    if rest == 0 {
        return None;
    }
    Some(from + rest.trailing_zeros())
}
