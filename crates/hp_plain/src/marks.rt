//! Marks that count in how many places each frame is.
ghost use Rattle.std.specs.Prelude.{◌≡◌, ◌+◌, ◌≤◌, ◌==◌, IfOk, MatchBool, if◌then◌else◌, length, ℕ};
ghost use Rattle.hp_units.specs.Placement.{covered, is_unplugged};
ghost use Rattle.hp_plain.specs.Placing.{AreMarked, IsTwice, mark_of, row_in, unplugged};

use crate::rows::row_of;
use hp_units::{Block, Frame, Layout, Order, Row, State, block_of};
use std::alloc::{AllocError, Global};
use std::marker::Model;

/// In how many places each frame of a layout is so far: none or one.
#[derive(Drop)]
pub struct Marks {
    frames: Vec<u8>,
}

impl Model for Marks {
    ghost use Rattle.std.specs.Prelude.{List, ℕ};

    ghost Value = { List ℕ };

    ghost view = { λ m. m.frames.items };
}

impl Marks {
    /// Creates the marks, with the frames of offline and absent blocks marked. Takes
    /// one byte per frame.
    pub fn of_unplugged(alloc: Global, layout: &Layout, rows: &[Row]) -> Result<Marks, AllocError>
        requires { length rows.now ≡ layout.now.blocks }
        ensures { IfOk result
            (λ marks. (frame : ℕ) → mark_of marks frame ≡ unplugged layout.now rows.now frame) }
    {
        let mut frames = Vec::with_capacity(alloc, layout.frames() as usize)?;
        for number in 0..layout.frames() {
            let block = block_of(layout, Frame(number));
            frames.push(u8::from(is_unplugged(rows, block)))?;
        }
        Ok(Marks { frames })
    }

    /// Marks the frames of a block. Stops and returns false at the first that is already marked or
    /// outside the layout.
    pub(crate) fn mark(&mut self, order: Order, first: Frame) -> bool
        requires { order ≤ 10 }
        ensures { MatchBool result (AreMarked self.old self.new (λ frame. covered frame order first))
            (IsTwice self.old (λ frame. covered frame order first)) }
    {
        let first = first.0 as usize;
        for frame in first..first + (1 << order.0) {
            if !self.set(frame) {
                return false;
            }
        }
        true
    }

    /// Marks one frame. Returns false if it is already marked or outside the layout.
    fn set(&mut self, number: usize) -> bool
        ensures { MatchBool result
            (AreMarked self.old self.new (λ frame. if frame == number then 1 else 0))
            (1 ≤ mark_of self.old number) }
    {
        if number >= self.frames.len() || self.frames[number] != 0 {
            return false;
        }
        self.frames[number] = 1;
        true
    }

    /// Returns whether all frames are marked.
    pub fn are_all_set(&self) -> bool
        ensures { MatchBool result ((frame : ℕ) → mark_of self.now frame ≡ 1)
            (((frame : ℕ) → mark_of self.now frame ≡ 1) → ⊥) }
    {
        for mark in &self.frames {
            if *mark != 1 {
                return false;
            }
        }
        true
    }
}

/// Returns whether a block is offline or absent. A block outside the layout counts as offline.
fn is_unplugged(rows: &[Row], block: Block) -> bool
    ensures { result ≡ is_unplugged (row_in rows.now block) }
{
    matches!(row_of(rows, block).state, State::Offline | State::Absent)
}
