//! Tests whether a state is well placed.
ghost use Rattle.std.specs.Prelude.{◌≡◌, IfOk, MatchBool, ℕ};
ghost use Rattle.hp_units.specs.Placement.{IsWellPlaced};
ghost use Rattle.hp_plain.specs.Placing.{ArePlacedOnce, mark_of, unplugged};

use super::Image;
use crate::placement::{are_joined, place_cached, place_free, place_pages};
use crate::{Marks, are_kinds, are_rows, place_kernel};
use std::alloc::{AllocError, Global};

impl Image {
    /// Returns whether the state is well placed: each frame is in exactly one place, and the parts
    /// of the state agree. For example, a free block's class is that of its pageblock, and free
    /// buddies of a class are joined.
    ///
    /// Check this before a state from elsewhere becomes the base of a history. Takes time linear in
    /// the frames, the pages and the entries of the lists, and never more than one byte of memory
    /// per frame.
    pub fn is_well_placed(&self, alloc: Global) -> Result<bool, AllocError>
        ensures { IfOk result (λ placed. MatchBool placed
            (IsWellPlaced self.now.layout self.now.memory)
            (IsWellPlaced self.now.layout self.now.memory → ⊥)) }
    {
        let rows = self.blocks.rows();
        if !are_rows(rows) {
            return Ok(false);
        }
        if !are_kinds(&self.layout, self.free.areas().kinds(), rows) {
            return Ok(false);
        }
        let joined = are_joined(alloc, &self.layout, self.free.areas())?;
        if !joined {
            return Ok(false);
        }
        let mut marks = Marks::of_unplugged(alloc, &self.layout, rows)?;
        Ok(self.is_each_once(&mut marks))
    }

    /// Returns whether the lists, the kernel blocks and the pages are where they may be, and each
    /// frame is in one place. Before the call, the frames of offline and absent blocks must be
    /// marked, and no others.
    fn is_each_once(&self, marks: &mut Marks) -> bool
        requires { (frame : ℕ)
            → mark_of marks.old frame ≡ unplugged self.now.layout self.now.memory.blocks.rows frame }
        ensures { MatchBool result (ArePlacedOnce self.now.layout self.now.memory)
            (ArePlacedOnce self.now.layout self.now.memory → ⊥) }
    {
        if !place_free(&self.layout, self.free.areas(), &self.blocks, marks) {
            return false;
        }
        if !place_cached(&self.layout, &self.free, &self.blocks, marks) {
            return false;
        }
        if !place_kernel(
            &self.layout,
            self.kernel.as_slice(),
            self.blocks.rows(),
            marks,
        ) {
            return false;
        }
        if !place_pages(&self.layout, &self.pages, marks) {
            return false;
        }
        marks.are_all_set()
    }
}
