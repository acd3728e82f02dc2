//! The codes of the places that a search keeps.
ghost use Rattle.std.specs.Prelude.{◌≡◌, ◌++◌, [], IfOk, OnErr, OnOk, true};
ghost use Rattle.hp_units.specs.Placement.{IsShaped};
ghost use Rattle.hp_laws.specs.Numberings.{number_of};
ghost use Rattle.hp_laws.specs.Renumbered.{renumbered};
ghost use Rattle.hp_states.specs.Codes.{IsAmong, IsFoundOrAdded, place_code};
ghost use Rattle.hp_states.specs.Parts.{counted_code};

use crate::code::Code;
use crate::digests::digest_of;
use crate::memories::put_memory;
use crate::texts::Texts;
use hp_memory::Memory;
use hp_units::Serial;
use std::alloc::{AllocError, Global};
use std::marker::Model;

/// The code of one place: the numbers that a search gives it, and then the memory's state there.
///
/// In contracts, its value is the list of bytes.
pub struct PlaceCode {
    written: Code,
}

impl Model for PlaceCode {
    ghost use Rattle.std.specs.Prelude.{ℕ, List};

    ghost Value = { List ℕ };

    ghost view = { λ c. c.written };
}

/// Keeps callers from proving again how each field is dropped.
impl Drop for PlaceCode {
    fn drop(self) {
        let PlaceCode { written: _ } = self;
    }
}

impl PlaceCode {
    /// Creates an empty code, which is that of no place. Allocates nothing.
    pub fn new(alloc: Global) -> PlaceCode {
        PlaceCode {
            written: Code::new(alloc),
        }
    }

    /// Writes the code of the place with these numbers and the memory's state, over the one written
    /// before. In the state, operations have the numbers of
    /// [`number_of`](hp_laws::number_of).
    ///
    /// If memory runs out, the code is unspecified.
    pub fn write(
        &mut self,
        numbers: &[u32],
        memory: &Memory,
        fixed: Serial,
        latest: &[Serial],
    ) -> Result<(), AllocError>
        ensures shaped { IsShaped memory.now.layout
            (renumbered (number_of fixed latest.now) memory.now.state) }
        ensures ok { OnOk result (self.new ≡ place_code memory.now.layout numbers.now
            (renumbered (number_of fixed latest.now) memory.now.state)) }
    {
        memory.is_placed();
        self.written.clear();
        put_numbers(&mut self.written, numbers)?;
        put_memory(&mut self.written, memory, fixed, latest)?;
        Ok(())
    }

    /// Returns a hash of the code.
    pub fn digest(&self) -> u64 {
        digest_of(self.written.bytes())
    }
}

/// A set of places, each by its code.
///
/// In contracts, its value is the list of codes. Of several places with the same hash only the
/// newest is found, so that a place may be added again.
pub struct PlaceSet {
    codes: Texts,
}

impl Model for PlaceSet {
    ghost use Rattle.std.specs.Prelude.{ℕ, List};

    ghost Value = { List (List ℕ) };

    ghost view = { λ s. s.codes };
}

/// Keeps callers from proving again how each field is dropped.
impl Drop for PlaceSet {
    fn drop(self) {
        let PlaceSet { codes: _codes } = self;
    }
}

impl PlaceSet {
    /// Creates an empty set. Allocates nothing.
    pub fn new(alloc: Global) -> PlaceSet
        ensures { result ≡ [] }
    {
        PlaceSet {
            codes: Texts::new(alloc),
        }
    }

    /// Returns whether the place is found.
    pub fn has(&self, place: &PlaceCode) -> bool
        ensures { result ≡ true → IsAmong self.now place.now }
    {
        let codes = &self.codes;
        codes.has(place.written.bytes())
    }

    /// Returns whether the place is found, and adds it if not. If memory runs out, the set stays as
    /// it was.
    pub fn find_or_add(&mut self, place: &PlaceCode) -> Result<bool, AllocError>
        ensures ok { IfOk result (IsFoundOrAdded self.old self.new place.now) }
        ensures err { OnErr result (self.new ≡ self.old) }
    {
        self.codes.find_or_add(place.written.bytes())
    }

    /// Returns about how many bytes the places take.
    pub fn size(&self) -> u64 {
        self.codes.size()
    }
}

/// Appends how many numbers there are, and then the numbers.
fn put_numbers(code: &mut Code, numbers: &[u32]) -> Result<(), AllocError>
    ensures { OnOk result (code.new ≡ code.old ++ counted_code numbers.now) }
{
    code.number(numbers.len() as u64)?;
    for number in numbers {
        code.number(u64::from(*number))?;
    }
    Ok(())
}
