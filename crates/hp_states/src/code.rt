//! The buffer that states and keys are encoded into.
ghost use Rattle.std.specs.Prelude.{◌≡◌, [], ◌∷◌, ◌++◌, OnOk};
ghost use Rattle.std.specs.List.{flat_map};
ghost use Rattle.hp_states.specs.Numbers.{number_code, wide_code};

use std::alloc::{AllocError, Global};
use std::marker::Model;

/// A buffer of bytes that grows at its end.
#[derive(Drop)]
pub(crate) struct Code {
    bytes: Vec<u8>,
}

impl Model for Code {
    ghost use Rattle.std.specs.Prelude.{ℕ, List};

    ghost Value = { List ℕ };

    ghost view = { λ c. c.bytes.items };
}

impl Code {
    /// Creates an empty buffer. Allocates nothing.
    pub(crate) fn new(alloc: Global) -> Code
        ensures { result ≡ [] }
    {
        Code {
            bytes: Vec::new(alloc),
        }
    }

    /// Removes all bytes but keeps the capacity, so that the next code reuses it.
    pub(crate) fn clear(&mut self)
        ensures { self.new ≡ [] }
    {
        self.bytes.clear();
    }

    /// Returns the bytes written so far.
    pub(crate) fn bytes(&self) -> &[u8]
        ensures { result.now ≡ self.now }
    {
        self.bytes.as_slice()
    }

    /// Appends one byte.
    #[inline(always)]
    pub(crate) fn byte(&mut self, byte: u8) -> Result<(), AllocError>
        ensures { OnOk result (self.new ≡ self.old ++ byte ∷ []) }
    {
        if self.bytes.len() < self.bytes.capacity() {
            self.bytes.push_reserved(byte);
            return Ok(());
        }
        self.byte_past_room(byte)
    }

    /// Appends one byte when the buffer is full. Kept out of line, since it is rare.
    #[inline(never)]
    fn byte_past_room(&mut self, byte: u8) -> Result<(), AllocError>
        ensures { OnOk result (self.new ≡ self.old ++ byte ∷ []) }
    {
        self.bytes.push(byte)?;
        Ok(())
    }

    /// Appends a number: in one byte if it is below 253, and in 3, 5 or 9 bytes otherwise.
    #[inline(always)]
    #[tactic(auto, unfolding(crate::specs::Numbers::number_code))]
    pub(crate) fn number(&mut self, number: u64) -> Result<(), AllocError>
        ensures { OnOk result (self.new ≡ self.old ++ number_code number) }
    {
        if number < 253 {
            self.byte(number as u8)
        } else {
            self.wide(number)
        }
    }

    /// Appends a number that needs more than one byte.
    #[inline(never)]
    fn wide(&mut self, number: u64) -> Result<(), AllocError>
        ensures { OnOk result (self.new ≡ self.old ++ wide_code number) }
    {
        if number < 1 << 16 {
            self.marked(253, &(number as u16).to_le_bytes())
        } else if number < 1 << 32 {
            self.marked(254, &(number as u32).to_le_bytes())
        } else {
            self.marked(255, &number.to_le_bytes())
        }
    }

    /// Appends a width mark and the bytes of the number.
    fn marked(&mut self, mark: u8, bytes: &[u8]) -> Result<(), AllocError>
        ensures { OnOk result (self.new ≡ self.old ++ mark ∷ bytes.now) }
    {
        self.byte(mark)?;
        self.bytes.extend_from_slice(bytes)?;
        Ok(())
    }

    /// Appends several numbers without their count.
    pub(crate) fn numbers(&mut self, numbers: &[u64]) -> Result<(), AllocError>
        ensures { OnOk result (self.new ≡ self.old ++ flat_map number_code numbers.now) }
    {
        for number in numbers {
            self.number(*number)?;
        }
        Ok(())
    }
}
