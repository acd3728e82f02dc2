//! Where a frame is.
ghost use Rattle.std.specs.Prelude.{◌≡◌, ◌<◌};
ghost use Rattle.hp_map.specs.Places.{place_sign};

use hp_units::{Cpu, Owner};

/// Where a frame is: in exactly one of these places.
#[derive(Clone, Copy, PartialEq, Eq)]
pub enum Place {
    /// In a memory block that is absent.
    Absent,
    /// In a memory block that is offline.
    Offline,
    /// In a free block.
    Free,
    /// In a free block that is isolated.
    Isolated,
    /// In a block of the kernel.
    Kernel,
    /// On a list of a processor.
    Cached(Cpu),
    /// Under a page of an owner.
    Page(Owner),
}

impl Place {
    /// Returns its character in a memory block's cells: the last digit of a processor's number, and
    /// `a` to `z` for owners. After 26 owners the letters begin again.
    pub(crate) fn sign(&self) -> char
        ensures ascii { result < 128 }
        ensures is { result ≡ place_sign self.now }
    {
        match self {
            Place::Absent => ' ',
            Place::Offline => '-',
            Place::Free => '.',
            Place::Isolated => ':',
            Place::Kernel => 'K',
            Place::Cached(cpu) => char::from(b'0' + (cpu.0 % 10) as u8),
            Place::Page(owner) => char::from(b'a' + (owner.0 % 26) as u8),
        }
    }
}
