//! Numbers of things, each with a type of its own. In contracts, the value of each is the number
//! itself.
ghost use Rattle.std.specs.Prelude.{◌≡◌, ℕ, ◌<◌};
ghost use Rattle.hp_units.specs.Numbers.{ancestor};

use std::marker::Model;

/// A page frame, counted from 0. There are at most 2^20 (Gorman, chapter 2).
#[derive(Clone, Copy, PartialEq, Eq)]
pub struct Frame(pub u32);

impl Model for Frame {
    ghost Value = { ℕ };

    ghost view = { λ a. a.0 };

    ghost inverse = { λ n. record { 0 = n } };
}

impl Frame {
    /// Returns the first frame of the block of this order that contains the frame (Knuth, volume 1,
    /// section 2.5). The order is below 32.
    pub fn ancestor(self, order: Order) -> Frame
        requires { order < 32 }
        ensures { result ≡ ancestor self order }
    {
        let size = 1 << order.0;
        Frame(self.0 / size * size)
    }
}

/// The order of a block of 2^order frames. In a layout it is 0 to 10 (Knuth, volume 1, section
/// 2.5).
#[derive(Clone, Copy, PartialEq, Eq)]
pub struct Order(pub u32);

impl Model for Order {
    ghost Value = { ℕ };

    ghost view = { λ a. a.0 };

    ghost inverse = { λ n. record { 0 = n } };
}

/// A pageblock, counted from 0: one block of the greatest order.
#[derive(Clone, Copy, PartialEq, Eq)]
pub struct Pageblock(pub u32);

impl Model for Pageblock {
    ghost Value = { ℕ };

    ghost view = { λ a. a.0 };

    ghost inverse = { λ n. record { 0 = n } };
}

/// A memory block, counted from 0: the unit that goes online and offline (Linux guide, Memory
/// Hot(Un)Plug).
#[derive(Clone, Copy, PartialEq, Eq)]
pub struct Block(pub u32);

impl Model for Block {
    ghost Value = { ℕ };

    ghost view = { λ a. a.0 };

    ghost inverse = { λ n. record { 0 = n } };
}

/// A processor, counted from 0.
#[derive(Clone, Copy, Debug, PartialEq, Eq)]
pub struct Cpu(pub u32);

impl Model for Cpu {
    ghost Value = { ℕ };

    ghost view = { λ a. a.0 };

    ghost inverse = { λ n. record { 0 = n } };
}

/// An owner of pages, counted from 0.
#[derive(Clone, Copy, PartialEq, Eq)]
pub struct Owner(pub u32);

impl Model for Owner {
    ghost Value = { ℕ };

    ghost view = { λ a. a.0 };

    ghost inverse = { λ n. record { 0 = n } };
}

/// A page of an owner, counted from 0.
#[derive(Clone, Copy, PartialEq, Eq)]
pub struct Page(pub u32);

impl Model for Page {
    ghost Value = { ℕ };

    ghost view = { λ a. a.0 };

    ghost inverse = { λ n. record { 0 = n } };
}

/// The serial of a record, counted from 1 and never reused. The serial of a Begin also names its
/// operation.
#[derive(Clone, Copy, Debug, PartialEq, Eq, PartialOrd)]
pub struct Serial(pub u64);

impl Model for Serial {
    ghost Value = { ℕ };

    ghost view = { λ a. a.0 };

    ghost inverse = { λ n. record { 0 = n } };
}
