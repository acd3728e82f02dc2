//! Numbers of the free areas' lists, and parts of blocks.
ghost use Rattle.std.specs.Prelude.{◌≡◌, ◌+◌, ◌*◌, ◌^◌, ◌<◌};
ghost use Rattle.hp_units.specs.Memory.{class_index};

use crate::ListNumber;
use hp_units::{Class, Frame, Order};

/// Returns the number of the list of a class and an order.
pub fn area_list(class: Class, order: Order) -> ListNumber
    requires { order < 32 }
    ensures { result ≡ 5 * order + class_index class }
{
    ListNumber(5 * order.0 + class.index())
}

/// Returns the first frame of the upper half of a block of order `order` + 1.
pub fn upper_half(frame: Frame, order: Order) -> Frame
    requires order { order < 32 }
    requires frame { frame + 2 ^ order < 2 ^ 32 }
    ensures { result ≡ frame + 2 ^ order }
{
    Frame(frame.0 + (1 << order.0))
}

/// Returns the first frame of block number `at` of an order, counted from the block at `first`.
pub fn nth_block(first: Frame, order: Order, at: u32) -> Frame
    requires order { order < 32 }
    requires frame { first + at * 2 ^ order < 2 ^ 32 }
    ensures { result ≡ first + at * 2 ^ order }
{
    Frame(first.0 + at * (1 << order.0))
}
