//! The number of a list of frames.
use std::marker::Model;

/// The number of a list in a table, from 0 on.
#[derive(Clone, Copy, PartialEq, Eq)]
pub struct ListNumber(pub u32);

impl Model for ListNumber {
    ghost use Rattle.std.specs.Prelude.{ℕ};

    ghost Value = { ℕ };

    ghost view = { λ l. l.0 };

    ghost inverse = { λ n. record { 0 = n } };
}
