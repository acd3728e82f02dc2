//! The arguments of the command `live`.

use crate::arguments::{Argument, FILE, JSON, Takes};

/// The arguments of `live`.
pub(crate) const LIVE: [Argument; 5] = [
    Argument {
        name: JSON,
        takes: Takes::Nothing,
        help: "Replies to each line with one JSON object, for programs",
        against: &["orders", "width"],
    },
    Argument {
        name: "state",
        takes: Takes::Nothing,
        help: "Adds to each object how the state changed; needs --json",
        against: &[],
    },
    Argument {
        name: "width",
        takes: Takes::Number,
        help: "Folds longer lines, and then shows only the memory blocks that changed (200 columns)",
        against: &[],
    },
    Argument {
        name: "orders",
        takes: Takes::Nothing,
        help: "Shows free blocks by their orders, as (3.....)",
        against: &[],
    },
    Argument {
        name: FILE,
        takes: Takes::File,
        help: "A scenario: boots its layout, and makes its calls first",
        against: &[],
    },
];
