//! The arguments of the command `explain`.

use crate::arguments::{Argument, JSON, MEMORY, PROGRESS, SCENARIO, SECONDS, Takes};

/// The argument that names the scenario's file.
pub(crate) const SCENARIO_NAME: &str = "SCENARIO";

/// The argument that names the file with the answers.
pub(crate) const ANSWERS_NAME: &str = "ANSWERS";

/// The arguments of `explain`.
pub(crate) const EXPLAIN: [Argument; 8] = [
    Argument {
        name: SCENARIO,
        takes: Takes::Number,
        help: "Writes the order as a scenario; N must be 1",
        against: &[],
    },
    Argument {
        name: JSON,
        takes: Takes::Nothing,
        help: "Writes one JSON object",
        against: &[SCENARIO],
    },
    Argument {
        name: "limit",
        takes: Takes::Number,
        help: "Stops after this many states",
        against: &[],
    },
    Argument {
        name: MEMORY,
        takes: Takes::Number,
        help: "Stops when the states kept take this many MiB (2048)",
        against: &[],
    },
    Argument {
        name: SECONDS,
        takes: Takes::Number,
        help: "Stops after this many seconds",
        against: &[],
    },
    Argument {
        name: PROGRESS,
        takes: Takes::Nothing,
        help: "Shows progress on standard error even if it is no terminal",
        against: &[],
    },
    Argument {
        name: SCENARIO_NAME,
        takes: Takes::File,
        help: "A scenario, or - for standard input",
        against: &[],
    },
    Argument {
        name: ANSWERS_NAME,
        takes: Takes::File,
        help: "The replies, as hotplug run prints them, or one JSON object per line",
        against: &[],
    },
];
