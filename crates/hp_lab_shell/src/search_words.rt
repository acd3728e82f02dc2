//! The arguments of the commands that search: `explore`, and `sum` of its parts.

use crate::arguments::{
    Argument, FILE, FIND, GROUP, JOBS, JSON, MEMORY, NEVER, PART, PROGRESS, SCENARIO,
    SCENARIO_FILE, SECONDS, SUMMARY, Takes,
};

/// The option that writes an interleaving as a scenario.
const AS_SCENARIO: Argument = Argument {
    name: SCENARIO,
    takes: Takes::Number,
    help: "Writes the interleaving of end N as a scenario; N is 1 with --find or --never",
    against: &[],
};

/// The flag that writes JSON.
const AS_JSON: Argument = Argument {
    name: JSON,
    takes: Takes::Nothing,
    help: "Writes one JSON object per line: for each end, or for what a search finds",
    against: &[SCENARIO],
};

/// The help of the flag that writes one line per end.
const SUMMARY_HELP: &str =
    "Writes one line per end: its count, its share, its refused calls, and its blocks";

/// The arguments of `explore`.
pub(crate) const EXPLORE: [Argument; 14] = [
    Argument {
        name: "setup",
        takes: Takes::Number,
        help: "Runs this many lines in order first (0)",
        against: &[],
    },
    Argument {
        name: "limit",
        takes: Takes::Number,
        help: "Counts at most this many interleavings, the first ones (any number); with --find or \
               --never, reaches at most this many states",
        against: &[],
    },
    Argument {
        name: MEMORY,
        takes: Takes::Number,
        help: "Stops when the states kept take this many MiB (2048)",
        against: &[],
    },
    Argument {
        name: SECONDS,
        takes: Takes::Number,
        help: "Stops after this many seconds",
        against: &[JOBS],
    },
    Argument {
        name: FIND,
        takes: Takes::Texts("TEXT"),
        help: "Searches for an end with this line, with the fewest changes of processor",
        against: &[],
    },
    Argument {
        name: NEVER,
        takes: Takes::Texts("TEXT"),
        help: "The same, with status 0 if there is no such end, and 3 if there is one",
        against: &[FIND],
    },
    Argument {
        name: PART,
        takes: Takes::Text("I/N"),
        help: "Searches only the I-th of N parts, and writes it for `sum`",
        against: &[FIND, NEVER, SCENARIO, JOBS],
    },
    Argument {
        name: JOBS,
        takes: Takes::Number,
        help: "Searches in this many threads, 1 to 256 (1)",
        against: &[],
    },
    Argument {
        name: GROUP,
        takes: Takes::Text("PART"),
        help: "Puts ends together that agree in the blocks, in the answers, or in how plans ended",
        against: &[FIND, NEVER, PART, SCENARIO],
    },
    AS_SCENARIO,
    AS_JSON,
    Argument {
        name: SUMMARY,
        takes: Takes::Nothing,
        help: SUMMARY_HELP,
        against: &[FIND, NEVER, PART, SCENARIO, JSON],
    },
    Argument {
        name: PROGRESS,
        takes: Takes::Nothing,
        help: "Shows progress on standard error even if it is no terminal",
        against: &[],
    },
    SCENARIO_FILE,
];

/// The arguments of `sum`.
pub(crate) const SUM: [Argument; 4] = [
    AS_SCENARIO,
    AS_JSON,
    Argument {
        name: SUMMARY,
        takes: Takes::Nothing,
        help: SUMMARY_HELP,
        against: &[SCENARIO, JSON],
    },
    Argument {
        name: FILE,
        takes: Takes::Files,
        help: "The files of parts, in any order; standard input if there is none, or if it is -",
        against: &[],
    },
];
