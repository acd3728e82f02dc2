//! The arguments of the commands that show: `check` and `trace` of a scenario, and `judge` of a
//! log.

use crate::arguments::{
    ALLOW, Argument, BLOCK_FRAMES, BLOCKS, FILE, FTRACE, HTML, JSON, LOG, MOST, SCENARIO_FILE, SVG,
    Takes,
};

/// The arguments of `check`.
pub(crate) const CHECK: [Argument; 2] = [
    Argument {
        name: "setup",
        takes: Takes::Number,
        help: "Runs this many lines as the setup; later lines are in scripts, as for explore (all)",
        against: &[],
    },
    SCENARIO_FILE,
];

/// The arguments of `trace`.
pub(crate) const TRACE: [Argument; 12] = [
    Argument {
        name: "from",
        takes: Takes::Number,
        help: "The first line that is shown (1)",
        against: &[],
    },
    Argument {
        name: "to",
        takes: Takes::Number,
        help: "The last line that is shown (the last there is)",
        against: &[],
    },
    Argument {
        name: "every",
        takes: Takes::Number,
        help: "Shows every N-th line, from the first on (1)",
        against: &[],
    },
    Argument {
        name: "width",
        takes: Takes::Number,
        help: "Folds longer lines, and then shows only the memory blocks that changed (200 columns)",
        against: &[],
    },
    Argument {
        name: "cell",
        takes: Takes::Number,
        help: "Sets the width of a frame's cell in the picture, in pixels, 1 to 32 (8)",
        against: &[],
    },
    Argument {
        name: "scale",
        takes: Takes::Number,
        help: "Scales the picture to this percentage, 25 to 400 (100)",
        against: &[],
    },
    Argument {
        name: "orders",
        takes: Takes::Nothing,
        help: "Shows free blocks by their orders, as (3.....)",
        against: &[],
    },
    Argument {
        name: "svg",
        takes: Takes::Nothing,
        help: "Writes one SVG picture, with all memory blocks in each row",
        against: &[],
    },
    Argument {
        name: LOG,
        takes: Takes::Nothing,
        help: "Writes what happens to frames and memory blocks, as a log for judge",
        against: &[
            "from", "to", "every", "width", "cell", "scale", "orders", "svg",
        ],
    },
    Argument {
        name: JSON,
        takes: Takes::Nothing,
        help: "Writes one JSON object per row, with what changed in the memory",
        against: &[
            "from", "to", "every", "width", "cell", "scale", "orders", "svg", LOG,
        ],
    },
    Argument {
        name: HTML,
        takes: Takes::Nothing,
        help: "Writes a page for a browser, to step through the trace",
        against: &[
            "from", "to", "every", "width", "cell", "scale", "orders", "svg", LOG, JSON,
        ],
    },
    SCENARIO_FILE,
];

/// The arguments of `judge`.
pub(crate) const JUDGE: [Argument; 8] = [
    Argument {
        name: FTRACE,
        takes: Takes::Nothing,
        help: "Reads the text of Linux's ftrace instead of JSON lines",
        against: &[],
    },
    Argument {
        name: BLOCK_FRAMES,
        takes: Takes::Number,
        help: "The number of frames of a memory block, a power of two; needed unless the log has it",
        against: &[],
    },
    Argument {
        name: BLOCKS,
        takes: Takes::Text("A..B"),
        help: "Judges only the memory blocks from A to B - 1",
        against: &[],
    },
    Argument {
        name: ALLOW,
        takes: Takes::Texts("KIND"),
        help: "Counts faults of this kind, such as in-use, as lawful",
        against: &[],
    },
    Argument {
        name: JSON,
        takes: Takes::Nothing,
        help: "Writes one JSON object per line",
        against: &[],
    },
    Argument {
        name: MOST,
        takes: Takes::Number,
        help: "Prints at most this many faults (10)",
        against: &[],
    },
    Argument {
        name: SVG,
        takes: Takes::Nothing,
        help: "Writes one SVG picture: the frames in use of each memory block over the log",
        against: &[JSON],
    },
    Argument {
        name: FILE,
        takes: Takes::File,
        help: "A log; standard input if there is none, or if it is -",
        against: &[],
    },
];
