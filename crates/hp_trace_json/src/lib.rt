//! The rows of a trace as JSON: a line for each row, with how the state differs from the row above.
//!
//! The crate defines what a row reports of a state (`StateChange`), what is stored of the rows
//! above (`SeenState`), and the text. It runs nothing: its caller makes the calls and passes the
//! machine after each.
//!
//! Read specs/Told first, then specs/Changes. A program that follows the rows knows the machine's
//! state, and no row repeats what stayed the same. Each row is one line of printable ASCII without
//! `<`. The text of a row is tested.
#![tactic(auto)]

mod ascii;
mod blocks;
mod change;
mod frames;
mod lists;
mod seen;
mod splices;
mod steps;
mod trace;
mod words;
mod writing;

pub use blocks::{BlockNow, PageblockNow};
pub use change::{StateChange, change_between};
pub use frames::{KernelNow, PageNow};
pub use lists::{CpuListNow, FreeListNow};
pub use seen::SeenState;
pub use splices::{Splice, splice_between};
pub use steps::NetSerials;
pub use trace::{JsonTrace, TraceRow, head_line};
pub use words::WordNow;
pub use writing::change_object;
