//! Reads logs of memory machines, line by line: each line becomes an event for hp_judge.
//!
//! There are two forms. JSON has one object per line: `{"alloc": 512, "order": 3, "movable":
//! true}`, and the first line may have the number of frames per memory block: `{"block_frames":
//! 32768}`. The other is the text of Linux's ftrace, as /sys/kernel/tracing/trace and `trace-cmd
//! report` print it. A log can have any length: a reader has a buffer of 128 KiB, and reads lines
//! of up to 65,536 bytes.
//!
//! The crate owns both forms, and what can be wrong with a line. Reading is safe and total. That
//! each text is read as the right event is tested. The crate judges nothing and prints nothing.
//! Read `reader` first.
#![tactic(auto)]

mod faults;
mod ftrace;
mod lines;
mod objects;
mod reader;

pub use faults::{LineFault, LogFault};
pub use ftrace::ftrace_event;
pub use lines::{LINE_LIMIT, LineReader};
pub use objects::{json_block_frames, json_event};
pub use reader::{LogForm, LogReader};
