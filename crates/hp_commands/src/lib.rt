//! The commands of the program, from input bytes to output bytes.
//!
//! Each command reads a scenario from a `Source` and writes its text to a `Sink`, by hp_streams.
//! `Serial` runs the lines in order on one machine, and writes the text of each, then the state.
//! `Run` runs each processor's lines in a thread of its own, and writes how they ended, by
//! processor, and the number of records. `Audit` runs like `Run`, replays the history, and writes
//! the number of records and `audit ok`. The crate owns those texts, and the faults with their
//! texts; it opens no file and no stream. Read specs/Served first: what `serve` promises.
#![tactic(auto)]

mod audits;
mod commands;
mod events;
mod fault;
mod files;
mod outcome;
mod plans;
mod runs;
mod seals;
mod serial;
mod serving;

pub use commands::Command;
pub use fault::ProgramFault;
pub use outcome::ProgramEnd;
pub use serving::{serve, serve_serial};
