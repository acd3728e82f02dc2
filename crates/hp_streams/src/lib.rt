//! Streams: reads all bytes of one, up to a limit, writes all bytes to one, and talks by lines,
//! with a reply to each line. All of it is proved for any `Source` and `Sink`, and `Counted` makes
//! these of any reader or writer of the standard library.
//!
//! The crate owns the limit of an input and of a line, the faults of reading, when replies are
//! sent, and how a talk ends. It knows nothing of the lines' meaning: a `Talk` replies to each. It
//! opens no file and no stream.
//!
//! Read src/streams.rt first: what a source and a sink must do. Then specs/Talks.
#![tactic(auto)]

mod cuts;
mod hearing;
mod held;
mod reading;
mod replying;
mod sending;
mod streams;
mod talking;
mod writing;

pub use held::LINE_LIMIT;
pub use reading::{LIMIT, ReadFault, read_all};
pub use replying::Talk;
pub use streams::{Counted, Failed, Sink, Source};
pub use talking::{TalkEnd, run_talk};
pub use writing::write_all;
