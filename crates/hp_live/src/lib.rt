//! A live machine: it replies to lines one at a time, as `hotplug serial` replies to a scenario's.
//!
//! The crate owns a session and the form of its replies: as text, as an object of JSON, and in
//! rows. It reads no stream: hp_streams does. hp_scenario defines what a line is, hp_commands what
//! is written for it, and hp_trace how its rows are drawn.
//!
//! Read specs/Sessions first: what an answer is, and what a sequence of answers amounts to. Then
//! specs/Talks and specs/RowTalks: the reply to a line.
#![tactic(auto)]

mod answers;
mod laws;
mod live_words;
mod object_talk;
mod objects;
mod plans;
mod results;
mod row_talk;
mod runs;
mod session;
mod states;
mod word_objects;
mod words;

pub use answers::{Did, LiveAnswer};
pub use laws::{
    answers_are_what_serial_writes, results_have_the_numbers_of_serial, talks_draw_the_trace,
    talks_tell_their_lines,
};
pub use object_talk::ObjectTalk;
pub use objects::write_object;
pub use row_talk::RowTalk;
pub use session::{Lack, Session};
pub use words::help;
