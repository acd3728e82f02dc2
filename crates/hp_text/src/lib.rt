//! Writes calls, replies, plans and their ends, whole states, scenarios and control files as text,
//! and texts as in strings of JSON.
//!
//! The crate owns this spelling only: it reads no text and runs nothing. Each function that writes
//! appends to a `String` exactly the text that specs/ gives for its value, and changes nothing
//! else. If it runs out of memory, part of the text may have been appended. `control_files` makes
//! the text of a control file, from the state of a machine or of a memory alone, and `zones` that
//! of `buddyinfo`.
//!
//! The crate knows nothing of streams or threads; each program that prints such values uses it.
//! Read specs/Answers first, then specs/State; specs/Scenarios for a scenario as hp_scenario reads
//! it; specs/Escapes for texts without control characters; and specs/ControlFiles for control
//! files.
#![tactic(auto)]

mod answers;
mod control_files;
mod entries;
mod escapes;
mod file_faults;
mod laws;
mod layouts;
mod lines;
mod numbers;
mod plans;
mod refusals;
mod scenarios;
mod separated;
mod spelling;
mod state;
mod zones;

pub use answers::{
    write_answer, write_call_fault, write_reply, write_reply_words, write_sealed, write_unrecorded,
};
pub use control_files::{read_file, read_text, text_in};
pub use entries::write_calls;
pub use escapes::{Brackets, write_escaped, write_start};
pub use file_faults::{write_echo_fault, write_read_fault};
pub use laws::auto_is_written_back;
pub use lines::{write_line, write_shown_line};
pub use plans::write_plan_end;
pub use scenarios::write_scenario;
pub use separated::write_mark;
pub use spelling::{write_call, write_event, write_plan};
pub use state::{write_row, write_state};
pub use zones::buddyinfo;
