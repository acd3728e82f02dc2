//! Requests to control files: which file a path is, what a written text asks for, and the words
//! that `echo` writes. Reads no machine.
#![tactic(auto)]

mod echo;
mod fault;
mod files;
mod laws;
mod words;
mod writes;

pub use echo::Echo;
pub use fault::ControlFault;
pub use files::{BlockFile, File, file_at};
pub use laws::{addresses_are_spelled, block_paths_are_spelled};
pub use writes::{CONTROL_TURNS, Request, echo_answer, parse_write};
