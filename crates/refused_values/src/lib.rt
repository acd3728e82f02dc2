//! Calls that make or change a value and may run out of memory, as cases of the program `refusals`.
//!
//! `trouble` has what every case is run with, and why a case stopped. `values` makes layouts,
//! copies and the empty layers of a machine, such as its free areas. `counts` makes layers of the
//! smallest shape and of the largest, `additions` adds parts to a state, `maps` draws a machine,
//! and `memories` makes steps of a memory. The cases that call a machine, a seat or a worker are in
//! the program itself. Read `trouble` first.
#![tactic(auto)]

pub mod additions;
pub mod counts;
pub mod maps;
pub mod memories;
mod trouble;
pub mod values;

pub use trouble::{Case, Outcome, Trouble, expect};
