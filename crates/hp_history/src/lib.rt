//! The history of a machine: its records, and a journal that leads back over its steps.
//!
//! A `Journal` is a memory in layers, one tape with the deltas of every step that is not undone,
//! and a small entry per step; it keeps no records. A `Course` is a journal with its base state and
//! the records since. An undo and a restoring Cancel take deltas off the end of the tape; every
//! other event is one step of the memory. A seal hands out a `Volume`. hp_memory owns what a step
//! does, hp_machine decides whether records are a legal history.
//!
//! Read specs/Course first (what a caller sees), then specs/Kept (what every journal keeps).
#![tactic(auto)]

mod course;
mod entries;
mod journal;
mod records;
mod remembered;
mod volumes;

pub use course::Course;
pub use journal::Journal;
pub use records::Records;
pub use volumes::Volume;
