//! The buddy allocator: free areas by class and order, the kind of each pageblock, and in front of
//! them the processors' lists of single frames. Below both, `links` has many doubly linked lists of
//! frames in one table: each change takes constant time and allocates nothing.
//!
//! Read specs/Buddy and specs/Cpus first, and specs/FreeAreas and specs/ProcessorLists of hp_units
//! for the rules; for the lists specs/LinkedLists, then specs/Rings for how they are stored.
#![tactic(auto)]

mod buddy;
mod classes;
mod cpu_laws;
mod cpus;
mod laws;
mod links;
mod list_number;
mod pools;
mod rings;

pub use buddy::Buddy;
pub use cpu_laws::{frames_in_use_may_be_put, well_placed_frames_are_together};
pub use cpus::Cpus;
pub use laws::{blocks_in_use_may_be_given, well_placed_blocks_are_apart};
pub use links::Links;
pub use list_number::ListNumber;
