//! Deltas, the small changes by which a step is undone, and how many of them each step may note.
//!
//! Read specs/Deltas first, then specs/Tapes and specs/Bounds.
#![tactic(auto)]

mod deltas;
mod frame_changes;
mod row_changes;
mod tapes;
mod word_changes;

pub use deltas::{Delta, ListId};
pub use frame_changes::FrameChange;
pub use row_changes::RowChange;
pub use tapes::Tape;
pub use word_changes::WordChange;
