//! A map of a memory: in which place each frame is, each memory block as it is drawn, and rows of
//! memory blocks with texts.
//!
//! The crate defines places, pictures of memory blocks, and the rows that hp_trace fills and hp_svg
//! draws. It changes nothing in a machine. Read specs/Places first: what it means that a frame is
//! in a place. Then read specs/BlockPictures, specs/Pictures and specs/Rows, and specs/Rounds for
//! equal rounds, of which only the first is shown. specs/Marks has what each step of the walk over
//! a state sets.
#![tactic(auto)]

mod block_picture;
mod blocks;
mod cells;
mod counts;
mod joiner;
mod kinds;
mod map;
mod marks;
mod orders;
mod picture;
mod places;
mod rounds;
mod row_picture;

pub use block_picture::{BlockPicture, FreeBlock, KernelBlock};
pub use counts::{MARKS, frames_in};
pub use joiner::{RoundJoiner, join_rounds};
pub use map::places_of;
pub use picture::picture_of;
pub use places::Place;
pub use rounds::Rounds;
pub use row_picture::{Move, RowPicture};
