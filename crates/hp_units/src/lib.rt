//! The vocabulary of the memory machine: numbers of frames, blocks, processors, owners and pages,
//! layouts, events and replies, and the definitions of what each step does.
//!
//! Its proofs have the lemmas on these definitions that layers and laws share: about blocks and
//! buddies (Geometry), pools (Pools), lengths (Sizes), edits of one free list (ListEdits,
//! ListParts) and well placed states (Placed). Others are about how many free blocks (Places,
//! Joins), kernel blocks (KernelBlockFrames) or pages (Tables) hold a frame.
//!
//! Read `numbers` and specs/Memory and specs/Step first, then specs/History and specs/Placement.
#![tactic(auto)]

pub mod displays;
pub mod events;
pub mod layouts;
pub mod marks;
pub mod number_displays;
pub mod number_words;
pub mod numbers;
pub mod plans;
pub mod replies;
pub mod rows;
pub mod text;

pub use events::Event;
pub use layouts::{
    Layout, LayoutFault, Parts, block_of, buddy, is_pageblock_count, is_within, pageblock_of,
};
pub use marks::{Mark, Tag, is_step, mark_of};
pub use number_words::{number32, number64, numbers_are_spelled};
pub use numbers::{Block, Cpu, Frame, Order, Owner, Page, Pageblock, Serial};
pub use plans::{Item, Plan, Words};
pub use replies::{CallFault, OpEnd, Receipt, Record, Refusal, Reply};
pub use rows::{Auto, Boot, Claim, Class, Kind, Mobility, Pool, Row, State, Wish, Zone};
pub use text::Text;
