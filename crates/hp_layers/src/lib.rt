//! All layers of a memory as one state: one step of any event, and the way back.
//!
//! The crate owns the layers together (`Layers`): the free areas and the processors' lists
//! (`frames`), the owners' pages, the kernel blocks and the rows of memory blocks. Each event is
//! one function of `layers`, called by `steps`. It tests for a refusal (except NoFrame), and makes
//! room on the tape. Only then does it change and note anything, without allocating. Each of these
//! functions requires that the state is well placed (`ArePlaced`); hp_memory has a type whose state
//! always is.
//!
//! Read first: specs/Layers (what a step leaves and notes), then one event, such as
//! `layers/kernel`.
#![tactic(auto)]

mod frames;
mod layers;
mod parts;

pub use frames::Frames;
pub use layers::Layers;
