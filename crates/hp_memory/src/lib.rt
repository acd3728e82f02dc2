//! The memory of a machine: boot, one step of any event, and the way back.
//!
//! The crate owns `Memory`: the layers of hp_layers, with the invariant that their state is well
//! placed. So its calls need not require that. Layers are loaded from an Image (`loads`), and an
//! Image is made from layers (`pictures`), part by part; `image_steps` makes a step from an Image
//! to an Image. The caller keeps the tape, and remembers where each step's deltas end.
//!
//! `Steps` owns a memory with the records of its steps and the deltas that lead back over them, for
//! a search that goes forward and back. It is no history as a machine's: an UndoAfter changes no
//! state, a Cancel only releases, and callers choose the serials.
//!
//! Read first: `memory` (what a caller sees), then specs/Layers of hp_layers (what a step leaves
//! and notes). For `loads` and `pictures` read specs/Tables, for `steps` specs/Steps.
#![tactic(auto)]

mod image_steps;
mod images;
mod loads;
mod memory;
mod pictures;
mod steps;

pub use image_steps::{ImageStep, step_of_image};
pub use loads::{blocks_of, buddy_of, cpus_of, kernel_of, pages_of};
pub use memory::Memory;
pub use pictures::{put_areas, put_blocks, put_cpus, put_kernel, put_pages};
pub use steps::Steps;
