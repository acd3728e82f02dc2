//! What frames and memory blocks are used for, in three tables: the owners' pages (which frame
//! holds each page, which page each frame holds, the words of each mapped frame), the kernel's
//! blocks (the order of the block that starts at each frame), and the rows of memory blocks with
//! their claims.
//!
//! Each change of a table notes deltas, and `back` undoes one. A new table is empty, and a given
//! state is loaded into it by `back`, too.
//!
//! Read specs/Pages first, then specs/Places for how a frame finds its page; specs/Kernel for
//! `kernel_blocks`; specs/Blocks for `blocks`, and specs/Rows of hp_units for its rules.
#![tactic(auto)]

mod blocks;
mod buffers;
mod frame_set;
mod kernel_blocks;
mod laws;
mod page_table;
mod pages;
mod place_sums;

pub use blocks::Blocks;
pub use buffers::is_blank;
pub use frame_set::FrameSet;
pub use kernel_blocks::{KernelBlocks, short_order};
pub use laws::well_placed_pages_are_settled;
pub use pages::{Pages, PreparedWrite};
