//! A whole state as a value: an `Image` of plain lists that can be copied, compared, read, and
//! built by setting one part after another. Nothing here is a step of a machine.
//!
//! `frames` owns the free areas and the processors' lists, with `areas` and `lists` below it,
//! `blocks` the rows of memory blocks, `pages` the owners' pages and their words. `image` puts them
//! and the kernel blocks together. `placement` tests whether a state is well placed, part by part,
//! with `marks` that count in how many places each frame is: `cached`, `free`, `kernel` and
//! `placed_pages` mark frames, `heads` tests free buddies, and `rows` rows and kinds.
//!
//! Read `image` first, and specs/Placement of hp_units before `placement`.
#![tactic(auto)]

mod areas;
mod blocks;
mod cached;
mod frames;
mod free;
mod heads;
mod image;
mod kernel;
mod lists;
mod marks;
mod pages;
mod parts;
mod placed_pages;
mod placement;
mod rows;

pub use blocks::plans::wish_of;
pub use cached::{place_pool, pool_numbered};
pub use free::place_list;
pub use heads::Heads;
pub use image::Image;
pub use kernel::place_kernel;
pub use marks::Marks;
pub use parts::Part;
pub use placed_pages::place_page;
pub use rows::{are_kinds, are_rows};
