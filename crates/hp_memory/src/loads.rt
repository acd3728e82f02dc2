//! Loading the layers from an Image.
mod areas;
mod kernel;
mod pages;
mod processors;
mod rows;

pub use areas::buddy_of;
pub use kernel::kernel_of;
pub use pages::pages_of;
pub use processors::cpus_of;
pub use rows::blocks_of;
