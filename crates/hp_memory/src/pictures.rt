//! Adding the layers' parts to an Image.
mod areas;
mod kernel;
mod pages;
mod processors;
mod rows;

pub use areas::put_areas;
pub use kernel::put_kernel;
pub use pages::put_pages;
pub use processors::put_cpus;
pub use rows::put_blocks;
