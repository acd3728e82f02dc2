//! Adding the kernel blocks to an Image.
ghost use Rattle.std.specs.Prelude.{◌≡◌, ℕ, ◌<◌, ◌≤◌, None, IfSome, OnOk, length, slice_index_or, slice_set};
ghost use Rattle.hp_units.specs.Arithmetic.{frame_count};
ghost use Rattle.hp_memory.specs.Tables.{AreCopied};

use hp_pages::KernelBlocks;
use hp_plain::{Image, Part};
use hp_units::Frame;
use std::alloc::AllocError;

/// Adds the kernel blocks to an Image that has none.
pub fn put_kernel(image: &mut Image, kernel: &KernelBlocks) -> Result<(), AllocError>
    requires size { length kernel.now ≡ frame_count image.old.layout }
    requires orders { (first : ℕ)
        → IfSome (slice_index_or kernel.now first None) (λ order. order ≤ image.old.layout.order) }
    requires none { AreCopied None None 0 kernel.now image.old.memory.kernel }
    ensures { OnOk result
        (image.new ≡ record image.old { memory = record image.old.memory { kernel = kernel.now } }) }
{
    for number in 0..image.layout().frames() {
        put_block(image, kernel, Frame(number))?;
    }
    Ok(())
}

/// Adds the block that starts at the frame, if any. The Image has none there.
fn put_block(image: &mut Image, kernel: &KernelBlocks, frame: Frame) -> Result<(), AllocError>
    requires size { length kernel.now ≡ frame_count image.old.layout }
    requires frame { frame < length kernel.now }
    requires orders { (first : ℕ)
        → IfSome (slice_index_or kernel.now first None) (λ order. order ≤ image.old.layout.order) }
    requires none { slice_index_or image.old.memory.kernel frame None ≡ None }
    ensures { OnOk result (image.new ≡ record image.old {
      memory = record image.old.memory
          { kernel = slice_set image.old.memory.kernel frame (slice_index_or kernel.now frame None) };
    }) }
{
    match kernel.order_at(frame) {
        Some(order) => image.add(Part::Kernel { frame, order }),
        None => Ok(()),
    }
}
