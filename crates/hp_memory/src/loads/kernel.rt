//! Loading the kernel blocks from an Image.
ghost use Rattle.std.specs.Prelude.{◌≡◌, ℕ, ◌<◌, None, IfOk, IfSome, length, slice_index_or, slice_set};
ghost use Rattle.hp_units.specs.Arithmetic.{IsFrame, frame_count};
ghost use Rattle.hp_units.specs.Memory.{kernel_order};

use hp_pages::{KernelBlocks, short_order};
use hp_plain::Image;
use hp_tape::Delta;
use hp_units::Frame;
use std::alloc::{AllocError, Global};

/// Creates the kernel blocks of an Image. Their orders must be below 256.
pub fn kernel_of(alloc: Global, image: &Image) -> Result<KernelBlocks, AllocError>
    requires size { length image.now.memory.kernel ≡ frame_count image.now.layout }
    requires small { (frame : ℕ)
        → IfSome (slice_index_or image.now.memory.kernel frame None) (λ order. order < 256) }
    ensures { IfOk result (λ kernel. kernel ≡ image.now.memory.kernel) }
{
    let mut kernel = KernelBlocks::new(alloc, image.layout().frames())?;
    for number in 0..image.layout().frames() {
        load_block(&mut kernel, image, Frame(number));
    }
    Ok(kernel)
}

/// Loads the block that starts at the frame, if any.
fn load_block(kernel: &mut KernelBlocks, image: &Image, frame: Frame)
    requires size { length kernel.old ≡ frame_count image.now.layout }
    requires frame { IsFrame image.now.layout frame }
    requires small { IfSome (kernel_order image.now.memory frame) (λ order. order < 256) }
    ensures { kernel.new ≡ slice_set kernel.old frame (kernel_order image.now.memory frame) }
{
    let was = short_order(image.kernel_at(frame));
    kernel.back(Delta::Kernel {
        frame,
        was,
        now: None,
    });
}
