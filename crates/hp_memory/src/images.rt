//! Converts an Image to layers, and layers to an Image.
ghost use Rattle.std.specs.Prelude.{◌≡◌, IfOk};
ghost use Rattle.hp_units.specs.LayoutParts.{IsLayout};
ghost use Rattle.hp_units.specs.Placement.{IsWellPlaced};
ghost use Rattle.hp_layers.specs.Layers.{ArePlaced, state_of};

use crate::{
    blocks_of, buddy_of, cpus_of, kernel_of, pages_of, put_areas, put_blocks, put_cpus, put_kernel,
    put_pages,
};
use hp_layers::{Frames, Layers};
use hp_plain::Image;
use std::alloc::{AllocError, Global};

/// Returns the layers of an Image whose state is well placed.
pub(crate) fn layers_of(alloc: Global, image: &Image) -> Result<Layers, AllocError>
    requires placed { IsWellPlaced image.now.layout image.now.memory }
    ensures placed { IfOk result ArePlaced }
    ensures layout { IfOk result (λ m. m.layout ≡ image.now.layout) }
    ensures state { IfOk result (λ m. state_of m ≡ image.now.memory) }
{
    keeps_limits(image);
    let buddy = buddy_of(alloc, image)?;
    let cpus = cpus_of(alloc, image)?;
    let pages = pages_of(alloc, image)?;
    let kernel = kernel_of(alloc, image)?;
    let blocks = blocks_of(alloc, image)?;
    Ok(Layers {
        layout: image.layout().copy(alloc)?,
        frames: Frames { buddy, cpus },
        pages,
        kernel,
        blocks,
    })
}

/// Called for its contract: the layout of every Image is within its limits.
fn keeps_limits(image: &Image)
    ensures { IsLayout image.now.layout }
{
    let _ = image.layout().order();
}

/// Returns the layers' state as an Image.
pub(crate) fn image_of(alloc: Global, layers: &Layers) -> Result<Image, AllocError>
    requires placed { ArePlaced layers.now }
    ensures { IfOk result
        (λ image. image ≡ record { layout = layers.now.layout; memory = state_of layers.now }) }
{
    let mut image = Image::empty(alloc, &layers.layout)?;
    put_areas(alloc, &mut image, &layers.frames.buddy)?;
    put_cpus(alloc, &mut image, &layers.frames.cpus)?;
    put_pages(alloc, &mut image, &layers.pages)?;
    put_kernel(&mut image, &layers.kernel)?;
    put_blocks(&mut image, &layers.blocks)?;
    Ok(image)
}
