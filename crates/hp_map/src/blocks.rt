//! The free blocks and the kernel's blocks that start in a memory block.
ghost use Rattle.std.specs.Prelude.{◌≡◌, ◌<◌, ◌^◌, ◌++◌, IfOk, OnOk};
ghost use Rattle.hp_map.specs.Blocks.{free_at, free_of, is_isolated_class, kernel_at, kernel_of};
ghost use Rattle.hp_map.specs.Cells.{cell_at};

use crate::block_picture::{FreeBlock, KernelBlock};
use crate::cells::first_of;
use hp_machine::Machine;
use hp_units::{Block, Class, Frame, Layout, Order};
use std::alloc::{AllocError, Global};

/// Returns the free blocks that start in a memory block of the layout, by rising frames.
pub(crate) fn free_of(
    alloc: Global,
    machine: &Machine,
    block: Block,
) -> Result<Vec<FreeBlock>, AllocError>
    requires { block < machine.now.layout.blocks }
    ensures { IfOk result
        (λ free. free.items ≡ free_of machine.now.layout machine.now.state.free.areas block) }
{
    let mut free = Vec::new(alloc);
    let layout = machine.layout();
    let first = first_of(layout, block);
    for number in 0..layout.block_size() {
        let place = machine.buddy().place(Frame(first + number));
        add_free(&mut free, cell_at(layout, number), place)?;
    }
    Ok(free)
}

/// Adds the free block that starts at a frame, if one does.
fn add_free(
    free: &mut Vec<FreeBlock>,
    at: u32,
    place: Option<(Class, Order)>,
) -> Result<(), AllocError>
    ensures { OnOk result (free.new.items ≡ free.old.items ++ free_at at place) }
{
    if let Some(place) = place {
        free.push(FreeBlock {
            at,
            order: place.1.0,
            is_isolated: is_isolated_class(place.0),
        })?;
    }
    Ok(())
}

/// Returns whether the free blocks of a class are isolated.
fn is_isolated_class(class: Class) -> bool
    ensures { result ≡ is_isolated_class class }
{
    match class {
        Class::Nu | Class::Nm | Class::Mm => false,
        Class::IsoN | Class::IsoM => true,
    }
}

/// Returns the kernel's blocks that start in a memory block of the layout, by rising frames.
pub(crate) fn kernel_of(
    alloc: Global,
    machine: &Machine,
    block: Block,
) -> Result<Vec<KernelBlock>, AllocError>
    requires { block < machine.now.layout.blocks }
    ensures { IfOk result
        (λ kernel. kernel.items ≡ kernel_of machine.now.layout machine.now.state block) }
{
    let mut kernel = Vec::new(alloc);
    let layout = machine.layout();
    let first = first_of(layout, block);
    for number in 0..layout.block_size() {
        let order = machine.kernel_at(Frame(first + number));
        add_kernel(&mut kernel, cell_at(layout, number), order)?;
    }
    Ok(kernel)
}

/// Adds the kernel's block that starts at a frame, if one does.
fn add_kernel(
    kernel: &mut Vec<KernelBlock>,
    at: u32,
    order: Option<Order>,
) -> Result<(), AllocError>
    ensures { OnOk result (kernel.new.items ≡ kernel.old.items ++ kernel_at at order) }
{
    if let Some(order) = order {
        kernel.push(KernelBlock { at, order: order.0 })?;
    }
    Ok(())
}

/// Returns how many characters come before a frame, counted from the first of its memory block.
fn cell_at(layout: &Layout, number: u32) -> u32
    requires { number < 2 ^ 20 }
    ensures { result ≡ cell_at layout.now number }
{
    number + number / layout.pageblock_size()
}
