ghost use Rattle.std.specs.Prelude.{◌≡◌, IfOk, None, replicate};
ghost use Rattle.hp_tape.specs.Tapes.{HasRoom};

use hp_pages::{KernelBlocks, short_order};
use hp_tape::{Delta, Tape};
use hp_units::{Frame, Order};
use std::alloc::Global;
use std::test::Fail;

/// Returns a new table of kernel blocks for four frames.
fn small_kernel(alloc: Global) -> Result<KernelBlocks, Fail>
    ensures { IfOk result (λ kernel. kernel ≡ replicate 4 None) }
{
    let kernel = KernelBlocks::new(alloc, 4)?;
    let copy = kernel.copy(alloc)?;
    Ok(copy)
}

/// Sets a block of two frames and undoes that. Returns whether the block is found in between, and
/// no longer at the end.
fn is_set_and_taken_back(kernel: &mut KernelBlocks, tape: &mut Tape) -> bool
    requires none { kernel.old ≡ replicate 4 None }
    requires room { HasRoom tape.old 1 }
{
    let order = Some(Order(1));
    kernel.set(Frame(2), order, tape);
    let is_set = kernel.order_at(Frame(2)) == order && kernel.lowest(1, 3) == Some(Frame(2));
    kernel.back(Delta::Kernel {
        frame: Frame(2),
        was: None,
        now: short_order(order),
    });
    is_set && kernel.lowest(0, 4).is_none()
}

#[test]
fn sets_and_takes_back(rt: HostRuntime) -> Result<(), Fail> {
    let mut kernel = small_kernel(rt.alloc())?;
    let mut tape = Tape::with_room(rt.alloc(), 1)?;
    assert!(rt; is_set_and_taken_back(&mut kernel, &mut tape));
    Ok(())
}
