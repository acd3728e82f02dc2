//! Layers made at both ends of a limit. refusals/check_refusals.py checks, on the cases of
//! crates/refusals, that layers allocate equally often at both ends.
ghost use Rattle.std.specs.Prelude.{◌≡◌, IfOk};

use crate::layouts::BOOT;
use hp_buddy::{Buddy, Cpus};
use hp_units::{Class, Cpu, Layout, LayoutFault, Order, Parts, Pool};
use std::alloc::Global;
use std::test::Fail;

/// Returns a layout of two memory blocks of one pageblock each, with this greatest order and number
/// of processors.
fn two_pageblocks(alloc: Global, order: u64, cpus: u64) -> Result<Layout, LayoutFault>
    ensures order { IfOk result (λ layout. layout.order ≡ order) }
    ensures cpus { IfOk result (λ layout. layout.cpus ≡ cpus) }
{
    let parts = Parts {
        order,
        pageblocks: 1,
        blocks: 2,
        cpus,
        batch: 1,
        high: 1,
        owners: 1,
        pages: 1,
        words: 1,
        history: 1,
        boot: BOOT,
    };
    Layout::new(alloc, &parts)
}

#[test]
fn made_at_the_least_order(rt: HostRuntime) -> Result<(), Fail> {
    let layout = two_pageblocks(rt.alloc(), 0, 1)?;
    let buddy = Buddy::new(rt.alloc(), &layout)?;
    assert!(rt; buddy.len(Class::Nm, Order(0)) == 0);
    Ok(())
}

#[test]
fn made_at_the_greatest_order(rt: HostRuntime) -> Result<(), Fail> {
    let layout = two_pageblocks(rt.alloc(), 10, 1)?;
    let buddy = Buddy::new(rt.alloc(), &layout)?;
    assert!(rt; buddy.len(Class::Nm, Order(10)) == 0);
    Ok(())
}

#[test]
fn made_for_one_processor(rt: HostRuntime) -> Result<(), Fail> {
    let layout = two_pageblocks(rt.alloc(), 2, 1)?;
    let cpus = Cpus::new(rt.alloc(), &layout)?;
    assert!(rt; cpus.len(Cpu(0), Pool::Mm) == 0);
    Ok(())
}

#[test]
fn made_for_many_processors(rt: HostRuntime) -> Result<(), Fail> {
    let layout = two_pageblocks(rt.alloc(), 2, 64)?;
    let cpus = Cpus::new(rt.alloc(), &layout)?;
    assert!(rt; cpus.len(Cpu(63), Pool::Mm) == 0);
    Ok(())
}
