//! What changed of the free lists and the processors' lists.
ghost use Rattle.std.specs.Prelude.{◌≡◌, ◌+◌, ◌*◌, IfOk, OnOk};
ghost use Rattle.hp_units.specs.Memory.{class_index, pool_index};
ghost use Rattle.hp_trace_json.specs.Changes.{CpuListsTold, FreeListsTold, SplicesCpu, SplicesFree};
ghost use Rattle.hp_trace_json.specs.Parts.{cpu_list_at, free_list_at};
ghost use Rattle.hp_trace_json.specs.Told.{AddsIf};

use crate::splices::{Splice, splice_between};
use hp_plain::{Image, pool_numbered};
use hp_units::{Class, Cpu, Frame, Order, Pool};
use std::alloc::{AllocError, Global};

/// A free list that changed, and how.
#[derive(Drop)]
pub struct FreeListNow {
    /// The class of its blocks.
    pub class: Class,
    /// The order of its blocks.
    pub order: Order,
    /// How it changed.
    pub splice: Splice,
}

/// A processor's list that changed, and how.
#[derive(Drop)]
pub struct CpuListNow {
    /// The processor.
    pub cpu: Cpu,
    /// The pool of the frames.
    pub pool: Pool,
    /// How it changed.
    pub splice: Splice,
}

/// Returns the free lists that differ between the two states, with how they changed.
pub(crate) fn free_lists_told(
    alloc: Global,
    was: &Option<Image>,
    now: &Image,
) -> Result<Vec<FreeListNow>, AllocError>
    ensures { IfOk result
        (λ told. FreeListsTold was.now now.now (5 * (now.now.layout.order + 1)) told.items) }
{
    let mut told = Vec::new(alloc);
    for number in 0..5 * (now.layout().order() + 1) {
        let class = Class::numbered(number % 5);
        let order = Order(number / 5);
        let list = now.list(class, order);
        tell_free_list(
            &mut told,
            alloc,
            class,
            order,
            free_list_in(was, class, order),
            list,
        )?;
    }
    Ok(told)
}

/// Adds a free list if it changed.
fn tell_free_list(
    told: &mut Vec<FreeListNow>,
    alloc: Global,
    class: Class,
    order: Order,
    was: &[Frame],
    list: &[Frame],
) -> Result<(), AllocError>
    ensures { OnOk result (AddsIf (λ x. (x.class ≡ class) × (x.order ≡ order)) SplicesFree was.now list.now
        told.old.items told.new.items) }
{
    if was == list {
        return Ok(());
    }
    let splice = splice_between(alloc, was, list)?;
    told.push(FreeListNow {
        class,
        order,
        splice,
    })?;
    Ok(())
}

/// Returns a free list of a state; the empty list if there is no state.
fn free_list_in(state: &Option<Image>, class: Class, order: Order) -> &[Frame]
    ensures { result.now ≡ free_list_at state.now (5 * order + class_index class) }
{
    match state {
        Some(image) => image.list(class, order),
        None => &[],
    }
}

/// Returns the processors' lists that differ between the two states, with how they changed.
pub(crate) fn cpu_lists_told(
    alloc: Global,
    was: &Option<Image>,
    now: &Image,
) -> Result<Vec<CpuListNow>, AllocError>
    ensures { IfOk result (λ told. CpuListsTold was.now now.now (3 * now.now.layout.cpus) told.items) }
{
    let mut told = Vec::new(alloc);
    for number in 0..3 * now.layout().cpus() {
        let cpu = Cpu(number / 3);
        let pool = pool_numbered(number % 3);
        let list = now.cpu_list(cpu, pool);
        tell_cpu_list(
            &mut told,
            alloc,
            cpu,
            pool,
            cpu_list_in(was, cpu, pool),
            list,
        )?;
    }
    Ok(told)
}

/// Adds a processor's list if it changed.
fn tell_cpu_list(
    told: &mut Vec<CpuListNow>,
    alloc: Global,
    cpu: Cpu,
    pool: Pool,
    was: &[Frame],
    list: &[Frame],
) -> Result<(), AllocError>
    ensures { OnOk result (AddsIf (λ x. (x.cpu ≡ cpu) × (x.pool ≡ pool)) SplicesCpu was.now list.now
        told.old.items told.new.items) }
{
    if was == list {
        return Ok(());
    }
    let splice = splice_between(alloc, was, list)?;
    told.push(CpuListNow { cpu, pool, splice })?;
    Ok(())
}

/// Returns a processor's list in a state; the empty list if there is no state.
fn cpu_list_in(state: &Option<Image>, cpu: Cpu, pool: Pool) -> &[Frame]
    ensures { result.now ≡ cpu_list_at state.now (3 * cpu + pool_index pool) }
{
    match state {
        Some(image) => image.cpu_list(cpu, pool),
        None => &[],
    }
}
