//! A block that the driver of a plan takes offline, and an operation that is sealed under way.
use crate::sealed::{commit, hands_out_plugged_frames, replayed, seal};
use hp_machine::Machine;
use hp_units::{
    Block, CallFault, Cpu, Event, Frame, Item, OpEnd, Owner, Page, Plan, Reply, Row, Serial, State,
    Wish,
};
use layouts_for_tests::{LAST_OFFLINE, four_blocks};
use std::alloc::{AllocError, Global};
use std::test::Fail;

/// Boots a machine of four blocks, with room for `history` records.
fn booted(alloc: Global, history: u64) -> Result<Machine, Fail> {
    let layout = four_blocks(alloc, LAST_OFFLINE, history)?;
    Ok(Machine::boot(alloc, &layout)?)
}

/// Returns the plan that takes block 2 offline.
fn offline(alloc: Global) -> Result<Plan, AllocError> {
    let mut items = Vec::new(alloc);
    items.push(Item {
        block: Block(2),
        wish: Wish::Off,
    })?;
    Plan::new(alloc, items)
}

/// Returns whether block 2 is offline.
fn is_offline(machine: &Machine) -> bool {
    machine.row(Block(2)) == Some(Row::bare(State::Offline))
}

/// Maps a page, and returns whether the receipt has the call's serial, event and reply.
fn gives_a_receipt(alloc: Global, machine: &mut Machine) -> bool {
    let (owner, page) = (Owner(0), Page(0));
    let map = Event::Map { owner, page };
    match machine.call(alloc, Cpu(0), &map) {
        Ok(receipt) => {
            receipt.serial == Serial(1)
                && receipt.event.same(&map)
                && receipt.reply.same(&Reply::Done)
        }
        Err(_fault) => false,
    }
}

/// Maps a page and takes its block offline with the driver of a plan. Returns whether this works.
/// It makes seven records.
fn moves_a_page(alloc: Global, machine: &mut Machine) -> Result<bool, AllocError> {
    let mapped = gives_a_receipt(alloc, machine) && machine.reserve(8).is_ok();
    let plan = offline(alloc)?;
    let end = machine.run_plan(alloc, Cpu(0), plan, 1024);
    let moved = machine.frame_at(Owner(0), Page(0)) == Some(Frame(0));
    Ok(mapped && end == OpEnd::Done && moved && is_offline(machine))
}

/// Makes one more call, and returns whether the history has no room for it.
fn is_full(alloc: Global, machine: &mut Machine) -> bool {
    match machine.call(alloc, Cpu(0), &Event::Drain { cpu: Cpu(0) }) {
        Ok(_receipt) => false,
        Err(fault) => fault == CallFault::HistoryFull,
    }
}

#[test]
fn a_mapped_block_goes_offline(rt: HostRuntime) -> Result<(), Fail> {
    let mut machine = booted(rt.alloc(), 7)?;
    let moved = moves_a_page(rt.alloc(), &mut machine);
    let full = is_full(rt.alloc(), &mut machine);
    drop(machine);
    assert!(rt; moved? && full);
    Ok(())
}

/// Makes a call of processor 0, and returns whether it gets this reply.
fn is_answered(alloc: Global, machine: &mut Machine, event: &Event, reply: &Reply) -> bool {
    match machine.answer(alloc, Cpu(0), event) {
        Ok((_, answered)) => answered.same(reply),
        Err(_fault) => false,
    }
}

/// Begins to take block 2 offline, and returns whether the operation gets this number.
fn begins(alloc: Global, machine: &mut Machine, op: Serial) -> Result<bool, AllocError> {
    let plan = offline(alloc)?;
    let begin = Event::Begin { plan };
    Ok(is_answered(alloc, machine, &begin, &Reply::Opened { op }))
}

/// Drains a processor's lists for an operation, and returns whether that is done.
fn drains(alloc: Global, machine: &mut Machine, op: Serial, cpu: Cpu) -> bool {
    let drain = Event::DrainFor { op, cpu };
    is_answered(alloc, machine, &drain, &Reply::Done)
}

/// Commits an operation, and returns whether that is done.
fn commits(alloc: Global, machine: &mut Machine, op: Serial) -> bool {
    match commit(alloc, machine, Cpu(0), op) {
        Ok((_, reply)) => reply.same(&Reply::Done),
        Err(_fault) => false,
    }
}

/// Begins an operation, seals three records, and commits the operation. Returns whether each call
/// succeeds.
fn commits_across_a_seal(alloc: Global, machine: &mut Machine) -> Result<bool, AllocError> {
    let begun = begins(alloc, machine, Serial(1))?;
    let drained = drains(alloc, machine, Serial(1), Cpu(0))
        && drains(alloc, machine, Serial(1), Cpu(1));
    let volume = seal(alloc, machine)?;
    let sealed = volume.records.as_slice().len() == 3;
    drop(volume);
    let committed = commits(alloc, machine, Serial(1));
    hands_out_plugged_frames(machine);
    Ok(begun && drained && sealed && committed)
}

/// Returns whether a replay of the machine's records leads to its state.
fn is_replayed(alloc: Global, machine: &Machine) -> bool {
    match (replayed(alloc, machine), machine.image(alloc)) {
        (Ok(image), Ok(now)) => image.same(&now),
        _ => false,
    }
}

#[test]
fn an_operation_goes_on_after_a_seal(rt: HostRuntime) -> Result<(), Fail> {
    let mut machine = booted(rt.alloc(), 9)?;
    let committed = commits_across_a_seal(rt.alloc(), &mut machine);
    let shown = is_offline(&machine) && is_replayed(rt.alloc(), &machine);
    drop(machine);
    assert!(rt; committed? && shown);
    Ok(())
}
