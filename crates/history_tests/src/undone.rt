//! Records that are undone one at a time: the machine goes back through every earlier state.
use hp_machine::Machine;
use hp_plain::Image;
use hp_units::{
    Auto, Block, Cpu, Event, Frame, Item, Order, Owner, Page, Plan, Reply, Serial, Wish, Zone,
};
use layouts_for_tests::{LAST_ABSENT, four_blocks};
use std::alloc::{AllocError, Global};
use std::test::Fail;

/// The number of events that are played.
const COUNT: u64 = 15;

/// The serial of the one record that is no step.
const READ: u64 = 4;

/// The operation that the plan begins.
const OP: Serial = Serial(9);

const OWNER: Owner = Owner(0);

const PAGE: Page = Page(0);

/// Returns the plan that takes block 2 offline.
fn offline(alloc: Global) -> Result<Plan, AllocError> {
    let mut items = Vec::new(alloc);
    items.push(Item {
        block: Block(2),
        wish: Wish::Off,
    })?;
    Plan::new(alloc, items)
}

/// Returns the nth event before the Begin. A kernel block is taken and later given back, and a page
/// is mapped, written and read. Then a processor's lists are drained, and a memory block is added
/// and taken online.
fn first_event(nth: u64) -> Event {
    match nth {
        1 => Event::KernelAlloc { order: Order(1) },
        2 => Event::Map {
            owner: OWNER,
            page: PAGE,
        },
        3 => Event::Write {
            owner: OWNER,
            page: PAGE,
            index: 1,
            value: 7,
        },
        READ => Event::Read {
            owner: OWNER,
            page: PAGE,
            index: 1,
        },
        5 => Event::KernelFree { frame: Frame(0) },
        6 => Event::Drain { cpu: Cpu(0) },
        7 => Event::Probe { address: 0xc0 },
        _ => Event::Online {
            block: Block(3),
            zone: Zone::Movable,
        },
    }
}

/// Returns the nth event after the begin: the operation's own calls, then others.
fn last_event(nth: u64) -> Event {
    match nth {
        10 => Event::DrainFor {
            op: OP,
            cpu: Cpu(0),
        },
        11 => Event::Migrate { op: OP },
        12 => Event::Commit { op: OP },
        13 => Event::SetAuto { auto: Auto::Online },
        14 => Event::Remove { block: Block(2) },
        _ => Event::Unmap {
            owner: OWNER,
            page: PAGE,
        },
    }
}

/// Returns the event of the nth record. Every kind but Cancel and UndoAfter comes once.
fn event_at(alloc: Global, nth: u64) -> Result<Event, AllocError> {
    if nth < OP.0 {
        return Ok(first_event(nth));
    }
    if nth > OP.0 {
        return Ok(last_event(nth));
    }
    Ok(Event::Begin {
        plan: offline(alloc)?,
    })
}

/// Returns whether a reply is not a refusal.
fn is_granted(reply: &Reply) -> bool {
    !matches!(reply, Reply::Refused(_))
}

/// Makes the call of the nth event, and returns whether it is granted as record n.
fn grants(alloc: Global, machine: &mut Machine, nth: u64) -> Result<bool, AllocError> {
    let event = event_at(alloc, nth)?;
    match machine.answer(alloc, Cpu(0), &event) {
        Ok((serial, reply)) => Ok(serial == Serial(nth) && is_granted(&reply)),
        Err(_fault) => Ok(false),
    }
}

/// Makes all calls, and keeps the state before the first and after each. Returns whether all are
/// granted.
fn plays(
    alloc: Global,
    machine: &mut Machine,
    states: &mut Vec<Image>,
) -> Result<bool, AllocError> {
    states.push(machine.image(alloc)?)?;
    for nth in 1..COUNT + 1 {
        if !grants(alloc, machine, nth)? {
            return Ok(false);
        }
        states.push(machine.image(alloc)?)?;
    }
    Ok(true)
}

/// Undoes all steps above a serial, and returns whether there are `count` of them.
fn undoes(alloc: Global, machine: &mut Machine, serial: u64, count: u64) -> bool {
    let undo = Event::UndoAfter {
        serial: Serial(serial),
    };
    match machine.answer(alloc, Cpu(1), &undo) {
        Ok((_, reply)) => reply.same(&Reply::Undone { count }),
        Err(_fault) => false,
    }
}

/// Returns whether a machine is in a state that was kept.
fn is_at(alloc: Global, machine: &Machine, kept: Option<&Image>) -> Result<bool, AllocError> {
    let now = machine.image(alloc)?;
    match kept {
        Some(state) => Ok(now.same(state)),
        None => Ok(false),
    }
}

/// Undoes one record at a time, and returns whether each earlier state comes back.
fn goes_back(alloc: Global, machine: &mut Machine, states: &[Image]) -> Result<bool, AllocError> {
    for back in 0..COUNT {
        let serial = COUNT - 1 - back;
        let count = if serial + 1 == READ { 0 } else { 1 };
        let undone = undoes(alloc, machine, serial, count);
        if !undone || !is_at(alloc, machine, states.get(serial as usize))? {
            return Ok(false);
        }
    }
    Ok(true)
}

/// Makes all calls and undoes them one by one. Returns whether both work.
fn plays_and_goes_back(alloc: Global, machine: &mut Machine) -> Result<bool, AllocError> {
    let mut states = Vec::new(alloc);
    let played = plays(alloc, machine, &mut states)?;
    Ok(played && goes_back(alloc, machine, states.as_slice())?)
}

/// Boots a machine whose last block is absent.
fn booted(alloc: Global) -> Result<Machine, Fail> {
    let layout = four_blocks(alloc, LAST_ABSENT, 100)?;
    Ok(Machine::boot(alloc, &layout)?)
}

#[test]
fn each_record_is_undone(rt: HostRuntime) -> Result<(), Fail> {
    let mut machine = booted(rt.alloc())?;
    let was_back = plays_and_goes_back(rt.alloc(), &mut machine);
    drop(machine);
    assert!(rt; was_back?);
    Ok(())
}
