//! Two threads that share a machine, then a plan through a seat.
ghost use Rattle.std.specs.Prelude.{◌≡◌};
ghost use Rattle.hp_shared.specs.Shared.{IsFresh};

use hp_machine::Machine;
use hp_ops::run_plan;
use hp_shared::{Job, Seat, SeatPort, Shared, close};
use hp_units::{Block, Boot, Cpu, Event, Item, Layout, OpEnd, Owner, Page, Parts, Plan, Wish};
use std::alloc::{AllocError, Global};
use std::marker::Brand;
use std::sync::Wait;
use std::sync::ledger::Blank;
use std::test::Fail;
use std::thread;
use std::thread::Threads;

/// Returns a layout of four memory blocks and two processors.
pub fn layout(alloc: Global) -> Result<Layout, Fail> {
    let parts = Parts {
        order: 2,
        pageblocks: 1,
        blocks: 4,
        cpus: 2,
        batch: 2,
        high: 2,
        owners: 2,
        pages: 8,
        words: 2,
        history: 1000,
        boot: &[Boot::Normal, Boot::Normal, Boot::Movable, Boot::Offline],
    };
    let layout = Layout::new(alloc, &parts)?;
    Ok(layout)
}

/// Maps an owner's first page through a seat, and returns the seat.
fn mapped<L: Job, R: Wait>(
    rt: &R,
    alloc: Global,
    shared: &Shared<L>,
    seat: Seat<L>,
    owner: u32,
) -> Seat<L> {
    let mut seat = seat;
    let event = Event::Map {
        owner: Owner(owner),
        page: Page(0),
    };
    let _ = seat.reserve(1);
    let _ = seat.call(rt, alloc, shared, &event);
    seat
}

/// Maps a page through each of two seats, each in a thread of its own, and returns the seats.
fn both_mapped<L: Job + Send + Sync, R: Threads + Wait + Sync>(
    rt: &R,
    alloc: Global,
    shared: &Shared<L>,
    first: Seat<L>,
    second: Seat<L>,
) -> (Seat<L>, Seat<L>) {
    thread::scope(thread::scope_env(), rt, move |scope| {
        let there = scope.spawn(move || mapped(rt, alloc, shared, second, 1));
        let first = mapped(rt, alloc, shared, first, 0);
        match there {
            Ok(child) => (first, child.join(rt)),
            Err(refused) => (first, (refused.value)()),
        }
    })
}

/// Maps a page through each of two seats in two threads, and returns the seats in the other order.
fn mapped_by_two<L: Job + Send + Sync, R: Threads + Wait + Sync>(
    rt: &R,
    alloc: Global,
    shared: &Shared<L>,
    mut seats: Vec<Seat<L>>,
) -> Option<Vec<Seat<L>>> {
    let second = seats.pop()?;
    let first = seats.pop()?;
    let (first, second) = both_mapped(rt, alloc, shared, first, second);
    vec![in alloc; second, first].ok()
}

/// Closes, and returns how many records there are.
fn closed_records<L: Job>(alloc: Global, shared: Shared<L>, seats: Vec<Seat<L>>) -> Option<u64> {
    match close(alloc, shared, seats, Vec::new(alloc)) {
        Ok(closed) => Some(closed.records),
        Err(_refused) => None,
    }
}

/// Returns a plan that takes the third memory block offline.
fn offline(alloc: Global) -> Result<Plan, AllocError> {
    let item = Item {
        block: Block(2),
        wish: Wish::Off,
    };
    Plan::new(alloc, vec![in alloc; item]?)
}

/// Carries out a plan through a seat, and returns its end.
fn planned<L: Job, R: Wait>(
    rt: &R,
    alloc: Global,
    shared: &Shared<L>,
    seat: &mut Seat<L>,
) -> Option<OpEnd> {
    let plan = offline(alloc).ok()?;
    let mut port = SeatPort::new(rt, seat, shared);
    Some(run_plan(alloc, &mut port, plan, 1024))
}

/// Maps a page in each of two threads, then takes the pages' block offline through a seat. Returns
/// the plan's end, and how many records a close finds.
fn mapped_and_moved<L: Job + Send + Sync, R: Threads + Wait + Sync>(
    rt: &R,
    alloc: Global,
    shared: Shared<L>,
    seats: Vec<Seat<L>>,
) -> Option<(OpEnd, u64)> {
    let mut seats = mapped_by_two(rt, alloc, &shared, seats)?;
    let end = planned(rt, alloc, &shared, seats.get_mut(0)?)?;
    let records = closed_records(alloc, shared, seats)?;
    Some((end, records))
}

/// Runs `mapped_and_moved` on a shared machine made from `machine`.
fn plays_on<L: Job + Send + Sync, R: Threads + Wait + Sync>(
    rt: &R,
    alloc: Global,
    records: Blank,
    sealed: Blank,
    fulls: Blank,
    machine: Machine,
) -> Option<(OpEnd, u64)>
    requires machine { IsFresh L.layout machine }
    requires name { records.name ≡ L.name }
    requires parts { records.parts ≡ L.parts }
    requires one_each { records.parts ≡ L.layout.cpus }
    requires sealed { (sealed.name ≡ L.sealed) × (sealed.parts ≡ L.layout.cpus) }
    requires fulls { (fulls.name ≡ L.fulls) × (fulls.parts ≡ L.layout.cpus) }
{
    let (shared, seats) = Shared::<L>::new(alloc, records, sealed, fulls, machine).ok()?;
    mapped_and_moved(rt, alloc, shared, seats)
}

/// Boots a machine and runs `plays_on` on it.
fn plays<R: Threads + Wait + Sync>(rt: &R, alloc: Global) -> Result<Option<(OpEnd, u64)>, Fail> {
    let layout = layout(alloc)?;
    let machine = Machine::boot(alloc, &layout)?;
    let records = Blank::new(layout.cpus() as u64);
    let sealed = Blank::new(layout.cpus() as u64);
    let fulls = Blank::new(layout.cpus() as u64);
    Ok(plays_on::<Brand, _>(rt, alloc, records, sealed, fulls, machine))
}

#[test]
fn two_threads_map_a_page_each(rt: HostRuntime) -> Result<(), Fail> {
    let played = plays(&rt, rt.alloc())?;
    assert!(rt; matches!(played, Some((OpEnd::Done, 9))));
    Ok(())
}
