//! A shared machine that is taken out of its lock, and put under a lock again.
ghost use Rattle.std.specs.Prelude.{◌≡◌};
ghost use Rattle.hp_shared.specs.Shared.{IsFresh};

use crate::seats::layout;
use hp_machine::Machine;
use hp_shared::{CloseFault, Closed, Job, Locked, NotClosed, Seat, Shared};
use hp_units::{Event, Owner, Page};
use std::alloc::Global;
use std::marker::Brand;
use std::sync::Wait;
use std::sync::ledger::Blank;
use std::test::Fail;

/// Takes a machine out of its lock, and closes it with only its first seat, then with both. Returns
/// why the first close was refused, and how many records there were then and at the end.
fn closed_at_last<L: Job>(
    alloc: Global,
    shared: Shared<L>,
    first: Vec<Seat<L>>,
    second: Seat<L>,
) -> Option<(CloseFault, u64, u64)> {
    match shared.into_locked().close(alloc, first, Vec::new(alloc)) {
        Ok(_closed) => None,
        Err(refused) => closed_with(alloc, refused, second),
    }
}

/// Closes a machine that came back, with one more seat.
fn closed_with<L: Job>(
    alloc: Global,
    refused: NotClosed<L>,
    seat: Seat<L>,
) -> Option<(CloseFault, u64, u64)> {
    let fault = refused.fault;
    let before = refused.locked.machine().last_serial();
    let closed = closed_again(alloc, refused, seat)?;
    Some((fault, before, closed.records))
}

/// Puts the machine of a refused close under a lock again, takes it out, and closes it
/// with one more seat.
fn closed_again<L: Job>(alloc: Global, refused: NotClosed<L>, seat: Seat<L>) -> Option<Closed> {
    let mut back = refused.share();
    back.seats.push(seat).ok()?;
    let locked: Locked<L> = back.shared.into_locked();
    locked.close(alloc, back.seats, back.volumes).ok()
}

/// Maps a page through the first of two seats, and closes.
fn mapped_and_closed<L: Job, R: Wait>(
    rt: &R,
    alloc: Global,
    shared: Shared<L>,
    seats: Vec<Seat<L>>,
) -> Option<(CloseFault, u64, u64)> {
    let mut seats = seats;
    let event = Event::Map {
        owner: Owner(0),
        page: Page(0),
    };
    let _ = seats.get_mut(0)?.call(rt, alloc, &shared, &event);
    let second = seats.pop()?;
    closed_at_last(alloc, shared, seats, second)
}

/// Runs `mapped_and_closed` on a shared machine made from `machine`.
fn closes_on<L: Job, R: Wait>(
    rt: &R,
    alloc: Global,
    records: Blank,
    sealed: Blank,
    fulls: Blank,
    machine: Machine,
) -> Option<(CloseFault, u64, u64)>
    requires machine { IsFresh L.layout machine }
    requires name { records.name ≡ L.name }
    requires parts { records.parts ≡ L.parts }
    requires one_each { records.parts ≡ L.layout.cpus }
    requires sealed { (sealed.name ≡ L.sealed) × (sealed.parts ≡ L.layout.cpus) }
    requires fulls { (fulls.name ≡ L.fulls) × (fulls.parts ≡ L.layout.cpus) }
{
    let (shared, seats) = Shared::<L>::new(alloc, records, sealed, fulls, machine).ok()?;
    mapped_and_closed(rt, alloc, shared, seats)
}

/// Boots a machine and runs `closes_on` on it.
fn closes<R: Wait>(rt: &R, alloc: Global) -> Result<Option<(CloseFault, u64, u64)>, Fail> {
    let layout = layout(alloc)?;
    let machine = Machine::boot(alloc, &layout)?;
    let records = Blank::new(layout.cpus() as u64);
    let sealed = Blank::new(layout.cpus() as u64);
    let fulls = Blank::new(layout.cpus() as u64);
    Ok(closes_on::<Brand, _>(rt, alloc, records, sealed, fulls, machine))
}

#[test]
fn one_of_two_seats_does_not_close_and_the_machine_comes_back(rt: HostRuntime) -> Result<(), Fail> {
    let ended = closes(&rt, rt.alloc())?;
    assert!(rt; matches!(ended, Some((CloseFault::SeatMissing, 1, 1))));
    Ok(())
}
