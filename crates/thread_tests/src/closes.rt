//! A shared machine that is closed too early: everything comes back, and it can be closed then.
ghost use Rattle.std.specs.Prelude.{◌≡◌};
ghost use Rattle.hp_shared.specs.Shared.{IsFresh};

use super::seats::layout;
use hp_history::Volume;
use hp_machine::Machine;
use hp_shared::{CloseFault, CloseRefused, Job, Seat, Shared, close};
use hp_units::{Event, Owner, Page, Reply};
use std::alloc::Global;
use std::marker::Brand;
use std::sync::Wait;
use std::sync::ledger::Blank;
use std::test::Fail;

/// What the first close lacks.
#[derive(Clone, Copy, PartialEq, Eq, Drop)]
enum Lack {
    /// The second seat.
    Seat,
    /// The volume.
    Volume,
}

/// Maps a page through a seat: the first one of the owner with the processor's number. Returns
/// whether the reply is `Done` and the seat then has one receipt.
fn maps<L: Job, R: Wait>(rt: &R, alloc: Global, shared: &Shared<L>, seat: &mut Seat<L>) -> bool {
    let event = Event::Map {
        owner: Owner(seat.cpu().0),
        page: Page(0),
    };
    match seat.call(rt, alloc, shared, &event) {
        Ok(reply) => reply.same(&Reply::Done) && seat.receipts().len() == 1,
        Err(_fault) => false,
    }
}

/// Maps a page and seals through the first seat, and then maps a page through the second. Returns
/// the volume, or `None` if one of these fails.
fn sealed<L: Job, R: Wait>(
    rt: &R,
    alloc: Global,
    shared: &Shared<L>,
    first: &mut Seat<L>,
    second: &mut Seat<L>,
) -> Option<Volume> {
    if !maps(rt, alloc, shared, first) {
        return None;
    }
    let volume = first.seal(rt, alloc, shared).ok();
    if maps(rt, alloc, shared, second) {
        return volume;
    }
    None
}

/// Closes again, now also with the seat that was missing. Returns why the first close was refused,
/// and how many records the second close finds. Returns `None` if the first did not hand back one
/// seat and one volume, or if the second close fails.
fn closed_with_seat<L: Job>(
    alloc: Global,
    refused: CloseRefused<L>,
    second: Seat<L>,
) -> Option<(CloseFault, u64)> {
    let CloseRefused {
        fault,
        shared,
        mut seats,
        volumes,
    } = refused;
    let is_whole = seats.len() == 1 && volumes.len() == 1;
    seats.push(second).ok()?;
    let closed = close(alloc, shared, seats, volumes).ok()?;
    if is_whole {
        Some((fault, closed.records))
    } else {
        None
    }
}

/// Closes again, now also with the volume that was missing. Returns why the first close was
/// refused, and how many records the second close finds. Returns `None` if the first did not hand
/// back two seats and no volume, or if the second close fails.
fn closed_with_volume<L: Job>(
    alloc: Global,
    refused: CloseRefused<L>,
    volume: Volume,
) -> Option<(CloseFault, u64)> {
    let CloseRefused {
        fault,
        shared,
        seats,
        mut volumes,
    } = refused;
    let is_whole = seats.len() == 2 && volumes.is_empty();
    volumes.push(volume).ok()?;
    let closed = close(alloc, shared, seats, volumes).ok()?;
    if is_whole {
        Some((fault, closed.records))
    } else {
        None
    }
}

/// Closes with only the first seat, then with both.
fn closed_without_seat<L: Job>(
    alloc: Global,
    shared: Shared<L>,
    first: Seat<L>,
    second: Seat<L>,
    volume: Volume,
) -> Option<(CloseFault, u64)> {
    let seats = vec![in alloc; first].ok()?;
    let volumes = vec![in alloc; volume].ok()?;
    match close(alloc, shared, seats, volumes) {
        Ok(_closed) => None,
        Err(refused) => closed_with_seat(alloc, refused, second),
    }
}

/// Closes without the volume, then with it.
fn closed_without_volume<L: Job>(
    alloc: Global,
    shared: Shared<L>,
    first: Seat<L>,
    second: Seat<L>,
    volume: Volume,
) -> Option<(CloseFault, u64)> {
    let seats = vec![in alloc; first, second].ok()?;
    match close(alloc, shared, seats, Vec::new(alloc)) {
        Ok(_closed) => None,
        Err(refused) => closed_with_volume(alloc, refused, volume),
    }
}

/// Returns why a close that lacks something is refused, and how many records a complete one finds.
fn closed_at_last<L: Job, R: Wait>(
    rt: &R,
    alloc: Global,
    shared: Shared<L>,
    mut seats: Vec<Seat<L>>,
    lack: Lack,
) -> Option<(CloseFault, u64)> {
    let mut second = seats.pop()?;
    let mut first = seats.pop()?;
    let volume = sealed(rt, alloc, &shared, &mut first, &mut second)?;
    match lack {
        Lack::Seat => closed_without_seat(alloc, shared, first, second, volume),
        Lack::Volume => closed_without_volume(alloc, shared, first, second, volume),
    }
}

/// Runs `closed_at_last` on a shared machine made from `machine`.
fn plays_on<L: Job, R: Wait>(
    rt: &R,
    alloc: Global,
    records: Blank,
    sealed: Blank,
    fulls: Blank,
    machine: Machine,
    lack: Lack,
) -> Option<(CloseFault, u64)>
    requires machine { IsFresh L.layout machine }
    requires name { records.name ≡ L.name }
    requires parts { records.parts ≡ L.parts }
    requires one_each { records.parts ≡ L.layout.cpus }
    requires sealed { (sealed.name ≡ L.sealed) × (sealed.parts ≡ L.layout.cpus) }
    requires fulls { (fulls.name ≡ L.fulls) × (fulls.parts ≡ L.layout.cpus) }
{
    let (shared, seats) = Shared::<L>::new(alloc, records, sealed, fulls, machine).ok()?;
    closed_at_last(rt, alloc, shared, seats, lack)
}

/// Boots a machine and runs `closed_at_last` on it.
fn plays<R: Wait>(rt: &R, alloc: Global, lack: Lack) -> Result<Option<(CloseFault, u64)>, Fail> {
    let layout = layout(alloc)?;
    let machine = Machine::boot(alloc, &layout)?;
    let records = Blank::new(layout.cpus() as u64);
    let sealed = Blank::new(layout.cpus() as u64);
    let fulls = Blank::new(layout.cpus() as u64);
    Ok(plays_on::<Brand, _>(rt, alloc, records, sealed, fulls, machine, lack))
}

#[test]
fn a_missing_seat_is_found(rt: HostRuntime) -> Result<(), Fail> {
    let played = plays(&rt, rt.alloc(), Lack::Seat)?;
    assert!(rt; matches!(played, Some((CloseFault::SeatMissing, 2))));
    Ok(())
}

#[test]
fn a_missing_volume_is_found(rt: HostRuntime) -> Result<(), Fail> {
    let played = plays(&rt, rt.alloc(), Lack::Volume)?;
    assert!(rt; matches!(played, Some((CloseFault::WrongVolume { at: 0 }, 2))));
    Ok(())
}
