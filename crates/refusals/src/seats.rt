//! A machine that its processors share, each through a seat (its access to the machine), and its
//! close. If a call runs out of memory, everything comes back, and the call is made again.
ghost use Rattle.std.specs.Prelude.{◌≡◌};
ghost use Rattle.hp_shared.specs.Shared.{IsFresh};

use crate::calls::expect_receipt;
use crate::same::{expect_same_machines, same_volumes};
use hp_history::Volume;
use hp_machine::Machine;
use hp_scenario::{Line, Scenario, Work};
use hp_shared::{CloseFault, CloseRefused, Closed, Job, Seat, Shared, close};
use hp_units::{Event, Reply};
use refused_values::{Case, Outcome, Trouble, expect};
use std::alloc::Global;
use std::marker::Brand;
use std::sync::Wait;
use std::sync::ledger::Blank;

/// Calls and seals of both seats.
pub const CALLS: &str = concat!(
    r#""0 map db 0","1 map web 0","0 begin off 2","0 seal","1 drainfor 3 0","0 migrate 3","#,
    r#""1 seal","0 cancel 3""#,
);

/// Shares a machine, makes the calls of a scenario through its seats, and closes it. Checks each
/// call against another machine that makes the same calls.
pub fn run<R: Wait>(rt: &R, case: &mut Case<'_>, scenario: &Scenario) -> Outcome {
    let mut twin = Machine::boot(case.alloc, &scenario.layout)?;
    let machine = Machine::boot(case.alloc, &scenario.layout)?;
    let records = Blank::new(scenario.layout.cpus() as u64);
    let sealed = Blank::new(scenario.layout.cpus() as u64);
    let fulls = Blank::new(scenario.layout.cpus() as u64);
    share::<Brand, R>(
        rt,
        case,
        records,
        sealed,
        fulls,
        machine,
        &mut twin,
        scenario.lines.as_slice(),
    )
}

/// Shares a machine. If memory runs out, the machine comes back as it was and is shared again.
fn share<L: Job, R: Wait>(
    rt: &R,
    case: &mut Case<'_>,
    records: Blank,
    sealed: Blank,
    fulls: Blank,
    machine: Machine,
    twin: &mut Machine,
    lines: &[Line],
) -> Outcome
    requires machine { IsFresh L.layout machine }
    requires name { records.name ≡ L.name }
    requires parts { records.parts ≡ L.parts }
    requires one_each { records.parts ≡ L.layout.cpus }
    requires sealed { (sealed.name ≡ L.sealed) × (sealed.parts ≡ L.layout.cpus) }
    requires fulls { (fulls.name ≡ L.fulls) × (fulls.parts ≡ L.layout.cpus) }
{
    let (records, sealed, fulls, machine) = match Shared::<L>::new(
        case.alloc, records, sealed, fulls, machine,
    ) {
        Ok((shared, seats)) => return run_all(rt, case, shared, seats, twin, lines),
        Err(back) => back,
    };
    case.note();
    expect_same_machines(case.alloc, &machine, twin)?;
    match Shared::<L>::new(case.alloc, records, sealed, fulls, machine) {
        Ok((shared, seats)) => run_all(rt, case, shared, seats, twin, lines),
        Err(_) => Err(Trouble::OutOfMemory),
    }
}

/// Runs the lines through the seats, and closes.
fn run_all<L: Job, R: Wait>(
    rt: &R,
    case: &mut Case<'_>,
    shared: Shared<L>,
    mut seats: Vec<Seat<L>>,
    twin: &mut Machine,
    lines: &[Line],
) -> Outcome {
    let mut volumes = Vec::new(case.alloc);
    let ran = run_lines(rt, case, &shared, &mut seats, twin, &mut volumes, lines);
    let is_closed = closes(case, shared, seats, volumes, twin);
    ran?;
    is_closed
}

/// Runs each line through the seat of its processor, and on `twin`.
fn run_lines<L: Job, R: Wait>(
    rt: &R,
    case: &mut Case<'_>,
    shared: &Shared<L>,
    seats: &mut Vec<Seat<L>>,
    twin: &mut Machine,
    volumes: &mut Vec<Volume>,
    lines: &[Line],
) -> Outcome {
    for line in lines {
        let Some(seat) = seats.get_mut(line.cpu.0 as usize) else {
            return Err(Trouble::Wrong);
        };
        match &line.work {
            Work::Event(event) => run_call(rt, case, shared, seat, twin, event)?,
            _ => run_seal(rt, case, shared, seat, twin, volumes)?,
        }
    }
    Ok(())
}

/// Makes a call through a seat. Checks that the seat's receipt is the one that the same call on
/// `twin` gives.
fn run_call<L: Job, R: Wait>(
    rt: &R,
    case: &mut Case<'_>,
    shared: &Shared<L>,
    seat: &mut Seat<L>,
    twin: &mut Machine,
    event: &Event,
) -> Outcome {
    let count = seat.receipts().len();
    let reply = reply_of(rt, case, shared, seat, event)?;
    let Some(kept) = seat.receipts().get(count) else {
        return Err(Trouble::Wrong);
    };
    expect(kept.reply.same(&reply))?;
    expect_receipt(case.alloc, twin, seat.cpu(), event, kept)
}

/// Makes a call through a seat, and returns the reply. If it runs out of memory, checks that there
/// is no new receipt and makes it again.
fn reply_of<L: Job, R: Wait>(
    rt: &R,
    case: &mut Case<'_>,
    shared: &Shared<L>,
    seat: &mut Seat<L>,
    event: &Event,
) -> Outcome<Reply> {
    let count = seat.receipts().len();
    match seat.call(rt, case.alloc, shared, event) {
        Ok(reply) => Ok(reply),
        Err(fault) => {
            let is_kept = expect(seat.receipts().len() == count);
            case.refused(Trouble::from(fault), is_kept)?;
            Ok(seat.call(rt, case.alloc, shared, event)?)
        }
    }
}

/// Seals through a seat, and keeps the volume. Checks that a seal of `twin` gives the same volume.
fn run_seal<L: Job, R: Wait>(
    rt: &R,
    case: &mut Case<'_>,
    shared: &Shared<L>,
    seat: &mut Seat<L>,
    twin: &mut Machine,
    volumes: &mut Vec<Volume>,
) -> Outcome {
    volumes.reserve(1)?;
    let volume = volume_of(rt, case, shared, seat)?;
    let is_same = expect_volume(case.alloc, twin, &volume);
    volumes.push_reserved(volume);
    is_same
}

/// Seals through a seat, and returns the volume. Seals again if memory runs out.
fn volume_of<L: Job, R: Wait>(
    rt: &R,
    case: &mut Case<'_>,
    shared: &Shared<L>,
    seat: &mut Seat<L>,
) -> Outcome<Volume> {
    match seat.seal(rt, case.alloc, shared) {
        Ok(volume) => Ok(volume),
        Err(fault) => {
            case.refused(Trouble::from(fault), Ok(()))?;
            Ok(seat.seal(rt, case.alloc, shared)?)
        }
    }
}

/// Seals a machine, and checks that the volume is this one.
fn expect_volume(alloc: Global, machine: &mut Machine, volume: &Volume) -> Outcome {
    let wanted = machine.seal(alloc)?;
    expect(same_volumes(volume, &wanted))
}

/// Closes the machine, and checks that it equals `twin`. If memory runs out, everything comes back
/// and it is closed again.
fn closes<L: Job>(
    case: &mut Case<'_>,
    shared: Shared<L>,
    seats: Vec<Seat<L>>,
    volumes: Vec<Volume>,
    twin: &Machine,
) -> Outcome {
    match close(case.alloc, shared, seats, volumes) {
        Ok(closed) => expect_closed(case.alloc, &closed, twin),
        Err(refused) => closes_again(case, refused, twin),
    }
}

/// Closes a machine again after a refused close. Checks that the refusal was for memory and handed
/// back both seats and both volumes, and that the machine equals `twin`.
fn closes_again<L: Job>(case: &mut Case<'_>, refused: CloseRefused<L>, twin: &Machine) -> Outcome {
    case.note();
    let CloseRefused {
        fault,
        shared,
        seats,
        volumes,
    } = refused;
    let is_whole = fault == CloseFault::OutOfMemory && seats.len() == 2 && volumes.len() == 2;
    match close(case.alloc, shared, seats, volumes) {
        Ok(closed) => {
            expect(is_whole)?;
            expect_closed(case.alloc, &closed, twin)
        }
        Err(_refused) => Err(Trouble::Wrong),
    }
}

/// Checks that a closed machine equals one that made the same calls.
fn expect_closed(alloc: Global, closed: &Closed, twin: &Machine) -> Outcome {
    expect(closed.records == twin.last_serial() && closed.volumes.len() == 2)?;
    expect_same_machines(alloc, &closed.machine, twin)
}
