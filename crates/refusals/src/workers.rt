//! Workers in threads. If one runs out of memory, all seats come back, and the machine closes with
//! one receipt per record.
ghost use Rattle.std.specs.Prelude.{◌≡◌};
ghost use Rattle.hp_scenario.specs.Scripts.{AreForRun};
ghost use Rattle.hp_shared.specs.Shared.{IsFresh};

use crate::situations::scenario_of;
use hp_history::Volume;
use hp_machine::Machine;
use hp_requests::ControlFault;
use hp_scenario::Script;
use hp_shared::{
    CloseFault, Ends, Job, LineEnd, OpenGate, RunEnd, Seat, Shared, close, run_workers,
};
use hp_units::{CallFault, OpEnd, Reply};
use refused_values::{Outcome, Trouble, expect};
use std::alloc::Global;
use std::marker::Brand;
use std::sync::Wait;
use std::sync::ledger::Blank;
use std::thread::Threads;

/// Lines of both processors. Their replies do not depend on the order of the processors.
const CALLS: &str = concat!(
    r#""0 map db 0","0 write db 0 1 7","0 plan 8 off 2","0 read db 0 1","0 seal","#,
    r#""1 echo online memory3/state","1 map web 0","1 write web 0 0 5","1 read web 0 0""#,
);

/// The end of a line that was done.
const DONE: LineEnd = LineEnd::Reply(Reply::Done);

/// Makes a machine, and runs the lines in workers.
pub fn run<R: Threads + Wait + Sync>(rt: &R, alloc: Global) -> Outcome {
    let scenario = scenario_of(alloc, CALLS)?;
    let machine = Machine::boot(alloc, &scenario.layout)?;
    let cpus = scenario.layout.cpus() as u64;
    let scripts = scenario.scripts(alloc)?;
    let records = Blank::new(cpus);
    let sealed = Blank::new(cpus);
    let fulls = Blank::new(cpus);
    run_scripts::<Brand, R>(rt, alloc, records, sealed, fulls, machine, scripts)
}

/// Runs each processor's script in a worker, and closes the machine.
fn run_scripts<L: Job + Send + Sync, R: Threads + Wait + Sync>(
    rt: &R,
    alloc: Global,
    records: Blank,
    sealed: Blank,
    fulls: Blank,
    machine: Machine,
    scripts: Vec<Script>,
) -> Outcome
    requires machine { IsFresh L.layout machine }
    requires name { records.name ≡ L.name }
    requires parts { records.parts ≡ L.parts }
    requires one_each { records.parts ≡ L.layout.cpus }
    requires sealed { (sealed.name ≡ L.sealed) × (sealed.parts ≡ L.layout.cpus) }
    requires fulls { (fulls.name ≡ L.fulls) × (fulls.parts ≡ L.layout.cpus) }
    requires run { AreForRun scripts.items }
{
    match Shared::<L>::new(alloc, records, sealed, fulls, machine) {
        Ok((shared, seats)) => run_seats(rt, alloc, shared, seats, scripts),
        Err(_) => Err(Trouble::OutOfMemory),
    }
}

/// Runs each seat's script in a worker, and closes the machine.
fn run_seats<L: Job + Send + Sync, R: Threads + Wait + Sync>(
    rt: &R,
    alloc: Global,
    shared: Shared<L>,
    seats: Vec<Seat<L>>,
    scripts: Vec<Script>,
) -> Outcome
    requires run { AreForRun scripts.items }
{
    if seats.len() != scripts.len() {
        return Err(Trouble::Wrong);
    }
    let end = run_workers(rt, alloc, &shared, seats, scripts, &OpenGate);
    close_after(alloc, shared, end)
}

/// Closes the machine after a run, and checks that there is one receipt per record, even if a line
/// ran out of memory.
fn close_after<L: Job>(alloc: Global, shared: Shared<L>, end: RunEnd<L>) -> Outcome {
    let RunEnd {
        seats,
        volumes,
        ends,
        fault,
    } = end;
    let receipts = count_receipts(&seats);
    let is_whole = seats.len() == 2;
    let is_short = fault.is_some() || is_any_refused(&ends);
    let is_right = expect(are_right(&ends));
    drop(ends);
    let records = close_all(alloc, shared, seats, volumes)?;
    expect(records == receipts && is_whole)?;
    if is_short {
        return Err(Trouble::OutOfMemory);
    }
    is_right
}

/// Returns the number of receipts of all seats.
fn count_receipts<L: Job>(seats: &[Seat<L>]) -> u64 {
    let mut count = 0u64;
    for seat in seats {
        count = count.saturating_add(seat.receipts().len() as u64);
    }
    count
}

/// Closes a machine, and returns its number of records. If memory runs out, the whole case is run
/// again.
fn close_all<L: Job>(
    alloc: Global,
    shared: Shared<L>,
    seats: Vec<Seat<L>>,
    volumes: Vec<Volume>,
) -> Outcome<u64> {
    match close(alloc, shared, seats, volumes) {
        Ok(closed) => Ok(closed.records),
        Err(refused) => {
            expect(refused.fault == CloseFault::OutOfMemory)?;
            Err(Trouble::OutOfMemory)
        }
    }
}

/// Returns whether any worker's line ran out of memory.
fn is_any_refused(lists: &Vec<Ends>) -> bool {
    for ends in lists {
        for end in ends.as_slice() {
            if is_refused(*end) {
                return true;
            }
        }
    }
    false
}

/// Returns whether a line ran out of memory.
fn is_refused(end: LineEnd) -> bool {
    match end {
        LineEnd::Fault(fault) => matches!(fault, CallFault::OutOfMemory),
        LineEnd::Control(fault) => matches!(fault, ControlFault::OutOfMemory),
        LineEnd::Plan(end) => matches!(end, OpEnd::Left { .. }),
        _ => false,
    }
}

/// Returns whether the lines ended as they do with ample memory. Does not check how many records
/// the seal handed out.
fn are_right(lists: &Vec<Ends>) -> bool {
    let [first, second] = lists.as_slice() else {
        return false;
    };
    let [front @ .., LineEnd::Sealed(_)] = first.as_slice() else {
        return false;
    };
    let planned = LineEnd::Plan(OpEnd::Done);
    front == [DONE, DONE, planned, LineEnd::Reply(Reply::Word(7))].as_slice()
        && second.as_slice() == [DONE, DONE, DONE, LineEnd::Reply(Reply::Word(5))].as_slice()
}
