//! Tests of workers that meet, and of calls that one worker makes between the calls of another's
//! plan: a write, and an undo of the plan's steps.
ghost use Rattle.std.specs.Prelude.{◌≡◌};
ghost use Rattle.hp_scenario.specs.Scripts.{AreForRun};
ghost use Rattle.hp_shared.specs.Shared.{IsFresh};

mod gates;

use gates::{InOrder, Point};
use hp_machine::Machine;
use hp_plain::Image;
use hp_scenario::{Scenario, Script};
use hp_shared::{Ends, Gate, Job, LineEnd, RunEnd, Shared, close, run_workers};
use hp_units::{
    Block, Class, Cpu, Event, Frame, Item, OpEnd, Order, Owner, Page, Plan, Pool, Reply, Row,
    State, Wish,
};
use std::alloc::{AllocError, Global};
use std::marker::Brand;
use std::sync::Wait;
use std::sync::ledger::Blank;
use std::test::Fail;
use std::thread::Threads;

const LAYOUT: &str = concat!(
    r#"{"order":2,"pageblocks":1,"blocks":4,"cpus":2,"batch":2,"high":2,"owners":2,"pages":8,"#,
    r#""words":2,"history":1000,"boot":["normal","normal","movable","offline"]}"#,
);

/// The end of a line that was done.
const DONE: LineEnd = LineEnd::Reply(Reply::Done);

/// The end of a read of a word that nobody has written.
const NO_WORD: LineEnd = LineEnd::Reply(Reply::Word(0));

/// A map by the first processor, and two reads of its page by the second.
const READS_AFTER_A_MAP: &str = r#""0 map db 0","1 read db 0 0","1 read db 0 0""#;

/// The ends of both processors' lines, the number of records, and the state.
struct Outcome {
    ends: Vec<Ends>,
    records: u64,
    state: Image,
}

/// Keeps tests from proving again how each field is dropped.
impl Drop for Outcome {
    fn drop(self) {
        let Outcome {
            ends: _ends,
            records: _records,
            state: _state,
        } = self;
    }
}

impl Outcome {
    /// Returns whether the lines of both processors have these ends, with this many records.
    fn is(&self, first: &[LineEnd], second: &[LineEnd], records: u64) -> bool {
        let [left, right] = self.ends.as_slice() else {
            return false;
        };
        left.as_slice() == first && right.as_slice() == second && self.records == records
    }
}

/// Closes a machine after a run, and reads its state. Returns `None` if the run ended with a fault,
/// or if one of these fails.
fn close_after<L: Job>(alloc: Global, shared: Shared<L>, end: RunEnd<L>) -> Option<Outcome> {
    let RunEnd {
        seats,
        volumes,
        ends,
        fault,
    } = end;
    if fault.is_some() {
        drop(shared);
        drop(seats);
        drop(volumes);
        return None;
    }
    let closed = close(alloc, shared, seats, volumes).ok()?;
    let records = closed.records;
    let state = closed.machine.image(alloc).ok()?;
    Some(Outcome {
        ends,
        records,
        state,
    })
}

/// Runs one script per processor of a machine, and closes it.
fn run_scripts<L: Job + Send + Sync, G: Gate + Sync, R: Threads + Wait + Sync>(
    rt: &R,
    alloc: Global,
    records: Blank,
    sealed: Blank,
    fulls: Blank,
    machine: Machine,
    scripts: Vec<Script>,
    gate: &G,
) -> Option<Outcome>
    requires machine { IsFresh L.layout machine }
    requires name { records.name ≡ L.name }
    requires parts { records.parts ≡ L.parts }
    requires one_each { records.parts ≡ L.layout.cpus }
    requires sealed { (sealed.name ≡ L.sealed) × (sealed.parts ≡ L.layout.cpus) }
    requires fulls { (fulls.name ≡ L.fulls) × (fulls.parts ≡ L.layout.cpus) }
    requires run { AreForRun scripts.items }
{
    let (shared, seats) = Shared::<L>::new(alloc, records, sealed, fulls, machine).ok()?;
    if seats.len() != scripts.len() {
        drop(shared);
        drop(seats);
        drop(scripts);
        return None;
    }
    let end = run_workers(rt, alloc, &shared, seats, scripts, gate);
    close_after(alloc, shared, end)
}

/// Returns the scenario with these lines.
fn scenario_of(alloc: Global, calls: &str) -> Result<Scenario, Fail> {
    let text = format!(in alloc; "{{\"layout\":{LAYOUT},\"calls\":[{calls}]}}")?;
    Ok(Scenario::read(alloc, text.as_bytes())?)
}

/// Runs lines on two processors, with a gate around their calls.
fn run_lines<G: Gate + Sync, R: Threads + Wait + Sync>(
    rt: &R,
    alloc: Global,
    calls: &str,
    gate: &G,
) -> Result<Outcome, Fail> {
    let scenario = scenario_of(alloc, calls)?;
    let machine = Machine::boot(alloc, &scenario.layout)?;
    let cpus = scenario.layout.cpus() as u64;
    let scripts = scenario.scripts(alloc)?;
    let records = Blank::new(cpus);
    let sealed = Blank::new(cpus);
    let fulls = Blank::new(cpus);
    match run_scripts::<Brand, _, _>(rt, alloc, records, sealed, fulls, machine, scripts, gate) {
        Some(outcome) => Ok(outcome),
        None => Err(Fail::from("no outcome")),
    }
}

#[test]
fn two_workers_meet(rt: HostRuntime) -> Result<(), Fail> {
    // Neither goes on after its first call before the other has its first reply.
    let points = [Point::After(0, 1), Point::After(1, 1), Point::After(0, 1)];
    let gate = InOrder::new(points.as_slice());
    let outcome = run_lines(&rt, rt.alloc(), r#""0 map db 0","1 map web 0""#, &gate)?;
    assert!(rt; outcome.is(&[DONE], &[DONE], 2));
    assert!(rt; gate.was_met());
    Ok(())
}

#[test]
fn a_gate_opens_after_the_call_was_made(rt: HostRuntime) -> Result<(), Fail> {
    // The second worker's first call is over before the first worker leaves the gate after its map.
    let points = [
        Point::After(0, 1),
        Point::Before(1, 1),
        Point::Before(1, 2),
        Point::After(0, 1),
    ];
    let gate = InOrder::new(points.as_slice());
    let outcome = run_lines(&rt, rt.alloc(), READS_AFTER_A_MAP, &gate)?;
    assert!(rt; outcome.is(&[DONE], &[NO_WORD, NO_WORD], 3));
    assert!(rt; gate.was_met());
    Ok(())
}

/// Returns whether the first owner's first page is at this frame.
fn stands_at(state: &Image, frame: Frame) -> bool {
    state.frame_at(Owner(0), Page(0)) == Some(frame)
}

#[test]
fn a_page_is_written_between_the_calls_of_a_plan(rt: HostRuntime) -> Result<(), Fail> {
    // The page is written after the plan's first migration, before its next call.
    let points = [
        Point::After(1, 1),
        Point::Before(0, 1),
        Point::After(0, 4),
        Point::Before(1, 2),
        Point::After(1, 2),
        Point::After(0, 4),
    ];
    let gate = InOrder::new(points.as_slice());
    let calls = r#""1 map db 0","0 plan 8 off 2","1 write db 0 1 5","1 read db 0 1""#;
    let outcome = run_lines(&rt, rt.alloc(), calls, &gate)?;
    let word = LineEnd::Reply(Reply::Word(5));
    assert!(rt; outcome.is(&[LineEnd::Plan(OpEnd::Done)], &[DONE, DONE, word], 9));
    assert!(rt; stands_at(&outcome.state, Frame(0)));
    assert!(rt; gate.was_met());
    Ok(())
}

/// In row n, the steps of a plan are undone before its n-th call. The row has the number of steps
/// that the undo takes back, and the number of records at the end.
const UNDONE: &[(u64, u64)] = &[(0, 8), (1, 4), (2, 5), (3, 6), (4, 7), (4, 8)];

/// Maps a page, then runs a plan. Before its nth call, the other processor undoes the plan's steps.
fn undone_before<R: Threads + Wait + Sync>(
    rt: &R,
    alloc: Global,
    nth: u64,
) -> Result<Outcome, Fail> {
    let points = [
        Point::Before(0, nth.saturating_add(1)),
        Point::Before(1, 1),
        Point::After(1, 1),
        Point::Before(0, nth.saturating_add(1)),
    ];
    let gate = InOrder::new(points.as_slice());
    let calls = r#""0 map db 0","0 plan 4 off 2","1 undo 1""#;
    let outcome = run_lines(rt, alloc, calls, &gate)?;
    if gate.was_met() {
        return Ok(outcome);
    }
    Err(Fail::from("the gate was not met"))
}

/// Returns the plan that takes block 2 offline.
fn offline(alloc: Global) -> Result<Plan, AllocError> {
    let item = Item {
        block: Block(2),
        wish: Wish::Off,
    };
    Plan::new(alloc, vec![in alloc; item]?)
}

/// Returns the state after the page is mapped in one thread, and after the plan if `is_planned`.
fn state_of(alloc: Global, is_planned: bool) -> Result<Image, Fail> {
    let scenario = scenario_of(alloc, r#""0 map db 0""#)?;
    let mut machine = Machine::boot(alloc, &scenario.layout)?;
    let map = Event::Map {
        owner: Owner(0),
        page: Page(0),
    };
    let mapped = machine.answer(alloc, Cpu(0), &map).is_ok();
    let is_done = !is_planned || machine.run_plan(alloc, Cpu(0), offline(alloc)?, 4) == OpEnd::Done;
    if mapped && is_done {
        return Ok(machine.image(alloc)?);
    }
    Err(Fail::from("no state on one thread"))
}

/// Returns whether the page is in block 2, with the frame after it on a processor's list.
fn is_mapped(state: &Image) -> bool {
    stands_at(state, Frame(8))
        && state.list(Class::Mm, Order(1)) == [Frame(10)].as_slice()
        && state.cpu_list(Cpu(0), Pool::Mm) == [Frame(9)].as_slice()
        && state.row(Block(2)) != Some(Row::bare(State::Offline))
}

/// Returns whether the page is in block 0, and block 2 is offline.
fn is_moved(state: &Image) -> bool {
    stands_at(state, Frame(0))
        && state.list(Class::Nm, Order(0)) == [Frame(1)].as_slice()
        && state.list(Class::Nm, Order(1)) == [Frame(2)].as_slice()
        && state.row(Block(2)) == Some(Row::bare(State::Offline))
}

/// Returns whether a plan that is undone before its nth call ends as undone, and leaves the state
/// after the map. If it is undone before its first call, it is carried out.
fn ends_as_undone<R: Threads + Wait + Sync>(
    rt: &R,
    alloc: Global,
    nth: u64,
    steps: u64,
    records: u64,
) -> Result<bool, Fail> {
    let outcome = undone_before(rt, alloc, nth)?;
    let is_planned = nth == 1;
    let wanted = state_of(alloc, is_planned)?;
    let end = if is_planned {
        OpEnd::Done
    } else {
        OpEnd::Undone
    };
    let undone = LineEnd::Reply(Reply::Undone { count: steps });
    let is_known = if is_planned {
        is_moved(&outcome.state)
    } else {
        is_mapped(&outcome.state)
    };
    let ended = outcome.is(&[DONE, LineEnd::Plan(end)], &[undone], records);
    Ok(ended && is_known && outcome.state.same(&wanted))
}

/// Returns whether a plan ends as it should for each row of `UNDONE`.
fn each_ends_as_undone<R: Threads + Wait + Sync>(rt: &R, alloc: Global) -> Result<bool, Fail> {
    let mut nth: u64 = 0;
    for (steps, records) in UNDONE {
        nth = nth.saturating_add(1);
        if !ends_as_undone(rt, alloc, nth, *steps, *records)? {
            return Ok(false);
        }
    }
    Ok(true)
}

#[test]
fn a_plan_under_way_is_undone(rt: HostRuntime) -> Result<(), Fail> {
    assert!(rt; each_ends_as_undone(&rt, rt.alloc())?);
    Ok(())
}
