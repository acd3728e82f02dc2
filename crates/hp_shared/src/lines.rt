//! Runs one line of a worker.
ghost use Rattle.std.specs.Prelude.{◌≡◌, false, None};
ghost use Rattle.hp_scenario.specs.Asked as asks;
ghost use Rattle.hp_scenario.specs.Scripts.{IsForRun};
ghost use Rattle.hp_scenario.specs.Seen.{asked_seen};
ghost use Rattle.hp_shared.specs.Lines.{IsAskedRun, IsCallsRun, IsEventRun, IsLineRun, IsPlanRun, IsPortRun};

use crate::gate::Gate;
use crate::gated_port::GatedPort;
use crate::{Job, Seat, Shared};
use hp_history::Volume;
use hp_ops::{Port, run_plan};
use hp_requests::ControlFault;
use hp_scenario::{Asked, Line};
use hp_units::{CallFault, Event, OpEnd, Plan, Reply};
use std::alloc::{AllocError, Global};
use std::marker::Model;
use std::sync::Wait;

/// How a line ended.
#[derive(Clone, Copy, PartialEq, Eq, Drop)]
pub enum LineEnd {
    /// The reply to the line's event.
    Reply(Reply),
    /// The fault of the line's call; `OutOfMemory` if the line's seal ran out of memory.
    Fault(CallFault),
    /// The end of the operation of the line's plan.
    Plan(OpEnd),
    /// Why a control file did not take the line's word.
    Control(ControlFault),
    /// How many records the line's seal handed out.
    Sealed(u64),
}

/// How lines ended, in order.
#[derive(Drop)]
pub struct Ends {
    ends: Vec<LineEnd>,
}

impl Model for Ends {
    ghost use Rattle.std.specs.Prelude.{List};
    ghost use Rattle.hp_shared.specs.declared.lines.LineEnd.{LineEnd};

    ghost Value = { List LineEnd };

    ghost view = { λ e. e.ends.items };
}

impl Ends {
    /// Wraps ends without copying them.
    pub fn new(ends: Vec<LineEnd>) -> Ends
        ensures { result ≡ ends.items }
    {
        Ends { ends }
    }

    /// Returns the ends in order.
    pub fn as_slice(&self) -> &[LineEnd]
        ensures { result.now ≡ self.now }
    {
        self.ends.as_slice()
    }
}

/// Runs one line through a seat. `calls` counts the seat's calls and seals. A volume that a seal
/// hands out is appended to `volumes`.
pub(crate) fn run_line<'a, L: Job, G: Gate, R: Wait>(
    rt: &'a R,
    alloc: Global,
    shared: &'a Shared<L>,
    gate: &'a G,
    seat: &'a mut Seat<L>,
    calls: &'a mut u64,
    volumes: &mut Vec<Volume>,
    line: &Line,
) -> LineEnd
    requires { IsForRun line.now }
    ensures { IsLineRun L.layout seat.old volumes.old.items (asks.asked_by line.now.work) result seat.new
        volumes.new.items }
{
    match line.work.asked() {
        Asked::Seal => seal(rt, alloc, shared, gate, seat, calls, volumes),
        asked => run_calls(rt, alloc, shared, gate, seat, calls, asked),
    }
}

/// Seals through a seat, with the gate around it as around a call.
fn seal<L: Job, G: Gate, R: Wait>(
    rt: &R,
    alloc: Global,
    shared: &Shared<L>,
    gate: &G,
    seat: &mut Seat<L>,
    calls: &mut u64,
    volumes: &mut Vec<Volume>,
) -> LineEnd
    ensures { IsLineRun L.layout seat.old volumes.old.items asks.seal result seat.new volumes.new.items }
{
    let cpu = seat.cpu();
    *calls = calls.saturating_add(1);
    gate.before(cpu, *calls);
    let end = take_volume(rt, alloc, shared, seat, volumes);
    gate.after(cpu, *calls);
    end
}

/// Makes room for a volume, then seals through a seat and keeps the volume.
fn take_volume<L: Job, R: Wait>(
    rt: &R,
    alloc: Global,
    shared: &Shared<L>,
    seat: &mut Seat<L>,
    volumes: &mut Vec<Volume>,
) -> LineEnd
    ensures { IsLineRun L.layout seat.old volumes.old.items asks.seal result seat.new volumes.new.items }
{
    let Ok(()) = volumes.reserve(1) else {
        return LineEnd::Fault(CallFault::OutOfMemory);
    };
    match seat.seal(rt, alloc, shared) {
        Ok(volume) => {
            let count = volume.records.as_slice().len() as u64;
            volumes.push_reserved(volume);
            LineEnd::Sealed(count)
        }
        Err(AllocError) => LineEnd::Fault(CallFault::OutOfMemory),
    }
}

/// Does a line's work with calls of a seat.
fn run_calls<'a, L: Job, G: Gate, R: Wait>(
    rt: &'a R,
    alloc: Global,
    shared: &'a Shared<L>,
    gate: &'a G,
    seat: &'a mut Seat<L>,
    calls: &'a mut u64,
    asked: Asked<'_>,
) -> LineEnd
    requires run { asks.asks_text (asked_seen asked) ≡ false }
    requires calls { asks.asks_seal (asked_seen asked) ≡ false }
    ensures { IsCallsRun L.layout seat.old (asked_seen asked.entry) result seat.new }
{
    let mut port = GatedPort::new(rt, seat, shared, gate, calls);
    let end = run_asked(alloc, &mut port, asked);
    // No effect at run time: from this use the proof reads what the seat is.
    let _ = &*port.seat;
    end
}

/// Does a line's work through a port.
fn run_asked<P: Port>(alloc: Global, port: &mut P, asked: Asked<'_>) -> LineEnd
    requires clear { (P.shows port.old).fault ≡ None }
    requires run { asks.asks_text (asked_seen asked) ≡ false }
    requires calls { asks.asks_seal (asked_seen asked) ≡ false }
    ensures { IsPortRun P.shows P.makes P.leaves port.old
        (IsAskedRun (P.shows port.old).cpus (asked_seen asked.entry)) result port.new }
{
    match asked {
        Asked::Event(event) => ask(alloc, port, event),
        Asked::Plan { plan, turns } => carry_out(alloc, port, plan, turns),
        Asked::NotTaken(fault) => LineEnd::Control(fault),
        Asked::Cat { path: _ } | Asked::Seal => unreachable!(),
    }
}

/// Asks for an event through a port.
fn ask<P: Port>(alloc: Global, port: &mut P, event: &Event) -> LineEnd
    ensures { IsPortRun P.shows P.makes P.leaves port.old (IsEventRun event.now) result port.new }
{
    match port.call(alloc, event) {
        Ok(reply) => LineEnd::Reply(reply),
        Err(fault) => LineEnd::Fault(fault),
    }
}

/// Carries out a plan through a port.
fn carry_out<P: Port>(alloc: Global, port: &mut P, plan: &Plan, turns: u32) -> LineEnd
    requires { (P.shows port.old).fault ≡ None }
    ensures { IsPortRun P.shows P.makes P.leaves port.old (IsPlanRun (P.shows port.old).cpus turns plan.now)
        result port.new }
{
    match plan.copy(alloc) {
        Ok(plan) => LineEnd::Plan(run_plan(alloc, port, plan, turns)),
        Err(AllocError) => LineEnd::Plan(OpEnd::Left {
            op: None,
            fault: CallFault::OutOfMemory,
        }),
    }
}
