//! One worker: a seat and its script.
ghost use Rattle.std.specs.Prelude.{◌≡◌, [], Some};
ghost use Rattle.std.specs.List.{All};
ghost use Rattle.hp_scenario.specs.Scripts.{IsForRun};
ghost use Rattle.hp_shared.specs.Workers.{IsStarted, IsWorker};

use crate::fault::RunFault;
use crate::gate::Gate;
use crate::lines::{Ends, run_line};
use crate::{Job, Seat, Shared};
use hp_history::Volume;
use hp_scenario::Script;
use std::alloc::Global;
use std::sync::Wait;
use std::sync::atomic::{AtomicBool, Ordering};

/// A seat after the lines that it ran, how these ended, and why not all were run.
#[derive(Drop)]
pub struct Worked<L: Job> {
    /// The seat.
    pub seat: Seat<L>,
    /// An end for each line that was run.
    pub ends: Ends,
    /// The volumes that the seat's seals handed out, in order.
    pub volumes: Vec<Volume>,
    /// `None` if all lines were run.
    pub fault: Option<RunFault>,
}

/// Runs a script like [`run_script`], unless the seat's thread could not be started.
pub(crate) fn run_if_started<L: Job, G: Gate, R: Wait>(
    rt: &R,
    alloc: Global,
    shared: &Shared<L>,
    gate: &G,
    starts: &AtomicBool,
    seat: Seat<L>,
    script: &Script,
) -> Worked<L>
    requires { All IsForRun script.now }
    ensures { IsWorker L.layout seat script.now result.seat result.volumes.items result.ends result.fault }
{
    if starts.load(Ordering::SeqCst) {
        run_script(rt, alloc, shared, gate, seat, script)
    } else {
        let cpu = seat.cpu();
        stopped(alloc, seat, RunFault::NotStarted { cpu })
    }
}

/// Runs a script's lines in order; `seat` makes the calls.
pub(crate) fn run_script<L: Job, G: Gate, R: Wait>(
    rt: &R,
    alloc: Global,
    shared: &Shared<L>,
    gate: &G,
    seat: Seat<L>,
    script: &Script,
) -> Worked<L>
    requires { All IsForRun script.now }
    ensures worker { IsWorker L.layout seat script.now result.seat result.volumes.items result.ends
        result.fault }
    ensures started { IsStarted result.fault }
{
    let lines = script.as_slice();
    let Ok(ends) = Vec::with_capacity(alloc, lines.len()) else {
        return stopped(alloc, seat, RunFault::OutOfMemory);
    };
    let mut seat = seat;
    // If this fails, the receipts get their room as they come.
    let _ = seat.reserve(lines.len());
    let mut ends = ends;
    let mut volumes = Vec::new(alloc);
    let mut calls = 0;
    for at in 0..lines.len() {
        let line = &lines[at];
        let end = run_line(
            rt,
            alloc,
            shared,
            gate,
            &mut seat,
            &mut calls,
            &mut volumes,
            line,
        );
        ends.push_reserved(end);
    }
    Worked {
        seat,
        ends: Ends::new(ends),
        volumes,
        fault: None,
    }
}

/// Returns a worker that ran no line.
fn stopped<L: Job>(alloc: Global, seat: Seat<L>, fault: RunFault) -> Worked<L>
    ensures seat { result.seat ≡ seat }
    ensures ends { result.ends ≡ [] }
    ensures volumes { result.volumes.items ≡ [] }
    ensures fault { result.fault ≡ Some fault }
{
    Worked {
        seat,
        ends: Ends::new(Vec::new(alloc)),
        volumes: Vec::new(alloc),
        fault: Some(fault),
    }
}
