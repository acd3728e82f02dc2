//! Runs workers in threads, one per seat; the first seat's is the caller's thread.
ghost use Rattle.std.specs.Prelude.{◌≡◌, ◌+◌, ◌*◌, ◌<◌, ◌≤◌, ◌++◌, ◌∷◌, [], IfSome, Some, length, take, vec_len, vec_capacity};
ghost use Rattle.std.specs.List.{All};
ghost use Rattle.std.specs.List.Sorted.{IsPermutation};
ghost use Rattle.std.specs.Option.{option_or};
ghost use Rattle.std.specs.Thread.{IsSend, IsSync};
ghost use Rattle.hp_scenario.specs.Scripts.{AreForRun, IsForRun};
ghost use Rattle.hp_shared.specs.Seals.{AreInOrder, rank, seals_in_all};
ghost use Rattle.hp_shared.specs.Workers.{AreWorkers, IsBare, IsRunEnd, IsStarted, IsWorker, IsWorkerAt};
ghost use Rattle.hp_shared.specs.declared.fault.RunFault.TheVariants.{OutOfMemory};

use crate::counts::count_all;
use crate::fault::RunFault;
use crate::gate::Gate;
use crate::lines::Ends;
use crate::worker::{Worked, run_if_started, run_script};
use crate::{Job, Seat, Shared};
use hp_history::Volume;
use hp_scenario::Script;
use std::alloc::Global;
use std::snapshot::Snapshot;
use std::sync::Wait;
use std::sync::atomic::{AtomicBool, Ordering};
use std::thread;
use std::thread::{Promise, Threads};

/// The promise of a worker's thread, about its seat and its script as they were at first.
#[derive(Drop)]
pub struct Task<L: Job> {
    seat: Snapshot<Seat<L>>,
    script: Snapshot<Script>,
}

impl<L: Job> Promise<Worked<L>> for Task<L> {
    ghost use Rattle.hp_shared.specs.Workers.{IsWorker};

    ghost kept_by = { λ t w. IsWorker L.layout t.seat.value t.script.value w.seat
        w.volumes.items w.ends w.fault };
}

impl<L: Job> Task<L> {
    /// Returns the promise for a seat and a script as they are now.
    fn of(seat: &Seat<L>, script: &Script) -> Task<L>
        ensures seat { result.seat.value ≡ seat.now }
        ensures script { result.script.value ≡ script.now }
    {
        Task {
            seat: Snapshot::of(seat),
            script: Snapshot::of(script),
        }
    }
}

/// What a run of workers leaves.
#[derive(Drop)]
pub struct RunEnd<L: Job> {
    /// All seats, in the order in which they were given, each after the lines that it ran.
    pub seats: Vec<Seat<L>>,
    /// The volumes of all seals, ordered by the number of records before them, then by how many
    /// they hold.
    pub volumes: Vec<Volume>,
    /// Per seat, how each line that it ran ended. No entries if memory ran out before any worker
    /// started.
    pub ends: Vec<Ends>,
    /// `None` if all lines were run.
    pub fault: Option<RunFault>,
}

/// Runs each script by the seat with the same index, each in a thread of its own, and waits for
/// all. The first seat's thread is the caller's, so that a run of one processor's lines needs no
/// memory for a second thread. Each call and each seal of a seat takes the machine's lock anew,
/// with the gate before and after.
///
/// All seats come back in every case, with the receipts of the lines that they ran, in order, and
/// so do all volumes that the lines' seals handed out. A worker runs all its lines or none. It runs
/// none if no thread can be started for it (`NotStarted` with its processor, which is never the
/// first seat's). It also runs none if memory runs out before its first line (`OutOfMemory`). The
/// fault is that of the first seat that has one; without a fault all lines were run. If memory runs
/// out in a line, that is the line's end, and not a fault of the run.
pub fn run_workers<L: Job + Send + Sync, G: Gate + Sync, R: Threads + Wait + Sync>(
    rt: &R,
    alloc: Global,
    shared: &Shared<L>,
    seats: Vec<Seat<L>>,
    scripts: Vec<Script>,
    gate: &G,
) -> RunEnd<L>
    requires one_each { vec_len seats ≡ vec_len scripts }
    requires run { AreForRun scripts.items }
    ensures { IsRunEnd L.layout seats.items scripts.items result.seats.items result.volumes.items
        result.ends.items result.fault }
{
    let Some(room) = room_for(alloc, seats.len(), &scripts) else {
        return unstarted(alloc, seats);
    };
    in_order(run_rest(rt, alloc, shared, gate, seats, &scripts, room))
}

/// Makes room for the results of `seats` workers, with a volume for each line that seals. Returns
/// `None` if memory runs out.
fn room_for<L: Job>(alloc: Global, seats: usize, scripts: &Vec<Script>) -> Option<RunEnd<L>>
    ensures bare { IfSome result
        (λ room. IsBare room.seats.items room.volumes.items room.ends.items room.fault) }
    ensures room { IfSome result (λ room. (seats ≤ vec_capacity room.seats) × (seats ≤ vec_capacity room.ends)
        × (seals_in_all scripts.now.items ≤ vec_capacity room.volumes)) }
{
    let volumes = Vec::with_capacity(alloc, count_all(scripts)?).ok()?;
    let backs = Vec::with_capacity(alloc, seats).ok()?;
    let ends = Vec::with_capacity(alloc, seats).ok()?;
    Some(RunEnd {
        seats: backs,
        volumes,
        ends,
        fault: None,
    })
}

/// Sorts the volumes of a run's end.
fn in_order<L: Job>(end: RunEnd<L>) -> RunEnd<L>
    ensures seats { result.seats.items ≡ end.seats.items }
    ensures ends { result.ends.items ≡ end.ends.items }
    ensures fault { result.fault ≡ end.fault }
    ensures same { IsPermutation end.volumes.items result.volumes.items }
    ensures order { AreInOrder result.volumes.items }
{
    let mut end = end;
    end.volumes.sort_unstable_by_key(|volume| rank_of(volume));
    end
}

/// Returns the number by which volumes are sorted.
fn rank_of(volume: &Volume) -> u128
    ensures { result ≡ rank volume.now }
{
    let before = volume.before as u128;
    let own = volume.records.as_slice().len() as u128;
    before * 18_446_744_073_709_551_616 + own
}

/// Returns the end of a run that started no worker, since memory ran out.
fn unstarted<L: Job>(alloc: Global, seats: Vec<Seat<L>>) -> RunEnd<L>
    ensures seats { result.seats.items ≡ seats.items }
    ensures volumes { result.volumes.items ≡ [] }
    ensures ends { result.ends.items ≡ [] }
    ensures fault { result.fault ≡ Some OutOfMemory }
{
    RunEnd {
        seats,
        volumes: Vec::new(alloc),
        ends: Vec::new(alloc),
        fault: Some(RunFault::OutOfMemory),
    }
}

/// Runs a worker for each seat, beside the workers of the seats before it. `room` must have
/// room for all results.
#[cycle(workers)]
fn run_rest<L: Job + Send + Sync, G: Gate + Sync, R: Threads + Wait + Sync>(
    rt: &R,
    alloc: Global,
    shared: &Shared<L>,
    gate: &G,
    seats: Vec<Seat<L>>,
    scripts: &Vec<Script>,
    room: RunEnd<L>,
) -> RunEnd<L>
    requires scripts { vec_len seats ≤ vec_len scripts.now }
    requires run { AreForRun scripts.now.items }
    requires bare { IsBare room.seats.items room.volumes.items room.ends.items room.fault }
    requires room { (vec_len seats ≤ vec_capacity room.seats) × (vec_len seats ≤ vec_capacity room.ends) }
    requires volumes { seals_in_all (take (length seats.items) scripts.now.items)
        ≤ vec_capacity room.volumes }
    ensures workers { AreWorkers L.layout seats.items scripts.now.items result.seats.items
        result.volumes.items result.ends.items result.fault }
    ensures seats { vec_capacity result.seats ≡ vec_capacity room.seats }
    ensures ends { vec_capacity result.ends ≡ vec_capacity room.ends }
    ensures room { vec_capacity room.volumes ≤ vec_capacity result.volumes }
{
    let mut seats = seats;
    let Some(seat) = seats.pop() else {
        return room;
    };
    let (worked, done) = run_beside(rt, alloc, shared, gate, seat, seats, scripts, room);
    gather(worked, done)
}

/// Runs the worker of a seat in a thread of its own beside those of `others`, or in the caller's
/// thread if it is the first seat.
#[cycle(workers)]
fn run_beside<L: Job + Send + Sync, G: Gate + Sync, R: Threads + Wait + Sync>(
    rt: &R,
    alloc: Global,
    shared: &Shared<L>,
    gate: &G,
    seat: Seat<L>,
    others: Vec<Seat<L>>,
    scripts: &Vec<Script>,
    room: RunEnd<L>,
) -> (Worked<L>, RunEnd<L>)
    requires scripts { vec_len others < vec_len scripts.now }
    requires run { AreForRun scripts.now.items }
    requires bare { IsBare room.seats.items room.volumes.items room.ends.items room.fault }
    requires room { (vec_len others ≤ vec_capacity room.seats) × (vec_len others ≤ vec_capacity room.ends) }
    requires volumes { seals_in_all (take (length others.items) scripts.now.items)
        ≤ vec_capacity room.volumes }
    ensures worker { IsWorkerAt L.layout seat scripts.now.items (length others.items) result.0.seat
        result.0.volumes.items result.0.ends result.0.fault }
    ensures started { length others.items ≡ 0 → IsStarted result.0.fault }
    ensures workers { AreWorkers L.layout others.items scripts.now.items result.1.seats.items
        result.1.volumes.items result.1.ends.items result.1.fault }
    ensures seats { vec_capacity result.1.seats ≡ vec_capacity room.seats }
    ensures ends { vec_capacity result.1.ends ≡ vec_capacity room.ends }
    ensures room { vec_capacity room.volumes ≤ vec_capacity result.1.volumes }
{
    let script = &scripts[others.len()];
    if others.is_empty() {
        return (run_script(rt, alloc, shared, gate, seat, script), room);
    }
    let task = Task::of(&seat, script);
    let flag = AtomicBool::new(true);
    let starts = &flag;
    thread::scope(
        thread::scope_env(),
        rt,
        move |scope| -> (Worked<L>, RunEnd<L>)
            requires threads { IsSend L.row × IsSync L.row × IsSync G.row × IsSync R.row }
            requires task { (task.seat.value ≡ seat) × (task.script.value ≡ script.now) }
            requires script { All IsForRun script.now }
            requires scripts { (vec_len others < vec_len scripts.now) × AreForRun scripts.now.items }
            requires bare { IsBare room.seats.items room.volumes.items room.ends.items room.fault }
            requires room { (vec_len others ≤ vec_capacity room.seats)
                × (vec_len others ≤ vec_capacity room.ends) }
            requires volumes { seals_in_all (take (length others.items) scripts.now.items)
                ≤ vec_capacity room.volumes }
            ensures worker { IsWorker L.layout seat script.entry.now result.0.seat result.0.volumes.items
                result.0.ends result.0.fault }
            ensures workers { AreWorkers L.layout others.items scripts.entry.now.items result.1.seats.items
                result.1.volumes.items result.1.ends.items result.1.fault }
            ensures seats { vec_capacity result.1.seats ≡ vec_capacity room.seats }
            ensures ends { vec_capacity result.1.ends ≡ vec_capacity room.ends }
            ensures room { vec_capacity room.volumes ≤ vec_capacity result.1.volumes }
        {
            let started = scope.spawn_with(
                task,
                move || -> Worked<L>
                    requires { All IsForRun script.now }
                { run_if_started(rt, alloc, shared, gate, starts, seat, script) },
            );
            if started.is_err() {
                starts.store(false, Ordering::SeqCst);
            }
            let done = run_rest(rt, alloc, shared, gate, others, scripts, room);
            match started {
                Ok(child) => (child.join(rt), done),
                Err(refused) => ((refused.value)(), done),
            }
        },
    )
}

/// Adds a worker's results to a run's end, which has room for them. The first fault counts.
fn gather<L: Job>(worked: Worked<L>, done: RunEnd<L>) -> RunEnd<L>
    requires seats { vec_len done.seats < vec_capacity done.seats }
    requires ends { vec_len done.ends < vec_capacity done.ends }
    requires volumes { vec_len done.volumes + vec_len worked.volumes ≤ vec_capacity done.volumes }
    ensures seats { result.seats.items ≡ done.seats.items ++ worked.seat ∷ [] }
    ensures volumes { result.volumes.items ≡ done.volumes.items ++ worked.volumes.items }
    ensures ends { result.ends.items ≡ done.ends.items ++ worked.ends ∷ [] }
    ensures fault { result.fault ≡ option_or done.fault worked.fault }
    ensures seat_room { vec_capacity result.seats ≡ vec_capacity done.seats }
    ensures end_room { vec_capacity result.ends ≡ vec_capacity done.ends }
    ensures volume_room { vec_capacity done.volumes ≤ vec_capacity result.volumes }
{
    let mut done = done;
    let mut handed = worked.volumes;
    done.seats.push_reserved(worked.seat);
    done.ends.push_reserved(worked.ends);
    let _ = done.volumes.append(&mut handed);
    done.fault = done.fault.or(worked.fault);
    done
}
