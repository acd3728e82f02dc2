//! Searches on a small machine, in one thread, in several, and in parts. docs/check_find.py
//! compares explorations with every order of random scripts.
ghost use Rattle.std.specs.Prelude.{◌≡◌, IfOk, length};

use hp_explore::{ExploreFault, Silent, explore, explore_part, kept_counts_are_added, play};
use hp_machine::Machine;
use hp_parts::{calls_for, explore_with_jobs, sum};
use hp_schedules::{
    CallScript, Ending, Replies, Shard, Step, alike_places_go_on_alike, counts_are_unique,
    interleavings_are_counted, schedules_are_interleavings, total_of,
};
use hp_units::{Boot, Cpu, Event, Frame, Layout, Order, Parts, Refusal, Reply};
use std::alloc::{AllocError, Global};
use std::test::Fail;
use std::thread::Threads;

/// Boots two processors and three blocks of four frames; the last two blocks are in zone Movable.
fn booted(alloc: Global) -> Result<Machine, Fail> {
    let parts = Parts {
        order: 2,
        pageblocks: 1,
        blocks: 3,
        cpus: 2,
        batch: 2,
        high: 2,
        owners: 2,
        pages: 2,
        words: 1,
        history: 20,
        boot: &[Boot::Normal, Boot::Movable, Boot::Movable],
    };
    let layout = Layout::new(alloc, &parts)?;
    let machine = Machine::boot(alloc, &layout)?;
    Ok(machine)
}

/// Returns a script of `count` calls that ask for kernel memory of an order.
fn asks(alloc: Global, order: u32, count: u32) -> Result<CallScript, AllocError> {
    let mut lines = Vec::new(alloc);
    for _line in 0..count {
        lines.push(Step::Ask(Event::KernelAlloc {
            order: Order(order),
        }))?;
    }
    Ok(CallScript::new(lines))
}

/// Returns two scripts of `count` calls; each call of the second asks for all memory that the
/// kernel can have.
fn scripts(alloc: Global, order: u32, count: u32) -> Result<Vec<CallScript>, AllocError>
    ensures { IfOk result (λ scripts. length scripts.items ≡ 2) }
{
    let mut scripts = Vec::with_capacity(alloc, 2)?;
    scripts.push(asks(alloc, order, count)?)?;
    scripts.push(asks(alloc, 2, count)?)?;
    Ok(scripts)
}

/// Returns whether a processor got just this reply.
fn is_sole(answers: &Replies, reply: &Reply) -> bool {
    match answers.as_slice() {
        [sole] => sole.same(reply),
        _ => false,
    }
}

/// Returns whether exactly one schedule, started by `first`, leads to this end, and each processor
/// got just its reply in `replies`.
fn is_sole_end(end: &Ending, replies: (&Reply, &Reply), first: u32) -> bool {
    let answered = match end.outcome.replies() {
        [zero, one] => is_sole(zero, replies.0) && is_sole(one, replies.1),
        _ => false,
    };
    let started = match end.first.as_slice() {
        [cpu, _] => *cpu == Cpu(first),
        _ => false,
    };
    answered && started && end.count == 1
}

/// Returns whether an end's schedule can be played, in two calls, and the end has the rows of three
/// blocks.
fn is_played(alloc: Global, machine: &Machine, scripts: &[CallScript], end: &Ending) -> bool {
    match play(alloc, machine, scripts, end.first.as_slice()) {
        Ok(Some(played)) => played.history().len() == 2 && end.outcome.blocks().len() == 3,
        _ => false,
    }
}

/// Returns whether there are two ends, and in each the processor that came first got the block.
fn serve_the_first(
    alloc: Global,
    machine: &Machine,
    scripts: &[CallScript],
    ends: &[Ending],
) -> bool {
    let got = Reply::Frame(Frame(0));
    let refused = Reply::Refused(Refusal::NoFrame);
    match ends {
        [end, other] => {
            is_sole_end(end, (&got, &refused), 0)
                && is_sole_end(other, (&refused, &got), 1)
                && is_played(alloc, machine, scripts, other)
        }
        _ => false,
    }
}

/// Returns whether, of two processors that ask for the only block, the first to ask gets it.
fn goes_to_the_first(alloc: Global, machine: &Machine) -> Result<bool, AllocError> {
    let scripts = scripts(alloc, 2, 1)?;
    Ok(
        match explore(alloc, machine, scripts.as_slice(), 2, &mut Silent) {
            Ok(explored) => serve_the_first(
                alloc,
                machine,
                scripts.as_slice(),
                explored.ends.as_slice(),
            ),
            Err(_fault) => false,
        },
    )
}

#[test]
fn a_block_goes_to_the_first(rt: HostRuntime) -> Result<(), Fail> {
    let machine = booted(rt.alloc())?;
    let served = goes_to_the_first(rt.alloc(), &machine);
    drop(machine);
    assert!(rt; served?);
    Ok(())
}

/// Returns whether two schedules are the same.
fn same_schedules(first: &[Cpu], other: &[Cpu]) -> bool {
    first == other
}

/// Returns whether two ends are the same.
fn same_end(end: &Ending, other: &Ending) -> bool {
    end.outcome.same(&other.outcome)
        && end.count == other.count
        && same_schedules(end.first.as_slice(), other.first.as_slice())
}

/// Returns whether two lists have the same ends, and count all 20 interleavings of three calls with
/// three.
fn same_ends(ends: &[Ending], others: &[Ending]) -> bool {
    total_of(ends) == 20
        && ends.len() == others.len()
        && ends
            .iter()
            .zip(others)
            .all(|(end, other)| same_end(end, other))
}

/// Returns the ends that a search finds in each of three parts.
fn three_parts(
    alloc: Global,
    machine: &Machine,
    scripts: &[CallScript],
) -> Result<Vec<Vec<Ending>>, ExploreFault>
    requires { length scripts.now ≡ 2 }
{
    let mut lists = Vec::new(alloc);
    for index in 0..3 {
        lists.reserve(1)?;
        if let Some(part) = Shard::new(index, 3, 2) {
            let explored = explore_part(alloc, machine, scripts, part, 100, &mut Silent)?;
            lists.push_reserved(explored.ends);
        }
    }
    Ok(lists)
}

/// Returns whether a search in three threads finds the same ends as three parts whose results are
/// merged.
fn jobs_and_parts_find_the_same<R: Threads + Sync>(
    rt: &R,
    alloc: Global,
    machine: &Machine,
    scripts: &[CallScript],
) -> Result<bool, ExploreFault>
    requires { length scripts.now ≡ 2 }
{
    let found = explore_with_jobs(rt, alloc, machine, scripts, 100, 3, &mut Silent)?;
    let lists = three_parts(alloc, machine, scripts)?;
    match sum(alloc, lists.as_slice()) {
        Ok(ends) => Ok(found.is_whole && same_ends(found.ends.as_slice(), ends.as_slice())),
        Err(_fault) => Ok(false),
    }
}

/// Runs `jobs_and_parts_find_the_same` on two scripts of three calls each.
fn all_find_the_same<R: Threads + Sync>(
    rt: &R,
    alloc: Global,
    machine: &Machine,
) -> Result<bool, AllocError> {
    let scripts = scripts(alloc, 0, 3)?;
    let found = jobs_and_parts_find_the_same(rt, alloc, machine, scripts.as_slice());
    Ok(matches!(found, Ok(true)))
}

#[test]
fn a_search_in_threads_finds_the_same(rt: HostRuntime) -> Result<(), Fail> {
    let machine = booted(rt.alloc())?;
    let found = all_find_the_same(&rt, rt.alloc(), &machine);
    drop(machine);
    assert!(rt; found?);
    Ok(())
}

/// Returns whether a part has these numbers.
fn shows(part: &Shard, index: u32, of: u32, calls: u32) -> bool {
    part.index() == index && part.of() == of && part.calls() == calls
}

#[test]
fn parts_and_laws(rt: HostRuntime) {
    assert!(rt; shows(&Shard::whole(), 0, 1, 0) && calls_for(2, 3) == 8);
    counts_are_unique();
    interleavings_are_counted();
    schedules_are_interleavings();
    alike_places_go_on_alike();
    kept_counts_are_added();
}
