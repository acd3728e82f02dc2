//! Calls that may run out of memory, in situations in which they give different answers.
//!
//! `refusals CASE` runs a case, `refusals names` prints the names of all, and `refusals` runs them
//! in turn. If a call runs out of memory, the case compares what was before with what is after,
//! makes the call again, and checks that its answer is the one with ample memory. So the one line
//! on standard output, and status 0, are the same whichever allocation is refused. Standard error
//! has how many calls ran out of memory.
#![tactic(auto)]

mod audits;
mod calls;
mod fixed;
mod lines;
mod rooms;
mod same;
mod seats;
mod situations;
mod workers;

use hp_scenario::Scenario;
use refused_values::{Case, Outcome, Trouble, additions, counts, maps, memories, values};
use situations::{calls_of, cases, scenario_of};
use std::env;
use std::process::ExitCode;
use std::sync::Wait;
use std::thread::Threads;

/// How many times the program is run at most, if it runs out of memory each time.
const TURNS: u32 = 5;

/// Runs a case.
fn run_case<R: Threads + Wait + Sync>(rt: &R, case: &mut Case<'_>, name: &str) -> Outcome {
    match name {
        "layouts" => values::layouts(case.alloc),
        "copies" => values::copies(case.alloc),
        "tapes" => values::tapes(case.alloc),
        "layers" => values::layers(case.alloc),
        "images" => values::images(case.alloc),
        "additions" => additions::run(case),
        "maps" => maps::run(case.alloc),
        "workers" => workers::run(rt, case.alloc),
        "fixed" => fixed::run(case),
        "areas-of-order-0" => counts::free_areas(case, 0),
        "areas-of-order-10" => counts::free_areas(case, 10),
        "lists-of-1-processor" => counts::lists(case, 1),
        "lists-of-64-processors" => counts::lists(case, 64),
        _ => run_situation(rt, case, name),
    }
}

/// Reads the scenario of a case, and runs it.
fn run_situation<R: Threads + Wait + Sync>(rt: &R, case: &mut Case<'_>, name: &str) -> Outcome {
    let Some(calls) = calls_of(name) else {
        return Err(Trouble::Wrong);
    };
    let scenario = scenario_of(case.alloc, calls)?;
    run_scenario(rt, case, name, &scenario)
}

/// Runs the case with this name on its scenario.
fn run_scenario<R: Threads + Wait + Sync>(
    rt: &R,
    case: &mut Case<'_>,
    name: &str,
    scenario: &Scenario,
) -> Outcome {
    match name {
        "memories" => memories::run(case, scenario),
        "audits" => audits::run(case, scenario),
        "seats" => seats::run(rt, case, scenario),
        "steps-in-room" => rooms::steps(case, scenario),
        "undo-in-room" => rooms::undo(case, scenario),
        "undo-after-map" | "cancel-after-map" => rooms::go_back(case, scenario),
        _ => lines::run(case, scenario),
    }
}

/// Runs all cases.
fn run_each<R: Threads + Wait + Sync>(rt: &R, case: &mut Case<'_>) -> Outcome {
    for (name, _calls) in cases() {
        run_case(rt, case, *name)?;
    }
    Ok(())
}

/// Prints the names of all cases.
fn print_names(rt: &HostRuntime) {
    for (name, _calls) in cases() {
        let _said = println!(rt; "{name}");
    }
}

/// Does what the arguments ask for; the first is the program's name.
fn run<R: Threads + Wait + Sync>(rt: &R, host: &HostRuntime, case: &mut Case<'_>) -> Outcome {
    let Ok(words) = env::args(host) else {
        return Err(Trouble::OutOfMemory);
    };
    let words: Vec<String> = words.collect(case.alloc)?;
    match words.as_slice() {
        [_, word] if word.as_str() == "names" => {
            print_names(host);
            Ok(())
        }
        [_, word] => run_case(rt, case, word.as_str()),
        _ => run_each(rt, case),
    }
}

/// Runs the program until it does not run out of memory, at most `TURNS` times in all.
fn run_again<R: Threads + Wait + Sync>(rt: &R, host: &HostRuntime, case: &mut Case<'_>) -> Outcome {
    for _turn in 0..TURNS {
        match run(rt, host, case) {
            Ok(()) => return Ok(()),
            Err(Trouble::Wrong) => return Err(Trouble::Wrong),
            Err(_) => case.note(),
        }
    }
    Err(Trouble::OutOfMemory)
}

fn main(rt: HostRuntime) -> ExitCode {
    let mut case = Case::new(&rt);
    let ending = run_again(&rt, &rt, &mut case);
    let _said = eprintln!(rt; "{}", case.refusals);
    if ending.is_ok() {
        let _said = println!(rt; "as with ample memory");
        ExitCode::from(0)
    } else {
        let _said = println!(rt; "not as with ample memory");
        ExitCode::from(1)
    }
}
