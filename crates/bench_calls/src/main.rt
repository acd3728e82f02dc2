//! Times calls of a machine, without any text: `bench_calls [RUNS [PART]] < SCENARIO`.
//!
//! It reads a scenario whose lines each ask for one event, as `gen_big .. --events` of `bench/peer`
//! writes them. It makes their calls on machines just booted, and prints for each run the
//! nanoseconds per call, the time of the seals and the checksum of the replies. With PART it seals
//! the machine after every PART calls, which keeps the history that short. With no argument it
//! makes the calls once and prints no time, so that its output is always the same.
#![tactic(auto)]

mod calls;
mod checksum;

use anyhow::{Context, Result, anyhow};
use calls::{Call, Figures, calls_of, time_calls};
use hp_scenario::Scenario;
use hp_streams::{Counted, read_all};
use hp_units::Layout;
use std::env;

/// How many runs to make, and after how many calls to seal the machine; 0 for never.
#[derive(Clone, Copy)]
struct Asked {
    runs: u64,
    part: usize,
}

fn main(rt: HostRuntime) -> Result<()> {
    let asked = asked_for(&rt)?;
    let scenario = read_scenario(&rt)?;
    let calls = calls_of(rt.alloc(), scenario.lines)?;
    match asked {
        Some(asked) => print_times(&rt, &scenario.layout, calls.as_slice(), asked),
        None => print_sum(&rt, &scenario.layout, calls.as_slice()),
    }
}

/// Parses the arguments, if there are any.
fn asked_for(rt: &HostRuntime) -> Result<Option<Asked>> {
    let mut words = env::args(rt)?.skip(1);
    let Some(runs) = words.next() else {
        return Ok(None);
    };
    let runs = runs.parse().context("RUNS is a number")?;
    let part = match words.next() {
        Some(part) => part.parse().context("PART is a number")?,
        None => 0,
    };
    Ok(Some(Asked { runs, part }))
}

/// Reads the scenario on standard input.
fn read_scenario(rt: &HostRuntime) -> Result<Scenario> {
    let Ok(input) = read_all(rt.alloc(), &mut Counted::new(rt.stdin())) else {
        return Err(anyhow!("reading failed"));
    };
    Ok(Scenario::read(rt.alloc(), &input)?)
}

/// Prints the number of calls and the checksum of their replies.
fn print_sum(rt: &HostRuntime, layout: &Layout, calls: &[Call]) -> Result<()> {
    let Figures { sum, .. } = time_calls(rt, layout, calls, 0)?;
    let count = calls.len();
    println!(rt; "{count} calls: replies {sum:016x}")?;
    Ok(())
}

/// Times as many runs as asked, and prints a line for each.
fn print_times(rt: &HostRuntime, layout: &Layout, calls: &[Call], asked: Asked) -> Result<()> {
    for _run in 0..asked.runs {
        let timed = time_calls(rt, layout, calls, asked.part)?;
        print_line(rt, calls.len(), &timed)?;
    }
    Ok(())
}

/// Prints the line of one run of `count` calls.
fn print_line(rt: &HostRuntime, count: usize, timed: &Figures) -> Result<()> {
    let each = timed.calls.as_nanos().saturating_mul(10) / (count as u128).max(1);
    let tenths = each % 10;
    let whole = each / 10;
    let seals = timed.seals.as_micros();
    let sum = timed.sum;
    println!(rt; "{count} calls: {whole}.{tenths} ns each, seals {seals} us, replies {sum:016x}")?;
    Ok(())
}
