//! Calls that are made again and timed.
use crate::checksum::mix;
use anyhow::{Result, anyhow};
use hp_history::Volume;
use hp_machine::Machine;
use hp_scenario::{Asked, Line, Lines};
use hp_units::{Cpu, Event, Layout};
use std::alloc::{AllocError, Global};
use std::time::{Duration, Instant};

/// One call.
#[derive(Drop)]
pub struct Call {
    cpu: Cpu,
    event: Event,
}

/// What a run of calls took: the number of calls, the checksum of the replies, and the time of the
/// calls and of the seals.
#[derive(Clone, Copy, Drop)]
pub struct Figures {
    made: usize,
    pub sum: u64,
    pub calls: Duration,
    pub seals: Duration,
}

impl Figures {
    /// Returns the figures of no calls.
    fn none() -> Figures {
        Figures {
            made: 0,
            sum: 0,
            calls: Duration::ZERO,
            seals: Duration::ZERO,
        }
    }

    /// Makes the calls, and adds their number, checksum and time.
    fn make(&mut self, rt: &HostRuntime, machine: &mut Machine, calls: &[Call]) -> Result<()> {
        let start = Instant::now(rt)?;
        self.sum = make_calls(rt.alloc(), machine, calls, self.sum)?;
        let took = start.elapsed(rt)?;
        self.made = self.made.saturating_add(calls.len());
        self.calls = self.calls.saturating_add(took);
        Ok(())
    }

    /// Seals the machine and drops the volume.
    fn seal(&mut self, rt: &HostRuntime, machine: &mut Machine) -> Result<()> {
        let start = Instant::now(rt)?;
        let_go(machine.seal(rt.alloc()))?;
        let took = start.elapsed(rt)?;
        self.seals = self.seals.saturating_add(took);
        Ok(())
    }

    /// Makes the next calls, at most `part` of them, and seals the machine.
    fn make_part(
        &mut self,
        rt: &HostRuntime,
        machine: &mut Machine,
        calls: &[Call],
        part: usize,
    ) -> Result<()> {
        let rest = calls.get(self.made..).unwrap_or(&[]);
        let some = rest.get(..part).unwrap_or(rest);
        self.make(rt, machine, some)?;
        self.seal(rt, machine)
    }

    /// Makes all calls, and seals the machine after every `part` of them.
    fn make_parts(
        &mut self,
        rt: &HostRuntime,
        machine: &mut Machine,
        calls: &[Call],
        part: usize,
    ) -> Result<()> {
        for _part in 0..calls.len() {
            if self.made >= calls.len() {
                break;
            }
            self.make_part(rt, machine, calls, part)?;
        }
        Ok(())
    }
}

/// Drops the volume that a seal returned.
fn let_go(sealed: Result<Volume, AllocError>) -> Result<(), AllocError> {
    match sealed {
        Ok(_volume) => Ok(()),
        Err(error) => Err(error),
    }
}

/// Makes the calls on a machine just booted, which is sealed after every `part` calls, or never if
/// `part` is 0.
pub fn time_calls(
    rt: &HostRuntime,
    layout: &Layout,
    calls: &[Call],
    part: usize,
) -> Result<Figures> {
    let mut machine = Machine::boot(rt.alloc(), layout)?;
    time_on(rt, &mut machine, calls, part)
}

/// Makes the calls on a machine, as `time_calls` does.
fn time_on(
    rt: &HostRuntime,
    machine: &mut Machine,
    calls: &[Call],
    part: usize,
) -> Result<Figures> {
    let mut figures = Figures::none();
    if part == 0 {
        figures.make(rt, machine, calls)?;
    } else {
        figures.make_parts(rt, machine, calls, part)?;
    }
    Ok(figures)
}

/// Returns the calls of lines, each of which must ask for one event.
pub fn calls_of(alloc: Global, lines: Lines) -> Result<Vec<Call>> {
    let lines = lines.into_vec();
    let mut calls = Vec::with_capacity(alloc, lines.len())?;
    for line in lines {
        calls.push(call_of(alloc, line)?)?;
    }
    Ok(calls)
}

/// Returns the call of a line. An `echo` that asks for one event counts as one.
fn call_of(alloc: Global, line: Line) -> Result<Call> {
    match line.work.asked() {
        Asked::Event(event) => Ok(Call {
            cpu: line.cpu,
            event: event.copy(alloc)?,
        }),
        _ => Err(anyhow!("a line asks for no event")),
    }
}

/// Makes calls, and returns the checksum of their replies, continued from `sum`.
///
/// Each reply is read where the call left it, as in `bench/peer`. Handing it on in a `Result` of
/// anyhow would copy it, with room for an error.
fn make_calls(alloc: Global, machine: &mut Machine, calls: &[Call], sum: u64) -> Result<u64> {
    let mut sum = sum;
    for call in calls {
        match machine.answer(alloc, call.cpu, &call.event) {
            Ok((_, reply)) => sum = mix(sum, &reply),
            Err(_fault) => return Err(anyhow!("a call left no record")),
        }
    }
    Ok(sum)
}
