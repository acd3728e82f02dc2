//! A scenario that workers run: one thread per processor, on one shared machine.
ghost use Rattle.std.specs.Prelude.{◌≡◌, ◌++◌, List, Some, IfErr, IfOk, OnOk, length, string_bytes};
ghost use Rattle.hp_machine.specs.Machine.{booted};
ghost use Rattle.hp_shared.specs.Shared.{IsFresh, first_seats};
ghost use Rattle.hp_scenario.specs.Scripts.{AreForRun};
ghost use Rattle.hp_scenario.specs.declared.lines.Line.{Line};
ghost use Rattle.hp_shared.specs.Workers.{IsRunEnd};
ghost use Rattle.hp_commands.specs.Faults.{IsFaultOf, IsWorkFault};
ghost use Rattle.hp_commands.specs.Runs.{IsRunOf, IsRunTextOf, IsWorkedOff, line_end_text, processor_text, processors_text, records_line};
ghost use Rattle.hp_commands.specs.declared.commands.Command.TheVariants.{Run};

use crate::fault::ProgramFault;
use hp_machine::Machine;
use hp_scenario::{Scenario, Script};
use hp_shared::{Closed, Ends, Job, LineEnd, OpenGate, RunEnd, Shared, close, run_workers};
use hp_text::{write_call_fault, write_echo_fault, write_plan_end, write_reply, write_sealed};
use hp_units::Layout;
use std::alloc::{AllocError, Global};
use std::marker::Brand;
use std::mem::forget;
use std::sync::Wait;
use std::sync::ledger::Blank;
use std::thread::Threads;

/// What workers leave: the closed machine, and how each processor's lines ended.
#[derive(Drop)]
pub struct RunResult {
    /// The machine, its sealed records, and how many records it made.
    pub closed: Closed,
    /// How the lines ended, by processor from 0.
    pub ends: Vec<Ends>,
}

/// Runs the scenario in `input`, and returns the text of the run: how each processor's lines ended,
/// then the number of records.
pub fn run<R: Threads + Wait + Sync>(
    rt: &R,
    alloc: Global,
    input: &[u8],
) -> Result<String, ProgramFault>
    ensures ok { IfOk result (λ out. IsRunTextOf input.now (string_bytes out)) }
    ensures err { IfErr result (IsFaultOf Run (Some input.now) ⊥ ⊥) }
{
    let worked = work_off(rt, alloc, input)?;
    let text = worked_text(alloc, &worked);
    // The program ends after this text: the many pieces of memory are not freed one by one.
    forget(worked);
    Ok(text?)
}

/// Returns the text of what workers left.
fn worked_text(alloc: Global, worked: &RunResult) -> Result<String, AllocError>
    ensures { IfOk result (λ out. string_bytes out
        ≡ processors_text worked.now.ends.items ++ records_line worked.now.closed.records) }
{
    let mut out = String::new(alloc);
    write_processors(&mut out, &worked.ends)?;
    write_records(&mut out, worked.closed.records)?;
    Ok(out)
}

/// Runs the scenario in `input` by one worker per processor, and closes the machine.
pub fn work_off<R: Threads + Wait + Sync>(
    rt: &R,
    alloc: Global,
    input: &[u8],
) -> Result<RunResult, ProgramFault>
    ensures ok { IfOk result (λ worked. IsRunOf input.now worked.ends.items worked.closed.volumes.items
        worked.closed.machine worked.closed.records) }
    ensures err { IfErr result (IsFaultOf Run (Some input.now) ⊥ ⊥) }
{
    let scenario = Scenario::read(alloc, input)?;
    let machine = boot(alloc, &scenario.layout, scenario.lines.as_slice().len())?;
    let cpus = scenario.layout.cpus() as u64;
    let scripts = scenario.scripts(alloc)?;
    run_scripts::<Brand, R>(
        rt,
        alloc,
        Blank::new(cpus),
        Blank::new(cpus),
        Blank::new(cpus),
        machine,
        scripts,
    )
}

/// Boots a machine. Reserves room for two records per line if there is memory; otherwise records
/// allocate as they come. (A plan makes several records.)
fn boot(alloc: Global, layout: &Layout, lines: usize) -> Result<Machine, AllocError>
    ensures { IfOk result (λ machine. machine ≡ booted layout.now) }
{
    let mut machine = Machine::boot(alloc, layout)?;
    let _ = machine.reserve(lines.saturating_mul(2));
    Ok(machine)
}

/// Runs one script per processor of a machine just booted, each in a thread of its own, and closes
/// the machine.
fn run_scripts<L: Job + Send + Sync, R: Threads + Wait + Sync>(
    rt: &R,
    alloc: Global,
    records: Blank,
    sealed: Blank,
    fulls: Blank,
    machine: Machine,
    scripts: Vec<Script>,
) -> Result<RunResult, ProgramFault>
    requires machine { IsFresh L.layout machine }
    requires name { records.name ≡ L.name }
    requires parts { records.parts ≡ L.parts }
    requires one_each { records.parts ≡ L.layout.cpus }
    requires sealed { (sealed.name ≡ L.sealed) × (sealed.parts ≡ L.layout.cpus) }
    requires fulls { (fulls.name ≡ L.fulls) × (fulls.parts ≡ L.layout.cpus) }
    requires scripts { length scripts.items ≡ L.layout.cpus }
    requires run { AreForRun scripts.items }
    ensures ok { IfOk result (λ worked. IsWorkedOff L.layout scripts.items worked.ends.items
        worked.closed.volumes.items worked.closed.machine worked.closed.records) }
    ensures err { IfErr result (IsWorkFault L.layout scripts.items) }
{
    let Ok((shared, seats)) = Shared::<L>::new(alloc, records, sealed, fulls, machine) else {
        return Err(ProgramFault::OutOfMemory);
    };
    let end = run_workers(rt, alloc, &shared, seats, scripts, &OpenGate);
    close_after(alloc, shared, end)
}

/// Closes a machine after its workers ended. Fails with the fault that ended them, or with the
/// reason why the machine cannot be closed.
fn close_after<L: Job>(
    alloc: Global,
    shared: Shared<L>,
    end: RunEnd<L>,
) -> Result<RunResult, ProgramFault>
    ensures ok { IfOk result (λ worked. (scripts : List (List Line)) → IsRunEnd L.layout
        (first_seats L.layout.cpus) scripts end.seats.items end.volumes.items end.ends.items end.fault
        → IsWorkedOff L.layout scripts worked.ends.items worked.closed.volumes.items worked.closed.machine
        worked.closed.records) }
    ensures err { IfErr result (λ fault. (scripts : List (List Line)) → IsRunEnd L.layout
        (first_seats L.layout.cpus) scripts end.seats.items end.volumes.items end.ends.items end.fault
        → length scripts ≡ L.layout.cpus → IsWorkFault L.layout scripts fault) }
{
    let RunEnd {
        seats,
        volumes,
        ends,
        fault,
    } = end;
    if let Some(fault) = fault {
        return Err(ProgramFault::from(fault));
    }
    match close(alloc, shared, seats, volumes) {
        Ok(closed) => {
            closed.machine.begins_at_boot();
            Ok(RunResult { closed, ends })
        }
        Err(refused) => Err(ProgramFault::from(refused.fault)),
    }
}

/// Writes how each processor's lines ended, in the order of the processors.
#[tactic(auto, unfolding(crate::specs::Runs::processors_text))]
fn write_processors(out: &mut String, lists: &Vec<Ends>) -> Result<(), AllocError>
    ensures { OnOk result (string_bytes out.new ≡ string_bytes out.old ++ processors_text lists.now.items) }
{
    for cpu in 0..lists.len() {
        write_processor(out, cpu, &lists[cpu])?;
    }
    Ok(())
}

/// Writes a processor's number, and how each of its lines ended.
fn write_processor(out: &mut String, cpu: usize, ends: &Ends) -> Result<(), AllocError>
    ensures { OnOk result
        (string_bytes out.new ≡ string_bytes out.old ++ processor_text cpu (Some ends.now)) }
{
    writeln!(out, "cpu {cpu}")?;
    for end in ends.as_slice() {
        write_line_end(out, *end)?;
    }
    Ok(())
}

/// Writes how a line ended.
fn write_line_end(out: &mut String, end: LineEnd) -> Result<(), AllocError>
    ensures { OnOk result (string_bytes out.new ≡ string_bytes out.old ++ line_end_text end) }
{
    match end {
        LineEnd::Reply(reply) => write_reply(out, reply),
        LineEnd::Fault(fault) => write_call_fault(out, fault),
        LineEnd::Plan(end) => write_plan_end(out, end),
        LineEnd::Control(fault) => write_echo_fault(out, fault),
        LineEnd::Sealed(count) => write_sealed(out, count),
    }
}

/// Writes how many records a machine made.
pub fn write_records(out: &mut String, count: u64) -> Result<(), AllocError>
    ensures { OnOk result (string_bytes out.new ≡ string_bytes out.old ++ records_line count) }
{
    writeln!(out, "{count} records")
}
