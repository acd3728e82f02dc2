//! Script lines that name operation 0 before their processor has begun an operation.
ghost use Rattle.std.specs.Prelude.{◌≡◌, ◌==◌, ◌++◌, ◌&&◌, [], ◌∷◌, IfOk, OnOk};
ghost use Rattle.std.specs.Option.{option_map_or};
ghost use Rattle.hp_scenario.specs.Asked.{asked_by};
ghost use Rattle.hp_scripts.specs.Unbegun.{asked_names_last, unbegun_at, unbegun_lines};

use crate::begins::line_begins;
use crate::scripts::own_work;
use hp_scenario::{Asked, Line, Work};
use hp_units::Cpu;
use std::alloc::{AllocError, Global};

/// A script line that names operation 0 before its processor has begun an operation.
#[derive(Clone, Copy, Drop)]
pub struct Unbegun {
    /// The processor.
    pub cpu: Cpu,
    /// The line; lines are counted from 1.
    pub line: u64,
}

/// Returns, per processor, the first script line that names operation 0 before any line of the
/// processor begins an operation. The first `setup` lines are the setup; the later ones are in
/// scripts.
///
/// Meant for warnings: these lines work on no operation.
pub fn unbegun_lines(
    alloc: Global,
    cpus: u32,
    setup: u64,
    lines: &[Line],
) -> Result<Vec<Unbegun>, AllocError>
    ensures { IfOk result (λ found. found.items ≡ unbegun_lines cpus setup lines.now) }
{
    let mut found = Vec::new(alloc);
    for cpu in 0..cpus {
        push_unbegun(&mut found, Cpu(cpu), setup, lines)?;
    }
    Ok(found)
}

/// Appends the first script line of `cpu` that names operation 0 before `cpu` has begun an
/// operation, if there is one.
fn push_unbegun(
    found: &mut Vec<Unbegun>,
    cpu: Cpu,
    setup: u64,
    lines: &[Line],
) -> Result<(), AllocError>
    ensures { OnOk result (found.new.items ≡ found.old.items
        ++ option_map_or (λ line. record { cpu = cpu; line = line } ∷ [])
        (unbegun_at cpu setup 0 lines.now) []) }
{
    if let Some(line) = unbegun_line(cpu, setup, lines) {
        found.push(Unbegun { cpu, line })?;
    }
    Ok(())
}

/// Returns the number, from 1, of the first script line of `cpu` that names operation 0 before
/// `cpu` has begun an operation, if there is one.
fn unbegun_line(cpu: Cpu, setup: u64, lines: &[Line]) -> Option<u64>
    ensures { result ≡ unbegun_at cpu setup 0 lines.now }
{
    for index in 0..lines.len() {
        let line = &lines[index];
        if line_begins(cpu, line) {
            return None;
        }
        if index as u64 >= setup && line_names_last(cpu, line) {
            return Some(index as u64 + 1);
        }
    }
    None
}

/// Returns whether a line is the processor's and works on operation 0.
fn line_names_last(cpu: Cpu, line: &Line) -> bool
    ensures { result
        ≡ ((line.now.cpu == cpu) && asked_names_last (asked_by line.now.work)) }
{
    line.cpu == cpu && work_names_last(&line.work)
}

/// Returns whether a line's work is on operation 0.
fn work_names_last(work: &Work) -> bool
    ensures { result ≡ asked_names_last (asked_by work.now) }
{
    match work.asked() {
        Asked::Event(event) => own_work(event).is_some(),
        _ => false,
    }
}
