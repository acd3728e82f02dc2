//! The operation that each processor began last, before the scripts and in them.
ghost use Rattle.std.specs.Prelude.{◌≡◌, ◌++◌, OnOk};
ghost use Rattle.hp_scenario.specs.Asked.{asked_by};
ghost use Rattle.hp_scripts.specs.Begins.{asked_begins, begins_in, last_begun, line_begins};

use hp_scenario::{Asked, Line, Work};
use hp_units::{Cpu, Record, Serial, mark_of};
use std::alloc::AllocError;

/// A Begin that the setup made, refused or not.
#[derive(Clone, Copy, Drop)]
pub(crate) struct Begin {
    pub cpu: Cpu,
    pub serial: Serial,
}

/// Appends the Begins among `records`, refused or not.
pub(crate) fn note_begins(begins: &mut Vec<Begin>, records: &[Record]) -> Result<(), AllocError>
    ensures { OnOk result (begins.new.items ≡ begins.old.items ++ begins_in records.now) }
{
    for record in records {
        if mark_of(&record.event).is_opening() {
            begins.push(Begin {
                cpu: record.cpu,
                serial: record.serial,
            })?;
        }
    }
    Ok(())
}

/// Returns the serial of the processor's last Begin in `begins`, or 0 if there is none.
pub(crate) fn last_begun(cpu: Cpu, begins: &[Begin]) -> Serial
    ensures { result ≡ last_begun cpu begins.now }
{
    let mut op = Serial(0);
    for begin in begins {
        if begin.cpu == cpu {
            op = begin.serial;
        }
    }
    op
}

/// Returns whether a line is the processor's and begins an operation.
pub(crate) fn line_begins(cpu: Cpu, line: &Line) -> bool
    ensures { result ≡ line_begins cpu line.now }
{
    line.cpu == cpu && work_begins(&line.work)
}

/// Returns whether a line's work begins an operation, refused or not. A plan does so with its first
/// call.
pub fn work_begins(work: &Work) -> bool
    ensures { result ≡ asked_begins (asked_by work.now) }
{
    match work.asked() {
        Asked::Event(event) => mark_of(event).is_opening(),
        Asked::Plan { plan: _, turns: _ } => true,
        Asked::NotTaken(_fault) => false,
        Asked::Cat { path: _ } => false,
        Asked::Seal => false,
    }
}
