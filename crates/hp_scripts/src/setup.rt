//! The setup: lines that are run in order on one machine, as `hotplug serial` runs them.
ghost use Rattle.std.specs.Prelude.{◌≡◌, ◌++◌, OnOk};
ghost use Rattle.hp_scripts.specs.Setup.{RunsLines, begins_sealed};

use crate::begins::{Begin, note_begins};
use crate::run_line;
use hp_machine::Machine;
use hp_scenario::{Line, Work};
use std::alloc::{AllocError, Global};

/// Runs lines in order. Before each seal, appends the Begins of the machine's history to `begins`,
/// because the seal hands their records out.
pub(crate) fn run_lines(
    alloc: Global,
    machine: &mut Machine,
    begins: &mut Vec<Begin>,
    lines: &[Line],
) -> Result<(), AllocError>
    ensures { OnOk result
        (RunsLines machine.old begins.old.items lines.now machine.new begins.new.items) }
{
    for line in lines {
        note_sealed(begins, machine, &line.work)?;
        run_line(alloc, machine, line)?;
    }
    Ok(())
}

/// Appends all Begins of the machine's history, if the work is a seal. Other work adds none.
fn note_sealed(begins: &mut Vec<Begin>, machine: &Machine, work: &Work) -> Result<(), AllocError>
    ensures { OnOk result
        (begins.new.items ≡ begins.old.items ++ begins_sealed machine.now work.now) }
{
    if work.is_seal() {
        note_begins(begins, machine.history())?;
    }
    Ok(())
}
