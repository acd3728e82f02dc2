//! Replays of records, and audits of sealed records.
use crate::calls::make_call;
use crate::same::expect_same_machines;
use hp_history::{Course, Volume};
use hp_machine::{Machine, audit_chain, replay, replay_from};
use hp_plain::Image;
use hp_scenario::{Line, Scenario, Work};
use hp_units::Layout;
use refused_values::{Case, Outcome, Trouble, expect};
use std::alloc::Global;

/// Lines whose records are sealed in two volumes, and lines after the last seal.
pub const CALLS: &str = concat!(
    r#""0 map db 0","0 write db 0 1 7","0 kalloc 1","0 seal","0 begin off 2","0 drainfor 4 0","#,
    r#""0 migrate 4","0 cancel 4","0 undo 3","0 seal","0 unmap db 0","0 kfree 0""#,
);

/// Runs the lines of a scenario on a machine, and audits the records that they left.
pub fn run(case: &mut Case<'_>, scenario: &Scenario) -> Outcome {
    let mut machine = Machine::boot(case.alloc, &scenario.layout)?;
    run_audited(case.alloc, &mut machine, scenario.lines.as_slice())
}

/// Runs the lines and audits the records that they left.
fn run_audited(alloc: Global, machine: &mut Machine, lines: &[Line]) -> Outcome {
    let mut volumes = Vec::new(alloc);
    for line in lines {
        match &line.work {
            Work::Event(event) => make_call(alloc, machine, line.cpu, event)?,
            _ => make_seal(alloc, machine, &mut volumes)?,
        }
    }
    audit(alloc, machine, &volumes)
}

/// Seals the history and appends the volume.
fn make_seal(alloc: Global, machine: &mut Machine, volumes: &mut Vec<Volume>) -> Outcome {
    volumes.reserve(1)?;
    let volume = machine.seal(alloc)?;
    volumes.push_reserved(volume);
    Ok(())
}

/// Checks that all records lead to the machine's state, and that the audit does not change the
/// machine.
fn audit(alloc: Global, machine: &Machine, volumes: &[Volume]) -> Outcome {
    let copy = machine.copy(alloc)?;
    lead_on(alloc, machine, volumes)?;
    start_anew(alloc, machine.layout())?;
    replay_first(alloc, volumes)?;
    expect_same_machines(alloc, machine, &copy)
}

/// Checks that the volumes lead to the machine's base, and its records from there to its state.
fn lead_on(alloc: Global, machine: &Machine, volumes: &[Volume]) -> Outcome {
    let base = audit_chain(alloc, machine.layout(), volumes)?;
    machine.stays_sound();
    let end = replay_from(alloc, &base, machine.sealed(), machine.history())?;
    let image = machine.image(alloc)?;
    expect(base.same(machine.base()) && end.same(&image))
}

/// Checks that the records of the first volume lead to the base of the second.
fn replay_first(alloc: Global, volumes: &[Volume]) -> Outcome {
    let [first, second] = volumes else {
        return Err(Trouble::Wrong);
    };
    let layout = first.base.layout();
    let image = replay(alloc, layout, first.records.as_slice())?;
    expect(image.same(&second.base))
}

/// Boots a course (a memory with its history). Checks that its base and its state are
/// the Image at boot.
fn start_anew(alloc: Global, layout: &Layout) -> Outcome {
    let boot = Image::boot(alloc, layout)?;
    let course = Course::boot(alloc, layout)?;
    let image = course.image(alloc)?;
    expect(image.same(&boot) && course.base().same(&boot))
}
