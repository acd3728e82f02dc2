//! Plays one schedule on a copy of the machine.
ghost use Rattle.std.specs.Prelude.{◌≡◌, ◌≤◌, IfErr, IfOk, OnOk, drop, length};
ghost use Rattle.hp_schedules.specs.Cursors.{AreCursors};
ghost use Rattle.hp_explore.specs.Faults.{FillsAlong, IsCause};
ghost use Rattle.hp_explore.specs.Settings.{setting};
ghost use Rattle.hp_explore.specs.Walks.{FillsAt, IsMade, IsPlayed, IsReached, news_in, news_since};
ghost use Rattle.hp_explore.specs.declared.exploring.ExploreFault.TheVariants.{HistoryFull};

use crate::exploring::ExploreFault;
use crate::turns::latest;
use hp_machine::Machine;
use hp_schedules::{CallScript, Positions};
use hp_units::{Cpu, Record};
use std::alloc::Global;

/// Plays a schedule on a copy of the machine and returns the copy, whose history then shows the
/// schedule's records.
///
/// Returns `None` if the schedule names a processor that has no script, or whose script is
/// finished.
///
/// # Errors
///
/// `HistoryFull` if the layout's history has no room for a call of this schedule, `OutOfMemory` if
/// memory allocation fails.
pub fn play(
    alloc: Global,
    machine: &Machine,
    scripts: &[CallScript],
    schedule: &[Cpu],
) -> Result<Option<Machine>, ExploreFault>
    ensures ok { IfOk result (IsPlayed (setting machine.now scripts.now) schedule.now) }
    ensures err { IfErr result (IsCause (setting machine.now scripts.now)) }
    ensures along { IfErr result (λ fault. fault ≡ HistoryFull
        → FillsAlong (setting machine.now scripts.now) schedule.now) }
{
    let mut played = machine.copy(alloc)?;
    let mut positions = Positions::start(alloc, machine.layout().cpus(), scripts)?;
    for cpu in schedule {
        if !make_call(alloc, machine, scripts, &mut played, &mut positions, *cpu)? {
            return Ok(None);
        }
    }
    Ok(Some(played))
}

/// Makes the processor's next call on `played` and returns true. Returns false, and changes
/// nothing, if the processor has no script or its script is finished.
fn make_call(
    alloc: Global,
    start: &Machine,
    scripts: &[CallScript],
    played: &mut Machine,
    positions: &mut Positions,
    cpu: Cpu,
) -> Result<bool, ExploreFault>
    requires reached { IsReached (setting start.now scripts.now) played.old }
    requires cursors { AreCursors (setting start.now scripts.now)
        (news_in (setting start.now scripts.now) played.old) positions.old.cursors.items }
    ensures ok { IfOk result (λ made. IsMade (setting start.now scripts.now) played.old cpu made played.new) }
    ensures cursors { OnOk result (AreCursors (setting start.now scripts.now)
        (news_in (setting start.now scripts.now) played.new) positions.new.cursors.items) }
    ensures err { IfErr result (IsCause (setting start.now scripts.now)) }
    ensures full { IfErr result (λ fault. fault ≡ HistoryFull
        → FillsAt (setting start.now scripts.now) played.old cpu) }
{
    let cpus = start.layout().cpus();
    let news = news_since(start, played);
    match positions.request(alloc, cpus, scripts, news, cpu.0)? {
        Some(request) => match played.answer(alloc, cpu, &request.event) {
            Ok(_answered) => {
                let _ = positions.go_on(cpus, scripts, cpu.0, &request, latest(played.history()));
                Ok(true)
            }
            Err(fault) => Err(ExploreFault::from(fault)),
        },
        None => Ok(false),
    }
}

/// Returns the machine's records since `start`.
fn news_since<'a>(start: &'a Machine, machine: &'a Machine) -> &'a [Record]
    requires { length start.now.history ≤ length machine.now.history }
    ensures { result.now ≡ news_since start.now machine.now }
{
    records_from(machine.history(), start.history().len())
}

/// Returns the records from index `place` on.
pub(crate) fn records_from(records: &[Record], place: usize) -> &[Record]
    requires { place ≤ length records.now }
    ensures { result.now ≡ drop place records.now }
{
    &records[place..]
}
