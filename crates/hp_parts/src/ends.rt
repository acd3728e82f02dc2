//! How one schedule of a part ends.
ghost use Rattle.std.specs.Prelude.{◌≡◌, ◌^◌, ◌<◌, [], IfErr, IfOk, length};
ghost use Rattle.hp_explore.specs.Faults.{FillsAlong, IsCause};
ghost use Rattle.hp_schedules.specs.Schedules.{schedule_of};
ghost use Rattle.hp_explore.specs.Settings.{setting};
ghost use Rattle.hp_explore.specs.declared.exploring.ExploreFault.TheVariants.{HistoryFull};
ghost use Rattle.hp_parts.specs.Ends.{IsEndOf, IsFollowed};

use hp_explore::{ExploreFault, Path, is_over};
use hp_machine::Machine;
use hp_schedules::{CallScript, Outcome, Shard};
use hp_units::Cpu;
use std::alloc::{AllocError, Global};

/// Returns how a schedule of `part` ends, or `None` if it is not a complete schedule of the part.
/// Its calls start from the state of `machine`. Script k is that of processor k.
///
/// Errors: `HistoryFull` if the layout's history has no room for one of the schedule's calls;
/// `OutOfMemory`.
pub(crate) fn end_of(
    alloc: Global,
    machine: &Machine,
    scripts: &[CallScript],
    part: Shard,
    schedule: &[Cpu],
) -> Result<Option<Outcome>, ExploreFault>
    requires { length scripts.now < 2 ^ 32 }
    ensures ok { IfOk result (IsEndOf (setting machine.now scripts.now) part schedule.now) }
    ensures err { IfErr result (IsCause (setting machine.now scripts.now)) }
    ensures along { IfErr result (λ fault. fault ≡ HistoryFull
        → FillsAlong (setting machine.now scripts.now) schedule.now) }
{
    let processors = scripts.len() as u32;
    let mut path = Path::start(alloc, machine, scripts)?;
    if !follow(alloc, &mut path, schedule)? {
        return Ok(None);
    }
    let outcome = end_at(alloc, &path, processors, part)?;
    Ok(outcome)
}

/// Makes the calls of a schedule until a processor has no call left at its turn. Returns whether
/// all calls were made.
fn follow(alloc: Global, path: &mut Path<'_>, schedule: &[Cpu]) -> Result<bool, ExploreFault>
    requires { path.old.news ≡ [] }
    ensures ok { IfOk result (λ led. IsFollowed path.old.setting schedule.now led path.new) }
    ensures err { IfErr result (IsCause path.old.setting) }
    ensures along { IfErr result (λ fault. fault ≡ HistoryFull → FillsAlong path.old.setting schedule.now) }
{
    for cpu in schedule {
        path.is_played();
        if !path.forward(alloc, cpu.0)? {
            return Ok(false);
        }
    }
    Ok(true)
}

/// Returns how the schedule that led to `path` ends, or `None` if it is not a complete schedule of
/// the part. `processors` is the number of scripts.
fn end_at(
    alloc: Global,
    path: &Path<'_>,
    processors: u32,
    part: Shard,
) -> Result<Option<Outcome>, AllocError>
    requires { processors ≡ length path.now.setting.scripts }
    ensures { IfOk result (IsEndOf path.now.setting part (schedule_of path.now.news)) }
{
    path.is_played();
    if !part.is_of(processors, path.records()) {
        return Ok(None);
    }
    if !is_over(path, processors) {
        return Ok(None);
    }
    let outcome = path.outcome(alloc, processors)?;
    Ok(Some(outcome))
}
