//! Checks that every line may be in a script.
ghost use Rattle.std.specs.Prelude.{◌≡◌, ◌+◌, ◌<◌, ◌^◌, None, IfErr, OnOk, length};
ghost use Rattle.hp_scenario.specs.Unfit.{unfit};
ghost use Rattle.hp_scripts.specs.Checks.{AreFit, IsLineFault, IsUnfit};

use crate::start_fault::StartFault;
use hp_scenario::Line;

/// Checks that every line may be in a script. The error names the first line that may not. `before`
/// is the number of lines before `lines`.
pub(crate) fn check_lines(cpus: u32, before: u64, lines: &[Line]) -> Result<(), StartFault>
    requires { before + length lines.now < 2 ^ 64 }
    ensures ok { OnOk result (AreFit cpus lines.now (length lines.now)) }
    ensures err { IfErr result (IsUnfit cpus before lines.now) }
{
    for index in 0..lines.len() {
        check_line(cpus, before + index as u64 + 1, &lines[index])?;
    }
    Ok(())
}

/// Checks that a line may be in a script. `place` is its number, from 1.
fn check_line(cpus: u32, place: u64, line: &Line) -> Result<(), StartFault>
    ensures ok { OnOk result (unfit cpus line.now ≡ None) }
    ensures err { IfErr result (IsLineFault cpus place line.now) }
{
    match line.unfit(cpus) {
        Some(why) => Err(StartFault::NotForScript { line: place, why }),
        None => Ok(()),
    }
}
