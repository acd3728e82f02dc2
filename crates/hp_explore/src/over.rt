//! A test for the end of all scripts.
ghost use Rattle.std.specs.Prelude.{◌≡◌, ◌↔◌, ◌<◌, IsTrue, None, length};
ghost use Rattle.hp_schedules.specs.Schedules.{next_call};
ghost use Rattle.hp_explore.specs.Paths.{IsOver};

use crate::path::Path;

/// Returns whether every script has finished.
pub fn is_over(path: &Path<'_>, processors: u32) -> bool
    requires { processors ≡ length path.now.setting.scripts }
    ensures { IsTrue result ↔ IsOver path.now }
{
    for cpu in 0..processors {
        if !has_finished(path, cpu) {
            return false;
        }
    }
    true
}

/// Returns whether the processor has finished all lines of its script.
fn has_finished(path: &Path<'_>, cpu: u32) -> bool
    requires { cpu < length path.now.setting.scripts }
    ensures { IsTrue result ↔ (next_call path.now.setting cpu path.now.news ≡ None) }
{
    let scripts = path.scripts();
    path.finished(cpu) == scripts[cpu as usize].line_count()
}
