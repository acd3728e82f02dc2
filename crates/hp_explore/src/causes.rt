//! The last refusals in the plans in progress, on which the answers to these plans depend.
ghost use Rattle.std.specs.Prelude.{◌≡◌, ◌++◌, List, OnOk, length, ℕ};
ghost use Rattle.hp_explore.specs.CausesBelow.{AreCausedBelow};

use crate::path::Path;
use std::alloc::AllocError;

/// Appends two numbers for each processor: the last refusal of a migration or a commit in its plan
/// in progress, or 0 and 0 if there is none. The answers to these plans depend on it.
pub fn push_all_causes(
    path: &Path<'_>,
    processors: u32,
    numbers: &mut Vec<u32>,
) -> Result<(), AllocError>
    requires { processors ≡ length path.now.setting.scripts }
    ensures { OnOk result ((part : List ℕ) × (numbers.new.items ≡ numbers.old.items ++ part)
        × AreCausedBelow path.now.setting processors path.now.news part) }
{
    for cpu in 0..processors {
        path.push_causes(cpu, numbers)?;
    }
    Ok(())
}
