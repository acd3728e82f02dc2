//! Counts the lines that seal, so that there is room for all volumes before the first thread
//! starts.
ghost use Rattle.std.specs.Prelude.{◌≡◌, ◌+◌, IfSome};
ghost use Rattle.hp_shared.specs.Seals.{one_if, seals_in, seals_in_all};
ghost use Rattle.hp_scenario.specs.Asked.{is_seal};

use hp_scenario::{Line, Script};

/// Returns how many lines of all scripts seal, or `None` on overflow.
pub(crate) fn count_all(scripts: &Vec<Script>) -> Option<usize>
    ensures { IfSome result (λ count. count ≡ seals_in_all scripts.now.items) }
{
    let mut count = 0;
    for script in scripts.iter() {
        count = count_lines(script.as_slice(), count)?;
    }
    Some(count)
}

/// Returns `before` plus the number of lines that seal, or `None` on overflow.
fn count_lines(lines: &[Line], before: usize) -> Option<usize>
    ensures { IfSome result (λ count. count ≡ before + seals_in lines.now) }
{
    let mut count = before;
    for line in lines {
        count = count_line(line, count)?;
    }
    Some(count)
}

/// Returns `count`, plus one if the line seals, or `None` on overflow.
fn count_line(line: &Line, count: usize) -> Option<usize>
    ensures { IfSome result (λ next. next ≡ count + one_if (is_seal line.now.work)) }
{
    if line.work.is_seal() {
        count.checked_add(1)
    } else {
        Some(count)
    }
}
