//! Changes of processor in a schedule.
ghost use Rattle.std.specs.Prelude.{◌≡◌, ◌+◌, ◌≤◌, ◌++◌, ◌∷◌, []};
ghost use Rattle.hp_explore.specs.Changes.{change, changes};

use hp_units::Cpu;

/// Returns the number of changes of processor in the schedule. Each call by another processor than
/// the call before it counts as one.
pub fn changes_of(schedule: &[Cpu]) -> usize
    ensures { result ≡ changes schedule.now }
{
    let mut count = 0;
    for index in 1..schedule.len() {
        count += change(schedule[index - 1], schedule[index]);
    }
    count
}

/// Returns 1 if one more call by `next` changes the processor, and 0 otherwise.
#[tactic(auto, using(crate::proofs::Budgets::changes_none, crate::proofs::Budgets::changes_last))]
pub(crate) fn change_after(schedule: &[Cpu], next: Cpu) -> usize
    ensures { changes schedule.now + result ≡ changes (schedule.now ++ next ∷ []) }
{
    let count = schedule.len();
    if count == 0 {
        return 0;
    }
    change(schedule[count - 1], next)
}

/// Returns 1 if the two processors differ, and 0 otherwise.
fn change(cpu: Cpu, next: Cpu) -> usize
    ensures is { result ≡ change cpu next }
    ensures one { result ≤ 1 }
{
    if cpu == next { 0 } else { 1 }
}
