//! The aim of one pass in the search for a nearest schedule: an end as wanted, within a budget of
//! changes if there is one.
ghost use Rattle.std.specs.Prelude.{◌≡◌, ◌<◌, ◌^◌, ◌++◌, ◌∷◌, [], ℕ, IfErr, IfOk, IsTrue, List, OnOk, false, length, option_map, true};
ghost use Rattle.hp_questions.specs.Marks.{AreMarks, asks_no_plans};
ghost use Rattle.hp_explore.specs.FindFaults.{IsPassCause};
ghost use Rattle.hp_explore.specs.Reaching.{Exceeds, IsFirstWithin, IsWithin};
ghost use Rattle.hp_explore.specs.Settings.{setting};
ghost use Rattle.hp_explore.specs.Withins.{AreCausedIf, AreSpent};
ghost use Rattle.hp_explore.specs.declared.fault.FindFault.TheVariants.{Stopped};

use crate::aim::Aim;
use crate::causes::push_all_causes;
use crate::fault::FindFault;
use crate::searching::first_sought;
use crate::{Path, Schedule, Watch, is_over};
use hp_machine::Machine;
use hp_questions::{Wanted, are_met, asks_no_plans, is_lost, push_marks};
use hp_schedules::CallScript;
use hp_units::Cpu;
use std::alloc::{AllocError, Global};

/// The wanted lines, and the most changes of processor, if there is a budget.
#[derive(Clone, Copy, Drop)]
pub(crate) struct Within<'a> {
    /// Where the marks of lines about plans are allocated.
    pub(crate) alloc: Global,
    /// The wanted lines.
    pub(crate) wanted: &'a [Wanted],
    /// The most changes of processor, if there is a budget.
    pub(crate) budget: Option<u64>,
}

impl<'a> Aim for Within<'a> {
    ghost use Rattle.std.specs.Prelude.{◌≡◌};
    ghost use Rattle.std.proofs.Common.{refl, ◌∙◌};
    ghost use Rattle.hp_explore.specs.Withins.{aim_within, within_lawful, within_narrower};

    ghost shows = { λ aim g. aim_within g aim.wanted.now aim.budget };

    ghost becomes = { λ aim g new. (new.wanted.now ≡ aim.wanted.now) × (new.budget ≡ aim.budget) };

    fn may_try(&self, _path: &Path<'_>, schedule: &Schedule, cpu: u32) -> bool {
        !exceeds(self.budget, schedule, Cpu(cpu))
    }

    /// Without a budget, no place is given up, so that the search also finds whether the history
    /// has room for each call.
    fn admits(&self, path: &Path<'_>, _schedule: &Schedule, processors: u32) -> bool {
        path.is_played();
        if self.budget.is_some() && is_lost(self.wanted, processors, path.records()) {
            return false;
        }
        true
    }

    fn push_marks(
        &self,
        path: &Path<'_>,
        schedule: &Schedule,
        processors: u32,
        numbers: &mut Vec<u32>,
    ) -> Result<bool, AllocError> {
        if !push_met(self.alloc, self.wanted, path, processors, numbers)? {
            return Ok(false);
        }
        if !push_spent(self.budget, schedule, numbers)? {
            return Ok(false);
        }
        push_plan_causes(self.wanted, path, processors, numbers)?;
        Ok(true)
    }

    /// The aim is met by a complete schedule that ends as wanted.
    fn is_met(
        &mut self,
        alloc: Global,
        path: &Path<'_>,
        _schedule: &Schedule,
        processors: u32,
    ) -> Result<bool, AllocError> {
        path.is_played();
        if !is_over(path, processors) {
            return Ok(false);
        }
        let outcome = path.outcome(alloc, processors)?;
        are_met(alloc, self.wanted, path.cpus(), path.scripts(), &outcome)
    }

    ghost stays = { λ aim g. (refl, refl) };

    ghost joined = { λ aim g mid new first second. (second.0 ∙ first.0, second.1 ∙ first.1) };

    ghost narrower = { λ aim g new same. within_narrower g aim.wanted.now new.wanted.now aim.budget
        new.budget same.0 same.1 };

    ghost lawful = { λ aim g. within_lawful g aim.wanted.now aim.budget };
}

/// Returns the first schedule, in the order of the search, that ends as wanted with at most
/// `budget` changes of processor; or with any number of changes, if there is no budget. Returns
/// `None` if there is no such schedule. Adds to `places` the number of places from which the search
/// goes on, not counting the beginning of the scripts.
///
/// # Errors
///
/// `HistoryFull` if the search reaches a call for which the history has no room, `OutOfMemory` if
/// memory allocation fails, `Stopped` if the watch ended the search.
pub(crate) fn first_within<W: Watch>(
    alloc: Global,
    machine: &Machine,
    scripts: &[CallScript],
    wanted: &[Wanted],
    budget: Option<u64>,
    watch: &mut W,
    places: &mut u64,
) -> Result<Option<Vec<Cpu>>, FindFault>
    requires { length scripts.now < 2 ^ 32 }
    ensures ok { IfOk result (λ found. IsFirstWithin (setting machine.now scripts.now) wanted.now budget
        (option_map (λ s. s.items) found)) }
    ensures err { IfErr result (IsPassCause (setting machine.now scripts.now) wanted.now budget) }
    ensures stopped { IfErr result (λ fault. fault ≡ Stopped → W.has_ended watch.new) }
{
    let mut aim = Within {
        alloc,
        wanted,
        budget,
    };
    first_sought(alloc, machine, scripts, &mut aim, watch, places)
}

/// Returns whether the schedule, with one more call by `next`, has more changes than `budget`.
/// Returns false if there is no budget.
fn exceeds(budget: Option<u64>, schedule: &Schedule, next: Cpu) -> bool
    ensures more { IsTrue result → Exceeds budget (schedule.now ++ next ∷ []) }
    ensures within { result ≡ false → IsWithin budget (schedule.now ++ next ∷ []) }
{
    match budget {
        Some(budget) => schedule.changes_with(next) as u64 > budget,
        None => false,
    }
}

/// Appends the number of replies to each processor, and for each wanted line 1 if the records have
/// it so far, or 0. Returns whether each number fits 32 bits.
fn push_met(
    alloc: Global,
    wanted: &[Wanted],
    path: &Path<'_>,
    processors: u32,
    numbers: &mut Vec<u32>,
) -> Result<bool, AllocError>
    requires { processors ≡ length path.now.setting.scripts }
    ensures { IfOk result (λ fit. fit ≡ true → (part : List ℕ)
        × (numbers.new.items ≡ numbers.old.items ++ part)
        × AreMarks path.now.setting.layout.cpus path.now.setting.scripts wanted.now
        processors path.now.news part) }
{
    let scripts = path.scripts();
    push_marks(
        alloc,
        wanted,
        path.cpus(),
        scripts,
        processors,
        path.records(),
        numbers,
    )
}

/// If a wanted line is about plans, appends the last refusals in the plans in progress, on which
/// the ends of these plans depend.
fn push_plan_causes(
    wanted: &[Wanted],
    path: &Path<'_>,
    processors: u32,
    numbers: &mut Vec<u32>,
) -> Result<(), AllocError>
    requires { processors ≡ length path.now.setting.scripts }
    ensures { OnOk result ((part : List ℕ) × (numbers.new.items ≡ numbers.old.items ++ part)
        × AreCausedIf (asks_no_plans wanted.now) path.now.setting path.now.news part) }
{
    if asks_no_plans(wanted) {
        return Ok(());
    }
    push_all_causes(path, processors, numbers)
}

/// If there is a budget, appends the latest processor and the number of changes so far; returns
/// false if there is no latest processor, or if that number does not fit 32 bits. Without a budget,
/// appends nothing and returns true.
fn push_spent(
    budget: Option<u64>,
    schedule: &Schedule,
    numbers: &mut Vec<u32>,
) -> Result<bool, AllocError>
    ensures { IfOk result (λ fit. fit ≡ true → (part : List ℕ)
        × (numbers.new.items ≡ numbers.old.items ++ part) × AreSpent budget schedule.now part) }
{
    if budget.is_none() {
        return Ok(true);
    }
    let Some(cpu) = schedule.as_slice().last() else {
        return Ok(false);
    };
    let Ok(changes) = u32::try_from(schedule.changes()) else {
        return Ok(false);
    };
    numbers.push(cpu.0)?;
    numbers.push(changes)?;
    Ok(true)
}
