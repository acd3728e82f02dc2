//! Searches a scenario for an end.
ghost use Rattle.std.specs.Prelude.{◌≡◌, ◌^◌, ◌<◌, ◌⊎◌, IfErr, IfOk, length, option_map, string_bytes};
ghost use Rattle.hp_explore.specs.FindFaults.{IsFindCause, find_fault_from};
ghost use Rattle.hp_explore.specs.declared.exploring.ExploreFault.TheVariants.{OutOfMemory};
ghost use Rattle.hp_explore.specs.declared.fault.FindFault.TheVariants.{Stopped};
ghost use Rattle.hp_search.specs.Prepared.{before_of, names_of, setting_of};
ghost use Rattle.hp_questions.specs.Limits.{AreWithin};
ghost use Rattle.hp_search.specs.Findings.{IsFindFaultOf, IsFindingOf, IsFoundOn, IsFoundTold};
ghost use Rattle.hp_search.specs.FoundTexts.{absent_told, found_text, schedule_text, unknown_told};
ghost use Rattle.hp_search.specs.declared.found.FindResult.TheVariants.{Unknown};

use crate::lab_fault::LabFault;
use crate::objects::found_object;
use crate::words::nearest_text;
use crate::{FindResult, FindText, Prepared, ScheduleForm, prepare};
use hp_explore::{ExploreFault, FindFault, Found, Watch, changes_of, find};
use hp_questions::{Wanted, first_past};
use hp_units::{Cpu, Record};
use std::alloc::{AllocError, Global};
use std::sync::Wait;
use std::thread::Threads;

/// Searches the scenario in `input` for an interleaving whose end meets each of the wanted lines,
/// with the fewest changes of processor. The first `setup` lines are run in order, and each later
/// line goes to the script of its processor. There, operation 0 is the one that the processor began
/// last. The search runs in `jobs` threads, at most 256.
///
/// If an interleaving ends as wanted, the text has the first one with the fewest changes: its
/// number of changes and its calls, as words or as an object; or the interleaving as a scenario. If
/// there is none, the text reports that. If `watch` ended the search, it reports that nothing is
/// known. As a scenario the text is empty in these two cases.
///
/// `watch` gets the number of states that the search has reached, but not while several threads
/// search.
///
/// Errors: those of reading the scenario; `NotForScript` with the first line after the setup that
/// may not be in a script; `PastLayout` with the first wanted line that names something past the
/// layout; `HistoryFull` if the history has no room for a call that the search makes, as for `find`
/// of hp_explore; `OutOfMemory`, which may come in place of any other result.
pub fn find_text<W: Watch>(
    rt: &(impl Threads + Wait + Sync),
    alloc: Global,
    input: &[u8],
    setup: u64,
    wanted: &[Wanted],
    form: ScheduleForm,
    jobs: u32,
    watch: &mut W,
) -> Result<FindText, LabFault>
    ensures ok { IfOk result (λ f.
        IsFindingOf form input.now setup wanted.now (string_bytes f.text) f.result) }
    ensures unknown { IfOk result (λ f. f.result ≡ Unknown → W.has_ended watch.new) }
    ensures err { IfErr result (IsFindFaultOf input.now setup wanted.now) }
{
    let prepared = prepare(alloc, input, setup)?;
    if let Some(number) = first_past(wanted, prepared.start.machine.layout()) {
        return Err(LabFault::PastLayout { number });
    }
    match found(rt, alloc, &prepared, wanted, form, jobs, watch) {
        Ok(finding) => Ok(finding),
        Err(fault) => Err(prepared.told_fault(alloc, fault)),
    }
}

/// Searches a prepared scenario in `jobs` threads and returns the result as text in `form`.
fn found<W: Watch>(
    rt: &(impl Threads + Wait + Sync),
    alloc: Global,
    prepared: &Prepared,
    wanted: &[Wanted],
    form: ScheduleForm,
    jobs: u32,
    watch: &mut W,
) -> Result<FindText, ExploreFault>
    requires few { length prepared.now.start.scripts.items < 2 ^ 32 }
    requires within { AreWithin (setting_of prepared.now).layout wanted.now }
    ensures ok { IfOk result (λ f. IsFoundOn form (names_of prepared.now) (before_of prepared.now)
        (setting_of prepared.now) wanted.now (string_bytes f.text) f.result) }
    ensures unknown { IfOk result (λ f. f.result ≡ Unknown → W.has_ended watch.new) }
    ensures err { IfErr result
        (λ fault. IsFindCause (setting_of prepared.now) wanted.now (find_fault_from fault)) }
{
    let machine = &prepared.start.machine;
    let scripts = prepared.start.scripts.as_slice();
    match find(rt, alloc, machine, scripts, wanted, jobs, watch) {
        Ok(found) => {
            let finding = found_told(alloc, prepared, &found, form)?;
            Ok(finding)
        }
        Err(fault) => unknown_or(alloc, form, fault),
    }
}

/// Returns the text of a search that was ended, or the fault of one that failed.
fn unknown_or(alloc: Global, form: ScheduleForm, fault: FindFault) -> Result<FindText, ExploreFault>
    ensures ok { IfOk result (λ f.
        (fault ≡ Stopped) × (f.result ≡ Unknown) × (string_bytes f.text ≡ unknown_told form)) }
    ensures err { IfErr result (λ e. (find_fault_from e ≡ fault) ⊎ (e ≡ OutOfMemory)) }
{
    match fault {
        FindFault::HistoryFull => Err(ExploreFault::HistoryFull),
        FindFault::OutOfMemory => Err(ExploreFault::OutOfMemory),
        FindFault::Stopped => {
            let told = unknown_told(form);
            let text = format!(in alloc; "{told}")?;
            Ok(FindText {
                text,
                result: FindResult::Unknown,
            })
        }
    }
}

/// Returns what a search found, as text in `form`. Replays the schedule, if one was found.
fn found_told(
    alloc: Global,
    prepared: &Prepared,
    found: &Found,
    form: ScheduleForm,
) -> Result<FindText, AllocError>
    ensures { IfOk result (λ f. IsFoundTold form (names_of prepared.now) (before_of prepared.now)
        (setting_of prepared.now) found.now (string_bytes f.text) f.result) }
{
    match found {
        Found::Nearest(schedule) => {
            let text = schedule_told(alloc, prepared, schedule.as_slice(), form)?;
            Ok(FindText {
                text,
                result: FindResult::Found,
            })
        }
        Found::Absent => {
            let told = absent_told(form);
            let text = format!(in alloc; "{told}")?;
            Ok(FindText {
                text,
                result: FindResult::Absent,
            })
        }
    }
}

/// Returns a schedule of the scripts and its calls as text in `form`. Replays the schedule.
///
/// Fails if memory allocation fails, or if the schedule cannot be played.
pub fn schedule_told(
    alloc: Global,
    prepared: &Prepared,
    schedule: &[Cpu],
    form: ScheduleForm,
) -> Result<String, AllocError>
    ensures { IfOk result (λ text. string_bytes text ≡ found_text form (names_of prepared.now)
        (before_of prepared.now) (setting_of prepared.now) schedule.now) }
{
    // The search has made these calls, so only memory can run out.
    let Ok(played) = prepared.played(alloc, schedule) else {
        return Err(AllocError);
    };
    let text = text_of(alloc, prepared, schedule, prepared.calls_of(&played), form)?;
    Ok(text)
}

/// Returns a schedule and its calls as text in `form`.
fn text_of(
    alloc: Global,
    prepared: &Prepared,
    schedule: &[Cpu],
    calls: Option<&[Record]>,
    form: ScheduleForm,
) -> Result<String, AllocError>
    ensures { IfOk result (λ text. string_bytes text
        ≡ schedule_text form (names_of prepared.now) (before_of prepared.now)
        (setting_of prepared.now).layout schedule.now (option_map (λ c. c.now) calls.entry)) }
{
    let names = &prepared.scenario.names;
    match form {
        ScheduleForm::Words => nearest_text(alloc, names, changes_of(schedule), calls),
        ScheduleForm::Object => found_object(alloc, names, changes_of(schedule), calls),
        ScheduleForm::Scenario => prepared.replay_of(alloc, calls),
    }
}

/// Returns the text that reports, in `form`, that no interleaving ends as wanted. As a scenario the
/// text is empty.
fn absent_told(form: ScheduleForm) -> &'static str
    ensures { result.now ≡ absent_told form }
{
    match form {
        ScheduleForm::Words => "ends so: 0\n",
        ScheduleForm::Object => "{\"found\": false}\n",
        ScheduleForm::Scenario => "",
    }
}

/// Returns the text that reports, in `form`, that a search was ended before it knew the result. As
/// a scenario the text is empty.
fn unknown_told(form: ScheduleForm) -> &'static str
    ensures { result.now ≡ unknown_told form }
{
    match form {
        ScheduleForm::Words => "ends so: unknown\n",
        ScheduleForm::Object => "{\"found\": null}\n",
        ScheduleForm::Scenario => "",
    }
}
