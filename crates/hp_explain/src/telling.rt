//! The order that explains answers, as text.
ghost use Rattle.std.specs.Prelude.{◌≡◌, ◌^◌, ◌<◌, ◌⊎◌, IfErr, IfOk, length, string_bytes};
ghost use Rattle.hp_explore.specs.declared.exploring.ExploreFault.TheVariants.{OutOfMemory};
ghost use Rattle.hp_explore.specs.declared.fault.FindFault.TheVariants.{Stopped};
ghost use Rattle.hp_explore.specs.FindFaults.{find_fault_from};
ghost use Rattle.hp_search.specs.Prepared.{before_of, names_of, setting_of};
ghost use Rattle.hp_explain.specs.Explaining.{IsExplainCause};
ghost use Rattle.hp_explain.specs.Telling.{IsExplainFaultOf, IsExplainedOn, IsExplainingOf, IsExplanationTold, unknown_told};
ghost use Rattle.hp_explain.specs.declared.telling.ExplainResult.TheVariants.{Unknown};

use crate::answers::read_answers;
use crate::explain_fault::ExplainFault;
use crate::explaining::{Explanation, explain};
use crate::observed::Observed;
use crate::standing::{Standing, path_along, standings_of};
use crate::unexplained::{write_unexplained, write_unexplained_object};
use hp_explore::{ExploreFault, FindFault, Watch};
use hp_search::{Prepared, ScheduleForm, prepare, schedule_told};
use hp_units::Cpu;
use std::alloc::{AllocError, Global};

/// How a search for an order that explains answers ended.
#[derive(Clone, Copy, Debug, PartialEq, Eq, Drop)]
pub enum ExplainResult {
    /// An order explains the answers.
    Explained,
    /// No order explains the answers.
    Unexplained,
    /// The search was stopped before it knew whether an order explains the answers.
    Unknown,
}

/// The result of a search for an order that explains answers, with its text.
#[derive(Drop)]
pub struct ExplainText {
    /// The order that was found. If there is none, or if it is not known whether there is one, the
    /// text reports this. For `ScheduleForm::Scenario` it is then empty.
    pub text: String,
    /// How the search ended.
    pub result: ExplainResult,
}

/// Searches `scenario` for the first order of all calls that gives each line its answer in
/// `answers`. Each line comes after all lines that were answered before it began. Of two orders,
/// the one with the lower processor at the first difference comes first.
///
/// Each line is in the script of its processor, and a plan's calls are interleaved one by one with
/// those of other processors. `read_answers` documents the form of the answers, and `explain` the
/// search.
///
/// If there is such an order, the text has its number of processor changes and its calls, as words
/// or as an object; or it is the order as a scenario. If there is none, the text has the longest
/// explained beginning of an order, how far each processor is after it, and the answer that its
/// next line would get. If `watch` ended the search, the text reports that nothing is known. As a
/// scenario the text is empty in these two cases.
///
/// # Errors
///
/// Those of reading the scenario; `NotForScript` with the first line that may not be in a script;
/// those of reading the answers; `OutOfMemory`, which may come in place of any other result.
/// `HistoryFull` never comes: an order with a call for which the history has no room explains
/// nothing.
pub fn explain_text<W: Watch>(
    alloc: Global,
    scenario: &[u8],
    answers: &[u8],
    form: ScheduleForm,
    watch: &mut W,
) -> Result<ExplainText, ExplainFault>
    ensures ok { IfOk result (λ f.
        IsExplainingOf form scenario.now answers.now (string_bytes f.text) f.result) }
    ensures unknown { IfOk result (λ f. f.result ≡ Unknown → W.has_ended watch.new) }
    ensures err { IfErr result (IsExplainFaultOf scenario.now answers.now) }
{
    let prepared = prepare(alloc, scenario, 0)?;
    let seen = read_answers(alloc, answers, prepared.start.scripts.as_slice())?;
    match explained(alloc, &prepared, &seen, form, watch) {
        Ok(told) => Ok(told),
        Err(fault) => Err(ExplainFault::Lab(prepared.told_fault(alloc, fault))),
    }
}

/// Searches a prepared scenario and returns the result as text in `form`.
fn explained<W: Watch>(
    alloc: Global,
    prepared: &Prepared,
    seen: &Observed,
    form: ScheduleForm,
    watch: &mut W,
) -> Result<ExplainText, ExploreFault>
    requires { length prepared.now.start.scripts.items < 2 ^ 32 }
    ensures ok { IfOk result (λ f. IsExplainedOn form (names_of prepared.now) (before_of prepared.now)
        (setting_of prepared.now) seen.now (string_bytes f.text) f.result) }
    ensures unknown { IfOk result (λ f. f.result ≡ Unknown → W.has_ended watch.new) }
    ensures err { IfErr result
        (λ fault. IsExplainCause (find_fault_from fault)) }
{
    let machine = &prepared.start.machine;
    let scripts = prepared.start.scripts.as_slice();
    match explain(alloc, machine, scripts, seen, watch) {
        Ok(explanation) => {
            let told = explanation_told(alloc, prepared, seen, &explanation, form)?;
            Ok(told)
        }
        Err(fault) => unknown_or(alloc, form, fault),
    }
}

/// Returns the text of a search that was ended, or the fault of one that failed.
fn unknown_or(
    alloc: Global,
    form: ScheduleForm,
    fault: FindFault,
) -> Result<ExplainText, ExploreFault>
    ensures ok { IfOk result (λ f.
        (fault ≡ Stopped) × (f.result ≡ Unknown) × (string_bytes f.text ≡ unknown_told form)) }
    ensures err { IfErr result (λ e. (find_fault_from e ≡ fault) ⊎ (e ≡ OutOfMemory)) }
{
    match fault {
        FindFault::HistoryFull => Err(ExploreFault::HistoryFull),
        FindFault::OutOfMemory => Err(ExploreFault::OutOfMemory),
        FindFault::Stopped => {
            let told = unknown_told(form);
            let text = format!(in alloc; "{told}")?;
            Ok(ExplainText {
                text,
                result: ExplainResult::Unknown,
            })
        }
    }
}

/// Returns what a search found, as text in `form`. Replays the schedule.
fn explanation_told(
    alloc: Global,
    prepared: &Prepared,
    seen: &Observed,
    explanation: &Explanation,
    form: ScheduleForm,
) -> Result<ExplainText, AllocError>
    ensures { IfOk result (λ f. IsExplanationTold form (names_of prepared.now) (before_of prepared.now)
        (setting_of prepared.now) explanation.now (string_bytes f.text) f.result) }
{
    match explanation {
        Explanation::Explained(schedule) => {
            let text = schedule_told(alloc, prepared, schedule.as_slice(), form)?;
            Ok(ExplainText {
                text,
                result: ExplainResult::Explained,
            })
        }
        Explanation::Unexplained(longest) => {
            let text = longest_told(alloc, prepared, seen, longest.as_slice(), form)?;
            Ok(ExplainText {
                text,
                result: ExplainResult::Unexplained,
            })
        }
    }
}

/// Returns the text, in `form`, for answers that no order explains: the longest explained beginning
/// of an order, and how far the processors are after it. As a scenario the text is empty. Replays
/// the beginning.
fn longest_told(
    alloc: Global,
    prepared: &Prepared,
    seen: &Observed,
    longest: &[Cpu],
    form: ScheduleForm,
) -> Result<String, AllocError> {
    let machine = &prepared.start.machine;
    let scripts = prepared.start.scripts.as_slice();
    let mut path = path_along(alloc, machine, scripts, longest)?;
    let standings = standings_of(alloc, &mut path, seen)?;
    let mut text = String::new(alloc);
    let names = &prepared.scenario.names;
    let calls = path.records();
    match form {
        ScheduleForm::Words => write_unexplained(&mut text, names, calls, &standings)?,
        ScheduleForm::Object => write_unexplained_object(&mut text, names, calls, &standings)?,
        ScheduleForm::Scenario => {}
    }
    Ok(text)
}

/// Returns the text that reports, in `form`, that a search was ended before it knew the result. As
/// a scenario the text is empty.
fn unknown_told(form: ScheduleForm) -> &'static str
    ensures { result.now ≡ unknown_told form }
{
    match form {
        ScheduleForm::Words => "explained: unknown\n",
        ScheduleForm::Object => "{\"found\": null}\n",
        ScheduleForm::Scenario => "",
    }
}
