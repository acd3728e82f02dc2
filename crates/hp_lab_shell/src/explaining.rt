//! The command `explain`: it looks for an order of the scenario's calls that gives each line its
//! answer.
ghost use Rattle.std.specs.Prelude.{◌≡◌};
ghost use Rattle.hp_lab_shell.specs.Statuses.{explain_status};

use crate::arguments::{PROGRESS, SCENARIO};
use crate::budgets::budgets_of;
use crate::explain_words::{ANSWERS_NAME, SCENARIO_NAME};
use crate::files::{Unread, bytes_of};
use crate::messages::{say_no_scenario, say_unbegun, status_of};
use crate::output::Output;
use crate::progress::{Progress, Watching, shown_on};
use crate::scripts::unbegun_in;
use crate::words::{ONE_FOUND, schedule_form_from};
use clap::ArgMatches;
use hp_explain::{ExplainFault, ExplainResult, ExplainText, explain_text};
use hp_search::{LabProgramFault, ScheduleForm};
use hp_streams::{Failed, write_all};
use std::io::IsTerminal;

/// The names of the two files.
#[derive(Clone, Copy)]
struct FileNames<'a> {
    scenario: &'a str,
    answers: &'a str,
}

/// The bytes of the two files.
#[derive(Drop)]
struct Inputs {
    scenario: Vec<u8>,
    answers: Vec<u8>,
}

/// Runs the command, and returns the exit status: 0 if an order explains the answers, 3 if none
/// does or it is not known, 1 after a fault, 2 for a wrong command line.
pub(crate) fn serve_explain(rt: &HostRuntime, words: &ArgMatches<'_>) -> u8 {
    match names_from(words) {
        Ok(names) => serve_files(rt, words, names),
        Err(text) => {
            let _ = eprintln!(rt; "hotplug_lab: {text}");
            2
        }
    }
}

/// Returns the names of the files, or what is wrong with the command line.
fn names_from<'a>(words: &ArgMatches<'a>) -> Result<FileNames<'a>, &'static str> {
    if words.get_one::<u64>(SCENARIO).unwrap_or(1) != 1 {
        return Err(ONE_FOUND);
    }
    let Some(scenario) = words.get_str(SCENARIO_NAME) else {
        return Err("explain needs two files: a scenario, and what its processors were answered");
    };
    let Some(answers) = words.get_str(ANSWERS_NAME) else {
        return Err("explain needs a second file: what the scenario's processors were answered");
    };
    if scenario == "-" && answers == "-" {
        return Err("explain reads one of its files from standard input, not both");
    }
    Ok(FileNames { scenario, answers })
}

/// Runs the command on the files with these names, and returns the exit status. Standard error
/// names a fault, and the file if it could not be read.
fn serve_files(rt: &HostRuntime, words: &ArgMatches<'_>, names: FileNames<'_>) -> u8 {
    match inputs_of(rt, names) {
        Ok(inputs) => status_of(rt, None, serve_inputs(rt, words, &inputs)),
        Err(unread) => status_of(rt, unread.name, Err(unread.fault)),
    }
}

/// Returns the bytes of the files.
fn inputs_of<'a>(rt: &HostRuntime, names: FileNames<'a>) -> Result<Inputs, Unread<'a>> {
    let scenario = bytes_of(rt, &[names.scenario])?;
    let answers = bytes_of(rt, &[names.answers])?;
    Ok(Inputs { scenario, answers })
}

/// Runs the command on the bytes of the files, and writes to standard output. Returns the exit
/// status.
fn serve_inputs(
    rt: &HostRuntime,
    words: &ArgMatches<'_>,
    inputs: &Inputs,
) -> Result<u8, LabProgramFault> {
    let form = schedule_form_from(words);
    match searched(rt, words, inputs, form) {
        Ok(told) => {
            say_unbegun(rt, &unbegun_in(rt.alloc(), &inputs.scenario, 0)?);
            write_told(rt, form, &told)
        }
        Err(ExplainFault::Lab(fault)) => Err(LabProgramFault::Lab(fault)),
        Err(ExplainFault::Answers(fault)) => {
            let _ = eprintln!(rt; "hotplug_lab: {fault}");
            Ok(1)
        }
    }
}

/// Searches for an order that explains the answers.
fn searched(
    rt: &HostRuntime,
    words: &ArgMatches<'_>,
    inputs: &Inputs,
    form: ScheduleForm,
) -> Result<ExplainText, ExplainFault> {
    let watching = Watching {
        shown: shown_on(rt.stderr().is_terminal(), words.get_flag(PROGRESS)),
        shows_states: true,
        budgets: budgets_of(words, words.get_one::<u64>("limit")),
    };
    let mut progress = Progress::new(rt.stderr(), rt, watching);
    explain_text(
        rt.alloc(),
        &inputs.scenario,
        &inputs.answers,
        form,
        &mut progress,
    )
}

/// Writes the result of the search, and returns its exit status. If the reader of standard output
/// has gone, the status is 1.
fn write_told(
    rt: &HostRuntime,
    form: ScheduleForm,
    told: &ExplainText,
) -> Result<u8, LabProgramFault> {
    let mut writer = Output::new(rt.stdout());
    match write_all(&mut writer, told.text.as_bytes()) {
        Ok(()) => Ok(explained_status(rt, form, told.result)),
        Err(Failed) => {
            if writer.is_left() {
                Ok(1)
            } else {
                Err(LabProgramFault::WriteFailed)
            }
        }
    }
}

/// Returns the exit status for the result of the search. If a scenario was asked for and none is
/// written, reports that on standard error.
fn explained_status(rt: &HostRuntime, form: ScheduleForm, found: ExplainResult) -> u8
    ensures { result ≡ explain_status found }
{
    match found {
        ExplainResult::Explained => 0,
        ExplainResult::Unexplained | ExplainResult::Unknown => {
            if matches!(form, ScheduleForm::Scenario) {
                say_no_scenario(rt);
            }
            3
        }
    }
}
