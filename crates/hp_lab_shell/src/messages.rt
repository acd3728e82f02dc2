//! The faults and warnings that are printed on standard error.

use hp_scripts::Unbegun;
use hp_search::LabProgramFault;
use hp_text::{Brackets, write_escaped};
use std::alloc::{AllocError, Global};

/// Prints on standard error which lines of scripts work on no operation.
pub(crate) fn say_unbegun(rt: &HostRuntime, unbegun: &[Unbegun]) {
    for lost in unbegun {
        let (cpu, line) = (lost.cpu, lost.line);
        let _ = eprintln!(rt;
            "hotplug_lab: line {line}: 0 is no operation: processor {cpu} has begun none"
        );
    }
}

/// The forms of the lines that ends have.
const LINE_FORMS: &str =
    "hotplug_lab: a line is an answer, as `refused NotFree`, one of a processor, \
     as `0: done` or `cpu 0 answer 2: done`, the end of a plan, as `plan: cancelled` or \
     `0: plan: done`, or a memory block, as `block 1 offline`; `not ` \
     before it wants an end without it";

/// Prints on standard error that this text cannot be read as a line of an end, and which forms a
/// line may have.
pub(crate) fn say_no_line(rt: &HostRuntime, text: &str) -> Result<(), AllocError> {
    let mut shown = String::new(rt.alloc());
    write_escaped(&mut shown, text, Brackets::Kept)?;
    let _ = eprintln!(rt; "hotplug_lab: cannot read `{shown}` as a line of an end\n{LINE_FORMS}");
    Ok(())
}

/// Prints on standard error that no scenario is written, although one was asked for.
pub(crate) fn say_no_scenario(rt: &HostRuntime) {
    let _ = eprintln!(rt; "hotplug_lab: no such interleaving was found, so no scenario is written");
}

/// Returns the name of a file, or `None` for standard input, which `-` names.
pub(crate) fn file_name(name: &str) -> Option<&str> {
    if name == "-" { None } else { Some(name) }
}

/// Prints a fault on standard error, with the name of the file if it could not be read. If the
/// input is not a scenario, also prints which command shows what is wrong.
pub(crate) fn say_fault(rt: &HostRuntime, file: Option<&str>, fault: LabProgramFault) {
    let _ = match unread_name(rt.alloc(), file, fault) {
        Some(name) => eprintln!(rt; "hotplug_lab: {name}: {fault}"),
        None => eprintln!(rt; "hotplug_lab: {fault}"),
    };
    if fault.is_of_scenario() {
        let _ = eprintln!(rt; "hotplug_lab: `hotplug_lab check` says what is wrong, and where");
    }
}

/// Returns the exit status, which is 1 after a fault. Standard error names the fault, and the file
/// if it could not be read.
pub(crate) fn status_of(
    rt: &HostRuntime,
    file: Option<&str>,
    served: Result<u8, LabProgramFault>,
) -> u8 {
    match served {
        Ok(status) => status,
        Err(fault) => {
            say_fault(rt, file, fault);
            1
        }
    }
}

/// Returns the name of the file, escaped as in JSON, if the fault is that it could not be read.
/// Returns `None` for any other fault, for standard input, and if memory runs out.
fn unread_name(alloc: Global, file: Option<&str>, fault: LabProgramFault) -> Option<String> {
    if !fault.is_of_input() {
        return None;
    }
    let mut name = String::new(alloc);
    match write_escaped(&mut name, file?, Brackets::Kept) {
        Ok(()) => Some(name),
        Err(AllocError) => None,
    }
}

/// Prints what clap found wrong with the command line, or the help, and returns the exit status.
pub(crate) fn say_words(rt: &HostRuntime, error: &clap::Error) -> Result<u8, LabProgramFault> {
    let status = error.exit_code() as u8;
    match error.print(rt) {
        Err(_) if status == 0 => Err(LabProgramFault::WriteFailed),
        _ => Ok(status),
    }
}
