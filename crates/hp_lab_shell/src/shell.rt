//! The command line, from its words to the exit status.

use crate::command::lab_command;
use crate::explaining::serve_explain;
use crate::files::bytes_of;
use crate::judging::serve_judge;
use crate::laboratory::{Laboratory, Served};
use crate::live::serve_live;
use crate::messages::{
    file_name, say_fault, say_no_line, say_no_scenario, say_unbegun, say_words, status_of,
};
use crate::output::Output;
use crate::progress::{Progress, Watching, shown_on};
use crate::words::{
    ONE_FOUND, Request, Word, is_past_the_found, lacks_scenario, part_from, request_from,
    texts_from,
};
use clap::ArgMatches;
use clap::error::ErrorKind;
use hp_questions::{Wanted, wanted_line};
use hp_search::LabProgramFault;
use hp_streams::Counted;
use std::alloc::{AllocError, Global};
use std::io::{IsTerminal, Read};
use std::process::ExitCode;
use std::sync::Wait;
use std::thread::Threads;
use std::{env, fs, io};

/// Serves a request on the named files, or on standard input if no file is named, and returns the
/// exit status. Standard error names a fault.
fn serve_request<L: Laboratory, T: Threads + Wait + Sync>(
    rt: &HostRuntime,
    lab: &L,
    threads: &T,
    request: Request<'_, '_, '_>,
) -> u8 {
    let watching = Watching {
        shown: shown_on(rt.stderr().is_terminal(), request.progress),
        shows_states: request.is_search,
        budgets: request.budgets,
    };
    match request.files {
        [] => {
            let served = serve_input(rt, lab, threads, request.word, rt.stdin(), watching);
            status_of(rt, None, served)
        }
        [name] => {
            let served = serve_file(rt, lab, threads, request.word, name, watching);
            status_of(rt, file_name(name), served)
        }
        names => match bytes_of(rt, names) {
            Ok(bytes) => {
                let served = serve_bytes(rt, lab, threads, request.word, &bytes, watching);
                status_of(rt, None, served)
            }
            Err(unread) => status_of(rt, unread.name, Err(unread.fault)),
        },
    }
}

/// Runs a command on the file with this name; `-` names standard input.
fn serve_file<L: Laboratory, T: Threads + Wait + Sync>(
    rt: &HostRuntime,
    lab: &L,
    threads: &T,
    word: Word<'_>,
    name: &str,
    watching: Watching,
) -> Result<u8, LabProgramFault> {
    if name == "-" {
        return serve_input(rt, lab, threads, word, rt.stdin(), watching);
    }
    match fs::open(rt, name) {
        Ok(input) => serve_input(rt, lab, threads, word, input, watching),
        Err(_) => Err(LabProgramFault::NotOpened),
    }
}

/// Runs a command on an input, and writes to standard output.
fn serve_input<L: Laboratory, T: Threads + Wait + Sync, R: Read + Drop>(
    rt: &HostRuntime,
    lab: &L,
    threads: &T,
    word: Word<'_>,
    input: R,
    watching: Watching,
) -> Result<u8, LabProgramFault> {
    let mut reader = Counted::new(input);
    let mut writer = Output::new(rt.stdout());
    let progress = Progress::new(rt.stderr(), rt, watching);
    let served = lab.serve(
        threads,
        rt.alloc(),
        word,
        &mut reader,
        &mut writer,
        progress,
    );
    told_status(rt, word, served, writer.is_left())
}

/// Runs a command on the bytes of several files, and writes to standard output.
fn serve_bytes<L: Laboratory, T: Threads + Wait + Sync>(
    rt: &HostRuntime,
    lab: &L,
    threads: &T,
    word: Word<'_>,
    bytes: &[u8],
    watching: Watching,
) -> Result<u8, LabProgramFault> {
    let mut writer = Output::new(rt.stdout());
    let progress = Progress::new(rt.stderr(), rt, watching);
    let served = lab.serve_text(threads, rt.alloc(), word, bytes, &mut writer, progress);
    told_status(rt, word, served, writer.is_left())
}

/// Prints warnings on standard error, and returns the exit status. If the reader of standard output
/// has gone, the status is 1, and nothing is printed.
fn told_status(
    rt: &HostRuntime,
    word: Word<'_>,
    served: Result<Served, LabProgramFault>,
    is_left: bool,
) -> Result<u8, LabProgramFault> {
    match served {
        Ok(served) => {
            say_unbegun(rt, &served.unbegun);
            if lacks_scenario(word, served.status) {
                say_no_scenario(rt);
            }
            Ok(served.status)
        }
        Err(LabProgramFault::WriteFailed) if is_left => Ok(1),
        Err(fault) => Err(fault),
    }
}

/// Returns the lines that the command line requires of an end. If a text cannot be read as such a
/// line, reports that on standard error and returns `None`.
fn wanted_from(
    rt: &HostRuntime,
    matches: &ArgMatches<'_>,
) -> Result<Option<Vec<Wanted>>, LabProgramFault> {
    let mut wanted = Vec::new(rt.alloc());
    let Some(texts) = texts_from(matches) else {
        return Ok(Some(wanted));
    };
    for text in texts {
        if !push_line(rt.alloc(), &mut wanted, text)? {
            say_no_line(rt, text)?;
            return Ok(None);
        }
    }
    Ok(Some(wanted))
}

/// Parses a text as a wanted line and adds the line. Returns whether the text can be read as one.
fn push_line(alloc: Global, wanted: &mut Vec<Wanted>, text: &str) -> Result<bool, AllocError> {
    match wanted_line(alloc, text) {
        Ok(Some(line)) => {
            wanted.push(line)?;
            Ok(true)
        }
        Ok(None) => Ok(false),
        Err(error) => Err(error),
    }
}

/// Runs the parsed command line, and returns the exit status.
fn serve_matches<L: Laboratory, T: Threads + Wait + Sync>(
    rt: &HostRuntime,
    lab: &L,
    threads: &T,
    matches: &ArgMatches<'_>,
) -> Result<u8, LabProgramFault> {
    match matches.subcommand() {
        Some(("explain", words)) => Ok(serve_explain(rt, words)),
        Some(("judge", words)) => Ok(serve_judge(rt, words)),
        Some(("live", words)) => Ok(serve_live(rt, words)),
        _ => serve_scenario(rt, lab, threads, matches),
    }
}

/// Runs the parsed command line on a scenario, and returns the exit status.
fn serve_scenario<L: Laboratory, T: Threads + Wait + Sync>(
    rt: &HostRuntime,
    lab: &L,
    threads: &T,
    matches: &ArgMatches<'_>,
) -> Result<u8, LabProgramFault> {
    if is_past_the_found(matches) {
        let _ = eprintln!(rt; "hotplug_lab: {ONE_FOUND}");
        return Ok(2);
    }
    let Some(wanted) = wanted_from(rt, matches)? else {
        return Ok(2);
    };
    let part = part_from(matches);
    match request_from(matches, &wanted, part.as_ref()) {
        Ok(request) => Ok(serve_request(rt, lab, threads, request)),
        Err(text) => {
            let _ = eprintln!(rt; "hotplug_lab: {text}");
            Ok(2)
        }
    }
}

/// Parses the command line and runs it, and returns the exit status. If it cannot be parsed, prints
/// why, or the help.
fn run<L: Laboratory, T: Threads + Wait + Sync>(
    rt: &HostRuntime,
    lab: &L,
    threads: &T,
    words: &[String],
) -> Result<u8, LabProgramFault> {
    let command = lab_command(rt.alloc())?;
    match command.try_get_matches_from(words) {
        Ok(matches) => serve_matches(rt, lab, threads, &matches),
        Err(error) if error.kind() == ErrorKind::OutOfMemory => Err(LabProgramFault::from(
            AllocError,
        )),
        Err(error) => say_words(rt, &error),
    }
}

/// Reads the command line that the program was called with, and runs it.
fn run_words<L: Laboratory, T: Threads + Wait + Sync>(
    rt: &HostRuntime,
    lab: &L,
    threads: &T,
) -> Result<u8, LabProgramFault> {
    match env::args(rt) {
        Ok(arguments) => {
            let words: Vec<String> = arguments.collect(rt.alloc())?;
            run(rt, lab, threads, &words)
        }
        Err(error) if error.kind() == io::ErrorKind::OutOfMemory => {
            Err(LabProgramFault::from(AllocError))
        }
        Err(_) => {
            let _ = eprintln!(rt; "hotplug_lab: a word of the command line is not UTF-8");
            Ok(2)
        }
    }
}

/// Runs the program and returns its exit status.
///
/// It is 1 after a fault, which standard error names, after a `check` that finds faults, and if the
/// reader of standard output has gone. It is 2 for a wrong command line. It is 3 if `--find` finds
/// nothing, if `--never` finds something, if no order explains the answers, or if such a search is
/// stopped before it knows. It is 3 too if no end has the number of `--scenario`, if `explore`
/// prints only the ends of the first interleavings, and if a log has faults. Otherwise it is 0.
pub fn run_program<L: Laboratory, T: Threads + Wait + Sync>(
    rt: &HostRuntime,
    lab: &L,
    threads: &T,
) -> ExitCode {
    match run_words(rt, lab, threads) {
        Ok(status) => ExitCode::from(status),
        Err(fault) => {
            say_fault(rt, None, fault);
            ExitCode::from(1)
        }
    }
}
