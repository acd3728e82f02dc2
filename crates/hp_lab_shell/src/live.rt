//! The command `live`: it keeps a machine alive, and replies to each line that is typed or sent.

use crate::arguments::{FILE, JSON};
use crate::messages::{file_name, status_of};
use crate::output::Output;
use crate::words::WIDTH;
use clap::ArgMatches;
use hp_live::{ObjectTalk, RowTalk};
use hp_scripts::NamedScenario;
use hp_search::LabProgramFault;
use hp_streams::{Counted, Failed, Source, Talk, TalkEnd, read_all, run_talk, write_all};
use std::fs;
use std::io::{IsTerminal, Write};

/// The prompt at a terminal.
const PROMPT: &[u8] = b"> ";

/// Runs the command, and returns the exit status: 0 at the end of the input or at `quit`, 1 after a
/// fault, 2 for a wrong command line.
pub(crate) fn serve_live(rt: &HostRuntime, words: &ArgMatches<'_>) -> u8 {
    match scenario_name(words) {
        Ok(name) => serve_named(rt, words, name),
        Err(text) => {
            let _ = eprintln!(rt; "hotplug_lab: {text}");
            2
        }
    }
}

/// Runs the command on the scenario in a file, and returns the exit status.
fn serve_named(rt: &HostRuntime, words: &ArgMatches<'_>, name: &str) -> u8 {
    match scenario_in(rt, name) {
        Ok(named) => status_of(rt, None, talk_after(rt, words, named)),
        Err(fault) => status_of(rt, file_name(name), Err(fault)),
    }
}

/// Returns the name of the scenario's file, or what is wrong with the command line.
fn scenario_name<'a>(words: &ArgMatches<'a>) -> Result<&'a str, &'static str> {
    if words.get_flag("state") && !words.get_flag(JSON) {
        return Err("--state is for --json alone");
    }
    match words.get_strs(FILE) {
        Some([name]) if *name != "-" => Ok(*name),
        _ => Err("live reads lines from standard input: name one file with a scenario"),
    }
}

/// Runs a scenario's lines, and then replies to the lines of standard input. Returns the exit
/// status, which is 1 if the reader of standard output has gone.
fn talk_after(
    rt: &HostRuntime,
    words: &ArgMatches<'_>,
    named: NamedScenario,
) -> Result<u8, LabProgramFault> {
    if words.get_flag(JSON) {
        return talk_in_objects(rt, named, words.get_flag("state"));
    }
    let width = words.get_one::<u64>("width").unwrap_or(WIDTH);
    talk_in_rows(rt, named, width, words.get_flag("orders"))
}

/// Replies to each line of standard input with an object of JSON. Returns the exit status.
fn talk_in_objects(
    rt: &HostRuntime,
    named: NamedScenario,
    shows_state: bool,
) -> Result<u8, LabProgramFault> {
    let mut talk = ObjectTalk::begin(rt.alloc(), named, shows_state)?;
    talk_with(rt, &mut talk)
}

/// Prints the row of the memory, and replies to each line of standard input with its rows. Returns
/// the exit status.
fn talk_in_rows(
    rt: &HostRuntime,
    named: NamedScenario,
    width: u64,
    shows_orders: bool,
) -> Result<u8, LabProgramFault> {
    let mut talk = RowTalk::begin(rt.alloc(), named, width, shows_orders)?;
    talk_from_first_row(rt, &mut talk)
}

/// Prints the first row of a talk, and goes on with the talk. Returns the exit status, which is 1
/// if the reader of standard output has gone.
fn talk_from_first_row(rt: &HostRuntime, talk: &mut RowTalk) -> Result<u8, LabProgramFault> {
    let mut writer = Output::new(rt.stdout());
    match write_all(&mut writer, talk.first_row().as_bytes()) {
        Ok(()) => talk_with(rt, talk),
        Err(Failed) if writer.is_left() => Ok(1),
        Err(Failed) => Err(LabProgramFault::WriteFailed),
    }
}

/// Reads the scenario in a file.
fn scenario_in(rt: &HostRuntime, name: &str) -> Result<NamedScenario, LabProgramFault> {
    let Ok(input) = fs::open(rt, name) else {
        return Err(LabProgramFault::NotOpened);
    };
    let mut reader = Counted::new(input);
    let bytes = read_all(rt.alloc(), &mut reader)?;
    Ok(NamedScenario::read(rt.alloc(), bytes.as_slice())?)
}

/// Replies to the lines of standard input. Returns the exit status, which is 1 if the reader of
/// standard output has gone.
fn talk_with<T: Talk>(rt: &HostRuntime, talk: &mut T) -> Result<u8, LabProgramFault> {
    let is_asked = rt.stdin().is_terminal() && rt.stdout().is_terminal();
    let mut reader = Prompted {
        input: Counted::new(rt.stdin()),
        terminal: rt.stderr(),
        is_asked,
    };
    let mut writer = Output::new(rt.stdout());
    match run_talk(talk, rt.alloc(), &mut reader, &mut writer)? {
        TalkEnd::Input | TalkEnd::Quit => Ok(0),
        TalkEnd::ReadFailed | TalkEnd::Worn => Err(LabProgramFault::ReadFailed),
        TalkEnd::WriteFailed if writer.is_left() => Ok(1),
        TalkEnd::WriteFailed => Err(LabProgramFault::WriteFailed),
    }
}

/// An input that prints a prompt at a terminal before each read.
#[derive(Drop)]
struct Prompted<R, E> {
    input: R,
    terminal: E,
    is_asked: bool,
}

impl<R: Source, E: Write> Source for Prompted<R, E> {
    ghost remaining = { λ p. R.remaining p.input };

    ghost failures = { λ p. R.failures p.input };

    fn read(&mut self, buffer: &mut [u8]) -> Result<usize, Failed> {
        if self.is_asked {
            let _ = self.terminal.write(PROMPT);
        }
        self.input.read(buffer)
    }
}
