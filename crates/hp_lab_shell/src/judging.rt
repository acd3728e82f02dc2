//! The command `judge`.

use crate::arguments::{ALLOW, BLOCK_FRAMES, BLOCKS, FILE, FTRACE, JSON, MOST, SVG};
use crate::messages::file_name;
use crate::output::Output;
use clap::ArgMatches;
use hp_log_pictures::draw_log;
use hp_logs::{LineFault, LogFault, LogForm};
use hp_streams::Counted;
use hp_text::{Brackets, write_escaped};
use hp_units::number64;
use hp_verdicts::{
    AllowedKinds, BlockRange, JudgeFault, JudgeOptions, ReportForm, SizeFault, judge_log,
};
use std::fs;
use std::io::Read;

/// How many faults are printed if no number is given.
const SHOWN_FAULTS: u64 = 10;

/// Judges the log in the named file, or in standard input. Returns the exit status: 0 for a lawful
/// log, 3 for one with faults, 1 for one that cannot be judged, 2 for a wrong command line.
pub(crate) fn serve_judge(rt: &HostRuntime, words: &ArgMatches<'_>) -> u8 {
    match options_from(words) {
        Ok(options) => judge_file(rt, words, &options),
        Err(text) => {
            let _ = eprintln!(rt; "hotplug_lab: {text}");
            2
        }
    }
}

/// Returns the options on the command line, or what is wrong with them.
fn options_from(words: &ArgMatches<'_>) -> Result<JudgeOptions, &'static str> {
    let block_frames = words.get_one::<u64>(BLOCK_FRAMES);
    let range = range_from(words)?;
    let allowed = allowed_from(words)?;
    let most = words.get_one::<u64>(MOST).unwrap_or(SHOWN_FAULTS);
    match JudgeOptions::new(block_frames, range, allowed, most) {
        Some(options) => Ok(options),
        None => Err(
            "--block-frames may be a power of two up to 67108864, and the last frame of \
             --blocks a number of 32 bits",
        ),
    }
}

/// Returns the memory blocks that the command line names, if it names any.
fn range_from(words: &ArgMatches<'_>) -> Result<Option<BlockRange>, &'static str> {
    let Some(text) = words.get_str(BLOCKS) else {
        return Ok(None);
    };
    match range_named(text) {
        Some(range) => Ok(Some(range)),
        None => Err("--blocks may be A..B, with A below B"),
    }
}

/// Returns the memory blocks that a text names as `A..B`.
fn range_named(text: &str) -> Option<BlockRange> {
    let (first, end) = text.split_once("..")?;
    let (first, end) = (number64(first)?, number64(end)?);
    if first >= end || end > u32::MAX as u64 {
        return None;
    }
    Some(BlockRange {
        first: first as u32,
        end: end as u32,
    })
}

/// Returns the kinds of faults that the command line allows.
fn allowed_from(words: &ArgMatches<'_>) -> Result<AllowedKinds, &'static str> {
    let mut allowed = AllowedKinds::none();
    let Some(names) = words.get_strs(ALLOW) else {
        return Ok(allowed);
    };
    for name in names {
        if !allowed.add(name) {
            return Err(
                "--allow may be malformed, once, in-use, present, empty, movable, \
                 going-online, going-offline, online or offline",
            );
        }
    }
    Ok(allowed)
}

/// Judges the file that the command line names, and returns the exit status.
fn judge_file(rt: &HostRuntime, words: &ArgMatches<'_>, options: &JudgeOptions) -> u8 {
    let name = named_file(words);
    if name == "-" {
        let judged = judge_input(rt, words, options, rt.stdin());
        return status_of(rt, None, judged);
    }
    match fs::open(rt, name) {
        Ok(input) => {
            let judged = judge_input(rt, words, options, input);
            status_of(rt, file_name(name), judged)
        }
        Err(_) => {
            say_of_file(rt, Some(name), "file not opened");
            1
        }
    }
}

/// Returns the name of the file; `-` if none is named.
fn named_file<'a>(words: &ArgMatches<'a>) -> &'a str {
    match words.get_strs(FILE) {
        Some(names) => match names.first() {
            Some(name) => *name,
            None => "-",
        },
        None => "-",
    }
}

/// Judges the log in an input, and writes the report or the picture to standard output. Returns the
/// exit status: 0 for a lawful log, 3 for one with faults, 1 if the reader of standard output has
/// gone.
fn judge_input<R: Read + Drop>(
    rt: &HostRuntime,
    words: &ArgMatches<'_>,
    options: &JudgeOptions,
    input: R,
) -> Result<u8, JudgeFault> {
    let mut source = Counted::new(input);
    let mut sink = Output::new(rt.stdout());
    let form = log_form(words);
    let judged = if words.get_flag(SVG) {
        draw_log(rt.alloc(), form, options, &mut source, &mut sink)
    } else {
        let report = report_form(words);
        judge_log(rt.alloc(), form, options, report, &mut source, &mut sink)
    };
    match judged {
        Ok(true) => Ok(0),
        Ok(false) => Ok(3),
        Err(JudgeFault::WriteFailed) if sink.is_left() => Ok(1),
        Err(fault) => Err(fault),
    }
}

/// Returns the form of the log.
fn log_form(words: &ArgMatches<'_>) -> LogForm {
    if words.get_flag(FTRACE) {
        LogForm::Ftrace
    } else {
        LogForm::Json
    }
}

/// Returns the form of the report.
fn report_form(words: &ArgMatches<'_>) -> ReportForm {
    if words.get_flag(JSON) {
        ReportForm::Objects
    } else {
        ReportForm::Text
    }
}

/// Returns the exit status of a judgement. Standard error names a fault.
fn status_of(rt: &HostRuntime, file: Option<&str>, judged: Result<u8, JudgeFault>) -> u8 {
    match judged {
        Ok(status) => status,
        Err(JudgeFault::Size(SizeFault::Missing)) => {
            say_of_file(rt, None, "judge needs --block-frames");
            2
        }
        Err(fault) => {
            say_judge_fault(rt, file, fault);
            1
        }
    }
}

/// Prints on standard error why a log was not judged.
fn say_judge_fault(rt: &HostRuntime, file: Option<&str>, fault: JudgeFault) {
    match fault {
        JudgeFault::Log(LogFault::ReadFailed) => say_of_file(rt, file, "reading failed"),
        JudgeFault::Log(LogFault::Line { number, fault }) => say_line(rt, number, fault),
        JudgeFault::Size(fault) => say_size(rt, fault),
        JudgeFault::TooManyLines => say_of_file(rt, file, "too many lines"),
        JudgeFault::WriteFailed => say_of_file(rt, None, "writing failed"),
        JudgeFault::OutOfMemory => say_of_file(rt, None, "out of memory"),
    }
}

/// Prints on standard error what failed, with the name of the file.
fn say_of_file(rt: &HostRuntime, file: Option<&str>, text: &str) {
    let _ = match escaped_name(rt, file) {
        Some(name) => eprintln!(rt; "hotplug_lab: {name}: {text}"),
        None => eprintln!(rt; "hotplug_lab: {text}"),
    };
}

/// Returns the name of a file, escaped as in JSON, or `None` if there is no name or memory runs
/// out.
fn escaped_name(rt: &HostRuntime, file: Option<&str>) -> Option<String> {
    let mut name = String::new(rt.alloc());
    match write_escaped(&mut name, file?, Brackets::Kept) {
        Ok(()) => Some(name),
        Err(_) => None,
    }
}

/// Prints on standard error what is wrong with the number of frames per memory block.
fn say_size(rt: &HostRuntime, fault: SizeFault) {
    let text = match fault {
        SizeFault::Missing => "no block_frames, and no --block-frames",
        SizeFault::Different => "block_frames is not that of --block-frames",
        SizeFault::Wrong => {
            "block_frames may be a power of two up to 67108864, and the last frame of --blocks a \
             number of 32 bits"
        }
    };
    let _ = eprintln!(rt; "hotplug_lab: line 1: {text}");
}

/// Prints on standard error what is wrong with a line.
fn say_line(rt: &HostRuntime, number: u64, fault: LineFault) {
    let text = line_text(fault);
    let _ = eprintln!(rt; "hotplug_lab: line {number}: {text}");
}

/// Returns what is wrong with a line.
fn line_text(fault: LineFault) -> &'static str {
    match fault {
        LineFault::TooLong => "longer than 65536 bytes",
        LineFault::NotAnObject => "no object of JSON",
        LineFault::UnknownKey => "unknown key",
        LineFault::RepeatedKey => "a key comes twice",
        LineFault::WrongValue => "wrong value of a key",
        LineFault::NotAnEvent => "keys of no event",
        LineFault::LateBlockFrames => "block_frames may be on the first line alone",
        LineFault::WrongFields => "no frame or order that can be read",
        LineFault::EventsLost => "the kernel's buffer was full, and events are missing",
        LineFault::OutOfMemory => "out of memory",
    }
}
