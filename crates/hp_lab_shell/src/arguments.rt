//! The arguments of the program's commands, and how each is passed to clap.

use clap::{Arg, ArgAction, value_parser};
use std::alloc::{AllocError, Global};
use std::slice;

/// The option that searches for an end.
pub(crate) const FIND: &str = "find";

/// The option that searches for an end that must not occur.
pub(crate) const NEVER: &str = "never";

/// The option that writes an interleaving as a scenario.
pub(crate) const SCENARIO: &str = "scenario";

/// The option that reports how far a search has come.
pub(crate) const PROGRESS: &str = "progress";

/// The option that writes JSON, one object per line.
pub(crate) const JSON: &str = "json";

/// The option that writes a page.
pub(crate) const HTML: &str = "html";

/// The option that searches one part of the interleavings.
pub(crate) const PART: &str = "part";

/// The option that groups ends.
pub(crate) const GROUP: &str = "group";

/// The option that writes one line per end.
pub(crate) const SUMMARY: &str = "summary";

/// The option that searches in threads.
pub(crate) const JOBS: &str = "jobs";

/// The option that bounds the memory of a search.
pub(crate) const MEMORY: &str = "memory";

/// The option that bounds the time of a search.
pub(crate) const SECONDS: &str = "seconds";

/// The option that writes the log of a scenario.
pub(crate) const LOG: &str = "log";

/// The option that reads the text of ftrace.
pub(crate) const FTRACE: &str = "ftrace";

/// The option that sets the number of frames per memory block.
pub(crate) const BLOCK_FRAMES: &str = "block-frames";

/// The option that judges only some memory blocks.
pub(crate) const BLOCKS: &str = "blocks";

/// The option that allows a kind of fault.
pub(crate) const ALLOW: &str = "allow";

/// The option that limits how many faults are printed.
pub(crate) const MOST: &str = "most";

/// The option that draws a picture.
pub(crate) const SVG: &str = "svg";

/// The argument that names files.
pub(crate) const FILE: &str = "FILE";

/// How an argument is given, and which values it takes.
pub(crate) enum Takes {
    /// An option without a value: a flag.
    Nothing,
    /// An option with a number.
    Number,
    /// An option with a text, which help calls by this name.
    Text(&'static str),
    /// The same, which may be given several times.
    Texts(&'static str),
    /// A file name, without an option before it.
    File,
    /// Any number of file names.
    Files,
}

impl Takes {
    /// Returns what help calls the value of an option; empty if it takes none.
    fn value_names(&'static self) -> &'static [&'static str] {
        match self {
            Takes::Number => &["N"],
            Takes::Text(name) | Takes::Texts(name) => slice::from_ref(name),
            _ => &[],
        }
    }

    /// Returns what a use of an option does.
    fn action(&self) -> ArgAction {
        match self {
            Takes::Nothing => ArgAction::SetTrue,
            Takes::Texts(_) => ArgAction::Append,
            _ => ArgAction::Set,
        }
    }
}

/// An argument of a subcommand.
pub(crate) struct Argument {
    pub name: &'static str,
    pub takes: Takes,
    pub help: &'static str,
    /// The options that it cannot be combined with.
    pub against: &'static [&'static str],
}

/// The scenario's file.
pub(crate) const SCENARIO_FILE: Argument = Argument {
    name: FILE,
    takes: Takes::File,
    help: "A scenario; standard input where none is named, or -",
    against: &[],
};

/// Returns an argument in clap's form.
pub(crate) fn arg_of<'a>(
    alloc: Global,
    argument: &'static Argument,
) -> Result<Arg<'a>, AllocError> {
    let arg = Arg::new(alloc, argument.name).help(argument.help);
    taking(arg, argument).conflicts_with_all(argument.against)
}

/// Sets how an argument is given, and which values it takes.
fn taking<'a>(arg: Arg<'a>, argument: &'static Argument) -> Arg<'a> {
    match argument.takes {
        Takes::File => arg,
        Takes::Files => arg.num_args(0..),
        _ => option(arg, argument),
    }
}

/// Makes an argument an option.
fn option<'a>(arg: Arg<'a>, argument: &'static Argument) -> Arg<'a> {
    let takes = &argument.takes;
    let arg = arg
        .long(argument.name)
        .value_names(takes.value_names())
        .action(takes.action());
    if matches!(takes, Takes::Number) {
        arg.value_parser(value_parser!(u64))
    } else {
        arg
    }
}
