//! The command line: the program's subcommands, each with its help and its arguments.

use crate::arguments::{Argument, arg_of};
use crate::explain_words::EXPLAIN;
use crate::live_arguments::LIVE;
use crate::search_words::{EXPLORE, SUM};
use crate::show_words::{CHECK, JUDGE, TRACE};
use clap::{Arg, Command};
use std::alloc::{AllocError, Global};

/// A subcommand of the program.
struct CommandWord {
    name: &'static str,
    about: &'static str,
    /// In the order of the help.
    arguments: &'static [Argument],
}

/// The subcommands of the program.
const WORDS: [CommandWord; 7] = [
    CommandWord {
        name: "check",
        about: "Finds what is wrong with a scenario, and where; the status is 0 if there are no faults",
        arguments: &CHECK,
    },
    CommandWord {
        name: "explore",
        about: "Counts every interleaving of the processors' calls, by how it ends",
        arguments: &EXPLORE,
    },
    CommandWord {
        name: "sum",
        about: "Adds up the parts that explore --part wrote, and prints the whole as explore does",
        arguments: &SUM,
    },
    CommandWord {
        name: "explain",
        about: "Finds an order of the calls that explains the replies of a run in threads",
        arguments: &EXPLAIN,
    },
    CommandWord {
        name: "trace",
        about: "Shows the reply to each line, and the memory after each call",
        arguments: &TRACE,
    },
    CommandWord {
        name: "live",
        about: "Boots a scenario's machine, and replies to each line of standard input at once",
        arguments: &LIVE,
    },
    CommandWord {
        name: "judge",
        about: "Reports whether a lawful machine can have written a log",
        arguments: &JUDGE,
    },
];

/// Returns the command line of `hotplug_lab`: its subcommands with their options and help.
pub(crate) fn lab_command<'a>(alloc: Global) -> Result<Command<'a>, AllocError> {
    with_words(alloc, without_words(alloc), &WORDS)
}

/// Returns the program without its subcommands.
fn without_words<'a>(alloc: Global) -> Command<'a> {
    Command::new(alloc, "hotplug_lab")
        .version("1.0")
        .about("Looks into scenarios of the memory machine")
        .after_help(
            "Exit status: 0 in all other cases. 1 after a fault, which standard error names, and after \
             a check that finds faults, not only warnings. 2 if the command line is wrong. 3 if --find \
             finds nothing, if --never finds something, if no order explains the replies, or if such \
             a search is stopped before it knows; if no end has the number of --scenario; if explore \
             prints only the first interleavings (0 with --scenario); if a log has faults.",
        )
        .subcommand_required(true)
}

/// Adds subcommands to the program.
fn with_words<'a>(
    alloc: Global,
    mut program: Command<'a>,
    words: &[CommandWord],
) -> Result<Command<'a>, AllocError> {
    for word in words {
        program = with_word(program, command_of(alloc, word))?;
    }
    Ok(program)
}

/// Adds a subcommand, or fails if creating it ran out of memory. Takes the `Result` as it is, so
/// that callers own no command where they may return early.
fn with_word<'a>(
    program: Command<'a>,
    word: Result<Command<'a>, AllocError>,
) -> Result<Command<'a>, AllocError> {
    program.subcommand(word?)
}

/// Returns a subcommand with its arguments.
fn command_of<'a>(alloc: Global, word: &CommandWord) -> Result<Command<'a>, AllocError> {
    let mut command = Command::new(alloc, word.name).about(word.about);
    for argument in word.arguments {
        command = with_argument(command, arg_of(alloc, argument))?;
    }
    Ok(command)
}

/// Adds an argument, or fails if creating it ran out of memory.
fn with_argument<'a>(
    command: Command<'a>,
    arg: Result<Arg<'a>, AllocError>,
) -> Result<Command<'a>, AllocError> {
    command.arg(arg?)
}
