//! Parses the program's arguments.

use clap::error::ErrorKind;
use hp_commands::Command;
use std::alloc::{AllocError, Global};

/// Returns the command that the arguments name, or `None` if they name none or ask for help. The
/// first argument is the program's own name.
pub fn command_from(alloc: Global, words: &[String]) -> Result<Option<Command>, AllocError> {
    match program(alloc)?.try_get_matches_from(words) {
        Ok(matches) => Ok(command_named(matches.subcommand_name())),
        Err(error) => {
            if error.kind() == ErrorKind::OutOfMemory {
                Err(AllocError)
            } else {
                Ok(None)
            }
        }
    }
}

/// Returns the command line of `hotplug`: one of three subcommands.
fn program<'a>(alloc: Global) -> Result<clap::Command<'a>, AllocError> {
    let mut program = clap::Command::new(alloc, "hotplug").subcommand_required(true);
    for word in ["serial", "run", "audit"] {
        program = program.subcommand(clap::Command::new(alloc, word))?;
    }
    Ok(program)
}

/// Returns the command with this name.
fn command_named(name: Option<&str>) -> Option<Command> {
    match name {
        Some("serial") => Some(Command::Serial),
        Some("run") => Some(Command::Run),
        Some("audit") => Some(Command::Audit),
        _ => None,
    }
}
