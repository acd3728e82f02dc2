//! Runs scenarios of the memory machine: `hotplug serial`, `hotplug run` or `hotplug audit`, from
//! standard input to standard output.
//!
//! hp_commands defines what each command writes. The exit status is 0; or 1 after a fault, which
//! standard error names; or 2 if the command line names no command. The status does not depend on
//! whether standard error can be written.
#![tactic(auto)]

mod words;

use hp_commands::{Command, ProgramEnd, ProgramFault, serve};
use hp_streams::Counted;
use std::alloc::{AllocError, Global};
use std::io::{Read, Write};
use std::process::ExitCode;
use std::sync::Wait;
use std::thread::{self, Threads};
use std::{env, io};
use words::command_from;

/// Returns the command that the program was called with, if it names one.
fn command(rt: &HostRuntime) -> Result<Option<Command>, AllocError> {
    let alloc = rt.alloc();
    let arguments = match env::args(rt) {
        Ok(arguments) => arguments,
        Err(error) if error.kind() == io::ErrorKind::OutOfMemory => return Err(AllocError),
        Err(_) => return Ok(None),
    };
    let words: Vec<String> = arguments.collect(alloc)?;
    command_from(alloc, &words)
}

/// Runs a command on an input and an output.
fn run_here<T: Threads + Wait + Sync, R: Read + Drop, W: Write + Drop>(
    rt: &T,
    command: Command,
    alloc: Global,
    input: R,
    output: W,
) -> ProgramEnd {
    let mut reader = Counted::new(input);
    let mut writer = Counted::new(output);
    match serve(rt, command, alloc, &mut reader, &mut writer) {
        Ok(()) => ProgramEnd::Done,
        Err(fault) => ProgramEnd::Failed(fault),
    }
}

/// Runs a command on an input and an output, on a thread of its own if it starts threads.
///
/// The kernel grows the main thread's stack as it is used. It ends the process if the address space
/// is full by then, which many threads can cause. The stack of another thread is mapped at once. If
/// none can be made, the command runs on this one.
fn run<T: Threads + Wait + Sync, R: Read + Drop + Send, W: Write + Drop + Send>(
    rt: &T,
    command: Command,
    alloc: Global,
    input: R,
    output: W,
) -> ProgramEnd {
    if command == Command::Serial {
        return run_here(rt, command, alloc, input, output);
    }
    let (end, ()) = thread::join(rt, || run_here(rt, command, alloc, input, output), || ());
    end
}

fn main(rt: HostRuntime) -> ExitCode {
    let outcome = match command(&rt) {
        Ok(Some(command)) => run(&rt, command, rt.alloc(), rt.stdin(), rt.stdout()),
        Ok(None) => ProgramEnd::NoCommand,
        Err(AllocError) => ProgramEnd::Failed(ProgramFault::OutOfMemory),
    };
    if outcome != ProgramEnd::Done {
        let _ = eprintln!(rt; "{outcome}");
    }
    ExitCode::from(outcome.status())
}
