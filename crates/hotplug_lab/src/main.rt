//! Looks into scenarios of the memory machine: `hotplug_lab WORD` reads a file or standard input,
//! and writes to standard output.
//!
//! Libraries write the texts. hp_check writes that of `check`. hp_parts writes that of `explore`,
//! of its parts and of their `sum`, and hp_search that of `explore --find`. hp_trace writes that of
//! `trace` and its log, and hp_svg its picture. hp_verdicts writes that of `judge`, and hp_explain
//! that of `explain`. hp_lab_shell has the command line, the files and the messages, and runs
//! `judge`, `explain` and `live`; this program runs the other commands.
//!
//! The exit status is:
//! - 1 after a fault, which standard error names, and after a check that finds faults,
//! - 2 for a wrong command line,
//! - 3 if a search finds nothing, finds what it should not, or is ended before it knows; if there
//!   is no end with the number that was asked for; if only the first interleavings are counted (0
//!   with `--scenario`); and if a log is unlawful,
//! - 0 otherwise.
//!
//! The status is the same if standard error cannot be written. The help is a text like any other:
//! if standard output cannot be written, the status is 1.
#![tactic(auto)]

mod answering;
mod serving;

use hp_lab_shell::{Laboratory, Served, Word, run_program};
use hp_search::LabProgramFault;
use hp_states::Watch;
use hp_streams::{Sink, Source};
use serving::{serve_text, serve_word};
use std::alloc::Global;
use std::process::ExitCode;
use std::sync::Wait;
use std::thread::{self, Threads};

/// Runs the commands of the program.
#[derive(Drop)]
struct Searches;

impl Laboratory for Searches {
    fn serve<T: Threads + Wait + Sync, R: Source, W: Sink, P: Watch + Drop>(
        &self,
        threads: &T,
        alloc: Global,
        word: Word<'_>,
        reader: &mut R,
        writer: &mut W,
        watch: P,
    ) -> Result<Served, LabProgramFault> {
        serve_word(threads, alloc, word, reader, writer, watch)
    }

    fn serve_text<T: Threads + Wait + Sync, W: Sink, P: Watch + Drop>(
        &self,
        threads: &T,
        alloc: Global,
        word: Word<'_>,
        input: &[u8],
        writer: &mut W,
        watch: P,
    ) -> Result<Served, LabProgramFault> {
        serve_text(threads, alloc, word, input, writer, watch)
    }
}

/// Runs the program on a thread of its own, whose stack is mapped at once.
///
/// The kernel grows the main thread's stack as it is used. It ends the process if the address space
/// is full by then, which many jobs can cause. If no thread can be made, the program runs on this
/// one.
fn main(rt: HostRuntime) -> ExitCode {
    let (code, ()) = thread::join(&rt, || run_program(&rt, &Searches, &rt), || ());
    code
}
