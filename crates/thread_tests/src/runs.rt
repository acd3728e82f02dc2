//! Each command once, on streams that work and on streams that fail.
use super::streams::{Collected, SCENARIO, Scripted};
use hp_commands::{Command, ProgramFault, serve};
use std::alloc::Global;
use std::sync::Wait;
use std::thread::Threads;

/// Runs a command on the scenario, and returns its result and what it wrote. The streams fail at
/// these calls, counted from 1; 0 means that they never fail.
fn served<R: Threads + Wait + Sync>(
    rt: &R,
    command: Command,
    alloc: Global,
    read_fails_at: u64,
    write_fails_at: u64,
) -> (Result<(), ProgramFault>, Vec<u8>) {
    let mut reader = Scripted::new(SCENARIO, 100, read_fails_at);
    let mut writer = Collected::new(alloc, 4, write_fails_at);
    let result = serve(rt, command, alloc, &mut reader, &mut writer);
    (result, writer.bytes)
}

/// Returns whether a command writes this text.
fn is_written<R: Threads + Wait + Sync>(
    rt: &R,
    alloc: Global,
    command: Command,
    text: &str,
) -> bool {
    let (result, bytes) = served(rt, command, alloc, 0, 0);
    result == Ok(()) && bytes.as_slice() == text.as_bytes()
}

const SERIAL: &str =
    "1: frame 0\n2: done\n3: undone 2\nstate\nblock 0 online normal\nblock 1 offline\nNM 2: 0\n";

const RUN: &str = "cpu 0\nframe 0\ndone\nundone 2\ncpu 1\n3 records\n";

#[test]
fn each_command_writes_its_text(rt: HostRuntime) {
    assert!(rt; is_written(&rt, rt.alloc(), Command::Serial, SERIAL));
    assert!(rt; is_written(&rt, rt.alloc(), Command::Run, RUN));
    assert!(rt; is_written(&rt, rt.alloc(), Command::Audit, "3 records\naudit ok\n"));
}

/// Returns whether a command reports a failed read, with nothing written, and a failed write.
fn are_named<R: Threads + Wait + Sync>(rt: &R, alloc: Global, command: Command) -> bool {
    let (read, bytes) = served(rt, command, alloc, 2, 0);
    let (written, _) = served(rt, command, alloc, 0, 2);
    read == Err(ProgramFault::ReadFailed)
        && bytes.is_empty()
        && written == Err(ProgramFault::WriteFailed)
}

#[test]
fn failed_streams_are_named(rt: HostRuntime) {
    assert!(rt; are_named(&rt, rt.alloc(), Command::Run));
    assert!(rt; are_named(&rt, rt.alloc(), Command::Audit));
}
