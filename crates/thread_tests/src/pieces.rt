//! Streams that move bytes in pieces, and streams that fail.
use super::streams::{Collected, SCENARIO, Scripted};
use hp_commands::{ProgramFault, serve_serial};
use hp_streams::{Counted, read_all, write_all};
use std::alloc::Global;

const WRITTEN: &[u8] =
    b"1: frame 0\n2: done\n3: undone 2\nstate\nblock 0 online normal\nblock 1 offline\nNM 2: 0\n";

/// Returns whether `serial` writes its text through streams that move this many bytes per call.
fn is_joined(alloc: Global, read: usize, written: usize) -> bool {
    let mut reader = Scripted::new(SCENARIO, read, 0);
    let mut writer = Collected::new(alloc, written, 0);
    let result = serve_serial(alloc, &mut reader, &mut writer);
    result == Ok(()) && writer.bytes.as_slice() == WRITTEN
}

#[test]
fn pieces_are_joined(rt: HostRuntime) {
    assert!(rt; is_joined(rt.alloc(), 1, 4096));
    assert!(rt; is_joined(rt.alloc(), 5, 30));
    assert!(rt; is_joined(rt.alloc(), 4096, 1));
}

/// Returns whether a counted reader of the standard library gives these bytes, and a counted writer
/// takes them.
fn is_copied(alloc: Global, bytes: &[u8]) -> bool {
    let mut reader = Counted::new(bytes);
    let Ok(read) = read_all(alloc, &mut reader) else {
        return false;
    };
    let mut written = Vec::new(alloc);
    let mut writer = Counted::new(&mut written);
    write_all(&mut writer, &read) == Ok(()) && written.as_slice() == bytes
}

#[test]
fn readers_and_writers_are_streams(rt: HostRuntime) {
    assert!(rt; is_copied(rt.alloc(), b""));
    assert!(rt; is_copied(rt.alloc(), WRITTEN));
}

/// Returns whether nothing is written if this call of the reader fails.
fn writes_nothing(alloc: Global, fails_at: u64) -> bool {
    let mut reader = Scripted::new(SCENARIO, 100, fails_at);
    let mut writer = Collected::new(alloc, 4096, 0);
    let result = serve_serial(alloc, &mut reader, &mut writer);
    result == Err(ProgramFault::ReadFailed) && writer.bytes.is_empty()
}

#[test]
fn failed_reads_write_nothing(rt: HostRuntime) {
    assert!(rt; writes_nothing(rt.alloc(), 1));
    assert!(rt; writes_nothing(rt.alloc(), 2));
    assert!(rt; writes_nothing(rt.alloc(), 3));
}

/// Returns whether `serial` reports that this call of the writer failed.
fn is_named(alloc: Global, fails_at: u64) -> bool {
    let mut reader = Scripted::new(SCENARIO, 4096, 0);
    let mut writer = Collected::new(alloc, 30, fails_at);
    serve_serial(alloc, &mut reader, &mut writer) == Err(ProgramFault::WriteFailed)
}

#[test]
fn failed_writes_are_named(rt: HostRuntime) {
    assert!(rt; is_named(rt.alloc(), 1));
    assert!(rt; is_named(rt.alloc(), 2));
    assert!(rt; is_named(rt.alloc(), 3));
}
