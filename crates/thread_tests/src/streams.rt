//! Streams that fail at a given call, and a scenario to serve.
ghost use Rattle.std.specs.Prelude.{◌≡◌, Some};

use hp_streams::{Failed, Sink, Source};
use std::alloc::Global;

/// Gives bytes in pieces, and fails at call `fails_at`, counted from 1; never if that is 0.
#[derive(Drop)]
pub struct Scripted<'a> {
    bytes: &'a [u8],
    piece: usize,
    fails_at: u64,
    calls: u64,
    failures: u64,
}

impl<'a> Scripted<'a> {
    pub fn new(bytes: &'a [u8], piece: usize, fails_at: u64) -> Scripted<'a>
        ensures { result.failures ≡ 0 }
    {
        Scripted {
            bytes,
            piece,
            fails_at,
            calls: 0,
            failures: 0,
        }
    }
}

impl Source for Scripted<'_> {
    ghost remaining = { λ s. Some s.bytes.now };

    ghost failures = { λ s. s.failures };

    fn read(&mut self, buffer: &mut [u8]) -> Result<usize, Failed> {
        self.calls = self.calls.wrapping_add(1);
        if self.calls == self.fails_at {
            self.failures += 1;
            return Err(Failed);
        }
        let count = self.piece.max(1).min(buffer.len()).min(self.bytes.len());
        let (front, rest) = self.bytes.split_at(count);
        buffer[..count].copy_from_slice(front);
        self.bytes = rest;
        Ok(count)
    }
}

/// Takes bytes in pieces and keeps them, and fails at call `fails_at`, counted from 1; never if
/// that is 0.
#[derive(Drop)]
pub struct Collected {
    pub bytes: Vec<u8>,
    piece: usize,
    fails_at: u64,
    calls: u64,
    failures: u64,
}

impl Collected {
    pub fn new(alloc: Global, piece: usize, fails_at: u64) -> Collected
        ensures { result.failures ≡ 0 }
    {
        Collected {
            bytes: Vec::new(alloc),
            piece,
            fails_at,
            calls: 0,
            failures: 0,
        }
    }
}

impl Sink for Collected {
    ghost contents = { λ s. Some s.bytes.items };

    ghost failures = { λ s. s.failures };

    fn write(&mut self, bytes: &[u8]) -> Result<usize, Failed> {
        self.calls = self.calls.wrapping_add(1);
        let count = self.piece.max(1).min(bytes.len());
        if self.calls == self.fails_at || self.bytes.extend_from_slice(&bytes[..count]).is_err() {
            self.failures += 1;
            return Err(Failed);
        }
        Ok(count)
    }
}

/// A kernel block is taken, given back and undone, on two memory blocks and two processors.
pub const SCENARIO: &[u8] =
    br#"{"layout":{"order":2,"pageblocks":1,"blocks":2,"cpus":2,"batch":2,"high":2,"owners":2,"pages":8,"words":2,"history":9,"boot":["normal","offline"]},"calls":["0 kalloc 1","0 kfree 0","0 undo 0"]}"#;
