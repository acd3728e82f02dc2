//! A log in memory, and a report in memory.
ghost use Rattle.std.specs.Prelude.{◌≡◌, Some};

use hp_streams::{Failed, Sink, Source};
use hp_verdicts::JudgeFault;
use std::alloc::Global;

/// Gives the bytes of a log in pieces, so that lines are cut.
#[derive(Drop)]
pub struct LogBytes<'a> {
    bytes: &'a [u8],
    piece: usize,
}

impl<'a> LogBytes<'a> {
    /// Gives seven bytes per read.
    pub fn new(text: &'a str) -> LogBytes<'a> {
        LogBytes::in_pieces(text.as_bytes(), 7)
    }

    /// Gives `piece` bytes per read, and one if that is 0; fewer at the end.
    pub fn in_pieces(bytes: &'a [u8], piece: usize) -> LogBytes<'a> {
        LogBytes { bytes, piece }
    }
}

impl Source for LogBytes<'_> {
    ghost remaining = { λ s. Some s.bytes.now };

    ghost failures = { λ _. 0 };

    fn read(&mut self, buffer: &mut [u8]) -> Result<usize, Failed> {
        let count = self.piece.max(1).min(buffer.len()).min(self.bytes.len());
        let (front, rest) = self.bytes.split_at(count);
        buffer[..count].copy_from_slice(front);
        self.bytes = rest;
        Ok(count)
    }
}

/// Keeps the bytes that are written.
#[derive(Drop)]
pub struct Report {
    pub bytes: Vec<u8>,
    failures: u64,
}

impl Report {
    pub fn new(alloc: Global) -> Report
        ensures { result.failures ≡ 0 }
    {
        Report {
            bytes: Vec::new(alloc),
            failures: 0,
        }
    }

    /// Returns whether the report is this text.
    pub fn is(&self, text: &str) -> bool {
        self.bytes.as_slice() == text.as_bytes()
    }

    /// Returns whether a text is in the report.
    pub fn has(&self, text: &str) -> bool {
        match str::from_utf8(self.bytes.as_slice()) {
            Ok(report) => report.contains(text),
            Err(_) => false,
        }
    }

    /// Returns whether the report ends with a text.
    pub fn ends_with(&self, text: &str) -> bool {
        match str::from_utf8(self.bytes.as_slice()) {
            Ok(report) => report.ends_with(text),
            Err(_) => false,
        }
    }
}

/// Returns the verdict of a judgement, if there was no fault.
pub fn answer_of(judged: Result<bool, JudgeFault>) -> Option<bool> {
    match judged {
        Ok(is_lawful) => Some(is_lawful),
        Err(_) => None,
    }
}

impl Sink for Report {
    ghost contents = { λ s. Some s.bytes.items };

    ghost failures = { λ s. s.failures };

    fn write(&mut self, bytes: &[u8]) -> Result<usize, Failed> {
        if self.bytes.extend_from_slice(bytes).is_err() {
            self.failures += 1;
            return Err(Failed);
        }
        Ok(bytes.len())
    }
}
