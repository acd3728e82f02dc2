//! Reads the lines of a stream.
ghost use Rattle.std.specs.Prelude.{◌≡◌, ◌<◌, ◌≤◌, ◌+◌, ◌-◌, ◌^◌, OnOk, length, vec_len};

use crate::faults::{LineFault, LogFault};
use hp_streams::Source;
use memchr::memchr;
use std::alloc::{AllocError, Global};

/// The greatest length of a line, in bytes, without its newline, `\n` or `\r\n`.
pub const LINE_LIMIT: usize = 65_536;

/// The size of the buffer: a line of the greatest length, and about as much again to read ahead.
const BUFFER_SIZE: usize = 131_072;

/// Reads a stream line by line, in a buffer of 128 KiB.
#[derive(Drop)]
pub struct LineReader {
    buffer: Vec<u8>,
    /// The start and the end of the current line, without its newline.
    line_start: usize,
    line_end: usize,
    /// The start of the bytes after the current line, and the end of the bytes that were read.
    start: usize,
    end: usize,
    number: u64,
    ghost line: { line_start ≤ line_end },
    ghost limit: { line_end ≤ line_start + 65536 },
    ghost before: { line_end ≤ start },
    ghost rest: { start ≤ end },
    ghost within: { end ≤ vec_len buffer },
    ghost size: { vec_len buffer ≡ 131072 },
}

impl LineReader {
    /// Makes a reader before the first line.
    pub fn new(alloc: Global) -> Result<LineReader, AllocError> {
        Ok(LineReader {
            buffer: vec![in alloc; 0u8; BUFFER_SIZE]?,
            line_start: 0,
            line_end: 0,
            start: 0,
            end: 0,
            number: 0,
        })
    }

    /// Returns the current line, without its newline, `\n` or `\r\n`.
    pub fn line(&self) -> &[u8]
        ensures { length result.now ≤ 65536 }
    {
        &self.buffer[self.line_start..self.line_end]
    }

    /// Returns the current line's number, from 1.
    pub fn number(&self) -> u64 {
        self.number
    }

    /// Moves to the next line, and returns whether there is one. The last line may lack its
    /// newline.
    ///
    /// Fails if the line is longer than [`LINE_LIMIT`], however its bytes arrive. The reader then
    /// stays before that line.
    pub fn advance<R: Source>(&mut self, source: &mut R) -> Result<bool, LogFault>
        requires { R.failures source.old < 2 ^ 64 - 1 }
        ensures { OnOk result (R.failures source.new ≡ R.failures source.old) }
    {
        let mut searched = 0;
        for _read in 0..LINE_LIMIT + 3 {
            if self.take_line(searched)? {
                return Ok(true);
            }
            searched = self.end - self.start;
            if searched > LINE_LIMIT + 1 {
                return Err(self.too_long());
            }
            if self.fill(source)? == 0 {
                return self.take_rest();
            }
        }
        Err(self.too_long())
    }

    /// Returns the fault that the next line is too long.
    fn too_long(&self) -> LogFault {
        LogFault::Line {
            number: self.number.saturating_add(1),
            fault: LineFault::TooLong,
        }
    }

    /// Moves to the next line if its newline has been read. There is none in the first `searched`
    /// bytes.
    fn take_line(&mut self, searched: usize) -> Result<bool, LogFault>
        requires { self.old.start + searched ≤ self.old.end }
    {
        let Some(found) = memchr(b'\n', &self.buffer[self.start + searched..self.end]) else {
            return Ok(false);
        };
        let length = searched + found;
        self.take(length, length + 1)?;
        Ok(true)
    }

    /// Moves to the bytes after the last newline, if there are any.
    fn take_rest(&mut self) -> Result<bool, LogFault> {
        if self.start == self.end {
            return Ok(false);
        }
        let length = self.end - self.start;
        self.take(length, length)?;
        Ok(true)
    }

    /// Makes the next `length` bytes the current line, without a `\r` at their end, and moves past
    /// `passed` bytes: those of the line, and of its newline if there is one. Fails if the line is
    /// too long.
    fn take(&mut self, length: usize, passed: usize) -> Result<(), LogFault>
        requires line { length ≤ passed }
        requires within { self.old.start + passed ≤ self.old.end }
    {
        let line = &self.buffer[self.start..self.start + length];
        let line_length = line.strip_suffix(b"\r").unwrap_or(line).len();
        if line_length > LINE_LIMIT {
            return Err(self.too_long());
        }
        self.line_start = self.start;
        self.line_end = self.start + line_length;
        self.start += passed;
        self.number = self.number.saturating_add(1);
        Ok(())
    }

    /// Reads more bytes, and returns how many. Drops the current line.
    fn fill<R: Source>(&mut self, source: &mut R) -> Result<usize, LogFault>
        requires few { self.old.end - self.old.start ≤ 65537 }
        requires calls { R.failures source.old < 2 ^ 64 - 1 }
        ensures ok { OnOk result (R.failures source.new ≡ R.failures source.old) }
        ensures kept { self.old.end - self.old.start ≤ self.new.end - self.new.start }
    {
        if self.start > 0 {
            self.buffer.copy_within(self.start..self.end, 0);
        }
        self.end -= self.start;
        self.start = 0;
        self.line_start = 0;
        self.line_end = 0;
        match source.read(&mut self.buffer[self.end..]) {
            Ok(count) => {
                self.end += count;
                Ok(count)
            }
            Err(_) => Err(LogFault::ReadFailed),
        }
    }
}
