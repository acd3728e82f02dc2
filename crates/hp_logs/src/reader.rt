//! Reads the events of a log.
ghost use Rattle.std.specs.Prelude.{◌≡◌, ◌<◌, ◌-◌, ◌^◌, OnOk};

use crate::faults::{LineFault, LogFault};
use crate::ftrace::ftrace_event;
use crate::lines::LineReader;
use crate::objects::{json_block_frames, json_event};
use hp_judge::LogEvent;
use hp_streams::Source;
use json::Scratch;
use std::alloc::{AllocError, Global};

/// The form of a log's lines.
#[derive(Clone, Copy, Drop)]
pub enum LogForm {
    /// JSON, one object per line.
    Json,
    /// The text of Linux's ftrace.
    Ftrace,
}

/// Reads the events of a log, one per line.
#[derive(Drop)]
pub struct LogReader {
    form: LogForm,
    lines: LineReader,
    /// Whether the current line's event is still to be returned.
    is_ahead: bool,
    scratch: Scratch,
}

impl LogReader {
    /// Makes a reader before the first line.
    pub fn new(alloc: Global, form: LogForm) -> Result<LogReader, AllocError> {
        Ok(LogReader {
            form,
            lines: LineReader::new(alloc)?,
            is_ahead: false,
            scratch: Scratch::new(alloc),
        })
    }

    /// Returns the current line.
    pub fn line(&self) -> &[u8] {
        self.lines.line()
    }

    /// Returns how many frames a memory block has, if the first line has that number.
    ///
    /// Call it before the first event is read. A first line with that number has no event of its
    /// own: it counts as `LogEvent::Other`.
    pub fn block_frames<R: Source>(&mut self, source: &mut R) -> Result<Option<u32>, LogFault>
        requires { R.failures source.old < 2 ^ 64 - 1 }
        ensures { OnOk result (R.failures source.new ≡ R.failures source.old) }
    {
        self.is_ahead = self.lines.advance(source)?;
        match self.told_frames() {
            Ok(frames) => Ok(frames),
            Err(fault) => Err(self.fault_of_line(fault)),
        }
    }

    /// Returns the event of the next line, if there is one.
    pub fn next<R: Source>(&mut self, source: &mut R) -> Result<Option<LogEvent>, LogFault>
        requires { R.failures source.old < 2 ^ 64 - 1 }
        ensures { OnOk result (R.failures source.new ≡ R.failures source.old) }
    {
        if !self.has_line(source)? {
            return Ok(None);
        }
        match self.event() {
            Ok(event) => Ok(Some(event)),
            Err(fault) => Err(self.fault_of_line(fault)),
        }
    }
}

impl LogReader {
    /// Moves to the line whose event is next, and returns whether there is one.
    fn has_line<R: Source>(&mut self, source: &mut R) -> Result<bool, LogFault>
        requires { R.failures source.old < 2 ^ 64 - 1 }
        ensures { OnOk result (R.failures source.new ≡ R.failures source.old) }
    {
        if self.is_ahead {
            self.is_ahead = false;
            return Ok(true);
        }
        self.lines.advance(source)
    }

    /// Returns the event of the current line.
    fn event(&mut self) -> Result<LogEvent, LineFault> {
        match self.form {
            LogForm::Json => {
                json_event(
                    self.lines.line(),
                    self.lines.number() == 1,
                    &mut self.scratch,
                )
            }
            LogForm::Ftrace => ftrace_event(self.lines.line()),
        }
    }

    /// Returns how many frames a memory block has, if the current line has that number.
    fn told_frames(&mut self) -> Result<Option<u32>, LineFault> {
        match self.form {
            LogForm::Json => json_block_frames(self.lines.line(), &mut self.scratch),
            LogForm::Ftrace => Ok(None),
        }
    }

    /// Returns a fault with the number of the current line.
    fn fault_of_line(&self, fault: LineFault) -> LogFault {
        LogFault::Line {
            number: self.lines.number(),
            fault,
        }
    }
}
