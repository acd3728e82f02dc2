//! Reads a log from a stream and judges it.
ghost use Rattle.std.specs.Prelude.{◌≡◌, ◌<◌, ◌-◌, ◌^◌, OnOk};
ghost use Rattle.hp_verdicts.specs.declared.reading.JudgeFault.TheVariants.{Log, OutOfMemory, Size};

use crate::judged_log::JudgedLog;
use crate::options::{JudgeOptions, SizeFault};
use hp_judge::LogEvent;
use hp_logs::{LogFault, LogForm, LogReader};
use hp_streams::Source;
use std::alloc::{AllocError, Global};

/// Why a log was not judged.
#[derive(Clone, Copy, Debug, PartialEq, Eq, Drop)]
pub enum JudgeFault {
    /// The rest of the log cannot be read.
    Log(LogFault),
    /// The machine's size is not known or is wrong; if the log gives it, the fault is in its first
    /// line.
    Size(SizeFault),
    /// The log has more than 2^63 lines.
    TooManyLines,
    /// The report cannot be written.
    WriteFailed,
    /// Out of memory.
    OutOfMemory,
}

impl From<AllocError> for JudgeFault {
    ghost from_gives = { λ _ e. e ≡ OutOfMemory };

    fn from(_e: AllocError) -> JudgeFault {
        JudgeFault::OutOfMemory
    }
}

impl From<LogFault> for JudgeFault {
    ghost from_gives = { λ fault e. e ≡ Log fault };

    fn from(fault: LogFault) -> JudgeFault {
        JudgeFault::Log(fault)
    }
}

impl From<SizeFault> for JudgeFault {
    ghost from_gives = { λ fault e. e ≡ Size fault };

    fn from(fault: SizeFault) -> JudgeFault {
        JudgeFault::Size(fault)
    }
}

/// Reads a log from a stream, and judges it event by event.
#[derive(Drop)]
pub struct LogReading {
    reader: LogReader,
    log: JudgedLog,
    /// The line of the first fault that is not allowed.
    first: String,
}

impl LogReading {
    /// Starts to read a log. Its first line may have the number of frames per memory block.
    pub fn begin<R: Source>(
        alloc: Global,
        form: LogForm,
        options: &JudgeOptions,
        source: &mut R,
    ) -> Result<LogReading, JudgeFault>
        requires { R.failures source.old < 2 ^ 64 - 1 }
        ensures { OnOk result (R.failures source.new ≡ R.failures source.old) }
    {
        let mut reader = LogReader::new(alloc, form)?;
        let told = reader.block_frames(source)?;
        let size = options.machine_size(told)?;
        Ok(LogReading {
            reader,
            log: JudgedLog::new(alloc, &size, options),
            first: String::new(alloc),
        })
    }

    /// Reads and judges the next event, and returns it; `None` at the end of the log.
    pub fn next<R: Source>(&mut self, source: &mut R) -> Result<Option<LogEvent>, JudgeFault>
        requires { R.failures source.old < 2 ^ 64 - 1 }
        ensures { OnOk result (R.failures source.new ≡ R.failures source.old) }
    {
        let Some(event) = self.reader.next(source)? else {
            return Ok(None);
        };
        if self.log.is_full() {
            return Err(JudgeFault::TooManyLines);
        }
        let was_lawful = self.log.is_lawful();
        self.log.read(&event)?;
        if was_lawful && !self.log.is_lawful() {
            push_line(&mut self.first, self.reader.line())?;
        }
        Ok(Some(event))
    }

    /// Returns the log as read so far.
    pub fn log(&self) -> &JudgedLog {
        &self.log
    }

    /// Returns the log's line with the first fault that is not allowed; empty if there is none.
    pub fn first_fault(&self) -> &str {
        self.first.as_str()
    }
}

/// Appends a line to a text, or a note if it is not UTF-8.
fn push_line(text: &mut String, line: &[u8]) -> Result<(), AllocError> {
    match str::from_utf8(line) {
        Ok(line) => text.push_str(line),
        Err(_) => text.push_str("(not UTF-8)"),
    }
}
