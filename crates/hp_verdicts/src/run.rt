//! Judges a whole log from a stream.
ghost use Rattle.std.specs.Prelude.{◌≡◌, ◌<◌, ◌-◌, ◌^◌, OnOk};

use crate::objects::report_objects;
use crate::options::JudgeOptions;
use crate::reading::{JudgeFault, LogReading};
use crate::texts::report_text;
use hp_logs::LogForm;
use hp_streams::{Failed, Sink, Source, write_all};
use std::alloc::{AllocError, Global};

/// The form of a report.
#[derive(Clone, Copy, Drop)]
pub enum ReportForm {
    /// Plain text.
    Text,
    /// JSON, one object per line.
    Objects,
}

/// Judges the log in `source`, and writes the report to `sink`. Returns whether the log is lawful,
/// apart from allowed faults.
///
/// Keeps no events, so the log can be of any length. Writes the report at the log's end.
pub fn judge_log<R: Source, W: Sink>(
    alloc: Global,
    form: LogForm,
    options: &JudgeOptions,
    report: ReportForm,
    source: &mut R,
    sink: &mut W,
) -> Result<bool, JudgeFault>
    requires source { R.failures source.old < 2 ^ 64 - 1 }
    requires sink { W.failures sink.old < 2 ^ 64 - 1 }
{
    let log = read_log(alloc, form, options, source)?;
    let text = report_of(alloc, &log, report)?;
    match write_all(sink, text.as_bytes()) {
        Ok(()) => Ok(log.log().is_lawful()),
        Err(Failed) => Err(JudgeFault::WriteFailed),
    }
}

/// Returns the report on a log.
fn report_of(alloc: Global, log: &LogReading, form: ReportForm) -> Result<String, AllocError> {
    match form {
        ReportForm::Text => report_text(alloc, log.log(), log.first_fault()),
        ReportForm::Objects => report_objects(alloc, log.log(), log.first_fault()),
    }
}

/// Reads a log to its end.
fn read_log<R: Source>(
    alloc: Global,
    form: LogForm,
    options: &JudgeOptions,
    source: &mut R,
) -> Result<LogReading, JudgeFault>
    requires { R.failures source.old < 2 ^ 64 - 1 }
{
    let mut log = LogReading::begin(alloc, form, options, source)?;
    for _line in 0..1u64 << 63 {
        if log.next(source)?.is_none() {
            return Ok(log);
        }
    }
    Err(JudgeFault::TooManyLines)
}
