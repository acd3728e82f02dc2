//! Judges whole logs, and reports what it found.
//!
//! `Verdict` counts the faults of a log and keeps the first ones: its results are proved.
//! `JudgedLog` also counts events, and what happened to each memory block. `LogReading` reads a log
//! from a stream. `judge_log` reads a whole log and writes a report, as text or as JSON.
//!
//! The crate owns the words of a report. hp_judge has the laws, hp_logs the forms of a log. Read
//! specs/Reports first, then `verdict`.
#![tactic(auto)]

mod allowed;
mod counts;
mod faults;
mod judged_log;
mod objects;
mod options;
mod reading;
mod run;
mod selection;
mod texts;
mod verdict;
mod words;

pub use allowed::AllowedKinds;
pub use counts::{BlockCounts, BlockTallies, EventCounts, Usage};
pub use faults::FaultReport;
pub use judged_log::JudgedLog;
pub use options::{JudgeOptions, SizeFault};
pub use reading::{JudgeFault, LogReading};
pub use run::{ReportForm, judge_log};
pub use selection::BlockRange;
pub use verdict::Verdict;
