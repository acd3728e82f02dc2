//! Tests of logs: JSON and ftrace text are read as the events that they mean (readers); the line of
//! each event is read back as that event (lines); lines that are too long are refused (lengths);
//! verdicts on lawful and unlawful logs (verdicts); pictures (pictures).
//!
//! `rt test` in this folder proves and runs them. docs/check_judge.py tries the built program on
//! more logs.
#![tactic(auto)]

#[cfg(test)]
mod lengths;
#[cfg(test)]
mod lines;
#[cfg(test)]
mod pictures;
#[cfg(test)]
mod readers;
#[cfg(test)]
mod streams;
#[cfg(test)]
mod verdicts;
