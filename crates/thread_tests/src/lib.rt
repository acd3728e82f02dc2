//! Tests of what runs in threads: a shared machine with its seats and its close, and workers. Also
//! tests of searches, in one or several threads, and of the commands, on streams that move bytes in
//! pieces or fail.
//!
//! Each module tests a crate or two from outside. `seats`, `closes` and `locks` test hp_shared, and
//! so does `workers`, with a gate of its own; `explorations` tests hp_schedules, hp_explore and
//! hp_parts. `runs`, `pieces` and `ends` test hp_commands, the first two on the streams of
//! `streams`. runs/check_runs.py compares what the commands write for many scenarios.
//!
//! Run the tests by `rt test` in this folder. All are in one crate, because linking a crate of
//! tests with all crates below it costs as much as some thirty functions.
#![tactic(auto)]

#[cfg(test)]
mod closes;
#[cfg(test)]
mod ends;
#[cfg(test)]
mod explorations;
#[cfg(test)]
mod locks;
#[cfg(test)]
mod pieces;
#[cfg(test)]
mod runs;
#[cfg(test)]
mod seats;
#[cfg(test)]
mod streams;
#[cfg(test)]
mod workers;
