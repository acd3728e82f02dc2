//! Tests of histories on a small layout: what they begin with, what they record and take back, and
//! how they are sealed, replayed and audited.
//!
//! `images` and `placed` test the state as a value that a history begins with (hp_plain), and
//! `courses` its records (hp_history). `machines` and `undone` test a machine that keeps a history,
//! and `chains` replays and chains of volumes (all hp_machine). The layout is that of
//! layouts_for_tests. `sealed` has what the laws of histories imply for a machine, sealed or not,
//! proved from what hp_laws, hp_history and hp_machine make public alone; `machines` calls it. Run
//! the tests by `rt test` in this folder.
#![tactic(auto)]

#[cfg(test)]
mod chains;
#[cfg(test)]
mod courses;
#[cfg(test)]
mod images;
#[cfg(test)]
mod machines;
#[cfg(test)]
mod placed;
pub mod sealed;
#[cfg(test)]
mod undone;
