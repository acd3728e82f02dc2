//! Tests of what surrounds a machine: each public function once, on a small layout.
//!
//! Each module tests a crate or two through their public functions: `memories` hp_memory and
//! hp_states, `plans` the driver of a plan (hp_ops). `controls`, `control_writes`, `scenarios`,
//! `texts`, `maps` and `traces` test what is read and written. `looks` boots the machine for tests
//! that only look at one; the layout is that of layouts_for_tests. The machine's own tests are
//! history_tests. Run the tests by `rt test` in this folder.
#![tactic(auto)]

#[cfg(test)]
mod control_writes;
#[cfg(test)]
mod controls;
#[cfg(test)]
mod looks;
#[cfg(test)]
mod maps;
#[cfg(test)]
mod memories;
#[cfg(test)]
mod plans;
#[cfg(test)]
mod scenarios;
#[cfg(test)]
mod texts;
#[cfg(test)]
mod traces;
