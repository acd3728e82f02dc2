//! Tests of `hotplug_lab`: explorations and searches with the text that each must write, parts of
//! explorations and their sums, and scenarios that are refused. Others test the report of a check
//! on each scenario, scenarios with names, and what hp_schedules and hp_states store for a search.
//!
//! They are a crate of their own, as integration tests are, so that hp_search, hp_parts and
//! hp_check are not proved once more with them. `rt test` in this folder runs them.
#![tactic(auto)]

#[cfg(test)]
mod checks;
#[cfg(test)]
mod counts;
#[cfg(test)]
mod explorations;
#[cfg(test)]
mod findings;
#[cfg(test)]
mod names;
#[cfg(test)]
mod parts;
#[cfg(test)]
mod refusals;
#[cfg(test)]
mod replays;
#[cfg(test)]
mod schedules;
#[cfg(test)]
mod searches;
#[cfg(test)]
mod spellings;
