//! Tests of the layers below a memory: most of their public calls, mostly on the layout of
//! `layouts`. They test hp_units (units), hp_tape (tapes), hp_buddy (links, areas and processors)
//! and hp_pages (pages, kernel and blocks).
//!
//! `rt test` in this folder proves and runs the tests. They are a crate of their own since a crate
//! with tests is proved once more together with them.
#![tactic(auto)]

#[cfg(test)]
mod areas;
#[cfg(test)]
mod blocks;
#[cfg(test)]
mod kernel;
#[cfg(test)]
mod layouts;
#[cfg(test)]
mod limits;
#[cfg(test)]
mod links;
#[cfg(test)]
mod pages;
#[cfg(test)]
mod processors;
#[cfg(test)]
mod tapes;
#[cfg(test)]
mod units;
