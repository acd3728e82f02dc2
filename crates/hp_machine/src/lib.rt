//! The machine: one call is one step of the definitions.
//!
//! A `Machine` is a course of hp_history within the layout's limit of records, with the laws that
//! hold of every machine. An `UnrecordedMachine` makes the same calls with the same replies over a
//! journal, and keeps no records. A processor of either is a port of a plan's driver, and carries
//! plans out.
//!
//! `replaying` decides whether records are a legal history: a journal replies to their events
//! again, and each reply is compared with the record's. `chains` decides whether sealed volumes
//! follow one another. specs/Replaying and specs/Chains say which record or volume is the first at
//! fault.
//!
//! Read `machine` first, then `unrecorded`, which follows it, and `machine_port`.
#![tactic(auto)]

mod chains;
mod machine;
mod machine_port;
mod replaying;
mod same_layouts;
mod seals;
mod unrecorded;

pub use chains::{ChainFault, audit_chain};
pub use machine::Machine;
pub use machine_port::{CallMachine, MachinePort};
pub use replaying::{ReplayFault, replay, replay_from};
pub use seals::machines_go_on_from_their_volumes;
pub use unrecorded::UnrecordedMachine;
