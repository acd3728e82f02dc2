//! What a search finds in a scenario's interleavings, as text; and the faults of the program
//! `hotplug_lab`, each with its text.
//!
//! The crate prepares a scenario for a search (`prepared`): hp_scripts runs its setup and makes the
//! scripts. It finds an interleaving that ends as wanted (`finding`), and groups ends by a part of
//! their outcome (`groups`). It writes ends and schedules as words, as JSON and as a scenario
//! (`words`, `objects`, `summaries`, `replays`). hp_parts explores a prepared scenario. The
//! crates that return one of the faults state when it comes. The crate opens no file and no stream.
//!
//! Read specs/Prepared and specs/Holding first (what a contract states about the bytes of a
//! scenario), then specs/Findings, specs/Ends, specs/Words and specs/FaultOrigins.
#![tactic(auto)]

mod ends;
mod finding;
mod forms;
mod found;
mod groupings;
mod groups;
mod lab_fault;
mod objects;
mod part_fault;
mod prepared;
mod program_fault;
mod replays;
mod summaries;
mod words;

pub use finding::{find_text, schedule_told};
pub use forms::{EndsForm, ScheduleForm};
pub use found::{FindResult, FindText, SearchText};
pub use groupings::Grouping;
pub use groups::{GroupBy, grouped, groups_of};
pub use lab_fault::LabFault;
pub use objects::{write_keys, write_more};
pub use part_fault::PartFault;
pub use prepared::{Prepared, prepare};
pub use program_fault::LabProgramFault;
pub use replays::replay_text;
pub use summaries::write_summary;
pub use words::{write_counts, write_end};
