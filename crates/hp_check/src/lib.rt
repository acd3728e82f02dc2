//! What is wrong with a scenario and where: findings, and their text.
//!
//! The crate defines the findings. A text with a fault is not a scenario. With a warning, a
//! scenario probably does not do what its writer wants. hp_scenario defines what a scenario is, and
//! hp_scripts what names for results mean. The module `json_positions` finds where things are in a
//! text. The crate runs no machine and opens no file or stream.
//!
//! Read specs/Checking first: what `check` promises. The texts of findings are tested (lab_tests).
#![tactic(auto)]

mod calls;
mod checking;
mod expected;
mod finding;
mod hints;
mod json_positions;
mod name_typos;
mod quotes;
mod ranges;
mod repeats;
mod report;
mod shape;
mod tally;
mod texts;
mod typos;
mod warnings;

pub use checking::{check, fault_count};
pub use expected::write_expected;
pub use finding::{Finding, Hint, Key, OutOfRange, ScenarioObject, Shape, Subject, Warning};
pub use json_positions::{call_lines, halves_at, has_comment, is_blank, nests_deeper};
pub use name_typos::{Meant, NameTypo, name_typo};
pub use report::write_report;
