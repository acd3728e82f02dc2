//! Scenarios: a layout and the lines that run on it, read from JSON.
#![tactic(auto)]

mod asked;
mod calls;
mod fault;
mod form;
mod laws;
mod lines;
mod names;
mod numbers;
mod plain_reader;
mod plain_runs;
mod plans;
mod requests;
mod scenario;
mod scripts;
mod texts;
mod unfit;
mod usual;
mod verbs;
mod words;

pub use asked::Asked;
pub use calls::{Calls, Next};
pub use fault::ScenarioFault;
pub use form::{boot_at, boots_at, has_keys, parts_with, texts_at};
pub use laws::lines_are_spelled;
pub use lines::{Line, Lines, Work};
pub use names::read_line;
pub use requests::is_line;
pub use scenario::{Scenario, json_from, layout_from};
pub use scripts::Script;
pub use texts::Texts;
pub use unfit::Unfit;
pub use verbs::{only32, only64, zone_from};
pub use words::{is_name, split_words};
