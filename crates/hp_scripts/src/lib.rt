//! The scripts of a scenario: its lines with names for results, as `hotplug_lab` reads them, and
//! what a search of them starts from.
//!
//! A `begin` or a `kalloc` may end in ` as NAME`. In a later line of the same processor, `$NAME`
//! then means the number of the operation or of the frame. The first lines of a scenario are its
//! setup, run in order on one machine as `hotplug serial` does; this finds the numbers of their
//! results. Each later line goes to the script of its processor. The crate defines which lines may
//! be in a script, what step each becomes, which operation the number 0 means, and which steps work
//! on the results of earlier lines. It searches nothing: hp_explore does.
//!
//! Read specs/Plain first, then specs/Named and specs/Resolved; for scripts specs/Scripts, then
//! specs/ScriptResults, specs/NamedResults (what a name means in every interleaving), specs/Setup,
//! specs/Begins and specs/Starts.
#![tactic(auto)]

mod begins;
mod bindings;
mod checks;
mod counting;
mod faults;
mod laws;
mod named;
mod plain;
mod reading;
mod resolve;
mod results;
mod runs;
mod script_results;
mod scripts;
mod setup;
mod start_fault;
mod start_laws;
mod starts;
mod unbegun;
mod words;

pub use begins::work_begins;
pub use bindings::{Bindings, Naming};
pub use counting::interleavings_line;
pub use faults::{NameFault, name_fault};
pub use laws::scenarios_without_names_are_read_alike;
pub use named::{NamedScenario, Sources};
pub use plain::{PlainLine, plain_line};
pub use resolve::resolve_front;
pub use results::{NamedResult, ResultKind, missing_number, result_number};
pub use runs::run_line;
pub use start_fault::StartFault;
pub use start_laws::names_are_results;
pub use starts::{Start, front_of, start_of};
pub use unbegun::{Unbegun, unbegun_lines};
