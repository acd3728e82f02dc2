//! States as numbers, and the places that a walk over schedules reaches.
//!
//! A search compares and stores numbers instead of states. A memory's state is encoded part by part
//! (`code`, `memories`), and the code gets a number (`texts`, `codes`). A number means only one
//! state of a layout (`laws`).
//!
//! A place is where a schedule of scripts leads. The crate owns:
//! - the numbers by which places are compared (`openings`, `exchanges`, `stops`, `standing`),
//! - a table of places with their states (`place_table`),
//! - the places walked so far, by keys made of such numbers, with how many schedules continue from
//!   each to each end (`memo`, `rows`),
//! - what a walk does when it reaches and leaves a place (`arrivals`).
//!
//! It makes no calls: hp_explore does.
//!
//! Read specs/Numbers, specs/Parts and specs/Codes first, then specs/Places, specs/Stops and
//! specs/Walks.
#![tactic(auto)]

mod arrivals;
mod code;
mod codes;
mod digests;
mod ends;
mod exchanges;
mod frames;
mod kept_counts;
mod laws;
mod memo;
mod memories;
mod openings;
mod place_table;
mod rows;
mod standing;
mod stops;
mod texts;
mod watch;

pub use arrivals::{arrive, leave, note};
pub use codes::Codes;
pub use ends::outcome_at;
pub use exchanges::Exchanges;
pub use frames::{Level, Treatment};
pub use kept_counts::kept_counts_are_added;
pub use laws::codes_tell_states_apart;
pub use memo::Memo;
pub use place_table::{PlaceCode, PlaceSet};
pub use rows::Rows;
pub use stops::Stops;
pub use watch::{KEPT_BYTES, Reach, Silent, Watch};
