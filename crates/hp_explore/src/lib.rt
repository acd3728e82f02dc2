//! Explores every interleaving of short scripts on a machine: counts how they end, or finds one
//! that ends as wanted.
//!
//! This crate owns the walk over all schedules, or those of one part (`exploring`), the search for
//! the first schedule that an aim seeks (`aim`, `searching`), and the search by several threads for
//! whether any schedule ends as wanted (`absent`). `finding` searches by rising number of changes
//! of processor, as in CHESS (Musuvathi and Qadeer, PLDI 2007). hp_states decides which places are
//! equivalent, and hp_parts merges the parts of an exploration. Each call is made on a memory of
//! the crate's own and taken back, so that the caller's machine never changes.
//!
//! Read specs/Settings, specs/Faults and specs/Walks first, then specs/Aims, specs/Visited and
//! specs/Reaching.
#![tactic(auto)]

mod absent;
mod aim;
mod causes;
mod changes;
mod done_places;
mod exploring;
mod fault;
mod finding;
mod latest_ops;
mod over;
mod path;
mod path_keys;
mod places;
mod playing;
mod rotation;
mod schedule;
mod searching;
mod turns;
mod visited;
mod walk;
mod ways;
mod within;

pub use aim::Aim;
pub use causes::push_all_causes;
pub use changes::changes_of;
pub use exploring::{Exploration, ExploreFault, explore, explore_part, room_needed};
pub use fault::FindFault;
pub use finding::{Found, MOST_JOBS, find};
pub use hp_states::{KEPT_BYTES, Silent, Watch, kept_counts_are_added};
pub use over::is_over;
pub use path::Path;
pub use playing::play;
pub use schedule::Schedule;
pub use searching::first_sought;
