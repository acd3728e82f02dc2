//! Scripts, schedules and their outcomes, without a machine.
//!
//! A script is what one processor calls, line after line. A schedule gives the processor of each
//! call, in order; it is complete when all scripts are finished. The crate owns:
//! - scripts and positions in them,
//! - the parts that a search is split into,
//! - outcomes, how many schedules lead to each, and the number of interleavings,
//! - which schedules continue alike.
//!
//! It makes no calls: hp_explore walks the schedules.
//!
//! Read specs/Scripts first, then specs/Schedules, specs/Outcomes and specs/Ends.
#![tactic(auto)]

mod causes;
mod changes;
mod closed;
mod cursors;
mod digests;
mod laws;
mod likeness;
mod line_answers;
mod multinomials;
mod outcomes;
mod part_numbers;
mod parts;
mod positions;
mod results;
mod scripts;
mod tally;
mod trail;

pub use changes::{Change, change_of};
pub use closed::is_closed;
pub use cursors::{Cursor, NextCall};
pub use digests::{learn, mixed, reply_number};
pub use laws::{
    alike_beginnings_continue_alike, alike_places_go_on_alike, alike_positions_answer_alike,
    answers_only_grow, counts_are_unique, interleavings_are_counted, lines_finish_alike,
    schedules_are_interleavings,
};
pub use line_answers::{FinishedLine, LineAnswer};
pub use multinomials::{HowMany, call_count, interleavings_of};
pub use outcomes::{Outcome, Replies, all_answers};
pub use part_numbers::ShardId;
pub use parts::Shard;
pub use positions::Positions;
pub use scripts::{CallScript, OwnWork, Step, StepWork, are_mergeable, greatest_named};
pub use tally::{Ending, Tally, fit_in, schedule_of, total_of};
pub use trail::Share;
