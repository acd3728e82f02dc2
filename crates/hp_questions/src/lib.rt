//! What a search looks for: the lines that an end is to have or to lack.
//!
//! Such a line is about a reply to a processor, the end of one of its plans, or the state of a
//! memory block. The crate parses, matches and checks these lines. Before the end of a schedule, it
//! returns which of them the records have so far. It may also find that no later end can meet them
//! all. It searches nothing: hp_explore does, and hp_search writes what was found.
//!
//! An end has each processor's replies, but not the calls that got them. How plans ended follows
//! from a processor's script and its replies (`plan_ends`). It is proved that these are the ends of
//! plans among the answers to the processor's lines (`laws`).
//!
//! Read specs/Patterns, specs/PlanEnds, specs/PlanLines and specs/Wanted first, then specs/Marks,
//! specs/Limits and specs/WantedLines.
#![tactic(auto)]

mod block_words;
mod laws;
mod likeness;
mod limits;
mod marks;
mod plan_ends;
mod plan_lines;
mod plan_words;
mod reply_words;
mod wanted;
mod wanted_lines;

pub use laws::plan_ends_are_answers;
pub use likeness::{plans_digest, same_plan_ends};
pub use limits::first_past;
pub use marks::{asks_no_plans, is_lost, push_marks};
pub use plan_ends::{PlanEnds, all_plan_ends};
pub use plan_lines::EndPattern;
pub use reply_words::{refusal_pattern, reply_pattern};
pub use wanted::{EndLine, Pattern, Wanted, are_met};
pub use wanted_lines::wanted_line;
