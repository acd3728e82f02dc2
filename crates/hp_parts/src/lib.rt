//! Explores a scenario's interleavings in parts: in threads side by side, or on any machines, each
//! of which writes its part as a file.
//!
//! `exploring` returns the text of a whole exploration. `calls` says how many first calls decide
//! the part that an interleaving belongs to. `jobs` explores the parts in threads, and `merging`
//! merges their ends. `parts` explores one part, and writes JSON, one object per line: a head that
//! names the search and the part (`heads`), then each end with the processors of its first
//! interleaving. `summing` adds up such texts, and plays each of these interleavings again, so it
//! finds a line that does not match its own. The crate opens no file and no stream.
//!
//! Read specs/AllParts, specs/Adding and specs/Explorations first (what `explore_with_jobs`, `sum`
//! and `explore_text` promise), then specs/Heads, specs/Reading, specs/Ordering and specs/Texts,
//! and specs/Parts and specs/Sums (`part_text` and `sum_text`).
#![tactic(auto)]

mod calls;
mod cuts;
mod earlier;
mod ends;
mod exploring;
mod gathering;
mod heads;
mod jobs;
mod line_fault;
mod merged_ends;
mod merging;
mod ordering;
mod parts;
mod processors;
mod reading;
mod rooms;
mod summing;
mod taking;
mod writing;

pub use calls::calls_for;
pub use cuts::{line_at, line_number};
pub use exploring::explore_text;
pub use gathering::{Gathering, PartEnds};
pub use heads::{Head, Search, head_from, is_head, write_head};
pub use jobs::explore_with_jobs;
pub use merging::{SumFault, sum};
pub use ordering::{OrderFault, ends_by_number};
pub use parts::part_text;
pub use processors::write_schedule;
pub use reading::{PartLine, json_in, line_in};
pub use summing::sum_text;
