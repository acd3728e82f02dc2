//! A log as one SVG picture: a band per memory block shows its frames in use, when it is going
//! online, going offline or offline, and how its onlines and offlines ended.
//!
//! Reads the log as it comes: no event is kept. A picture has at most 1,024 columns per block, of
//! equal numbers of events. `Columns` owns them: each event lies in one of them, and a column is at
//! least as high as each count that was entered for one of its events (proved). The text of a
//! picture is tested. hp_verdicts reads and judges. Read specs/Columns first.
#![tactic(auto)]

mod bands;
mod columns;
mod drawing;
mod elements;
mod marks;
mod runs;

pub use bands::LogBands;
pub use columns::{Columns, MOST_COLUMNS};
pub use drawing::draw_log;
pub use marks::BlockSigns;
