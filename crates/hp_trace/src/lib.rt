//! Traces scenarios: the reply to each line, and a picture of the memory after each call.
//!
//! The crate defines the rows of a trace, and which of them are shown. For the calls of a plan, it
//! has a port (a processor of a machine) that draws a row for each call. It returns the rows as
//! text, as values to draw, or as JSON, and also the log of what happened to the memory between
//! them. It runs a scenario's lines on a machine as `hotplug serial` does, but returns nothing if
//! memory runs out. It knows nothing of streams or command lines.
//!
//! Read specs/Traces first, then specs/Calls and specs/Rows, for the text specs/RowsJoined, and for
//! the log specs/Logs. How a row is laid out as text (`columns`, `folds`) is tested, not proved.
#![tactic(auto)]

mod calls;
mod columns;
mod folds;
mod json_rows;
mod lines;
mod live;
mod logs;
mod plans;
mod rows;
mod snapshots;
mod state_logs;
mod view;

pub use lines::{trace, trace_json, trace_rows};
pub use live::{LiveTrace, live_rows_are_the_trace};
pub use logs::{ScenarioLog, trace_log};
pub use view::View;
