//! The driver of a plan: begins an operation, drains and migrates until the operation can commit,
//! and cancels it rather than try more migrations than it may. Calls any `Port`, and knows no
//! machine. Read `port` first, then `driver`.
#![tactic(auto)]

mod driver;
mod port;
mod stages;

pub use driver::run_plan;
pub use port::Port;
pub use stages::{Driver, DriverKey};
