//! A machine that several threads share: a lock around it, a seat per processor, workers that run
//! the processors' lines in threads, and at the end a check of all receipts against all records.
//!
//! The crate owns the lock (`Shared`), what is under it (`Locked`), the processors' access (`Seat`,
//! and `SeatPort` for a plan's driver) and the end (`close`). Ledgers of std tie the seats' counts
//! to the machine's. It also owns what a worker does with a line (`lines`) and a script (`worker`),
//! how threads are started and joined (`threads`), and the gate around each call and each seal
//! (`gate`, `gated_port`). Workers call the machine only through seats. Each call takes the lock
//! and lets it go, the calls of a plan too, and so does each seal. Nothing here prints or parses.
//!
//! Read `locked` first, then `seat` and `closing`; `volumes`, `marks` and `comparing` serve
//! `close`. Read `threads` for `run_workers`.
#![tactic(auto)]

mod closing;
mod comparing;
mod counts;
mod fault;
mod gate;
mod gated_port;
mod job;
mod lines;
mod locked;
mod marks;
mod seat;
mod seat_port;
mod shared;
mod threads;
mod volumes;
mod worker;

pub use closing::{CloseFault, CloseRefused, Closed, NotClosed, close};
pub use fault::RunFault;
pub use gate::{Gate, OpenGate};
pub use job::{Fulls, Job, Sealed};
pub use lines::{Ends, LineEnd};
pub use locked::Locked;
pub use seat::Seat;
pub use seat_port::SeatPort;
pub use shared::Shared;
pub use threads::{RunEnd, run_workers};
