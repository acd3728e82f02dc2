//! A port that makes a seat's calls.
ghost use Rattle.std.specs.Prelude.{◌≡◌, None};

use crate::job::Job;
use crate::seat::Seat;
use crate::shared::Shared;
use hp_ops::Port;
use hp_units::{CallFault, Event, Reply};
use std::alloc::Global;
use std::sync::Wait;

/// A port that lets a plan's driver make a seat's calls on the shared machine. Each call takes the
/// lock, and may wait for it.
#[derive(Drop)]
pub struct SeatPort<'a, L: Job, R> {
    /// The capability to wait.
    pub rt: &'a R,
    /// The seat that calls.
    pub seat: &'a mut Seat<L>,
    /// The machine under its lock.
    pub shared: &'a Shared<L>,
    /// The fault of the last call; `None` at first and after a receipt.
    pub fault: Option<CallFault>,
}

impl<'a, L: Job, R> SeatPort<'a, L, R> {
    /// Creates a port for a seat, with no fault yet.
    pub fn new(rt: &'a R, seat: &'a mut Seat<L>, shared: &'a Shared<L>) -> SeatPort<'a, L, R>
        ensures same_reference { result.seat.ghost_name ≡ seat.entry.ghost_name }
        ensures seat { result.seat.now ≡ seat.old }
        ensures fault { result.fault ≡ None }
    {
        SeatPort {
            rt,
            seat,
            shared,
            fault: None,
        }
    }
}

impl<'a, L: Job, R: Wait> Port for SeatPort<'a, L, R> {
    ghost use Rattle.std.specs.Prelude.{◌≡◌, refl};
    ghost use Rattle.std.proofs.Common.{◌∙◌};
    ghost use Rattle.hp_units.specs.declared.replies.CallFault.TheVariants.{HistoryFull};
    ghost use Rattle.hp_shared.specs.SeatPorts.{AreTurns, port_value, turns_joined};
    ghost use Rattle.hp_shared.specs.Shared.{MayBeFull, left_by};

    ghost shows = { λ p. port_value L.layout p.seat.now p.fault };

    ghost makes = { λ p gained q.
        (q.seat.ghost_name ≡ p.seat.ghost_name) × AreTurns L.layout p.seat.now gained q.seat.now };

    ghost leaves = { λ p fault q.
        (q.seat.ghost_name ≡ p.seat.ghost_name) × (q.seat.now ≡ left_by p.seat.now fault)
        × (fault ≡ HistoryFull → MayBeFull L.layout p.seat.now) };

    fn cpus(&self) -> u32 {
        self.shared.cpus()
    }

    fn call(&mut self, alloc: Global, event: &Event) -> Result<Reply, CallFault> {
        match self.seat.call(self.rt, alloc, self.shared, event) {
            Ok(reply) => {
                self.fault = None;
                Ok(reply)
            }
            Err(fault) => {
                self.fault = Some(fault);
                Err(fault)
            }
        }
    }

    ghost nothing = { λ p. (refl, refl) };

    ghost joined = { λ p q r xs ys a b.
        (b.0 ∙ a.0, turns_joined L.layout xs ys p.seat.now q.seat.now r.seat.now a.1 b.1) };
}
