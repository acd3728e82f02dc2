//! A port on a seat, with a gate around each call.
ghost use Rattle.std.specs.Prelude.{◌≡◌, None};

use crate::gate::Gate;
use crate::{Job, Seat, Shared};
use hp_ops::Port;
use hp_units::{CallFault, Event, Reply};
use std::alloc::Global;
use std::sync::Wait;

/// A port that makes a seat's calls, with the gate before and after each, and counts them.
#[derive(Drop)]
pub(crate) struct GatedPort<'a, L: Job, G: Gate, R: Wait> {
    rt: &'a R,
    pub(crate) seat: &'a mut Seat<L>,
    shared: &'a Shared<L>,
    gate: &'a G,
    calls: &'a mut u64,
    pub(crate) fault: Option<CallFault>,
}

impl<'a, L: Job, G: Gate, R: Wait> GatedPort<'a, L, G, R> {
    /// Returns a seat's port. `calls` counts the seat's calls and seals so far.
    pub(crate) fn new(
        rt: &'a R,
        seat: &'a mut Seat<L>,
        shared: &'a Shared<L>,
        gate: &'a G,
        calls: &'a mut u64,
    ) -> GatedPort<'a, L, G, R>
        ensures same_reference { result.seat.ghost_name ≡ seat.entry.ghost_name }
        ensures seat { result.seat.now ≡ seat.old }
        ensures fault { result.fault ≡ None }
    {
        GatedPort {
            rt,
            seat,
            shared,
            gate,
            calls,
            fault: None,
        }
    }
}

impl<'a, L: Job, G: Gate, R: Wait> Port for GatedPort<'a, L, G, R> {
    ghost use Rattle.std.specs.Prelude.{◌≡◌, refl};
    ghost use Rattle.std.proofs.Common.{◌∙◌};
    ghost use Rattle.hp_units.specs.declared.replies.CallFault.TheVariants.{HistoryFull};
    ghost use Rattle.hp_shared.specs.SeatPorts.{AreTurns, port_value, turns_joined};
    ghost use Rattle.hp_shared.specs.Shared.{MayBeFull, left_by};

    ghost shows = { λ p. port_value L.layout p.seat.now p.fault };

    ghost makes = { λ p gained q.
        (q.seat.ghost_name ≡ p.seat.ghost_name) × AreTurns L.layout p.seat.now gained q.seat.now };

    ghost leaves = { λ p fault q.
        (q.seat.ghost_name ≡ p.seat.ghost_name) × (q.seat.now ≡ left_by p.seat.now fault)
        × (fault ≡ HistoryFull → MayBeFull L.layout p.seat.now) };

    fn cpus(&self) -> u32 {
        self.shared.cpus()
    }

    fn call(&mut self, alloc: Global, event: &Event) -> Result<Reply, CallFault> {
        let cpu = self.seat.cpu();
        *self.calls = self.calls.saturating_add(1);
        self.gate.before(cpu, *self.calls);
        let answer = self.seat.call(self.rt, alloc, self.shared, event);
        self.gate.after(cpu, *self.calls);
        match answer {
            Ok(reply) => {
                self.fault = None;
                Ok(reply)
            }
            Err(fault) => {
                self.fault = Some(fault);
                Err(fault)
            }
        }
    }

    ghost nothing = { λ p. (refl, refl) };

    ghost joined = { λ p q r xs ys a b.
        (b.0 ∙ a.0, turns_joined L.layout xs ys p.seat.now q.seat.now r.seat.now a.1 b.1) };
}
