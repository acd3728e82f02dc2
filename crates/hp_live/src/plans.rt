//! Runs a plan and stores the receipts of its calls.
ghost use Rattle.std.specs.Prelude.{◌≡◌, ◌∷◌, ◌++◌, [], ◌||◌, not, None, OnOk, OnErr, IfOk, false};
ghost use Rattle.hp_units.specs.declared.replies.OpEnd.{OpEnd};
ghost use Rattle.hp_history.specs.Course.{receipt_for};
ghost use Rattle.hp_machine.specs.MachinePorts.{IsPlanRun};
ghost use Rattle.hp_live.specs.Plans.{IsRunWith, Keeps};

use hp_machine::UnrecordedMachine;
use hp_ops::{Port, run_plan};
use hp_units::{CallFault, Cpu, Event, OpEnd, Plan, Receipt, Reply, Serial};
use std::alloc::{AllocError, Global};

/// A port, which calls a machine as one of its processors, and stores the receipts of its calls.
#[derive(Drop)]
struct KeepingPort<'a> {
    machine: &'a mut UnrecordedMachine,
    cpu: Cpu,
    fault: Option<CallFault>,
    calls: &'a mut Vec<Receipt>,
    /// Whether a receipt was lost because memory ran out.
    is_lost: bool,
}

impl<'a> KeepingPort<'a> {
    /// Returns a processor's port, before its first call.
    fn new(
        machine: &'a mut UnrecordedMachine,
        cpu: Cpu,
        calls: &'a mut Vec<Receipt>,
    ) -> KeepingPort<'a>
        ensures same_machine { result.machine.ghost_name ≡ machine.entry.ghost_name }
        ensures same_calls { result.calls.ghost_name ≡ calls.entry.ghost_name }
        ensures machine { result.machine.now ≡ machine.old }
        ensures calls { result.calls.now ≡ calls.old }
        ensures cpu { result.cpu ≡ cpu }
        ensures fault { result.fault ≡ None }
        ensures lost { result.is_lost ≡ false }
    {
        KeepingPort {
            machine,
            cpu,
            fault: None,
            calls,
            is_lost: false,
        }
    }
}

impl<'a> Port for KeepingPort<'a> {
    ghost use Rattle.std.specs.Prelude.{◌≡◌, Some, refl};
    ghost use Rattle.std.proofs.Common.{◌∙◌};
    ghost use Rattle.hp_machine.specs.MachinePorts.{AreCalls, HasCause, makes_joined, port_value};
    ghost use Rattle.hp_live.specs.Plans.{Keeps, keeps_joined, keeps_nothing};

    ghost shows = { λ p. port_value p.machine.now p.cpu p.fault };

    ghost makes = { λ p gained q. (q.machine.ghost_name ≡ p.machine.ghost_name)
        × (q.calls.ghost_name ≡ p.calls.ghost_name) × (q.cpu ≡ p.cpu)
        × AreCalls p.machine.now p.cpu gained q.machine.now
        × Keeps p.calls.now.items p.is_lost gained q.calls.now.items q.is_lost };

    ghost leaves = { λ p fault q. (q.machine.ghost_name ≡ p.machine.ghost_name)
        × (q.calls.ghost_name ≡ p.calls.ghost_name) × (q.cpu ≡ p.cpu)
        × (q.machine.now ≡ p.machine.now) × HasCause (Some fault) p.machine.now
        × (q.calls.now.items ≡ p.calls.now.items) × (q.is_lost ≡ p.is_lost) };

    fn cpus(&self) -> u32 {
        self.machine.layout().cpus()
    }

    fn call(&mut self, alloc: Global, event: &Event) -> Result<Reply, CallFault> {
        match self.machine.answer(alloc, self.cpu, event) {
            Ok(answer) => {
                let is_kept = keep(self.calls, alloc, event, &answer);
                self.is_lost = is_lost(self.is_lost, is_kept);
                self.fault = None;
                Ok(answer.1)
            }
            Err(fault) => {
                self.fault = Some(fault);
                Err(fault)
            }
        }
    }

    ghost nothing = { λ p. (refl, refl, refl, refl, keeps_nothing p.calls.now.items p.is_lost) };

    ghost joined = { λ p q r xs ys a b. (
      b.0 ∙ a.0,
      b.1 ∙ a.1,
      b.2 ∙ a.2,
      makes_joined p.cpu q.cpu xs ys p.machine.now q.machine.now r.machine.now a.2 a.3 b.3,
      keeps_joined xs ys p.calls.now.items q.calls.now.items r.calls.now.items p.is_lost q.is_lost
          r.is_lost a.4 b.4,
    ) };
}

/// Returns whether a receipt was lost, this one or an earlier one.
fn is_lost(was_lost: bool, is_kept: bool) -> bool
    ensures { result ≡ (was_lost || not is_kept) }
{
    was_lost || !is_kept
}

/// Keeps the receipt of a call, and returns whether there was memory for it.
fn keep(calls: &mut Vec<Receipt>, alloc: Global, event: &Event, answer: &(Serial, Reply)) -> bool
    ensures { Keeps calls.old.items false (receipt_for event.now answer.now ∷ []) calls.new.items
        (not result) }
{
    let serial = answer.0;
    let reply = answer.1;
    match event.copy(alloc) {
        Ok(event) => push(
            calls,
            Receipt {
                serial,
                event,
                reply,
            },
        ),
        Err(AllocError) => false,
    }
}

/// Appends a receipt, and returns whether there was memory for it.
fn push(calls: &mut Vec<Receipt>, receipt: Receipt) -> bool
    ensures { Keeps calls.old.items false (receipt ∷ []) calls.new.items (not result) }
{
    calls.push(receipt).is_ok()
}

/// Runs a plan's driver with at most `turns` migrations, appends the receipts of its calls, and
/// returns how it ended. If there is no memory for a receipt, the plan still runs to its end, and
/// the result is an error.
pub(crate) fn drive(
    calls: &mut Vec<Receipt>,
    alloc: Global,
    machine: &mut UnrecordedMachine,
    cpu: Cpu,
    plan: Plan,
    turns: u32,
) -> Result<OpEnd, AllocError>
    ensures ok { IfOk result
        (λ end. IsRunWith machine.old cpu turns plan calls.old.items end calls.new.items machine.new) }
    ensures err { OnErr result ((end : OpEnd) × IsPlanRun machine.old cpu turns plan end machine.new) }
{
    let mut port = KeepingPort::new(machine, cpu, calls);
    let end = run_plan(alloc, &mut port, plan, turns);
    let is_lost = port.is_lost;
    // No effect at run time: the proof reads what the machine and the calls hold from these uses.
    let _ = &*port.machine;
    let _ = &*port.calls;
    if is_lost {
        return Err(AllocError);
    }
    Ok(end)
}
