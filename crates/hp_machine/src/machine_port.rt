//! A port on a machine, and the run of a plan through it.
ghost use Rattle.std.specs.Prelude.{◌≡◌, ◌↔◌, Err, None, IfOk, OnErr, IsTrue};
ghost use Rattle.hp_history.specs.Course.{receipt_for};
ghost use Rattle.hp_machine.specs.Machine.{IsCalled, MachineValue, is_full};
ghost use Rattle.hp_machine.specs.MachinePorts.{IsPlanRun};

use hp_ops::{Port, run_plan};
use hp_units::{CallFault, Cpu, Event, OpEnd, Plan, Reply, Serial};
use std::alloc::Global;

/// A machine that replies to calls, whether or not it keeps their records.
pub trait CallMachine {
    /// The machine's value.
    ghost machine: { Self → MachineValue };

    /// Returns the number of processors.
    fn cpus(&self) -> u32
        ensures { result ≡ (machine self.now).layout.cpus };

    /// Makes one call, and returns the serial of its record and the reply. The error is
    /// `HistoryFull` if and only if the history is full, otherwise `OutOfMemory`; then nothing
    /// changes.
    fn answer(
        &mut self,
        alloc: Global,
        cpu: Cpu,
        event: &Event,
    ) -> Result<(Serial, Reply), CallFault>
        ensures full { (result ≡ Err CallFault.HistoryFull) ↔ IsTrue (is_full (machine self.old)) }
        ensures err { OnErr result (machine self.new ≡ machine self.old) }
        ensures ok { IfOk result (λ answer. IsCalled (machine self.old) cpu event.now
            (receipt_for event.now answer) (machine self.new)) };
}

/// A processor of a machine, as a port for a plan's driver. It shows the processor's records as
/// receipts; if the machine keeps no records, they exist only in proofs.
#[derive(Drop)]
pub struct MachinePort<'a, M: CallMachine> {
    /// The machine.
    pub machine: &'a mut M,
    /// The processor that calls.
    pub cpu: Cpu,
    /// The fault of the last call; `None` at first and after a receipt.
    pub fault: Option<CallFault>,
}

impl<'a, M: CallMachine> MachinePort<'a, M> {
    /// Returns a processor's port, before its first call.
    pub fn new(machine: &'a mut M, cpu: Cpu) -> MachinePort<'a, M>
        ensures same_reference { result.machine.ghost_name ≡ machine.entry.ghost_name }
        ensures machine { result.machine.now ≡ machine.old }
        ensures cpu { result.cpu ≡ cpu }
        ensures fault { result.fault ≡ None }
    {
        MachinePort {
            machine,
            cpu,
            fault: None,
        }
    }
}

impl<'a, M: CallMachine> Port for MachinePort<'a, M> {
    ghost use Rattle.std.specs.Prelude.{◌≡◌, Some, refl};
    ghost use Rattle.std.proofs.Common.{◌∙◌};
    ghost use Rattle.hp_machine.specs.MachinePorts.{AreCalls, HasCause, makes_joined, port_value};

    ghost shows = { λ p. port_value (M.machine p.machine.now) p.cpu p.fault };

    ghost makes = { λ p gained q. (q.machine.ghost_name ≡ p.machine.ghost_name) × (q.cpu ≡ p.cpu)
        × AreCalls (M.machine p.machine.now) p.cpu gained (M.machine q.machine.now) };

    ghost leaves = { λ p fault q. (q.machine.ghost_name ≡ p.machine.ghost_name) × (q.cpu ≡ p.cpu)
        × (M.machine q.machine.now ≡ M.machine p.machine.now)
        × HasCause (Some fault) (M.machine p.machine.now) };

    fn cpus(&self) -> u32 {
        self.machine.cpus()
    }

    fn call(&mut self, alloc: Global, event: &Event) -> Result<Reply, CallFault> {
        match self.machine.answer(alloc, self.cpu, event) {
            Ok((_, reply)) => {
                self.fault = None;
                Ok(reply)
            }
            Err(fault) => {
                self.fault = Some(fault);
                Err(fault)
            }
        }
    }

    ghost nothing = { λ p. (refl, refl, refl) };

    ghost joined = { λ p q r xs ys a b. (
      b.0 ∙ a.0,
      b.1
          ∙ a.1,
      makes_joined p.cpu q.cpu xs ys (M.machine p.machine.now) (M.machine q.machine.now)
          (M.machine r.machine.now) a.1 a.2 b.2,
    ) };
}

/// Carries out a plan as a processor of a machine: `run_plan` of hp_ops through the processor's
/// port.
pub(crate) fn carry_out<M: CallMachine>(
    alloc: Global,
    machine: &mut M,
    cpu: Cpu,
    plan: Plan,
    turns: u32,
) -> OpEnd
    ensures { IsPlanRun (M.machine machine.old) cpu turns plan result (M.machine machine.new) }
{
    let mut port = MachinePort::new(machine, cpu);
    let end = run_plan(alloc, &mut port, plan, turns);
    // No effect at run time: from this use the proof reads what the machine holds.
    let _ = &*port.machine;
    end
}
