//! The line of an event.
ghost use Rattle.std.specs.Prelude.{OnOk, string_bytes};
ghost use Rattle.hp_commands.specs.Events.{WritesEvent};
ghost use Rattle.hp_commands.specs.Serial.{GrowsBy};

use hp_machine::UnrecordedMachine;
use hp_text::{write_answer, write_unrecorded};
use hp_units::{CallFault, Cpu, Event};
use std::alloc::{AllocError, Global};

/// Calls the machine with an event, and writes the reply, or why there is none.
#[inline(always)]
#[tactic(auto, unfolding(crate::specs::Events::event_text, crate::specs::Events::machine_after_event))]
pub fn write_event(
    out: &mut String,
    alloc: Global,
    machine: &mut UnrecordedMachine,
    cpu: Cpu,
    event: &Event,
) -> Result<(), AllocError>
    ensures { OnOk result (GrowsBy (string_bytes out.old) (string_bytes out.new)
        (λ text. WritesEvent machine.old cpu event.now text machine.new)) }
{
    match machine.answer(alloc, cpu, event) {
        Ok((serial, reply)) => write_answer(out, serial, reply),
        Err(CallFault::HistoryFull) => write_unrecorded(out, CallFault::HistoryFull),
        Err(CallFault::OutOfMemory) => write_unrecorded(out, CallFault::OutOfMemory),
    }
}
