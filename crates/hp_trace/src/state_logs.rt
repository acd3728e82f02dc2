//! The log of a memory whose states are seen one after another.
ghost use Rattle.std.specs.Prelude.{◌≡◌, IfOk, OnOk};
ghost use Rattle.hp_judge.specs.Snapshots.{Shows};
ghost use Rattle.hp_trace.specs.StateLogs.{IsLogged, IsStepFrom, no_log};

use crate::snapshots::snapshot_of;
use hp_judge::{LogEvent, Snapshot, step_log};
use hp_machine::Machine;
use std::alloc::{AllocError, Global};
use std::marker::Model;

/// The events so far, and a snapshot of the state that they lead to; no snapshot before the first
/// state.
#[derive(Drop)]
pub(crate) struct StateLog {
    seen: Option<Snapshot>,
    events: Vec<LogEvent>,
}

impl Model for StateLog {
    ghost use Rattle.hp_trace.specs.StateLogs.{LogValue};

    ghost Value = { LogValue };

    ghost view = { λ s. record { seen = s.seen; events = s.events.items } };
}

impl StateLog {
    /// Creates an empty log: no state was seen.
    pub(crate) fn new(alloc: Global) -> StateLog
        ensures { result ≡ no_log }
    {
        StateLog {
            seen: None,
            events: Vec::new(alloc),
        }
    }

    /// Adds the events that lead from the last state that was seen to the machine's; none for the
    /// first state.
    pub(crate) fn observe(&mut self, alloc: Global, machine: &Machine) -> Result<(), AllocError>
        ensures { OnOk result (IsLogged machine.now self.old self.new) }
    {
        machine.stays_sound();
        let now = snapshot_of(alloc, machine)?;
        let step = step_from(alloc, machine, &self.seen, &now)?;
        self.events.extend_from_slice(step.as_slice())?;
        self.seen = Some(now);
        Ok(())
    }

    /// Returns the events.
    pub(crate) fn into_events(self) -> Vec<LogEvent>
        ensures { result.items ≡ self.events }
    {
        let StateLog {
            seen: _,
            events: all,
        } = self;
        all
    }
}

/// Returns the events that lead from the last state that was seen to the machine's.
fn step_from(
    alloc: Global,
    machine: &Machine,
    seen: &Option<Snapshot>,
    now: &Snapshot,
) -> Result<Vec<LogEvent>, AllocError>
    requires { Shows machine.now.layout machine.now.state now.now }
    ensures { IfOk result (λ events. IsStepFrom machine.now seen.now events.items) }
{
    match seen {
        Some(before) => step_log(alloc, machine.layout(), before, now),
        None => Ok(Vec::new(alloc)),
    }
}
