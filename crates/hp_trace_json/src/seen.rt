//! What a reader of the rows has seen so far.
ghost use Rattle.std.specs.Prelude.{◌≡◌, IfOk, OnErr, OnOk, Some, length};
ghost use Rattle.hp_trace_json.specs.Changes.{IsChange};
ghost use Rattle.hp_trace_json.specs.Parts.{state_of};

use crate::change::{StateChange, change_between};
use hp_machine::Machine;
use hp_plain::Image;
use std::alloc::{AllocError, Global};
use std::marker::Model;

/// The state that the last row showed, if there was a row.
#[derive(Drop)]
pub struct SeenState {
    image: Option<Image>,
}

impl Model for SeenState {
    ghost use Rattle.std.specs.Prelude.{Option};
    ghost use Rattle.hp_plain.specs.Image.{Pictured};

    ghost Value = { Option Pictured };

    ghost view = { λ s. s.image };
}

impl SeenState {
    /// Creates the value before the first row: no state was seen.
    pub fn new() -> SeenState
        ensures { result ≡ None }
    {
        SeenState { image: None }
    }

    /// Returns how a machine's state differs from the one seen last, and stores it as the one seen
    /// last.
    pub fn observe(&mut self, alloc: Global, machine: &Machine) -> Result<StateChange, AllocError>
        ensures change { IfOk result (IsChange self.old (state_of machine.now)) }
        ensures seen { OnOk result (self.new ≡ Some (state_of machine.now)) }
        ensures err { OnErr result (self.new ≡ self.old) }
    {
        let now = machine.image(alloc)?;
        let change = change_between(alloc, &self.image, &now)?;
        self.image = Some(now);
        Ok(change)
    }
}
