//! The states that objects show.
ghost use Rattle.std.specs.Prelude.{◌≡◌, ◌++◌, List, ℕ, IfOk, None, OnOk, codes};
ghost use Rattle.hp_trace_json.specs.ChangeObjects.{IsChangeObject};
ghost use Rattle.hp_trace_json.specs.Changes.{ChangeValue, IsChange};
ghost use Rattle.hp_live.specs.Talks.{ShowsIf, TellsIn, kept_states, object_end, picture};

use hp_machine::UnrecordedMachine;
use hp_plain::Image;
use hp_trace_json::{change_between, change_object};
use hp_units::Text;
use indexmap::IndexSet;
use std::alloc::{AllocError, Global};
use std::marker::Model;

/// Whether objects show the state, and the last state that was shown.
#[derive(Drop)]
pub(crate) struct ShownStates {
    is_shown: bool,
    last: Option<Image>,
}

impl Model for ShownStates {
    ghost use Rattle.hp_live.specs.Talks.{StatesValue};

    ghost Value = { StatesValue };

    ghost view = { λ s. record { is_shown = s.is_shown; last = s.last } };
}

impl ShownStates {
    /// Creates the value before the first object.
    pub(crate) fn new(is_shown: bool) -> ShownStates
        ensures { result ≡ record { is_shown = is_shown; last = None } }
    {
        ShownStates {
            is_shown,
            last: None,
        }
    }

    /// If states are shown, adds to an object how the machine's state differs from the last one
    /// shown. The first state is shown whole. `object` ends with a newline. Returns the state that
    /// the object shows, for `keep` to store.
    pub(crate) fn show(
        &self,
        alloc: Global,
        object: &mut Vec<u8>,
        names: &IndexSet<Text>,
        machine: &UnrecordedMachine,
    ) -> Result<Option<Image>, AllocError>
        ensures { IfOk result (λ shown. (front : List ℕ) → object.old.items ≡ front ++ object_end
            → ShowsIf self.now.is_shown self.now.last (picture machine.now) shown front
            object.new.items) }
    {
        if !self.is_shown {
            return Ok(None);
        }
        let now = machine.image(alloc)?;
        self.show_image(alloc, object, names, &now)?;
        Ok(Some(now))
    }

    /// Adds to an object, which a newline follows, how a state differs from the last one shown.
    fn show_image(
        &self,
        alloc: Global,
        object: &mut Vec<u8>,
        names: &IndexSet<Text>,
        now: &Image,
    ) -> Result<(), AllocError>
        ensures { OnOk result ((front : List ℕ) → object.old.items ≡ front ++ object_end
            → (change : ChangeValue) × IsChange self.now.last now.now change
            × TellsIn front change object.new.items) }
    {
        let change = change_between(alloc, &self.last, now)?;
        let shown = change_object(alloc, names, &change)?;
        join_objects(object, shown.as_slice())
    }

    /// Stores the state that an object shows, once the object was written.
    pub(crate) fn keep(&mut self, shown: Option<Image>)
        ensures { self.new ≡ kept_states self.old shown }
    {
        if let Some(image) = shown {
            self.last = Some(image);
        }
    }
}

/// Adds the keys of a change's object to another object, which a newline follows.
fn join_objects(object: &mut Vec<u8>, more: &[u8]) -> Result<(), AllocError>
    ensures { OnOk result ((front : List ℕ) (change : ChangeValue)
        → object.old.items ≡ front ++ object_end → IsChangeObject change more.now
        → TellsIn front change object.new.items) }
{
    let keys = after_bracket(more);
    if keys == b"}".as_slice() {
        return Ok(());
    }
    open_end(object);
    object.push(b',')?;
    object.extend_from_slice(keys)?;
    object.push(b'\n')?;
    Ok(())
}

/// Returns what comes after an object's first bracket.
fn after_bracket(object: &[u8]) -> &[u8]
    ensures { (change : ChangeValue) → IsChangeObject change object.now
        → object.now ≡ codes "{" ++ result.now }
{
    match object.split_first() {
        Some((_, rest)) => rest,
        None => object,
    }
}

/// Takes away an object's last bracket and the newline.
fn open_end(object: &mut Vec<u8>)
    ensures { (front : List ℕ) → object.old.items ≡ front ++ object_end → object.new.items ≡ front }
{
    let end = object.len().saturating_sub(2);
    object.truncate(end);
}
