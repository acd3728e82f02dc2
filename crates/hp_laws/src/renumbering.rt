//! The law of renumbered operations, as the contract of a function with an empty body.
ghost use Rattle.std.specs.Prelude.{◌≡◌, ℕ};
ghost use Rattle.hp_units.specs.LayoutParts.{LayoutParts};
ghost use Rattle.hp_units.specs.Memory.{Memory};
ghost use Rattle.hp_units.specs.Step.{step};
ghost use Rattle.hp_units.specs.declared.events.Event.{Event};
ghost use Rattle.hp_laws.specs.Renumbered.{IsOneToOne, renumbered, renumbered_answer, renumbered_event};

/// A step does not depend on the numbers of operations. Let a one-to-one function renumber the
/// serial of a step, and the operations in its state and its event. Then the same function
/// renumbers the operations in the new state and the reply, and nothing else changes.
///
/// So take two steps with the same serial and the same processor, and a one-to-one function for
/// each. If the functions make the states and the events of the steps equal, and give the serial
/// the same number, then both steps have the same reply.
pub fn steps_are_renumbered()
    ensures step { (f : ℕ → ℕ) (l : LayoutParts) (s : Memory) (serial cpu : ℕ) (e : Event) → IsOneToOne f
        → step l (renumbered f s) (f serial) cpu (renumbered_event f e)
        ≡ renumbered_answer f (step l s serial cpu e) }
    ensures reply { (f h : ℕ → ℕ) (l : LayoutParts) (s t : Memory) (serial cpu : ℕ) (e d : Event)
        → IsOneToOne f → IsOneToOne h → f serial ≡ h serial
        → renumbered f s ≡ renumbered h t → renumbered_event f e ≡ renumbered_event h d
        → (step l s serial cpu e).reply ≡ (step l t serial cpu d).reply }
{}
