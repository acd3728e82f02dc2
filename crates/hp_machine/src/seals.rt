//! The law of a machine and the volumes that it sealed: the contract of a function that does
//! nothing.
ghost use Rattle.std.specs.Prelude.{ℕ, List, [], ◌∷◌, ◌++◌};
ghost use Rattle.hp_units.specs.LayoutParts.{LayoutParts};
ghost use Rattle.hp_units.specs.declared.events.Event.{Event};
ghost use Rattle.hp_units.specs.declared.replies.Receipt.{Receipt};
ghost use Rattle.hp_history.specs.Volumes.{volume_of};
ghost use Rattle.hp_history.specs.declared.volumes.Volume.{Volume};
ghost use Rattle.hp_machine.specs.Machine.{IsCalled, IsHistory, MachineValue, booted, sealed};
ghost use Rattle.hp_machine.specs.Volumes.{GoesOnFrom};

/// The sealed volumes lead from boot to the machine's base: none at boot, the same after a call,
/// one more after a seal.
pub fn machines_go_on_from_their_volumes()
    ensures boot { (l : LayoutParts) → GoesOnFrom [] (booted l) }
    ensures call { (volumes : List Volume) (old new : MachineValue) (cpu : ℕ) (event : Event) (r : Receipt)
        → IsCalled old cpu event r new → GoesOnFrom volumes old → GoesOnFrom volumes new }
    ensures seal { (volumes : List Volume) (m : MachineValue) → IsHistory m → GoesOnFrom volumes m
        → GoesOnFrom (volumes ++ volume_of m ∷ []) (sealed m) }
{}
