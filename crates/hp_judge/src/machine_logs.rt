//! The laws of the machine's logs: each is the contract of a function that does nothing.
ghost use Rattle.std.specs.Prelude.{◌≡◌, ℕ, ◌+◌, if◌then◌else◌, List, [], ◌∷◌, ◌++◌};
ghost use Rattle.hp_judge.specs.Laws.{IsLawful};
ghost use Rattle.hp_judge.specs.declared.events.MachineSize.{MachineSize};
ghost use Rattle.hp_judge.specs.Logs.{IsSizeOf, log_of, log_of_all, step_log};
ghost use Rattle.hp_judge.specs.Reading.{after_log, in_use, shown};
ghost use Rattle.hp_laws.specs.Seals.{value_of_all};
ghost use Rattle.hp_units.specs.Boot.{boot_memory};
ghost use Rattle.hp_units.specs.History.{value_of};
ghost use Rattle.hp_units.specs.LayoutParts.{IsLayout, LayoutParts};
ghost use Rattle.hp_units.specs.Memory.{Memory};
ghost use Rattle.hp_units.specs.Placement.{IsWellPlaced, kernel_places, mapped_places};
ghost use Rattle.hp_units.specs.declared.replies.Record.{Record};

/// The machine writes a lawful log, over every well placed base state, and from boot. Histories can
/// follow one another, as those of sealed volumes do.
pub fn machines_write_lawful_logs()
    ensures history { (l : LayoutParts) (m : MachineSize) (base : Memory) (h : List Record) → IsLayout l
        → IsSizeOf l m → IsWellPlaced l base → IsLawful m (log_of l base h) }
    ensures histories { (l : LayoutParts) (m : MachineSize) (base : Memory) (hs : List (List Record))
        → IsLayout l → IsSizeOf l m → IsWellPlaced l base → IsLawful m (log_of_all l base hs) }
    ensures boot { (l : LayoutParts) (m : MachineSize) (hs : List (List Record)) → IsLayout l
        → IsSizeOf l m → IsLawful m (log_of_all l (boot_memory l) hs) }
{}

/// The log shows which frames are in use, and the phase of each memory block. If these are known
/// for the base state, the events of the log lead to those of the state after the history.
pub fn logs_show_their_state()
    ensures history { (l : LayoutParts) (m : MachineSize) (base : Memory) (h : List Record) → IsLayout l
        → IsSizeOf l m → IsWellPlaced l base
        → after_log m (shown l base) (log_of l base h) ≡ shown l (value_of l base h) }
    ensures histories { (l : LayoutParts) (m : MachineSize) (base : Memory) (hs : List (List Record))
        → IsLayout l → IsSizeOf l m → IsWellPlaced l base
        → after_log m (shown l base) (log_of_all l base hs) ≡ shown l (value_of_all l base hs) }
{}

/// In a well placed state, a frame that is `in_use` is either under one page or in one block of the
/// kernel. Any other frame is in neither.
pub fn shown_frames_are_in_place()
    ensures { (l : LayoutParts) (s : Memory) (frame : ℕ) → IsLayout l → IsWellPlaced l s
        → mapped_places s.pages frame + kernel_places s frame ≡ if in_use l s frame then 1 else 0 }
{}

/// A record adds the log of its own step to the log. A step that leaves the state as it is writes
/// nothing.
pub fn logs_grow_by_steps()
    ensures unchanged { (l : LayoutParts) (s : Memory) → step_log l s s ≡ [] }
    ensures more { (l : LayoutParts) (base : Memory) (h : List Record) (r : Record)
        → log_of l base (h ++ r ∷ [])
        ≡ log_of l base h ++ step_log l (value_of l base h) (value_of l base (h ++ r ∷ [])) }
{}

/// Each layout has a size as the judge needs it: the number of frames per memory block is a power
/// of two.
pub fn layouts_have_sizes()
    ensures { (l : LayoutParts) → IsLayout l → (m : MachineSize) × IsSizeOf l m }
{}
