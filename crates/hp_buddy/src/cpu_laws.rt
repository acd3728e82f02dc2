//! What a well placed state guarantees to the calls of the processors' lists, as contracts of
//! functions with empty bodies.
ghost use Rattle.std.specs.Prelude.{◌≡◌, ℕ, Some};
ghost use Rattle.hp_units.specs.LayoutParts.{IsLayout, LayoutParts};
ghost use Rattle.hp_units.specs.Memory.{Memory, kernel_order};
ghost use Rattle.hp_units.specs.Pages.{frame_at};
ghost use Rattle.hp_units.specs.Placement.{IsWellPlaced};
ghost use Rattle.hp_buddy.specs.Cpus.{AreTogether, MayBePut};

/// In a well placed state the free areas and the processors' lists are of one layout, and no frame
/// is in two of their places. Calls that move frames require this of both.
pub fn well_placed_frames_are_together()
    ensures { (l : LayoutParts) (s : Memory) → IsLayout l → IsWellPlaced l s
        → AreTogether (record { layout = l; cached = s.free.cached })
        (record { layout = l; areas = s.free.areas }) }
{}

/// In a well placed state each kernel block of a single frame, and each page's frame, can be put
/// back on a processor's list.
pub fn frames_in_use_may_be_put()
    ensures kernel { (l : LayoutParts) (s : Memory) (frame : ℕ) → IsLayout l → IsWellPlaced l s
        → kernel_order s frame ≡ Some 0
        → MayBePut (record { layout = l; cached = s.free.cached })
        (record { layout = l; areas = s.free.areas }) frame }
    ensures page { (l : LayoutParts) (s : Memory) (owner page frame : ℕ) → IsLayout l → IsWellPlaced l s
        → frame_at s.pages owner page ≡ Some frame
        → MayBePut (record { layout = l; cached = s.free.cached })
        (record { layout = l; areas = s.free.areas }) frame }
{}
