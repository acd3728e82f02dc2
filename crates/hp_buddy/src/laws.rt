//! What a well placed state guarantees to the calls of the free areas, as contracts of functions
//! with empty bodies.
ghost use Rattle.std.specs.Prelude.{◌≡◌, ℕ, Some};
ghost use Rattle.hp_units.specs.LayoutParts.{IsLayout, LayoutParts};
ghost use Rattle.hp_units.specs.Memory.{Memory, kernel_order};
ghost use Rattle.hp_units.specs.Pages.{frame_at};
ghost use Rattle.hp_units.specs.Placement.{IsWellPlaced};
ghost use Rattle.hp_buddy.specs.Buddy.{AreApart, MayBeGiven};

/// In a well placed state the free blocks lie within the frames, at multiples of their sizes, and
/// no frame is in two of them (Knuth, volume 1, section 2.5). Calls that change the areas require
/// this.
pub fn well_placed_blocks_are_apart()
    ensures { (l : LayoutParts) (s : Memory) → IsLayout l → IsWellPlaced l s → AreApart l s.free.areas }
{}

/// In a well placed state each kernel block and each page's frame can be given back to the free
/// areas.
pub fn blocks_in_use_may_be_given()
    ensures kernel { (l : LayoutParts) (s : Memory) (first order : ℕ) → IsLayout l → IsWellPlaced l s
        → kernel_order s first ≡ Some order → MayBeGiven l s.free.areas order first }
    ensures page { (l : LayoutParts) (s : Memory) (owner page frame : ℕ) → IsLayout l → IsWellPlaced l s
        → frame_at s.pages owner page ≡ Some frame → MayBeGiven l s.free.areas 0 frame }
{}
