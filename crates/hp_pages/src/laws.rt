//! What a well placed state guarantees to the calls of the pages, as the contract of a function
//! with an empty body.
ghost use Rattle.hp_units.specs.LayoutParts.{IsLayout, LayoutParts};
ghost use Rattle.hp_units.specs.Memory.{Memory};
ghost use Rattle.hp_units.specs.Placement.{IsWellPlaced};
ghost use Rattle.hp_tape.specs.Deltas.{page_frames_of};
ghost use Rattle.hp_pages.specs.Pages.{ArePageFramesOf, AreSettled};

/// In a well placed state no frame holds two pages, and all numbers are within the layout. A frame
/// has a buffer only if a word of its page is not 0. Calls that change the pages require this.
pub fn well_placed_pages_are_settled()
    ensures settled { (l : LayoutParts) (s : Memory) → IsLayout l → IsWellPlaced l s
        → AreSettled (page_frames_of l s.pages) }
    ensures numbers { (l : LayoutParts) (s : Memory) → IsLayout l → IsWellPlaced l s
        → ArePageFramesOf l (page_frames_of l s.pages) }
{}
