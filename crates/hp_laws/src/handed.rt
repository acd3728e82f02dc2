//! The law of the frames that are handed out in a legal history from a well placed base state, as
//! the contract of a function with an empty body.
ghost use Rattle.std.specs.Prelude.{◌≡◌, ℕ, false, List, [], ◌∷◌, ◌++◌, Some};
ghost use Rattle.hp_units.specs.Arithmetic.{block_of};
ghost use Rattle.hp_units.specs.Contents.{handed_frame};
ghost use Rattle.hp_units.specs.History.{IsLegal, value_of};
ghost use Rattle.hp_units.specs.LayoutParts.{IsLayout, LayoutParts};
ghost use Rattle.hp_units.specs.Memory.{Memory, row_of};
ghost use Rattle.hp_units.specs.Placement.{IsWellPlaced, is_unplugged};
ghost use Rattle.hp_units.specs.Rows.{is_going};
ghost use Rattle.hp_units.specs.declared.replies.Record.{Record};
ghost use Rattle.hp_units.specs.declared.replies.Reply.TheVariants.{Moved};

/// A frame that a record hands out is in no block that was offline or absent just before the
/// record. This holds whether the frame goes to the kernel, to a newly mapped page or to a page
/// that moves. A frame to which a page moves is in no block that was going.
pub fn handed_frames_are_plugged()
    ensures plugged { (l : LayoutParts) (base : Memory) (before : ℕ) (h : List Record) (r : Record)
        (frame : ℕ)
        → IsLayout l → IsWellPlaced l base
        → IsLegal l base before (h ++ r ∷ [])
        → handed_frame (value_of l base (h ++ r ∷ [])) r ≡ Some frame
        → is_unplugged (row_of (value_of l base h).blocks (block_of l frame)) ≡ false }
    ensures staying { (l : LayoutParts) (base : Memory) (before : ℕ) (h : List Record) (r : Record)
        (from to : ℕ)
        → IsLayout l → IsWellPlaced l base
        → IsLegal l base before (h ++ r ∷ [])
        → r.reply ≡ Moved from to
        → is_going (row_of (value_of l base h).blocks (block_of l to)) ≡ false }
{}
