//! The laws of placement and of contents. Each law is the contract of a function with an empty
//! body.
ghost use Rattle.std.specs.Prelude.{◌≡◌, ℕ, ◌+◌, ◌≤◌, true, List, ◌==◌, if◌then◌else◌};
ghost use Rattle.std.specs.Option.{option_map};
ghost use Rattle.hp_units.specs.Arithmetic.{block_of};
ghost use Rattle.hp_units.specs.Boot.{boot_memory};
ghost use Rattle.hp_units.specs.Contents.{contents_of_net};
ghost use Rattle.hp_units.specs.History.{IsLegal, net_of, value_of};
ghost use Rattle.hp_units.specs.InLayout.{IsMemoryOf};
ghost use Rattle.hp_units.specs.LayoutParts.{IsLayout, LayoutParts};
ghost use Rattle.hp_units.specs.Memory.{Memory, row_of};
ghost use Rattle.hp_units.specs.Pages.{frame_at};
ghost use Rattle.hp_units.specs.Placement.{IsWellPlaced, cached_places, free_places, is_unplugged, kernel_places, mapped_places};
ghost use Rattle.hp_units.specs.Step.{step};
ghost use Rattle.hp_units.specs.declared.events.Event.{Event};
ghost use Rattle.hp_units.specs.declared.events.Event.TheVariants.{Migrate};
ghost use Rattle.hp_units.specs.declared.replies.Record.{Record};
ghost use Rattle.hp_units.specs.declared.replies.Reply.TheVariants.{Moved};

/// The state that a machine starts in is well placed.
pub fn boot_is_well_placed()
    ensures { (l : LayoutParts) → IsLayout l → IsWellPlaced l (boot_memory l) }
{}

/// Each step from a well placed state leads to a well placed state, whatever the event and the
/// processor.
pub fn steps_keep_placement()
    ensures { (l : LayoutParts) (s : Memory) (serial cpu : ℕ) (event : Event) → IsLayout l → IsWellPlaced l s
        → IsWellPlaced l (step l s serial cpu event).memory }
{}

/// The numbers in a well placed state are within its layout: frames, orders and words, and the
/// numbers of lists, kinds, pages and rows. Each step needs this of its state.
pub fn well_placed_states_fit_their_layout()
    ensures { (l : LayoutParts) (s : Memory) → IsLayout l → IsWellPlaced l s → IsMemoryOf l s }
{}

/// Each history from a well placed base state leads to a well placed state, and so does each
/// history from boot.
pub fn histories_keep_placement()
    ensures base { (l : LayoutParts) (base : Memory) (h : List Record) → IsLayout l → IsWellPlaced l base
        → IsWellPlaced l (value_of l base h) }
    ensures boot { (l : LayoutParts) (h : List Record) → IsLayout l
        → IsWellPlaced l (value_of l (boot_memory l) h) }
{}

/// In a well placed state a free frame, in the areas or on a processor's list, holds no page and is
/// not in use by the kernel. A frame of an offline or absent block is in none of these four places.
pub fn free_frames_are_not_in_use()
    ensures free { (l : LayoutParts) (s : Memory) (frame : ℕ) → IsWellPlaced l s
        → 1 ≤ free_places s.free.areas frame + cached_places s.free frame
        → mapped_places s.pages frame + kernel_places s frame ≡ 0 }
    ensures unplugged { (l : LayoutParts) (s : Memory) (frame : ℕ) → IsWellPlaced l s
        → is_unplugged (row_of s.blocks (block_of l frame)) ≡ true
        → free_places s.free.areas frame + cached_places s.free frame + mapped_places s.pages frame
        + kernel_places s frame ≡ 0 }
{}

/// A migration moves the page at the old frame of its reply to the new one, and leaves each other
/// page where it is. It changes no word of any page, so a page's words move with it (Linux, memory
/// hotplug: migration).
pub fn migrations_move_no_word()
    ensures words { (l : LayoutParts) (s : Memory) (serial cpu op : ℕ)
        → (step l s serial cpu (Migrate op)).memory.pages.contents ≡ s.pages.contents }
    ensures frames { (l : LayoutParts) (s : Memory) (serial cpu op from to owner page : ℕ) → IsWellPlaced l s
        → (step l s serial cpu (Migrate op)).reply ≡ Moved from to
        → frame_at (step l s serial cpu (Migrate op)).memory.pages owner page
        ≡ option_map (λ frame. if frame == from then to else frame) (frame_at s.pages owner page) }
{}

/// The pages hold what the Map, Unmap and Write events that were not undone make of the base state.
/// No other event changes their words.
pub fn contents_follow_net()
    ensures { (l : LayoutParts) (base : Memory) (before : ℕ) (h : List Record) → IsLegal l base before h
        → (value_of l base h).pages.contents ≡ contents_of_net l base.pages.contents (net_of h) }
{}
