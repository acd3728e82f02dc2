//! What follows from a state being well placed. Each law is the contract of a function with an
//! empty body.
ghost use Rattle.std.specs.Prelude.{◌≡◌, ℕ, ◌^◌, ◌<◌, ◌≤◌, ◌↔◌, true, Some, List, ◌∷◌, ◌++◌, [], is_none, length};
ghost use Rattle.std.specs.List.{list_all};
ghost use Rattle.hp_units.specs.Arithmetic.{block_of, frame_count};
ghost use Rattle.hp_units.specs.FreeAreas.{is_on};
ghost use Rattle.hp_units.specs.History.{IsLegal, value_of};
ghost use Rattle.hp_units.specs.LayoutParts.{IsLayout, LayoutParts};
ghost use Rattle.hp_units.specs.Memory.{Memory, cached_list, free_list, kernel_order, row_of, zone_of_pool};
ghost use Rattle.hp_units.specs.Pages.{frame_at};
ghost use Rattle.hp_units.specs.Placement.{IsWellPlaced};
ghost use Rattle.hp_units.specs.Refusals.{frame_in_use, is_all_free};
ghost use Rattle.hp_units.specs.Rows.{going_blocks, is_live};
ghost use Rattle.hp_units.specs.Step.{step};
ghost use Rattle.hp_units.specs.declared.events.Event.TheVariants.{Commit};
ghost use Rattle.hp_units.specs.declared.replies.Record.{Record};
ghost use Rattle.hp_units.specs.declared.replies.Refusal.TheVariants.{NotFree};
ghost use Rattle.hp_units.specs.declared.replies.Reply.TheVariants.{Done, Refused};
ghost use Rattle.hp_units.specs.declared.rows.Class.{Class};
ghost use Rattle.hp_units.specs.declared.rows.Pool.{Pool};
ghost use Rattle.hp_units.specs.declared.rows.Zone.TheVariants.{Normal as NormalZone};
ghost use Rattle.hp_laws.specs.Consequences.{IsFrameOf, IsFrameInUse, IsLowestInUse, IsPluggedIn};

/// A frame on a processor's list lies in a block whose zone is that of the list's pool.
pub fn cached_frames_lie_in_zone()
    ensures state { (l : LayoutParts) (s : Memory) (cpu : ℕ) (pool : Pool) (frame : ℕ) → IsWellPlaced l s
        → is_on frame (cached_list s.free cpu pool) ≡ true
        → (row_of s.blocks (block_of l frame)).zone ≡ Some (zone_of_pool pool) }
    ensures history { (l : LayoutParts) (base : Memory) (h : List Record) (cpu : ℕ) (pool : Pool) (frame : ℕ)
        → IsLayout l → IsWellPlaced l base
        → is_on frame (cached_list (value_of l base h).free cpu pool) ≡ true
        → (row_of (value_of l base h).blocks (block_of l frame)).zone ≡ Some (zone_of_pool pool) }
{}

/// A frame that is in a kernel block or holds a page is in a memory block that is online or going
/// offline, and so has a zone. For a frame of a kernel block, this is zone Normal.
pub fn frames_in_use_have_zone()
    ensures kernel { (l : LayoutParts) (s : Memory) (first order frame : ℕ) → IsWellPlaced l s
        → kernel_order s first ≡ Some order → IsFrameOf frame order first
        → ((row_of s.blocks (block_of l frame)).zone ≡ Some NormalZone) × IsPluggedIn l s frame }
    ensures page { (l : LayoutParts) (s : Memory) (owner page frame : ℕ) → IsWellPlaced l s
        → frame_at s.pages owner page ≡ Some frame → IsPluggedIn l s frame }
    ensures kernel_history { (l : LayoutParts) (base : Memory) (h : List Record) (first order frame : ℕ)
        → IsLayout l → IsWellPlaced l base → kernel_order (value_of l base h) first ≡ Some order
        → IsFrameOf frame order first
        → ((row_of (value_of l base h).blocks (block_of l frame)).zone ≡ Some NormalZone)
        × IsPluggedIn l (value_of l base h) frame }
    ensures page_history { (l : LayoutParts) (base : Memory) (h : List Record) (owner page frame : ℕ)
        → IsLayout l → IsWellPlaced l base → frame_at (value_of l base h).pages owner page ≡ Some frame
        → IsPluggedIn l (value_of l base h) frame }
{}

/// A free list has at most as many blocks as there are frames, and a processor's list at most as
/// many frames. There are at most 2^20 frames.
pub fn lists_are_short()
    ensures free { (l : LayoutParts) (s : Memory) (class : Class) (order : ℕ) → IsLayout l → IsWellPlaced l s
        → length (free_list s.free.areas class order) ≤ frame_count l }
    ensures cached { (l : LayoutParts) (s : Memory) (cpu : ℕ) (pool : Pool) → IsLayout l → IsWellPlaced l s
        → length (cached_list s.free cpu pool) ≤ frame_count l }
    ensures free_history { (l : LayoutParts) (base : Memory) (h : List Record) (class : Class) (order : ℕ)
        → IsLayout l → IsWellPlaced l base
        → length (free_list (value_of l base h).free.areas class order) ≤ frame_count l }
    ensures cached_history { (l : LayoutParts) (base : Memory) (h : List Record) (cpu : ℕ) (pool : Pool)
        → IsLayout l → IsWellPlaced l base
        → length (cached_list (value_of l base h).free cpu pool) ≤ frame_count l }
    ensures frames { (l : LayoutParts) → IsLayout l → frame_count l ≤ 2 ^ 20 }
{}

/// A Commit by a processor of the layout is refused as NotFree exactly if some frame of a block
/// that its operation takes offline is in no free block. The refusal names the lowest such frame.
/// The Commit is done exactly if the operation is live and there is no such frame (Linux, memory
/// hotplug: offlining).
pub fn commits_need_free_frames()
    ensures lowest { (l : LayoutParts) (s : Memory) (serial cpu op frame : ℕ) → IsLayout l → IsWellPlaced l s
        → cpu < l.cpus
        → ((step l s serial cpu (Commit op)).reply ≡ Refused (NotFree frame)) ↔ IsLowestInUse l s op frame }
    ensures some { (l : LayoutParts) (s : Memory) (serial cpu op : ℕ) → IsLayout l → IsWellPlaced l s
        → cpu < l.cpus
        → ((frame : ℕ) × ((step l s serial cpu (Commit op)).reply ≡ Refused (NotFree frame)))
        ↔ ((frame : ℕ) × IsFrameInUse l s op frame) }
    ensures done { (l : LayoutParts) (s : Memory) (serial cpu op : ℕ) → IsLayout l → IsWellPlaced l s
        → cpu < l.cpus
        → ((step l s serial cpu (Commit op)).reply ≡ Done)
        ↔ ((is_live s.blocks op ≡ true) × ((frame : ℕ) → IsFrameInUse l s op frame → ⊥)) }
    ensures tests { (l : LayoutParts) (s : Memory) (op : ℕ) → IsLayout l → IsWellPlaced l s
        → list_all (is_all_free l s) (going_blocks l s.blocks op) ≡ is_none (frame_in_use l s op) }
    ensures history { (l : LayoutParts) (base : Memory) (before op frame : ℕ) (h : List Record) (r : Record)
        → IsLayout l → IsWellPlaced l base → IsLegal l base before (h ++ r ∷ []) → r.event ≡ Commit op
        → r.cpu < l.cpus
        → (r.reply ≡ Refused (NotFree frame)) ↔ IsLowestInUse l (value_of l base h) op frame }
{}
