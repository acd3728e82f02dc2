//! The laws of operations over legal histories that follow one another, from a well placed base
//! state: an operation may begin in one of them and end in a later one. Each law is the contract of
//! a function with an empty body.
ghost use Rattle.std.specs.Prelude.{◌≡◌, ℕ, false, List, [], ◌∷◌, ◌++◌};
ghost use Rattle.hp_laws.specs.Operations.{BeginsAt, IsOpenBehind, RowsAre, wished_row};
ghost use Rattle.hp_laws.specs.Seals.{AreLegal, net_of_all, state_just_after, state_just_before, value_of_all};
ghost use Rattle.hp_units.specs.History.{is_refused};
ghost use Rattle.hp_units.specs.LayoutParts.{IsLayout, LayoutParts};
ghost use Rattle.hp_units.specs.Memory.{Memory, row_of};
ghost use Rattle.hp_units.specs.Placement.{IsWellPlaced};
ghost use Rattle.hp_units.specs.Rows.{claimed_row};
ghost use Rattle.hp_units.specs.declared.events.Event.TheVariants.{Cancel, Commit};
ghost use Rattle.hp_units.specs.declared.plans.Item.{Item};
ghost use Rattle.hp_units.specs.declared.replies.Record.{Record};

/// A Begin that is not undone claims each block of its plan. While no Commit and no Cancel of its
/// operation follows, the rows of these blocks stay as the Begin left them, even if the history is
/// sealed in between.
pub fn operations_hold_across_seals()
    ensures claimed { (l : LayoutParts) (base : Memory) (before : ℕ) (hs : List (List Record)) (place : ℕ)
        (b : Record) (plan : List Item)
        → IsLayout l → IsWellPlaced l base → AreLegal l base before hs → BeginsAt (net_of_all hs) place b plan
        → RowsAre (state_just_after l base before hs b) plan (λ item. claimed_row
        (row_of (state_just_before l base before hs b).blocks item.block) b.serial item.wish) }
    ensures held { (l : LayoutParts) (base : Memory) (before : ℕ) (hs : List (List Record)) (place : ℕ)
        (b : Record) (plan : List Item)
        → IsLayout l → IsWellPlaced l base → AreLegal l base before hs → BeginsAt (net_of_all hs) place b plan
        → IsOpenBehind b.serial place (net_of_all hs)
        → RowsAre (value_of_all l base hs) plan
        (λ item. row_of (state_just_after l base before hs b).blocks item.block) }
{}

/// A Commit that is not refused gives each block of its operation's plan its wish, all in this one
/// step, in whichever history the operation began. Just before the Commit, their rows are still
/// those that the Begin left (Linux, memory hotplug: offlining).
pub fn commits_grant_across_seals()
    ensures held { (l : LayoutParts) (base : Memory) (before : ℕ) (hs : List (List Record)) (h : List Record)
        (r : Record) (place : ℕ) (b : Record) (plan : List Item)
        → IsLayout l → IsWellPlaced l base → AreLegal l base before (hs ++ (h ++ r ∷ []) ∷ [])
        → BeginsAt (net_of_all (hs ++ h ∷ [])) place b plan → r.event ≡ Commit b.serial
        → is_refused r.reply ≡ false
        → RowsAre (value_of_all l base (hs ++ h ∷ [])) plan
        (λ item. row_of (state_just_after l base before (hs ++ h ∷ []) b).blocks item.block) }
    ensures granted { (l : LayoutParts) (base : Memory) (before : ℕ) (hs : List (List Record))
        (h : List Record) (r : Record) (place : ℕ) (b : Record) (plan : List Item)
        → IsLayout l → IsWellPlaced l base → AreLegal l base before (hs ++ (h ++ r ∷ []) ∷ [])
        → BeginsAt (net_of_all (hs ++ h ∷ [])) place b plan → r.event ≡ Commit b.serial
        → is_refused r.reply ≡ false
        → RowsAre (value_of_all l base (hs ++ (h ++ r ∷ []) ∷ [])) plan (λ item. wished_row item.wish) }
{}

/// A Cancel that is not refused gives each block of its operation's plan the row that it had just
/// before the Begin. This holds whether the Cancel restores or releases, and in whichever history
/// the operation began (Linux, memory hotplug: undo_isolate).
pub fn cancels_give_back_across_seals()
    ensures { (l : LayoutParts) (base : Memory) (before : ℕ) (hs : List (List Record)) (h : List Record)
        (r : Record) (place : ℕ) (b : Record) (plan : List Item)
        → IsLayout l → IsWellPlaced l base → AreLegal l base before (hs ++ (h ++ r ∷ []) ∷ [])
        → BeginsAt (net_of_all (hs ++ h ∷ [])) place b plan → r.event ≡ Cancel b.serial
        → is_refused r.reply ≡ false
        → RowsAre (value_of_all l base (hs ++ (h ++ r ∷ []) ∷ [])) plan
        (λ item. row_of (state_just_before l base before (hs ++ h ∷ []) b).blocks item.block) }
{}
