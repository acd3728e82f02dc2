//! The laws of operations on memory blocks, in legal histories from a well placed base state. Each
//! law is the contract of a function with an empty body.
ghost use Rattle.std.specs.Prelude.{◌≡◌, ℕ, false, List, [], ◌∷◌, ◌++◌};
ghost use Rattle.hp_laws.specs.Operations.{BeginsAt, IsOpenBehind, RowsAre, state_before, state_behind, wished_row};
ghost use Rattle.hp_units.specs.History.{IsLegal, is_refused, net_of, value_of};
ghost use Rattle.hp_units.specs.LayoutParts.{IsLayout, LayoutParts};
ghost use Rattle.hp_units.specs.Memory.{Memory, row_of};
ghost use Rattle.hp_units.specs.Placement.{IsWellPlaced};
ghost use Rattle.hp_units.specs.Rows.{claimed_row};
ghost use Rattle.hp_units.specs.declared.events.Event.TheVariants.{Cancel, Commit};
ghost use Rattle.hp_units.specs.declared.plans.Item.{Item};
ghost use Rattle.hp_units.specs.declared.replies.Record.{Record};

/// A Begin that is not undone claims each block of its plan. While no Commit and no Cancel of its
/// operation follows, the rows of these blocks stay as the Begin left them.
pub fn operations_hold_their_rows()
    ensures claimed { (l : LayoutParts) (base : Memory) (before : ℕ) (h : List Record) (place : ℕ)
        (b : Record) (plan : List Item)
        → IsLayout l → IsWellPlaced l base
        → IsLegal l base before h → BeginsAt (net_of h) place b plan
        → RowsAre (state_behind l base before h b) plan (λ item.
        claimed_row (row_of (state_before l base before h b).blocks item.block) b.serial item.wish) }
    ensures held { (l : LayoutParts) (base : Memory) (before : ℕ) (h : List Record) (place : ℕ) (b : Record)
        (plan : List Item)
        → IsLayout l → IsWellPlaced l base
        → IsLegal l base before h → BeginsAt (net_of h) place b plan → IsOpenBehind b.serial place (net_of h)
        → RowsAre (value_of l base h) plan
        (λ item. row_of (state_behind l base before h b).blocks item.block) }
{}

/// A Commit that is not refused gives each block of its operation's plan its wish, all in this one
/// step. Just before the Commit, their rows are still those that the Begin left (Linux, memory
/// hotplug: offlining).
pub fn commits_grant_wishes()
    ensures held { (l : LayoutParts) (base : Memory) (before : ℕ) (h : List Record) (r : Record) (place : ℕ)
        (b : Record) (plan : List Item)
        → IsLayout l → IsWellPlaced l base
        → IsLegal l base before (h ++ r ∷ []) → BeginsAt (net_of h) place b plan → r.event ≡ Commit b.serial
        → is_refused r.reply ≡ false
        → RowsAre (value_of l base h) plan
        (λ item. row_of (state_behind l base before h b).blocks item.block) }
    ensures granted { (l : LayoutParts) (base : Memory) (before : ℕ) (h : List Record) (r : Record)
        (place : ℕ) (b : Record) (plan : List Item)
        → IsLayout l → IsWellPlaced l base
        → IsLegal l base before (h ++ r ∷ []) → BeginsAt (net_of h) place b plan → r.event ≡ Commit b.serial
        → is_refused r.reply ≡ false
        → RowsAre (value_of l base (h ++ r ∷ [])) plan (λ item. wished_row item.wish) }
{}

/// A Cancel that is not refused gives each block of its operation's plan the row that it had just
/// before the Begin. This holds whether the Cancel restores or releases (Linux, memory hotplug:
/// undo_isolate).
pub fn cancels_give_rows_back()
    ensures { (l : LayoutParts) (base : Memory) (before : ℕ) (h : List Record) (r : Record) (place : ℕ)
        (b : Record) (plan : List Item)
        → IsLayout l → IsWellPlaced l base
        → IsLegal l base before (h ++ r ∷ []) → BeginsAt (net_of h) place b plan → r.event ≡ Cancel b.serial
        → is_refused r.reply ≡ false
        → RowsAre (value_of l base (h ++ r ∷ [])) plan
        (λ item. row_of (state_before l base before h b).blocks item.block) }
{}
