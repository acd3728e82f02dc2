//! The laws of undo and Cancel. Each law is the contract of a function with an empty body.
ghost use Rattle.std.specs.Prelude.{◌≡◌, ℕ, ◌+◌, ◌-◌, ◌≤◌, false, List, [], ◌∷◌, ◌++◌, Some, length, take, slice_get};
ghost use Rattle.hp_units.specs.Memory.{Memory};
ghost use Rattle.hp_units.specs.LayoutParts.{LayoutParts};
ghost use Rattle.hp_units.specs.History.{IsLegal, is_refused, net_of, run, steps_until, value_of};
ghost use Rattle.hp_units.specs.declared.events.Event.TheVariants.{Begin, Cancel, UndoAfter};
ghost use Rattle.hp_units.specs.declared.plans.Item.{Item};
ghost use Rattle.hp_units.specs.declared.replies.Record.{Record};
ghost use Rattle.hp_units.specs.declared.replies.Reply.TheVariants.{Restored};

/// If an undo to `serial` is not refused, it leaves the state to which the steps up to `serial`
/// lead, without those that were undone before.
pub fn undone_state()
    ensures { (l : LayoutParts) (base : Memory) (serial : ℕ) (h : List Record) (r : Record)
        → r.event ≡ UndoAfter serial
        → is_refused r.reply ≡ false
        → value_of l base (h ++ r ∷ []) ≡ run l base (steps_until serial (net_of h)) }
{}

/// A Cancel that restores leaves the state just before its operation's Begin. The serial of the
/// Begin is the operation's number.
pub fn restored_state()
    ensures { (l : LayoutParts) (base : Memory) (before op : ℕ) (h : List Record) (r : Record)
        → IsLegal l base before (h ++ r ∷ [])
        → r.event ≡ Cancel op
        → r.reply ≡ Restored
        → (b : Record) × (plan : List Item) × (slice_get h (op - before - 1) ≡ Some b) × (b.serial ≡ op)
        × (b.event ≡ Begin plan)
        × (value_of l base (h ++ r ∷ []) ≡ value_of l base (take (op - before - 1) h)) }
{}

/// For each prefix of the steps that are not undone, some undo keeps just that prefix. The state
/// after the prefix is the one just before the next step.
pub fn earlier_states()
    ensures prefix { (l : LayoutParts) (base : Memory) (before k : ℕ) (h : List Record)
        → IsLegal l base before h
        → k ≤ length (net_of h)
        → (serial : ℕ) × (before ≤ serial) × (serial ≤ before + length h)
        × (steps_until serial (net_of h) ≡ take k (net_of h)) }
    ensures state { (l : LayoutParts) (base : Memory) (before k : ℕ) (h : List Record) (r : Record)
        → IsLegal l base before h
        → slice_get (net_of h) k ≡ Some r
        → run l base (take k (net_of h)) ≡ value_of l base (take (r.serial - before - 1) h) }
{}
