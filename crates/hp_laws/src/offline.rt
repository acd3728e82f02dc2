//! The laws of an offline that nothing disturbs. Each law is the contract of a function with an
//! empty body.
ghost use Rattle.std.specs.Prelude.{◌≡◌, ℕ, ◌+◌, ◌<◌, false, List, [], ◌∷◌, ◌++◌, length};
ghost use Rattle.hp_units.specs.Boot.{boot_memory};
ghost use Rattle.hp_units.specs.History.{IsLegal, net_of, value_of};
ghost use Rattle.hp_units.specs.LayoutParts.{IsLayout, LayoutParts};
ghost use Rattle.hp_units.specs.Memory.{Blocks, Memory};
ghost use Rattle.hp_units.specs.Placement.{IsWellPlaced};
ghost use Rattle.hp_units.specs.Rows.{is_live};
ghost use Rattle.hp_units.specs.declared.events.Event.TheVariants.{Commit};
ghost use Rattle.hp_units.specs.declared.replies.Record.{Record};
ghost use Rattle.hp_units.specs.declared.replies.Reply.TheVariants.{Done};
ghost use Rattle.hp_laws.specs.Offline.{AreClaimedUpTo, IsUndisturbed};

/// A Commit by a processor of the layout is done if three things hold: all steps after its
/// operation's Begin are the operation's own drains and migrations; among them is a drain of each
/// processor; and no frame of the blocks that it takes offline holds a page.
///
/// This holds for legal histories from boot, and from any well placed base state in which no block
/// is held by an operation of this number. So it holds for any well placed base in which each
/// operation that holds a block has a number up to the serial of the last record before the base
/// (Linux, memory hotplug: offlining).
pub fn undisturbed_offline_commits()
    ensures boot { (l : LayoutParts) (op : ℕ) (h : List Record) (r : Record) → IsLayout l
        → IsLegal l (boot_memory l) 0 (h ++ r ∷ []) → r.event ≡ Commit op → r.cpu < l.cpus
        → IsUndisturbed l (value_of l (boot_memory l) h) op (net_of h) → r.reply ≡ Done }
    ensures base { (l : LayoutParts) (base : Memory) (before op : ℕ) (h : List Record) (r : Record)
        → IsLayout l → IsWellPlaced l base → is_live base.blocks op ≡ false
        → IsLegal l base before (h ++ r ∷ [])
        → r.event ≡ Commit op → r.cpu < l.cpus → IsUndisturbed l (value_of l base h) op (net_of h)
        → r.reply ≡ Done }
    ensures numbered { (l : LayoutParts) (base : Memory) (before op : ℕ) (h : List Record) (r : Record)
        → IsLayout l → IsWellPlaced l base → AreClaimedUpTo before base.blocks
        → IsLegal l base before (h ++ r ∷ [])
        → r.event ≡ Commit op → r.cpu < l.cpus → IsUndisturbed l (value_of l base h) op (net_of h)
        → r.reply ≡ Done }
{}

/// If each operation that holds a block in the base state has a number up to the serial of the last
/// record before the base, then after a legal history each operation that holds a block has a
/// number up to the serial of the history's last record. So no operation with a greater number is
/// live. At boot, no operation with a number above 0 is live.
pub fn operations_are_numbered()
    ensures boot { (l : LayoutParts) → AreClaimedUpTo 0 (boot_memory l).blocks }
    ensures history { (l : LayoutParts) (base : Memory) (before : ℕ) (h : List Record)
        → IsLegal l base before h → AreClaimedUpTo before base.blocks
        → AreClaimedUpTo (before + length h) (value_of l base h).blocks }
    ensures greater { (last op : ℕ) (blocks : Blocks) → AreClaimedUpTo last blocks → last < op
        → is_live blocks op ≡ false }
{}
