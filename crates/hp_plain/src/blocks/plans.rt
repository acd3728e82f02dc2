//! What a plan wishes for a block.
ghost use Rattle.std.specs.Prelude.{◌≡◌, ◌==◌};
ghost use Rattle.hp_units.specs.Rows.{wish_of};

use hp_units::{Block, Item, Wish};

/// Returns what the plan wishes for the memory block, by the first item that names it, or `None` if
/// no item does.
pub fn wish_of(plan: &[Item], block: Block) -> Option<Wish>
    ensures { result ≡ wish_of plan.now block }
{
    plan.iter()
        .find(|item| item.block == block)
        .map(|item| item.wish)
}
