//! Compares layouts.
ghost use Rattle.std.specs.Prelude.{◌≡◌, ◌≢◌, MatchBool};
ghost use Rattle.hp_machine.specs.SameLayouts.{blocks_of, owners_of, processors_of};

use hp_units::{Boot, Layout};

/// Returns whether two layouts are the same.
#[tactic(auto, using(crate::proofs::SameLayouts::same_parts))]
pub(crate) fn same_layout(layout: &Layout, other: &Layout) -> bool
    ensures { MatchBool result (layout.now ≡ other.now) (layout.now ≢ other.now) }
{
    same_blocks(layout, other)
        && same_processors(layout, other)
        && same_owners(layout, other)
        && same_boot(layout.boot(), other.boot())
}

/// Returns whether two layouts have equally many memory blocks, of the same sizes.
fn same_blocks(layout: &Layout, other: &Layout) -> bool
    ensures { MatchBool result (blocks_of layout.now ≡ blocks_of other.now)
        (blocks_of layout.now ≢ blocks_of other.now) }
{
    layout.order() == other.order()
        && layout.pageblocks() == other.pageblocks()
        && layout.blocks() == other.blocks()
}

/// Returns whether two layouts have equally many processors, with lists of the same sizes.
fn same_processors(layout: &Layout, other: &Layout) -> bool
    ensures { MatchBool result (processors_of layout.now ≡ processors_of other.now)
        (processors_of layout.now ≢ processors_of other.now) }
{
    layout.cpus() == other.cpus()
        && layout.batch() == other.batch()
        && layout.high() == other.high()
}

/// Returns whether two layouts have equally many owners, pages and words, and the
/// same limit of records.
fn same_owners(layout: &Layout, other: &Layout) -> bool
    ensures { MatchBool result (owners_of layout.now ≡ owners_of other.now)
        (owners_of layout.now ≢ owners_of other.now) }
{
    layout.owners() == other.owners()
        && layout.pages() == other.pages()
        && layout.words() == other.words()
        && layout.history() == other.history()
}

/// Returns whether memory blocks are the same at boot.
fn same_boot(boot: &[Boot], others: &[Boot]) -> bool
    ensures { MatchBool result (boot.now ≡ others.now) (boot.now ≢ others.now) }
{
    if boot.len() != others.len() {
        return false;
    }
    for block in 0..boot.len() {
        if boot[block] != others[block] {
            return false;
        }
    }
    true
}
