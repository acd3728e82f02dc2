//! A small layout for the tests of several crates, and what its memory blocks are at boot.
//!
//! It has four memory blocks of four frames: two of zone Normal, one of zone Movable, and one that
//! is offline or absent at boot. The clauses of `four_blocks` state what the tests need of it.
#![tactic(auto)]

ghost use Rattle.std.specs.Prelude.{◌≡◌, IfOk};
ghost use Rattle.hp_units.specs.Arithmetic.{frame_count, pageblock_count};

use hp_units::{Boot, Layout, LayoutFault, Parts};
use std::alloc::Global;

/// Four memory blocks: the third is in zone Movable, and the last is offline at boot.
pub const LAST_OFFLINE: &[Boot] = &[Boot::Normal, Boot::Normal, Boot::Movable, Boot::Offline];

/// Four memory blocks: the third is in zone Movable, and the last is absent at boot.
pub const LAST_ABSENT: &[Boot] = &[Boot::Normal, Boot::Normal, Boot::Movable, Boot::Absent];

/// Returns a layout of four memory blocks, each of one pageblock of four frames. It has two
/// processors, two owners with eight pages each, two words per page, and room for `history`
/// records.
pub fn four_blocks(alloc: Global, boot: &[Boot], history: u64) -> Result<Layout, LayoutFault>
    ensures order { IfOk result (λ layout. layout.order ≡ 2) }
    ensures frames { IfOk result (λ layout. frame_count layout ≡ 16) }
    ensures pageblocks { IfOk result (λ layout. pageblock_count layout ≡ 4) }
    ensures blocks { IfOk result (λ layout. layout.blocks ≡ 4) }
    ensures cpus { IfOk result (λ layout. layout.cpus ≡ 2) }
    ensures owners { IfOk result (λ layout. layout.owners ≡ 2) }
    ensures pages { IfOk result (λ layout. layout.pages ≡ 8) }
    ensures words { IfOk result (λ layout. layout.words ≡ 2) }
{
    let parts = Parts {
        order: 2,
        pageblocks: 1,
        blocks: 4,
        cpus: 2,
        batch: 2,
        high: 2,
        owners: 2,
        pages: 8,
        words: 2,
        history,
        boot,
    };
    Layout::new(alloc, &parts)
}
