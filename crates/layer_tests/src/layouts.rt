//! The layout of the tests.
ghost use Rattle.std.specs.Prelude.{◌≡◌, IfOk};
ghost use Rattle.layer_tests.specs.SmallLayouts.{two_blocks};

use hp_units::{Boot, Layout, LayoutFault, Parts};
use std::alloc::Global;

pub(crate) const BOOT: &[Boot] = &[Boot::Offline, Boot::Offline];

/// Returns a layout of two memory blocks of two frames each, with two words per frame, and one
/// owner with two pages.
pub(crate) fn two_blocks(alloc: Global) -> Result<Layout, LayoutFault>
    ensures { IfOk result (λ layout. layout ≡ two_blocks) }
{
    let parts = Parts {
        order: 1,
        pageblocks: 1,
        blocks: 2,
        cpus: 1,
        batch: 1,
        high: 1,
        owners: 1,
        pages: 2,
        words: 2,
        history: 1,
        boot: BOOT,
    };
    Layout::new(alloc, &parts)
}
