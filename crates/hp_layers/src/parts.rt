//! Which layer a delta belongs to.
ghost use Rattle.std.specs.Prelude.{◌≡◌};
ghost use Rattle.hp_layers.specs.Parts.{part_of};

use hp_tape::{Delta, ListId};

/// A layer.
#[derive(Clone, Copy, PartialEq, Eq, Drop)]
pub(crate) enum Part {
    /// The free areas.
    Areas,
    /// The processors' lists.
    Lists,
    /// The owners' pages.
    Pages,
    /// The kernel blocks.
    Kernel,
    /// The rows of the memory blocks.
    Blocks,
}

/// Returns the layer that a delta belongs to.
pub(crate) fn part_of(delta: &Delta) -> Part
    ensures { result ≡ part_of delta.now }
{
    match delta {
        Delta::Link { list, .. } | Delta::Unlink { list, .. } => match list {
            ListId::Area { .. } => Part::Areas,
            ListId::Cpu { .. } => Part::Lists,
        },
        Delta::Kind { .. } => Part::Areas,
        Delta::Kernel { .. } => Part::Kernel,
        Delta::Map { .. }
        | Delta::Swap { .. }
        | Delta::Word { .. }
        | Delta::LargeWord { .. }
        | Delta::Filled { .. }
        | Delta::Emptied { .. } => Part::Pages,
        Delta::Row(_) | Delta::Auto { .. } => Part::Blocks,
    }
}
