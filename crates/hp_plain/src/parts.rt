//! One part of a state.
use hp_units::{
    Auto, Block, Class, Cpu, Frame, Kind, Order, Owner, Page, Pageblock, Pool, Row, Words,
};

/// One entry of a state, to be set in an `Image`.
#[derive(Drop)]
pub enum Part {
    /// A free block of 2^order frames, for the back of its class's list.
    Free {
        class: Class,
        order: Order,
        frame: Frame,
    },
    /// A single frame, for the back of a processor's list.
    Cached {
        cpu: Cpu,
        pool: Pool,
        frame: Frame,
    },
    /// An owner's page: its frame, and as many words as a frame of the layout has.
    Mapped {
        owner: Owner,
        page: Page,
        frame: Frame,
        words: Words,
    },
    /// A kernel block of 2^order frames, by its first frame.
    Kernel {
        frame: Frame,
        order: Order,
    },
    /// The kind of a pageblock.
    Kind {
        pageblock: Pageblock,
        kind: Kind,
    },
    /// The row of a memory block.
    Row {
        block: Block,
        row: Row,
    },
    /// What an added memory block becomes.
    Auto {
        auto: Auto,
    },
}
