//! Small changes of the state, each with what undoes it.
ghost use Rattle.std.specs.Prelude.{◌≡◌, ◌<◌, ◌^◌, IfOk, IsOk};
ghost use Rattle.hp_tape.specs.Deltas.{word_delta};
ghost use Rattle.hp_tape.specs.declared.deltas.Delta.TheVariants.{Map as MapDelta};
ghost use Rattle.hp_tape.specs.declared.deltas.ListId.TheVariants.{Area, Cpu as CpuList};

use crate::frame_changes::FrameChange;
use crate::row_changes::RowChange;
use crate::word_changes::WordChange;
use hp_units::{Auto, Class, Cpu, Frame, Kind, Order, Owner, Page, Pageblock, Pool, Words};
use std::alloc::{AllocError, Global};
use std::mem::size_of;

/// Names a list of frames. Takes three bytes.
#[derive(Clone, Copy, PartialEq, Eq, Drop)]
pub enum ListId {
    /// The free blocks of a class and an order, 0 to 10.
    Area { class: Class, order: u8 },
    /// The single frames of a pool on a processor's list. Processors are 0 to 63.
    Cpu { pool: Pool, cpu: u8 },
}

impl ListId {
    /// Returns the list of the free blocks of a class and an order.
    pub fn of_area(class: Class, order: Order) -> ListId
        requires { order < 256 }
        ensures { result ≡ Area class order }
    {
        let order = order.0 as u8;
        ListId::Area { class, order }
    }

    /// Returns the list of a pool and a processor.
    pub fn of_cpu(pool: Pool, cpu: Cpu) -> ListId
        requires { cpu < 256 }
        ensures { result ≡ CpuList pool cpu }
    {
        let cpu = cpu.0 as u8;
        ListId::Cpu { pool, cpu }
    }
}

/// One small change of the state, with what undoing it needs.
///
/// No delta holds a list of frames or a state. Orders, processors, owners, pages and indexes of
/// words take one or two bytes, frames and pageblocks four.
#[derive(Drop)]
pub enum Delta {
    /// A frame was put on a list, after another or at the front.
    Link {
        list: ListId,
        frame: Frame,
        after: Option<Frame>,
    },
    /// A frame left a list, on which it came after another or was at the front.
    Unlink {
        list: ListId,
        frame: Frame,
        after: Option<Frame>,
    },
    /// A pageblock's mobility or its isolation changed.
    Kind {
        pageblock: Pageblock,
        was: Kind,
        now: Kind,
    },
    /// A kernel block of an order, 0 to 10, began or ended at a frame.
    Kernel {
        frame: Frame,
        was: Option<u8>,
        now: Option<u8>,
    },
    /// A page, 0 to 65535, of an owner, 0 to 63, was mapped, unmapped or moved.
    Map {
        owner: u8,
        page: u16,
        change: FrameChange,
    },
    /// The buffers of two frames were swapped.
    Swap {
        a: Frame,
        b: Frame,
    },
    /// One word in a frame's buffer changed, and its old and new values are below 2^32. Words are
    /// counted from 0, and a frame has at most 512.
    Word {
        index: u16,
        frame: Frame,
        was: u32,
        now: u32,
    },
    /// One word in a frame's buffer changed, and its old or its new value is 2^32 or more.
    LargeWord {
        index: u16,
        frame: Frame,
        change: WordChange,
    },
    /// A frame without a buffer got one, which holds the first word of its page that is not 0.
    /// Words are counted from 0.
    Filled {
        index: u16,
        frame: Frame,
        now: u64,
    },
    /// A frame's buffer moved into the journal: its page was unmapped, or its last word that was
    /// not 0 became 0.
    Emptied {
        frame: Frame,
        words: Words,
    },
    /// The row of a memory block changed.
    Row(RowChange),
    /// The setting for added memory blocks changed.
    Auto {
        was: Auto,
        now: Auto,
    },
}

/// The size of a delta decides what a journal costs.
const _: () = prove!(size_of::<Delta>() <= 16);

/// The smallest word that needs more than four bytes.
const LARGE: u64 = 1 << 32;

impl Delta {
    /// Creates the delta of an owner's page.
    pub fn of_page(owner: Owner, page: Page, change: FrameChange) -> Delta
        requires owner { owner < 256 }
        requires page { page < 65536 }
        ensures { result ≡ MapDelta owner page change }
    {
        let owner = owner.0 as u8;
        let page = page.0 as u16;
        Delta::Map {
            owner,
            page,
            change,
        }
    }

    /// Creates the delta of a word, counted from 0, in a frame's buffer. Allocates only if one of
    /// the values is 2^32 or more.
    pub fn of_word(
        alloc: Global,
        frame: Frame,
        index: u32,
        was: u64,
        now: u64,
    ) -> Result<Delta, AllocError>
        requires { index < 65536 }
        ensures ok { IfOk result (λ delta. delta ≡ word_delta frame index was now) }
        ensures small { was < 2 ^ 32 → now < 2 ^ 32 → IsOk result }
    {
        let index = index as u16;
        if was < LARGE && now < LARGE {
            let (was, now) = (was as u32, now as u32);
            return Ok(Delta::Word {
                index,
                frame,
                was,
                now,
            });
        }
        let change = WordChange::new(alloc, was, now)?;
        Ok(Delta::LargeWord {
            index,
            frame,
            change,
        })
    }

    /// Returns a copy. Allocates for the words that the delta holds, if any.
    pub fn copy(&self, alloc: Global) -> Result<Delta, AllocError>
        ensures { IfOk result (λ copy. copy ≡ self.now) }
    {
        Ok(match self {
            Delta::Link { list, frame, after } => Delta::Link {
                list: *list,
                frame: *frame,
                after: *after,
            },
            Delta::Unlink { list, frame, after } => Delta::Unlink {
                list: *list,
                frame: *frame,
                after: *after,
            },
            Delta::Kind {
                pageblock,
                was,
                now,
            } => Delta::Kind {
                pageblock: *pageblock,
                was: *was,
                now: *now,
            },
            Delta::Kernel { frame, was, now } => Delta::Kernel {
                frame: *frame,
                was: *was,
                now: *now,
            },
            Delta::Map {
                owner,
                page,
                change,
            } => Delta::Map {
                owner: *owner,
                page: *page,
                change: *change,
            },
            Delta::Swap { a, b } => Delta::Swap { a: *a, b: *b },
            Delta::Word {
                index,
                frame,
                was,
                now,
            } => Delta::Word {
                index: *index,
                frame: *frame,
                was: *was,
                now: *now,
            },
            Delta::LargeWord {
                index,
                frame,
                change,
            } => Delta::LargeWord {
                index: *index,
                frame: *frame,
                change: change.copy(alloc)?,
            },
            Delta::Filled { index, frame, now } => Delta::Filled {
                index: *index,
                frame: *frame,
                now: *now,
            },
            Delta::Emptied { frame, words } => Delta::Emptied {
                frame: *frame,
                words: words.copy(alloc)?,
            },
            Delta::Row(change) => Delta::Row(change.copy()),
            Delta::Auto { was, now } => Delta::Auto {
                was: *was,
                now: *now,
            },
        })
    }
}
