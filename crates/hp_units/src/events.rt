//! The events of the machine.
ghost use Rattle.std.specs.Prelude.{◌≡◌, ◌↔◌, IfOk, IsTrue, OnErr};
ghost use Rattle.hp_units.specs.Marks.{mark_of};
ghost use Rattle.hp_units.specs.declared.marks.Mark.TheVariants.{Opens};

use crate::plans::Plan;
use crate::rows::{Auto, Zone};
use crate::{Block, Cpu, Frame, Order, Owner, Page, Serial};
use std::alloc::{AllocError, Global};

/// An event: one request of one processor.
///
/// specs/Refusals and specs/Step define its refusals and its effect. specs/History defines them for
/// an UndoAfter, and for a Cancel that restores.
#[derive(PartialEq, Drop)]
pub enum Event {
    /// Takes a block of 2^order frames for the kernel (Gorman, chapter 6). A single frame comes
    /// from the calling processor's list, unless that list is empty and cannot be refilled. Any
    /// other block comes from the free areas. The reply is the block's first frame.
    KernelAlloc {
        order: Order,
    },
    /// Gives back the kernel block that starts at `frame` (Gorman, chapter 6; Knuth, volume 1,
    /// section 2.5).
    KernelFree {
        frame: Frame,
    },
    /// Maps an owner's page to a free frame. All words of the page become 0.
    Map {
        owner: Owner,
        page: Page,
    },
    /// Unmaps an owner's page and gives its frame back.
    Unmap {
        owner: Owner,
        page: Page,
    },
    /// Writes one 8-byte word of a mapped page. Words are counted from 0.
    Write {
        owner: Owner,
        page: Page,
        index: u32,
        value: u64,
    },
    /// Reads one 8-byte word of a mapped page; the reply is the word. A read is not a step.
    Read {
        owner: Owner,
        page: Page,
        index: u32,
    },
    /// Gives all frames on a processor's lists back to the free areas (Gorman, chapter 6).
    Drain {
        cpu: Cpu,
    },
    /// Takes an offline memory block online in a zone (Linux guide, Memory Hot(Un)Plug).
    Online {
        block: Block,
        zone: Zone,
    },
    /// Begins an operation: claims the blocks of its plan, and isolates those that are to go
    /// offline (Linux guide).
    Begin {
        plan: Plan,
    },
    /// Drains a processor's lists as a step of an operation.
    DrainFor {
        op: Serial,
        cpu: Cpu,
    },
    /// Moves the page at the lowest mapped frame of the blocks that the operation is taking offline
    /// (Linux guide, Memory Hot(Un)Plug).
    Migrate {
        op: Serial,
    },
    /// Gives every block of the operation what its plan wishes, in one step.
    Commit {
        op: Serial,
    },
    /// Ends the operation without a commit.
    Cancel {
        op: Serial,
    },
    /// Undoes all steps with a serial above this one.
    UndoAfter {
        serial: Serial,
    },
    /// Adds the absent memory block at a byte address. It becomes offline, or online if the machine
    /// is set so (Linux guide: probe, auto_online_blocks).
    Probe {
        address: u64,
    },
    /// Removes an offline memory block: it becomes absent (Linux guide, Memory Hot(Un)Plug).
    Remove {
        block: Block,
    },
    /// Sets what an added memory block becomes (Linux guide: auto_online_blocks).
    SetAuto {
        auto: Auto,
    },
}

impl Event {
    /// Returns a copy. Only the plan of a Begin allocates.
    #[inline(always)]
    pub fn copy(&self, alloc: Global) -> Result<Event, AllocError>
        ensures ok { IfOk result (λ event. event ≡ self.now) }
        ensures err { OnErr result (mark_of self.now ≡ Opens) }
    {
        Ok(match self {
            Event::Begin { plan } => Event::Begin {
                plan: plan.copy(alloc)?,
            },
            Event::KernelAlloc { order } => Event::KernelAlloc { order: *order },
            Event::KernelFree { frame } => Event::KernelFree { frame: *frame },
            Event::Map { owner, page } => Event::Map {
                owner: *owner,
                page: *page,
            },
            Event::Unmap { owner, page } => Event::Unmap {
                owner: *owner,
                page: *page,
            },
            Event::Write {
                owner,
                page,
                index,
                value,
            } => Event::Write {
                owner: *owner,
                page: *page,
                index: *index,
                value: *value,
            },
            Event::Read { owner, page, index } => Event::Read {
                owner: *owner,
                page: *page,
                index: *index,
            },
            Event::Drain { cpu } => Event::Drain { cpu: *cpu },
            Event::Online { block, zone } => Event::Online {
                block: *block,
                zone: *zone,
            },
            Event::DrainFor { op, cpu } => Event::DrainFor { op: *op, cpu: *cpu },
            Event::Migrate { op } => Event::Migrate { op: *op },
            Event::Commit { op } => Event::Commit { op: *op },
            Event::Cancel { op } => Event::Cancel { op: *op },
            Event::UndoAfter { serial } => Event::UndoAfter { serial: *serial },
            Event::Probe { address } => Event::Probe { address: *address },
            Event::Remove { block } => Event::Remove { block: *block },
            Event::SetAuto { auto } => Event::SetAuto { auto: *auto },
        })
    }

    /// Returns whether both events are equal.
    pub fn same(&self, other: &Event) -> bool
        ensures { IsTrue result ↔ (self.now ≡ other.now) }
    {
        *self == *other
    }
}
