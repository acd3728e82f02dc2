//! The layout of a machine: its sizes, and what each memory block is at boot.
ghost use Rattle.std.specs.Prelude.{◌≡◌, ◌*◌, ◌<◌, ◌≤◌, None, IfOk, IfErr, OnOk, IsTrue};
ghost use Rattle.hp_units.specs.Arithmetic.{block_bytes, block_of, block_size, buddy, frame_count, pageblock_count, pageblock_of, pageblock_size};
ghost use Rattle.hp_units.specs.LayoutParts.{IsLayout, frame_fault, is_pageblock_count, is_within, layout_fault, owner_fault, processor_fault};
ghost use Rattle.hp_units.specs.PartsSeen.{IsLayoutFault, parts_seen};

use crate::rows::Boot;
use crate::{Block, Frame, Order, Pageblock};
use std::alloc::{AllocError, Global};
use std::marker::Model;

/// The sizes from which a layout is made.
#[derive(Clone, Copy, Drop)]
pub struct Parts<'a> {
    /// The greatest order, 0 to 10.
    pub order: u64,
    /// Pageblocks per memory block: a power of two, 1 to 64.
    pub pageblocks: u64,
    /// Memory blocks, 1 to 256, with at most 2^20 frames in all.
    pub blocks: u64,
    /// Processors, 1 to 64.
    pub cpus: u64,
    /// Frames that a spill takes off a processor's list, and a refill adds at most: 1 to `high`.
    pub batch: u64,
    /// Frames that a processor's list can hold before it spills, at most 1024.
    pub high: u64,
    /// Owners, 1 to 64.
    pub owners: u64,
    /// Pages per owner, 1 to 65536.
    pub pages: u64,
    /// 8-byte words per frame, 1 to 512.
    pub words: u64,
    /// The maximum number of records in a history, 1 to 16777216.
    pub history: u64,
    /// What each memory block is at boot, one entry per block.
    pub boot: &'a [Boot],
}

/// Why sizes do not make a layout: the first of these faults that applies.
#[derive(Clone, Copy, Debug, PartialEq, Eq, Drop)]
pub enum LayoutFault {
    /// The order is above 10.
    BadOrder,
    /// The number of pageblocks per memory block is not a power of two up to 64.
    BadPageblocks,
    /// The number of memory blocks is not within 1 to 256.
    BadBlocks,
    /// There are more than 2^20 frames.
    TooManyFrames,
    /// The number of processors is not within 1 to 64.
    BadCpus,
    /// Not 1 <= batch <= high <= 1024.
    BadMarks,
    /// The number of owners is not within 1 to 64.
    BadOwners,
    /// The number of pages per owner is not within 1 to 65536.
    BadPages,
    /// The number of words per frame is not within 1 to 512.
    BadWords,
    /// The limit of the history is not within 1 to 16777216.
    BadLimit,
    /// There is not exactly one boot entry per memory block.
    BadBoot,
    /// Memory allocation failed.
    OutOfMemory,
}

/// A layout whose sizes are within their limits.
#[derive(Drop)]
pub struct Layout {
    order: u32,
    pageblocks: u32,
    blocks: u32,
    cpus: u32,
    batch: u32,
    high: u32,
    owners: u32,
    pages: u32,
    words: u32,
    history: u64,
    boot: Vec<Boot>,
}

impl Model for Layout {
    ghost use Rattle.hp_units.specs.LayoutParts.{LayoutParts, IsLayout};

    ghost Value = { LayoutParts };

    ghost view = { λ l. record {
      order = l.order;
      pageblocks = l.pageblocks;
      blocks = l.blocks;
      cpus = l.cpus;
      batch = l.batch;
      high = l.high;
      owners = l.owners;
      pages = l.pages;
      words = l.words;
      history = l.history;
      boot = l.boot.items;
    } };

    ghost invariant = { λ l. IsLayout (record {
      order = l.order;
      pageblocks = l.pageblocks;
      blocks = l.blocks;
      cpus = l.cpus;
      batch = l.batch;
      high = l.high;
      owners = l.owners;
      pages = l.pages;
      words = l.words;
      history = l.history;
      boot = l.boot.items;
    }) };
}

impl Layout {
    /// Creates a layout, or returns the first fault of its sizes. Running out of memory comes last.
    pub fn new(alloc: Global, parts: &Parts<'_>) -> Result<Layout, LayoutFault>
        ensures ok { IfOk result (λ layout. layout ≡ parts_seen parts.now) }
        ensures within { OnOk result (layout_fault (parts_seen parts.now) ≡ None) }
        ensures err { IfErr result (λ fault. IsLayoutFault (parts_seen parts.now) fault) }
    {
        if let Some(fault) = first_fault(parts) {
            return Err(fault);
        }
        let Ok(boot) = Vec::from_slice(alloc, parts.boot) else {
            return Err(LayoutFault::OutOfMemory);
        };
        Ok(Layout {
            order: parts.order as u32,
            pageblocks: parts.pageblocks as u32,
            blocks: parts.blocks as u32,
            cpus: parts.cpus as u32,
            batch: parts.batch as u32,
            high: parts.high as u32,
            owners: parts.owners as u32,
            pages: parts.pages as u32,
            words: parts.words as u32,
            history: parts.history,
            boot,
        })
    }

    /// Returns a copy.
    pub fn copy(&self, alloc: Global) -> Result<Layout, AllocError>
        ensures { IfOk result (λ layout. layout ≡ self.now) }
    {
        let boot = Vec::from_slice(alloc, &self.boot)?;
        Ok(Layout {
            order: self.order,
            pageblocks: self.pageblocks,
            blocks: self.blocks,
            cpus: self.cpus,
            batch: self.batch,
            high: self.high,
            owners: self.owners,
            pages: self.pages,
            words: self.words,
            history: self.history,
            boot,
        })
    }

    /// Returns the greatest order, 0 to 10.
    pub fn order(&self) -> u32
        ensures is { result ≡ self.now.order }
        ensures layout { IsLayout self.now }
    {
        self.order
    }

    /// Returns the number of pageblocks per memory block, a power of two from 1 to 64.
    pub fn pageblocks(&self) -> u32
        ensures is { result ≡ self.now.pageblocks }
        ensures layout { IsLayout self.now }
    {
        self.pageblocks
    }

    /// Returns the number of memory blocks, 1 to 256.
    pub fn blocks(&self) -> u32
        ensures is { result ≡ self.now.blocks }
        ensures layout { IsLayout self.now }
    {
        self.blocks
    }

    /// Returns the number of processors, 1 to 64.
    pub fn cpus(&self) -> u32
        ensures is { result ≡ self.now.cpus }
        ensures layout { IsLayout self.now }
    {
        self.cpus
    }

    /// Returns how many frames a spill removes, and a refill adds at most: 1 to `high`.
    pub fn batch(&self) -> u32
        ensures is { result ≡ self.now.batch }
        ensures layout { IsLayout self.now }
    {
        self.batch
    }

    /// Returns how many frames a processor's list can hold before it spills, at most 1024.
    pub fn high(&self) -> u32
        ensures is { result ≡ self.now.high }
        ensures layout { IsLayout self.now }
    {
        self.high
    }

    /// Returns the number of owners, 1 to 64.
    pub fn owners(&self) -> u32
        ensures is { result ≡ self.now.owners }
        ensures layout { IsLayout self.now }
    {
        self.owners
    }

    /// Returns the number of pages per owner, 1 to 65536.
    pub fn pages(&self) -> u32
        ensures is { result ≡ self.now.pages }
        ensures layout { IsLayout self.now }
    {
        self.pages
    }

    /// Returns the number of 8-byte words per frame, 1 to 512.
    pub fn words(&self) -> u32
        ensures is { result ≡ self.now.words }
        ensures layout { IsLayout self.now }
    {
        self.words
    }

    /// Returns the maximum number of records in a history, 1 to 16777216.
    pub fn history(&self) -> u64
        ensures is { result ≡ self.now.history }
        ensures layout { IsLayout self.now }
    {
        self.history
    }

    /// Returns what each memory block is at boot, one entry per block.
    pub fn boot(&self) -> &[Boot]
        ensures is { result.now ≡ self.now.boot }
        ensures layout { IsLayout self.now }
    {
        self.boot.as_slice()
    }

    /// Returns the number of frames, at most 2^20.
    pub fn frames(&self) -> u32
        ensures is { result ≡ frame_count self.now }
        ensures layout { IsLayout self.now }
    {
        self.blocks * self.block_size()
    }

    /// Returns the number of frames per pageblock, at most 2^10.
    pub fn pageblock_size(&self) -> u32
        ensures is { result ≡ pageblock_size self.now }
        ensures layout { IsLayout self.now }
    {
        1 << self.order
    }

    /// Returns the number of frames per memory block, at most 2^16 (Linux, memory hotplug: a memory
    /// block is whole pageblocks).
    pub fn block_size(&self) -> u32
        ensures is { result ≡ block_size self.now }
        ensures layout { IsLayout self.now }
    {
        self.pageblocks << self.order
    }

    /// Returns the number of bytes per memory block, with eight bytes per word: at most 2^28
    /// (Linux, memory hotplug: block_size_bytes).
    pub fn block_bytes(&self) -> u64
        ensures is { result ≡ block_bytes self.now }
        ensures some { 0 < result }
    {
        u64::from(self.block_size()) * u64::from(self.words) * 8
    }

    /// Returns the first frame of a pageblock.
    pub fn first_frame(&self, pageblock: Pageblock) -> Frame
        requires { pageblock < pageblock_count self.now }
        ensures { result ≡ pageblock * pageblock_size self.now }
    {
        Frame(pageblock.0 << self.order)
    }
}

/// Returns whether low <= n <= high.
pub fn is_within(low: u64, high: u64, n: u64) -> bool
    ensures is { result ≡ is_within low high n }
    ensures bound { IsTrue result → n ≤ high }
{
    low <= n && n <= high
}

/// Returns whether `n` is a valid number of pageblocks per memory block: a power of two, 1 to 64.
pub fn is_pageblock_count(n: u64) -> bool
    ensures is { result ≡ is_pageblock_count n }
    ensures bound { IsTrue result → n ≤ 64 }
{
    matches!(n, 1 | 2 | 4 | 8 | 16 | 32 | 64)
}

/// Returns the first fault of the sizes.
fn first_fault(parts: &Parts<'_>) -> Option<LayoutFault>
    ensures { result ≡ layout_fault (parts_seen parts.now) }
{
    match frame_fault(parts) {
        Some(fault) => Some(fault),
        None => match processor_fault(parts) {
            Some(fault) => Some(fault),
            None => owner_fault(parts),
        },
    }
}

/// Returns the first fault of the sizes that make up the frames.
fn frame_fault(parts: &Parts<'_>) -> Option<LayoutFault>
    ensures { result ≡ frame_fault (parts_seen parts.now) }
{
    if !is_within(0, 10, parts.order) {
        return Some(LayoutFault::BadOrder);
    }
    if !is_pageblock_count(parts.pageblocks) {
        return Some(LayoutFault::BadPageblocks);
    }
    if !is_within(1, 256, parts.blocks) {
        return Some(LayoutFault::BadBlocks);
    }
    if parts.blocks * (parts.pageblocks << parts.order) > 1 << 20 {
        return Some(LayoutFault::TooManyFrames);
    }
    None
}

/// Returns the first fault of the processors and their lists.
fn processor_fault(parts: &Parts<'_>) -> Option<LayoutFault>
    ensures { result ≡ processor_fault (parts_seen parts.now) }
{
    if !is_within(1, 64, parts.cpus) {
        return Some(LayoutFault::BadCpus);
    }
    if !(is_within(1, parts.high, parts.batch) && parts.high <= 1024) {
        return Some(LayoutFault::BadMarks);
    }
    None
}

/// Returns the first fault of the owners, pages and words, the history and the boot entries.
fn owner_fault(parts: &Parts<'_>) -> Option<LayoutFault>
    ensures { result ≡ owner_fault (parts_seen parts.now) }
{
    if !is_within(1, 64, parts.owners) {
        return Some(LayoutFault::BadOwners);
    }
    if !is_within(1, 1 << 16, parts.pages) {
        return Some(LayoutFault::BadPages);
    }
    if !is_within(1, 512, parts.words) {
        return Some(LayoutFault::BadWords);
    }
    if !is_within(1, 1 << 24, parts.history) {
        return Some(LayoutFault::BadLimit);
    }
    if parts.boot.len() as u64 != parts.blocks {
        return Some(LayoutFault::BadBoot);
    }
    None
}

/// Returns the buddy of the block at `frame` (Knuth, volume 1, section 2.5). The order is below 32.
pub fn buddy(frame: Frame, order: Order) -> Frame
    requires { order < 32 }
    ensures { result ≡ buddy frame order }
{
    Frame(frame.0 ^ (1 << order.0))
}

/// Returns the pageblock that contains the frame.
pub fn pageblock_of(layout: &Layout, frame: Frame) -> Pageblock
    ensures { result ≡ pageblock_of layout.now frame }
{
    Pageblock(frame.0 / (1 << layout.order))
}

/// Returns the memory block that contains the frame.
pub fn block_of(layout: &Layout, frame: Frame) -> Block
    ensures { result ≡ block_of layout.now frame }
{
    Block(frame.0 / (layout.pageblocks << layout.order))
}
