//! A whole state as plain lists.
ghost use Rattle.std.specs.Prelude.{◌≡◌, ◌≢◌, IfOk, MatchBool, OnErr, OnOk, option_map, slice_get};
ghost use Rattle.hp_units.specs.Boot.{boot_memory, empty_memory};
ghost use Rattle.hp_units.specs.LayoutParts.{IsLayout};
ghost use Rattle.hp_units.specs.Memory.{cached_list, free_list, kernel_order};
ghost use Rattle.hp_units.specs.Pages.{frame_at, words_at};
ghost use Rattle.hp_plain.specs.Image.{IsListed, IsPartOf, with_part};

mod adds;
mod boots;
mod placed;

use crate::blocks::Blocks;
use crate::frames::FreeFrames;
use crate::pages::Pages;
use crate::parts::Part;
use hp_units::{
    Auto, Block, Class, Cpu, Frame, Kind, Layout, Order, Owner, Page, Pageblock, Pool, Row,
};
use std::alloc::{AllocError, Global};
use std::marker::Model;

/// A layout with a whole state of it, as plain lists. All numbers in it are within the layout.
pub struct Image {
    layout: Layout,
    free: FreeFrames,
    pages: Pages,
    kernel: Vec<Option<Order>>,
    blocks: Blocks,
}

/// Keeps callers from proving again how each field is dropped.
impl Drop for Image {
    fn drop(self) {
        let Image {
            layout: _layout,
            free: _free,
            pages: _pages,
            kernel: _kernel,
            blocks: _blocks,
        } = self;
    }
}

impl Model for Image {
    ghost use Rattle.hp_units.specs.InLayout.{IsMemoryOf};
    ghost use Rattle.hp_plain.specs.Image.{Pictured};

    ghost Value = { Pictured };

    ghost view = { λ i. record {
      layout = i.layout;
      memory = record { free = i.free; pages = i.pages; kernel = i.kernel.items; blocks = i.blocks };
    } };

    ghost invariant = { λ i. IsMemoryOf i.layout
        (record { free = i.free; pages = i.pages; kernel = i.kernel.items; blocks = i.blocks }) };
}

impl Image {
    /// Creates the state at boot: each block as the layout gives it, in rising order, and nothing
    /// in use (Linux, memory hotplug: boot memory).
    #[tactic(auto, unfolding(hp_units::specs::Boot::boot_memory))]
    pub fn boot(alloc: Global, layout: &Layout) -> Result<Image, AllocError>
        ensures layout { IfOk result (λ image. image.layout ≡ layout.now) }
        ensures memory { IfOk result (λ image. image.memory ≡ boot_memory layout.now) }
        ensures limits { IfOk result (λ _. IsLayout layout.now) }
    {
        let mut image = Image::empty(alloc, layout)?;
        for (number, boot) in layout.boot().iter().enumerate() {
            image.boot_block(Block(number as u32), *boot)?;
        }
        Ok(image)
    }

    /// Creates the state with all blocks offline and everything else empty.
    pub fn empty(alloc: Global, layout: &Layout) -> Result<Image, AllocError>
        ensures layout { IfOk result (λ image. image.layout ≡ layout.now) }
        ensures memory { IfOk result (λ image. image.memory ≡ empty_memory layout.now) }
    {
        let free = FreeFrames::empty(alloc, layout)?;
        let pages = Pages::empty(alloc, layout)?;
        let kernel = vec![in alloc; None; layout.frames() as usize]?;
        let blocks = Blocks::empty(alloc, layout)?;
        let layout = layout.copy(alloc)?;
        Ok(Image {
            layout,
            free,
            pages,
            kernel,
            blocks,
        })
    }

    /// Returns a copy.
    pub fn copy(&self, alloc: Global) -> Result<Image, AllocError>
        ensures { IfOk result (λ image. image ≡ self.now) }
    {
        let layout = self.layout.copy(alloc)?;
        let free = self.free.copy(alloc)?;
        let pages = self.pages.copy(alloc)?;
        let kernel = Vec::from_slice(alloc, self.kernel.as_slice())?;
        let blocks = self.blocks.copy(alloc)?;
        Ok(Image {
            layout,
            free,
            pages,
            kernel,
            blocks,
        })
    }

    /// Returns whether both have the same state. Does not compare the layouts.
    pub fn same(&self, other: &Image) -> bool
        ensures { MatchBool result (self.now.memory ≡ other.now.memory) (self.now.memory ≢ other.now.memory) }
    {
        self.free.same(&other.free)
            && self.pages.same(&other.pages)
            && same_orders(&self.kernel, &other.kernel)
            && self.blocks.same(&other.blocks)
    }

    /// Sets one part of the state. A frame for a list goes to its back.
    ///
    /// Only a part for a list allocates. If memory runs out, nothing changes.
    pub fn add(&mut self, part: Part) -> Result<(), AllocError>
        requires { IsPartOf self.old.layout part }
        ensures ok { OnOk result (self.new ≡ record self.old { memory = with_part self.old.memory part }) }
        ensures err { OnErr result (self.new ≡ self.old) }
        ensures only { OnErr result (IsListed part) }
    {
        match part {
            Part::Free {
                class,
                order,
                frame,
            } => return self.add_free(class, order, frame),
            Part::Cached { cpu, pool, frame } => return self.add_cached(cpu, pool, frame),
            Part::Mapped {
                owner,
                page,
                frame,
                words,
            } => self.add_mapped(owner, page, frame, words),
            Part::Kernel { frame, order } => self.add_kernel(frame, order),
            Part::Kind { pageblock, kind } => self.add_kind(pageblock, kind),
            Part::Row { block, row } => self.add_row(block, row),
            Part::Auto { auto } => self.add_auto(auto),
        }
        Ok(())
    }

    /// Returns the layout.
    pub fn layout(&self) -> &Layout
        ensures { result.now ≡ self.now.layout }
    {
        &self.layout
    }

    /// Returns the order of the kernel block that starts at the frame, if any.
    pub fn kernel_at(&self, frame: Frame) -> Option<Order>
        ensures { result ≡ kernel_order self.now.memory frame }
    {
        self.kernel.get(frame.0 as usize).copied().flatten()
    }

    /// Returns the kind of a pageblock, or `None` outside the layout.
    pub fn kind(&self, pageblock: Pageblock) -> Option<Kind>
        ensures { result ≡ slice_get self.now.memory.free.areas.kinds pageblock }
    {
        self.free.areas().kinds().get(pageblock.0 as usize).copied()
    }

    /// Returns the row of a memory block, or `None` outside the layout.
    pub fn row(&self, block: Block) -> Option<Row>
        ensures { result ≡ slice_get self.now.memory.blocks.rows block }
    {
        self.blocks.row(block)
    }

    /// Returns what an added memory block becomes.
    pub fn auto(&self) -> Auto
        ensures { result ≡ self.now.memory.blocks.auto }
    {
        self.blocks.auto()
    }

    /// Returns the free blocks of a class and an order, front first. The list is empty above the
    /// greatest order.
    pub fn list(&self, class: Class, order: Order) -> &[Frame]
        ensures { result.now ≡ free_list self.now.memory.free.areas class order }
    {
        self.free.areas().free_list(class, order)
    }

    /// Returns a processor's list of a pool, front first. The list is empty for a processor outside
    /// the layout.
    pub fn cpu_list(&self, cpu: Cpu, pool: Pool) -> &[Frame]
        ensures { result.now ≡ cached_list self.now.memory.free cpu pool }
    {
        self.free.cached_list(cpu, pool)
    }

    /// Returns the frame that holds an owner's page, or `None` if the page is not mapped.
    pub fn frame_at(&self, owner: Owner, page: Page) -> Option<Frame>
        ensures { result ≡ frame_at self.now.memory.pages owner page }
    {
        self.pages.frame_at(owner, page)
    }

    /// Returns the words of an owner's page, or `None` if the page is not mapped.
    pub fn words(&self, owner: Owner, page: Page) -> Option<&[u64]>
        ensures { option_map (λ words. words.now) result ≡ words_at self.now.memory.pages owner page }
    {
        self.pages.words_at(owner, page)
    }
}

/// Returns whether both have the same kernel blocks.
fn same_orders(kernel: &[Option<Order>], others: &[Option<Order>]) -> bool
    ensures { MatchBool result (kernel.now ≡ others.now) (kernel.now ≢ others.now) }
{
    kernel == others
}
