//! Reads a memory's state and its layers.
ghost use Rattle.std.specs.Prelude.{◌≡◌, length, slice_get};
ghost use Rattle.hp_units.specs.Memory.{free_list, kernel_order};
ghost use Rattle.hp_units.specs.Pages.{frame_at};
ghost use Rattle.hp_tape.specs.Deltas.{page_frames_of};
ghost use Rattle.hp_pages.specs.Pages.{AreSettled};

use crate::memory::Memory;
use hp_buddy::{Buddy, Cpus};
use hp_pages::{Blocks, KernelBlocks, Pages};
use hp_units::{Auto, Block, Class, Frame, Kind, Order, Owner, Page, Pageblock, Row};

impl Memory {
    /// Returns the front block of the free list of a class and an order, or `None` if the list is
    /// empty or the order above the greatest (Gorman, chapter 6: free_area).
    pub fn front(&self, class: Class, order: Order) -> Option<Frame>
        ensures { result ≡ slice_get (free_list self.now.state.free.areas class order) 0 }
    {
        if order.0 > self.layers.layout.order() {
            return None;
        }
        self.layers.frames.buddy.front(class, order)
    }

    /// Returns the number of free blocks of a class and an order, or 0 above the greatest order
    /// (Gorman, chapter 6: nr_free). Takes constant time.
    pub fn list_len(&self, class: Class, order: Order) -> u32
        ensures { result ≡ length (free_list self.now.state.free.areas class order) }
    {
        if order.0 > self.layers.layout.order() {
            return 0;
        }
        self.layers.frames.buddy.len(class, order)
    }

    /// Returns the kind of a pageblock, or `None` past the last one (Linux, memory hotplug:
    /// isolated pageblocks; Gorman, chapter 6).
    pub fn kind(&self, pageblock: Pageblock) -> Option<Kind>
        ensures { result ≡ slice_get self.now.state.free.areas.kinds pageblock }
    {
        let layout = &self.layers.layout;
        if pageblock.0 >= layout.blocks() * layout.pageblocks() {
            return None;
        }
        Some(self.layers.frames.buddy.kind(pageblock))
    }

    /// Returns the order of the kernel block that starts at the frame, or `None` if none does or
    /// the frame is outside the layout.
    pub fn kernel_at(&self, frame: Frame) -> Option<Order>
        ensures { result ≡ kernel_order self.now.state frame }
    {
        if frame.0 >= self.layers.layout.frames() {
            return None;
        }
        self.layers.kernel.order_at(frame)
    }

    /// Returns the kernel blocks. In contracts, their value has the order of the block that starts
    /// at each frame.
    pub fn kernel(&self) -> &KernelBlocks
        ensures { result.now ≡ self.now.state.kernel }
    {
        &self.layers.kernel
    }

    /// Returns the row of a memory block, or `None` past the last one (Linux, memory hotplug:
    /// state).
    pub fn row(&self, block: Block) -> Option<Row>
        ensures { result ≡ slice_get self.now.state.blocks.rows block }
    {
        if block.0 >= self.layers.layout.blocks() {
            return None;
        }
        Some(self.layers.blocks.row(block))
    }

    /// Returns the frame that holds an owner's page, or `None` if the page is not mapped or outside
    /// the layout.
    pub fn frame_at(&self, owner: Owner, page: Page) -> Option<Frame>
        ensures { result ≡ frame_at self.now.state.pages owner page }
    {
        let layout = &self.layers.layout;
        if owner.0 >= layout.owners() || page.0 >= layout.pages() {
            return None;
        }
        self.layers.pages.frame_at(owner, page)
    }

    /// Returns what an added memory block becomes (Linux, memory hotplug: auto_online_blocks).
    pub fn auto(&self) -> Auto
        ensures { result ≡ self.now.state.blocks.auto }
    {
        self.layers.blocks.auto()
    }

    /// Returns the free areas.
    pub fn buddy(&self) -> &Buddy
        ensures { result.now ≡ record { layout = self.now.layout; areas = self.now.state.free.areas } }
    {
        &self.layers.frames.buddy
    }

    /// Returns the processors' lists.
    pub fn cpus(&self) -> &Cpus
        ensures { result.now ≡ record { layout = self.now.layout; cached = self.now.state.free.cached } }
    {
        &self.layers.frames.cpus
    }

    /// Returns the owners' pages by their frames. A mapped frame has its page's words in a buffer
    /// if one of them is not 0; no other frame has a buffer.
    pub fn pages(&self) -> &Pages
        ensures value { result.now ≡ record {
          layout = self.now.layout;
          pages = page_frames_of self.now.layout self.now.state.pages;
        } }
        ensures settled { AreSettled result.now.pages }
    {
        &self.layers.pages
    }

    /// Returns the rows of the memory blocks.
    pub fn blocks(&self) -> &Blocks
        ensures { result.now ≡ record { layout = self.now.layout; blocks = self.now.state.blocks } }
    {
        &self.layers.blocks
    }
}
