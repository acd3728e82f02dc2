//! Sets single parts of a state.
ghost use Rattle.std.specs.Prelude.{◌≡◌, OnErr, OnOk};
ghost use Rattle.hp_plain.specs.Image.{IsPartOf, with_part};
ghost use Rattle.hp_plain.specs.declared.parts.Part.TheVariants.{Free, Cached, Mapped, Kernel, Kind as KindOf, Row as RowOf, Auto as AutoOf};

use super::Image;
use hp_units::{
    Auto, Block, Class, Cpu, Frame, Kind, Order, Owner, Page, Pageblock, Pool, Row, Words,
};
use std::alloc::AllocError;

impl Image {
    /// Adds a free block at the back of its list.
    pub(super) fn add_free(
        &mut self,
        class: Class,
        order: Order,
        frame: Frame,
    ) -> Result<(), AllocError>
        requires { IsPartOf self.old.layout (Free class order frame) }
        ensures ok { OnOk result
            (self.new ≡ record self.old { memory = with_part self.old.memory (Free class order frame) }) }
        ensures err { OnErr result (self.new ≡ self.old) }
    {
        self.free.add_free(&self.layout, class, order, frame)
    }

    /// Adds a single frame at the back of a processor's list.
    pub(super) fn add_cached(
        &mut self,
        cpu: Cpu,
        pool: Pool,
        frame: Frame,
    ) -> Result<(), AllocError>
        requires { IsPartOf self.old.layout (Cached cpu pool frame) }
        ensures ok { OnOk result
            (self.new ≡ record self.old { memory = with_part self.old.memory (Cached cpu pool frame) }) }
        ensures err { OnErr result (self.new ≡ self.old) }
    {
        self.free.add_cached(&self.layout, cpu, pool, frame)
    }

    /// Maps an owner's page to a frame, with its words.
    pub(super) fn add_mapped(&mut self, owner: Owner, page: Page, frame: Frame, words: Words)
        requires { IsPartOf self.old.layout (Mapped owner page frame words) }
        ensures { self.new
            ≡ record self.old { memory = with_part self.old.memory (Mapped owner page frame words) } }
    {
        self.pages.map(owner, page, frame, words);
    }

    /// Adds a kernel block.
    pub(super) fn add_kernel(&mut self, frame: Frame, order: Order)
        requires { IsPartOf self.old.layout (Kernel frame order) }
        ensures { self.new ≡ record self.old { memory = with_part self.old.memory (Kernel frame order) } }
    {
        self.kernel[frame.0 as usize] = Some(order);
    }

    /// Sets the kind of a pageblock.
    pub(super) fn add_kind(&mut self, pageblock: Pageblock, kind: Kind)
        requires { IsPartOf self.old.layout (KindOf pageblock kind) }
        ensures { self.new ≡ record self.old { memory = with_part self.old.memory (KindOf pageblock kind) } }
    {
        self.free.set_kind(pageblock, kind);
    }

    /// Sets the row of a memory block.
    pub(super) fn add_row(&mut self, block: Block, row: Row)
        requires { IsPartOf self.old.layout (RowOf block row) }
        ensures { self.new ≡ record self.old { memory = with_part self.old.memory (RowOf block row) } }
    {
        self.blocks.set_row(block, row);
    }

    /// Sets whether, and in which zone, an added block goes online at once (Linux:
    /// auto_online_blocks).
    pub(super) fn add_auto(&mut self, auto: Auto)
        ensures { self.new ≡ record self.old { memory = with_part self.old.memory (AutoOf auto) } }
    {
        self.blocks.set_auto(auto);
    }
}
