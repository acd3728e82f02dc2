//! The frames that can be handed out: the free areas and the processors' lists together.
ghost use Rattle.std.specs.Prelude.{◌≡◌, ℕ, ◌+◌, ◌*◌, ◌^◌, ◌<◌, ◌≤◌, IfOk};
ghost use Rattle.hp_units.specs.Arithmetic.{frame_count, pageblock_count};
ghost use Rattle.hp_units.specs.Isolation.{add_block, add_pageblock, move_block, move_pageblock};
ghost use Rattle.hp_units.specs.LayoutParts.{IsLayout};
ghost use Rattle.hp_units.specs.FreeAreas.{give_block, steal_block, take_block};
ghost use Rattle.hp_units.specs.ProcessorLists.{drain_lists, handed_from, kernel_frame, page_frame, take_one};
ghost use Rattle.hp_units.specs.KernelBlocks.{kernel_block};
ghost use Rattle.hp_units.specs.Migrations.{migration_target};
ghost use Rattle.hp_tape.specs.Bounds.{batch_bound, drain_bound, give_bound, move_bound, put_one_bound, steal_bound, take_bound, take_one_bound};
ghost use Rattle.hp_tape.specs.Tapes.{HasRoom};
ghost use Rattle.hp_units.specs.declared.rows.Pool.TheVariants.{Nm as NmPool};
ghost use Rattle.hp_layers.specs.Frames.{IsGiven, IsTaken, IsTidy, MayReturn, free_of, give_back_bound, given_back, kernel_block_bound, kernel_frame_bound, normal_frame, page_frame_bound, places_of};

mod reads;
mod removals;

use hp_buddy::{Buddy, Cpus};
use hp_tape::Tape;
use hp_units::{
    Block, Class, Cpu, Frame, Layout, Mobility, Order, Pageblock, Pool, Zone, pageblock_of,
};
use std::alloc::{AllocError, Global};

/// The free areas, and the processors' lists in front of them.
#[derive(Drop)]
pub struct Frames {
    /// The free areas.
    pub buddy: Buddy,
    /// The processors' lists.
    pub cpus: Cpus,
}

impl Frames {
    /// Returns a copy.
    pub(crate) fn copy(&self, alloc: Global) -> Result<Frames, AllocError>
        ensures { IfOk result (λ frames. frames ≡ self.now) }
    {
        let buddy = self.buddy.copy(alloc)?;
        let cpus = self.cpus.copy(alloc)?;
        Ok(Frames { buddy, cpus })
    }

    /// Returns the most deltas that `kernel_block` may note in this state.
    pub(crate) fn kernel_block_room(&self, layout: &Layout, cpu: Cpu, order: Order) -> usize
        requires cpu { cpu < self.now.cpus.layout.cpus }
        ensures { result ≡ kernel_block_bound layout.now (free_of self.now) cpu order }
    {
        if order.0 == 0 {
            self.take_one_room(layout, cpu, Pool::Nu)
        } else {
            layout.order() as usize + 2
        }
    }

    /// Returns the most deltas that `page_frame` may note in this state.
    pub(crate) fn page_frame_room(&self, layout: &Layout, cpu: Cpu) -> usize
        requires cpu { cpu < self.now.cpus.layout.cpus }
        ensures { result ≡ page_frame_bound layout.now (free_of self.now) cpu }
    {
        self.take_one_room(layout, cpu, Pool::Mm)
    }

    /// Returns the most deltas that `take_one` may note in this state.
    fn take_one_room(&self, layout: &Layout, cpu: Cpu, pool: Pool) -> usize
        requires cpu { cpu < self.now.cpus.layout.cpus }
        ensures { result ≡ take_one_bound layout.now (free_of self.now) cpu pool }
    {
        if self.cpus.len(cpu, pool) > 0 {
            1
        } else {
            batch_room(layout)
        }
    }

    /// Takes a block for the kernel. A block of order 0 comes from the processor's list, any other
    /// straight from the free areas. If there is none, steals a movable block.
    pub(crate) fn kernel_block(&mut self, cpu: Cpu, order: Order, tape: &mut Tape) -> Option<Frame>
        requires cpu { cpu < self.old.cpus.layout.cpus }
        requires order { order ≤ self.old.cpus.layout.order }
        requires layout { IsLayout self.old.cpus.layout }
        requires tidy { IsTidy self.old }
        requires room { HasRoom tape.old
            (kernel_block_bound self.old.cpus.layout (free_of self.old) cpu order) }
        ensures { IsTaken (kernel_block self.old.cpus.layout (free_of self.old) cpu order) order
            (kernel_block_bound self.old.cpus.layout (free_of self.old) cpu order) self.old self.new tape.old
            tape.new result }
    {
        if order.0 == 0 {
            return self.kernel_frame(cpu, tape);
        }
        match self.take(Class::Nu, order, tape) {
            Some(frame) => Some(frame),
            None => self.steal(Mobility::Unmovable, order, tape),
        }
    }

    /// Takes a frame for the kernel: from the processor's list, otherwise stolen from a movable
    /// block.
    fn kernel_frame(&mut self, cpu: Cpu, tape: &mut Tape) -> Option<Frame>
        requires cpu { cpu < self.old.cpus.layout.cpus }
        requires layout { IsLayout self.old.cpus.layout }
        requires tidy { IsTidy self.old }
        requires room { HasRoom tape.old (kernel_frame_bound self.old.cpus.layout (free_of self.old) cpu) }
        ensures { IsTaken (kernel_frame self.old.cpus.layout (free_of self.old) cpu) 0
            (kernel_frame_bound self.old.cpus.layout (free_of self.old) cpu) self.old self.new tape.old
            tape.new result }
    {
        match self.take_one(cpu, Pool::Nu, tape) {
            Some(frame) => Some(frame),
            None => self.steal(Mobility::Unmovable, Order(0), tape),
        }
    }

    /// Takes a frame for an owner's page: from the processor's lists, otherwise stolen from an
    /// unmovable block.
    pub(crate) fn page_frame(&mut self, cpu: Cpu, tape: &mut Tape) -> Option<Frame>
        requires cpu { cpu < self.old.cpus.layout.cpus }
        requires layout { IsLayout self.old.cpus.layout }
        requires tidy { IsTidy self.old }
        requires room { HasRoom tape.old (page_frame_bound self.old.cpus.layout (free_of self.old) cpu) }
        ensures { IsTaken (page_frame self.old.cpus.layout (free_of self.old) cpu) 0
            (page_frame_bound self.old.cpus.layout (free_of self.old) cpu) self.old self.new tape.old tape.new
            result }
    {
        match self.take_one(cpu, Pool::Mm, tape) {
            Some(frame) => Some(frame),
            None => self.normal_frame(cpu, tape),
        }
    }

    /// Takes a movable frame of zone Normal: from the processor's list, otherwise stolen from an
    /// unmovable block.
    fn normal_frame(&mut self, cpu: Cpu, tape: &mut Tape) -> Option<Frame>
        requires cpu { cpu < self.old.cpus.layout.cpus }
        requires layout { IsLayout self.old.cpus.layout }
        requires tidy { IsTidy self.old }
        requires room { HasRoom tape.old (take_one_bound self.old.cpus.layout (free_of self.old) cpu NmPool) }
        ensures { IsTaken (normal_frame self.old.cpus.layout (free_of self.old) cpu) 0
            (take_one_bound self.old.cpus.layout (free_of self.old) cpu NmPool) self.old self.new tape.old
            tape.new result }
    {
        match self.take_one(cpu, Pool::Nm, tape) {
            Some(frame) => Some(frame),
            None => self.steal(Mobility::Movable, Order(0), tape),
        }
    }

    /// Takes a frame for a page to move to, past the processors' lists: of zone Movable, otherwise
    /// a movable one of zone Normal, otherwise stolen from an unmovable block.
    pub(crate) fn migration_target(&mut self, tape: &mut Tape) -> Option<Frame>
        requires tidy { IsTidy self.old }
        requires room { HasRoom tape.old (steal_bound self.old.cpus.layout) }
        ensures { IsTaken
            (handed_from (free_of self.old) (migration_target self.old.cpus.layout self.old.buddy.areas)) 0
            (steal_bound self.old.cpus.layout) self.old self.new tape.old tape.new result }
    {
        if let Some(frame) = self.take(Class::Mm, Order(0), tape) {
            return Some(frame);
        }
        if let Some(frame) = self.take(Class::Nm, Order(0), tape) {
            return Some(frame);
        }
        self.steal(Mobility::Movable, Order(0), tape)
    }

    /// Returns the most deltas that `give_back` may note in this state.
    pub(crate) fn give_back_room(
        &self,
        layout: &Layout,
        cpu: Cpu,
        zone: Zone,
        frame: Frame,
        order: Order,
    ) -> usize
        requires cpu { cpu < self.now.cpus.layout.cpus }
        requires frame { frame < frame_count layout.now }
        requires same { self.now.buddy.layout ≡ layout.now }
        ensures is { result ≡ give_back_bound layout.now (free_of self.now) cpu zone frame order }
        ensures small { result ≤ 2 ^ 20 }
    {
        if order.0 == 0 {
            self.put_one_room(layout, cpu, zone, frame)
        } else {
            layout.order() as usize + 1
        }
    }

    /// Returns the most deltas that giving a single frame back may note in this state.
    fn put_one_room(&self, layout: &Layout, cpu: Cpu, zone: Zone, frame: Frame) -> usize
        requires cpu { cpu < self.now.cpus.layout.cpus }
        requires frame { frame < frame_count layout.now }
        requires same { self.now.buddy.layout ≡ layout.now }
        ensures is { result ≡ put_one_bound layout.now (free_of self.now) cpu zone frame }
        ensures small { result ≤ 2 ^ 20 }
    {
        let kind = self.buddy.kind(pageblock_of(layout, frame));
        if kind.isolated {
            layout.order() as usize + 1
        } else if self.cpus.len(cpu, Pool::of_mobility(zone, kind.mobility)) < layout.high() {
            1
        } else {
            batch_room(layout)
        }
    }

    /// Gives a block back. A single frame goes to the processor's list, unless its pageblock is
    /// isolated. Any other block goes straight to the free areas.
    pub(crate) fn give_back(
        &mut self,
        cpu: Cpu,
        zone: Zone,
        frame: Frame,
        order: Order,
        tape: &mut Tape,
    )
        requires cpu { cpu < self.old.cpus.layout.cpus }
        requires tidy { IsTidy self.old }
        requires block { MayReturn self.old order frame }
        requires room { HasRoom tape.old
            (give_back_bound self.old.cpus.layout (free_of self.old) cpu zone frame order) }
        ensures { IsGiven (given_back self.old.cpus.layout (free_of self.old) cpu zone frame order)
            (give_back_bound self.old.cpus.layout (free_of self.old) cpu zone frame order) self.old self.new
            tape.old tape.new }
    {
        if order.0 == 0 {
            self.cpus.put_one(cpu, zone, frame, &mut self.buddy, tape);
        } else {
            self.give(zone, frame, order, tape);
        }
    }

    /// Gives a block straight back to the areas.
    pub(crate) fn give(&mut self, zone: Zone, frame: Frame, order: Order, tape: &mut Tape)
        requires tidy { IsTidy self.old }
        requires block { MayReturn self.old order frame }
        requires room { HasRoom tape.old (give_bound self.old.cpus.layout) }
        ensures { IsGiven (record (free_of self.old)
            { areas = give_block self.old.cpus.layout self.old.buddy.areas zone frame order }) (give_bound
            self.old.cpus.layout) self.old self.new tape.old tape.new }
    {
        self.buddy.give(zone, frame, order, tape);
    }

    /// Isolates the pageblocks of a memory block, or releases them, in rising order.
    pub(crate) fn move_block(
        &mut self,
        layout: &Layout,
        zone: Zone,
        isolated: bool,
        block: Block,
        tape: &mut Tape,
    )
        requires same { self.old.cpus.layout ≡ layout.now }
        requires block { block < layout.now.blocks }
        requires tidy { IsTidy self.old }
        requires room { HasRoom tape.old (layout.now.pageblocks * move_bound layout.now) }
        ensures { IsGiven (record (free_of self.old) {
          areas = move_block layout.now zone isolated
              self.old.buddy.areas
              block;
        }) (layout.now.pageblocks * move_bound layout.now) self.old self.new tape.old tape.new }
    {
        let count = layout.pageblocks();
        let first = block.0 * count;
        for number in 0..count {
            self.move_pageblock(zone, isolated, Pageblock(first + number), tape);
        }
    }

    /// Isolates a pageblock, or releases it.
    fn move_pageblock(&mut self, zone: Zone, isolated: bool, pageblock: Pageblock, tape: &mut Tape)
        requires pageblock { pageblock < pageblock_count self.old.cpus.layout }
        requires tidy { IsTidy self.old }
        requires room { HasRoom tape.old (move_bound self.old.cpus.layout) }
        ensures { IsGiven (record (free_of self.old) {
          areas = move_pageblock self.old.cpus.layout zone
              isolated self.old.buddy.areas
              pageblock;
        }) (move_bound self.old.cpus.layout) self.old self.new tape.old tape.new }
    {
        self.buddy.move_pageblock(zone, pageblock, isolated, tape);
    }

    /// Adds the pageblocks of a memory block at the back of their zone's list. None of its frames
    /// may be free or on a list.
    pub(crate) fn add_block(&mut self, layout: &Layout, zone: Zone, block: Block, tape: &mut Tape)
        requires same { self.old.cpus.layout ≡ layout.now }
        requires block { block < layout.now.blocks }
        requires tidy { IsTidy self.old }
        requires nowhere { (other : ℕ) → block * layout.now.pageblocks * 2 ^ layout.now.order ≤ other
            → other < (block * layout.now.pageblocks + layout.now.pageblocks) * 2 ^ layout.now.order
            → places_of self.old other ≡ 0 }
        requires room { HasRoom tape.old layout.now.pageblocks }
        ensures { IsGiven
            (record (free_of self.old) { areas = add_block layout.now zone self.old.buddy.areas block })
            layout.now.pageblocks self.old self.new tape.old tape.new }
    {
        let count = layout.pageblocks();
        let first = block.0 * count;
        for number in 0..count {
            self.add_pageblock(layout, zone, Pageblock(first + number), tape);
        }
    }

    /// Adds a whole pageblock at the back of its zone's list. None of its frames may be free or on
    /// a list.
    fn add_pageblock(&mut self, layout: &Layout, zone: Zone, pageblock: Pageblock, tape: &mut Tape)
        requires same { self.old.cpus.layout ≡ layout.now }
        requires pageblock { pageblock < pageblock_count layout.now }
        requires tidy { IsTidy self.old }
        requires nowhere { (other : ℕ) → pageblock * 2 ^ layout.now.order ≤ other
            → other < pageblock * 2 ^ layout.now.order + 2 ^ layout.now.order → places_of self.old other ≡ 0 }
        requires room { HasRoom tape.old 1 }
        ensures given { IsGiven (record (free_of self.old) {
          areas = add_pageblock self.old.cpus.layout zone
              self.old.buddy.areas pageblock;
        }) 1 self.old self.new tape.old tape.new }
        ensures later { (other : ℕ) → pageblock * 2 ^ layout.now.order + 2 ^ layout.now.order ≤ other
            → places_of self.new other ≡ places_of self.old other }
    {
        self.buddy.add_pageblock(zone, pageblock, tape);
    }

    /// Returns the most deltas that `drain` may note in this state.
    pub(crate) fn drain_room(&self, layout: &Layout, cpu: Cpu) -> usize
        requires { cpu < self.now.cpus.layout.cpus }
        ensures { result ≡ drain_bound layout.now (free_of self.now) cpu }
    {
        let nu = self.cpus.len(cpu, Pool::Nu) as usize;
        let nm = self.cpus.len(cpu, Pool::Nm) as usize;
        let mm = self.cpus.len(cpu, Pool::Mm) as usize;
        (nu + nm + mm) * (layout.order() as usize + 2)
    }

    /// Gives all frames on a processor's lists back to the areas.
    pub(crate) fn drain(&mut self, cpu: Cpu, tape: &mut Tape)
        requires cpu { cpu < self.old.cpus.layout.cpus }
        requires tidy { IsTidy self.old }
        requires room { HasRoom tape.old (drain_bound self.old.cpus.layout (free_of self.old) cpu) }
        ensures { IsGiven (drain_lists self.old.cpus.layout (free_of self.old) cpu)
            (drain_bound self.old.cpus.layout (free_of self.old) cpu) self.old self.new tape.old tape.new }
    {
        self.cpus.drain(cpu, &mut self.buddy, tape);
    }

    /// Takes the front frame of a processor's list. Refills an empty list first.
    fn take_one(&mut self, cpu: Cpu, pool: Pool, tape: &mut Tape) -> Option<Frame>
        requires cpu { cpu < self.old.cpus.layout.cpus }
        requires tidy { IsTidy self.old }
        requires room { HasRoom tape.old (take_one_bound self.old.cpus.layout (free_of self.old) cpu pool) }
        ensures { IsTaken (take_one self.old.cpus.layout (free_of self.old) cpu pool) 0
            (take_one_bound self.old.cpus.layout (free_of self.old) cpu pool) self.old self.new tape.old
            tape.new result }
    {
        self.cpus.take_one(cpu, pool, &mut self.buddy, tape)
    }

    /// Takes a block straight from the areas, past the processors' lists.
    fn take(&mut self, class: Class, order: Order, tape: &mut Tape) -> Option<Frame>
        requires order { order ≤ self.old.cpus.layout.order }
        requires tidy { IsTidy self.old }
        requires room { HasRoom tape.old (take_bound self.old.cpus.layout) }
        ensures { IsTaken (handed_from (free_of self.old)
            (take_block self.old.cpus.layout self.old.buddy.areas class order)) order (take_bound
            self.old.cpus.layout) self.old self.new tape.old tape.new result }
    {
        self.buddy.take(class, order, tape)
    }

    /// Steals a block of zone Normal from the mobility that is not `wanted`.
    fn steal(&mut self, wanted: Mobility, order: Order, tape: &mut Tape) -> Option<Frame>
        requires order { order ≤ self.old.cpus.layout.order }
        requires tidy { IsTidy self.old }
        requires room { HasRoom tape.old (steal_bound self.old.cpus.layout) }
        ensures { IsTaken (handed_from (free_of self.old)
            (steal_block self.old.cpus.layout self.old.buddy.areas wanted order)) order (steal_bound
            self.old.cpus.layout) self.old self.new tape.old tape.new result }
    {
        self.buddy.steal(wanted, order, tape)
    }
}

/// Returns the most deltas of moving a batch of frames between the free areas and a processor's
/// list, and one more frame.
fn batch_room(layout: &Layout) -> usize
    ensures is { result ≡ batch_bound layout.now }
    ensures small { result ≤ 2 ^ 20 }
{
    layout.batch() as usize * (layout.order() as usize + 2) + 1
}
