//! A machine with its history.
ghost use Rattle.std.specs.Prelude.{◌≡◌, ◌↔◌, ◌<◌, ◌≤◌, Err, IfOk, MatchOption, OnErr, OnOk, IsTrue, length, slice_get, true};
ghost use Rattle.hp_units.specs.Boot.{boot_memory};
ghost use Rattle.hp_units.specs.History.{goes_back, net_of};
ghost use Rattle.hp_units.specs.Memory.{free_list, kernel_order};
ghost use Rattle.hp_units.specs.Pages.{frame_at};
ghost use Rattle.hp_tape.specs.Deltas.{page_frames_of};
ghost use Rattle.hp_pages.specs.Pages.{AreSettled};
ghost use Rattle.hp_history.specs.Course.{receipt_for};
ghost use Rattle.hp_history.specs.Entries.{IsEntry, IsUndone, IsWayBack};
ghost use Rattle.hp_history.specs.Volumes.{volume_of};
ghost use Rattle.hp_machine.specs.Machine.{IsCalled, IsHistory, IsSound, booted, is_full, last_serial, sealed};
ghost use Rattle.hp_machine.specs.MachinePorts.{IsPlanRun};
ghost use Rattle.hp_machine.specs.Operations.{KeepsOperations};
ghost use Rattle.hp_machine.specs.Volumes.{KeepsOperationsAcrossSeals};

use crate::machine_port::{CallMachine, carry_out};
use hp_buddy::{Buddy, Cpus};
use hp_history::{Course, Volume};
use hp_memory::Memory;
use hp_pages::{Blocks, Pages};
use hp_plain::Image;
use hp_tape::Delta;
use hp_units::{
    Auto, Block, CallFault, Class, Cpu, Event, Frame, Kind, Layout, OpEnd, Order, Owner, Page,
    Pageblock, Plan, Receipt, Record, Reply, Row, Serial,
};
use std::alloc::{AllocError, Global};
use std::marker::Model;

/// A machine with its history, which has at most as many records as the layout allows. The history
/// is always legal, and the state is that of the history.
#[derive(Drop)]
pub struct Machine {
    course: Course,
}

impl Model for Machine {
    ghost use Rattle.hp_machine.specs.Kept.{IsMachine};
    ghost use Rattle.hp_machine.specs.Machine.{MachineValue};

    ghost Value = { MachineValue };

    ghost view = { λ m. m.course };

    ghost invariant = { λ m. IsMachine m.course };
}

impl Machine {
    /// Boots a machine: it has no records, and the layout's state at boot.
    pub fn boot(alloc: Global, layout: &Layout) -> Result<Machine, AllocError>
        ensures { IfOk result (λ machine. machine ≡ booted layout.now) }
    {
        let course = Course::boot(alloc, layout)?;
        Ok(Machine { course })
    }

    /// Returns an equal machine, with the same records.
    pub fn copy(&self, alloc: Global) -> Result<Machine, AllocError>
        ensures { IfOk result (λ machine. machine ≡ self.now) }
    {
        let course = self.course.copy(alloc)?;
        Ok(Machine { course })
    }

    /// Makes one call: replies to a processor's event and records it.
    ///
    /// Errors: `HistoryFull` if the history holds its limit of records, or if the last serial is
    /// 2^64 - 1; otherwise `OutOfMemory`. On an error, nothing changes.
    ///
    /// An `UndoAfter` that is not refused and a `Cancel` that restores undo the deltas of the steps
    /// that they drop, latest first, and nothing else.
    pub fn call(&mut self, alloc: Global, cpu: Cpu, event: &Event) -> Result<Receipt, CallFault>
        ensures full { (result ≡ Err CallFault.HistoryFull) ↔ IsTrue (is_full self.old) }
        ensures err { OnErr result (self.new ≡ self.old) }
        ensures ok { IfOk result (λ receipt. IsCalled self.old cpu event.now receipt self.new) }
        ensures back { IfOk result
            (λ receipt. goes_back receipt.reply ≡ true → IsUndone self.old self.new) }
    {
        if self.is_full() {
            return Err(CallFault::HistoryFull);
        }
        let Ok(asked) = event.copy(alloc) else {
            return Err(CallFault::OutOfMemory);
        };
        match self.answer(alloc, cpu, event) {
            Ok((serial, reply)) => Ok(Receipt {
                serial,
                event: asked,
                reply,
            }),
            Err(fault) => Err(fault),
        }
    }

    /// Makes one call like `call`, and returns the record's serial and the reply instead of a
    /// receipt. It copies the event only for the record: use it if receipts are rarely needed.
    /// Fails like `call`.
    pub fn answer(
        &mut self,
        alloc: Global,
        cpu: Cpu,
        event: &Event,
    ) -> Result<(Serial, Reply), CallFault>
        ensures full { (result ≡ Err CallFault.HistoryFull) ↔ IsTrue (is_full self.old) }
        ensures err { OnErr result (self.new ≡ self.old) }
        ensures ok { IfOk result
            (λ answer. IsCalled self.old cpu event.now (receipt_for event.now answer) self.new) }
        ensures back { IfOk result (λ answer. goes_back answer.1 ≡ true → IsUndone self.old self.new) }
    {
        if self.is_full() {
            return Err(CallFault::HistoryFull);
        }
        match self.course.answer(alloc, cpu, event) {
            Ok(answer) => Ok(answer),
            Err(AllocError) => Err(CallFault::OutOfMemory),
        }
    }

    /// Carries out a plan as a processor, with at most `turns` migrations, and returns how its
    /// operation ended: `run_plan` of hp_ops through the processor's port. Each call leaves a
    /// record, except one that ends the run as `Left`.
    pub fn run_plan(&mut self, alloc: Global, cpu: Cpu, plan: Plan, turns: u32) -> OpEnd
        ensures { IsPlanRun self.old cpu turns plan result self.new }
    {
        carry_out(alloc, self, cpu, plan, turns)
    }

    /// Reserves room for `records` more records and their journal entries. The tape of deltas may
    /// still grow.
    pub fn reserve(&mut self, records: usize) -> Result<(), AllocError>
        ensures { self.new ≡ self.old }
    {
        self.course.reserve(records)
    }

    /// Hands out the records with the state that they began with, and goes on without them: the
    /// present state becomes the base, and no earlier step can be undone. Makes no record. On an
    /// error, nothing changes.
    pub fn seal(&mut self, alloc: Global) -> Result<Volume, AllocError>
        ensures err { OnErr result (self.new ≡ self.old) }
        ensures volume { IfOk result (λ volume. volume ≡ volume_of self.old) }
        ensures goes_on { OnOk result (self.new ≡ sealed self.old) }
    {
        self.course.seal(alloc)
    }

    /// Returns how many records were sealed, in all seals.
    pub fn sealed(&self) -> u64
        ensures { result ≡ self.now.before }
    {
        self.course.before()
    }

    /// Returns the state that the history began with: at boot, or at the last seal.
    pub fn base(&self) -> &Image
        ensures { result.now ≡ record { layout = self.now.layout; memory = self.now.base } }
    {
        self.course.base()
    }

    /// Returns the layout.
    pub fn layout(&self) -> &Layout
        ensures { result.now ≡ self.now.layout }
    {
        self.course.memory().layout()
    }

    /// Returns the records since the last seal, oldest first. They are a legal history, and lead to
    /// the present state.
    pub fn history(&self) -> &[Record]
        ensures records { result.now ≡ self.now.history }
        ensures kept { IsHistory self.now }
    {
        self.course.history()
    }

    /// Called for its contract: each frame is in exactly one place, the pages hold what the owners'
    /// steps wrote, and the history has no more records than the layout allows. In the base, too,
    /// each frame is in exactly one place, and no operation holds a block under a number above that
    /// of the last sealed record.
    pub fn stays_sound(&self)
        ensures { IsSound self.now }
    {
        let _ = &self.course;
    }

    /// Called for its contract: until a record is sealed, the history begins with the state at
    /// boot.
    pub fn begins_at_boot(&self)
        ensures { self.now.before ≡ 0 → self.now.base ≡ boot_memory self.now.layout }
    {
        let _ = &self.course;
    }

    /// Called for its contract: from a Begin that is not undone to its operation's Commit or
    /// Cancel, the rows of its plan's blocks are as the Begin left them. A Commit that is not
    /// refused gives each block its wish. A Cancel that is not refused gives each the row from
    /// before the Begin (Linux, memory hotplug: offlining).
    pub fn keeps_operations(&self)
        ensures { KeepsOperations self.now }
    {
        let _ = &self.course;
    }

    /// Called for its contract: what `keeps_operations` guarantees also holds over the records of
    /// volumes and then the machine's own. The volumes must follow one another from boot and lead
    /// to the machine's base. An operation may begin before a seal and end after it (Linux, memory
    /// hotplug: offlining).
    pub fn keeps_operations_across_seals(&self)
        ensures { KeepsOperationsAcrossSeals self.now }
    {
        let _ = &self.course;
    }

    /// Returns the present state as an `Image` of its own.
    pub fn image(&self, alloc: Global) -> Result<Image, AllocError>
        ensures { IfOk result
            (λ image. image ≡ record { layout = self.now.layout; memory = self.now.state }) }
    {
        self.course.image(alloc)
    }

    /// Returns the present state, in layers.
    pub fn memory(&self) -> &Memory
        ensures { result.now ≡ record { layout = self.now.layout; state = self.now.state } }
    {
        self.course.memory()
    }

    /// Returns the front block of the free list of a class and an order, or `None` if the list is
    /// empty or the order is above the greatest (Gorman, chapter 6: free_area).
    pub fn front(&self, class: Class, order: Order) -> Option<Frame>
        ensures { result ≡ slice_get (free_list self.now.state.free.areas class order) 0 }
    {
        self.course.memory().front(class, order)
    }

    /// Returns the number of free blocks of a class and an order, or 0 above the greatest order
    /// (Gorman, chapter 6: nr_free).
    pub fn list_len(&self, class: Class, order: Order) -> u32
        ensures { result ≡ length (free_list self.now.state.free.areas class order) }
    {
        self.course.memory().list_len(class, order)
    }

    /// Returns the kind of a pageblock, or `None` past the last one (Linux, memory hotplug:
    /// isolated pageblocks; Gorman, chapter 6).
    pub fn kind(&self, pageblock: Pageblock) -> Option<Kind>
        ensures { result ≡ slice_get self.now.state.free.areas.kinds pageblock }
    {
        self.course.memory().kind(pageblock)
    }

    /// Returns the order of the kernel block that starts at a frame, or `None` if none does or the
    /// frame is outside the layout.
    pub fn kernel_at(&self, frame: Frame) -> Option<Order>
        ensures { result ≡ kernel_order self.now.state frame }
    {
        self.course.memory().kernel_at(frame)
    }

    /// Returns the row of a memory block, or `None` past the last one (Linux, memory hotplug:
    /// state).
    pub fn row(&self, block: Block) -> Option<Row>
        ensures { result ≡ slice_get self.now.state.blocks.rows block }
    {
        self.course.memory().row(block)
    }

    /// Returns the frame that holds an owner's page, or `None` if the page is not mapped or outside
    /// the layout.
    pub fn frame_at(&self, owner: Owner, page: Page) -> Option<Frame>
        ensures { result ≡ frame_at self.now.state.pages owner page }
    {
        self.course.memory().frame_at(owner, page)
    }

    /// Returns what a memory block becomes when it is added (Linux, memory hotplug:
    /// auto_online_blocks).
    pub fn auto(&self) -> Auto
        ensures { result ≡ self.now.state.blocks.auto }
    {
        self.course.memory().auto()
    }

    /// Returns the number of steps that are not undone.
    pub fn journal_len(&self) -> u64
        ensures { result ≡ length (net_of self.now.history) }
    {
        self.course.journal_len()
    }

    /// Returns the deltas of step `at`, counted from 0 among the steps that are not undone; `None`
    /// past the last. Latest first, they lead back from the state after the step to the state
    /// before it. There are at most as many as the step's bound.
    pub fn entry(&self, at: u64) -> Option<&[Delta]>
        ensures { MatchOption result (length (net_of self.now.history) ≤ at)
            (λ deltas. IsEntry self.now at deltas.now) }
    {
        self.course.entry(at)
    }

    /// Returns the deltas of step `at` and of all later steps, counted as in `entry`: an empty
    /// slice if `at` is the number of steps, and `None` if it is greater. An undo that keeps only
    /// the steps before `at` undoes just these, latest first.
    pub fn way_back(&self, at: u64) -> Option<&[Delta]>
        ensures { MatchOption result (length (net_of self.now.history) < at)
            (λ deltas. IsWayBack self.now at deltas.now) }
    {
        self.course.way_back(at)
    }

    /// Returns the free areas.
    pub fn buddy(&self) -> &Buddy
        ensures { result.now ≡ record { layout = self.now.layout; areas = self.now.state.free.areas } }
    {
        self.course.memory().buddy()
    }

    /// Returns the processors' lists.
    pub fn cpus(&self) -> &Cpus
        ensures { result.now ≡ record { layout = self.now.layout; cached = self.now.state.free.cached } }
    {
        self.course.memory().cpus()
    }

    /// Returns the owners' pages by frame. A mapped frame has a buffer with its page's words if one
    /// of them is not 0; no other frame has one.
    pub fn pages(&self) -> &Pages
        ensures value { result.now ≡ record {
          layout = self.now.layout;
          pages = page_frames_of self.now.layout self.now.state.pages;
        } }
        ensures settled { AreSettled result.now.pages }
    {
        self.course.memory().pages()
    }

    /// Returns the rows of the memory blocks.
    pub fn blocks(&self) -> &Blocks
        ensures { result.now ≡ record { layout = self.now.layout; blocks = self.now.state.blocks } }
    {
        self.course.memory().blocks()
    }

    /// Returns the last serial, which is the number of all records, sealed ones included.
    pub fn last_serial(&self) -> u64
        ensures { result ≡ last_serial self.now }
    {
        self.course.last_serial()
    }

    /// Returns whether there is no room for another record.
    fn is_full(&self) -> bool
        ensures { result ≡ is_full self.now }
    {
        self.course.history().len() as u64 >= self.course.memory().layout().history()
            || self.course.is_spent()
    }
}

impl CallMachine for Machine {
    ghost machine = { λ m. m };

    fn cpus(&self) -> u32 {
        self.layout().cpus()
    }

    fn answer(
        &mut self,
        alloc: Global,
        cpu: Cpu,
        event: &Event,
    ) -> Result<(Serial, Reply), CallFault> {
        Machine::answer(self, alloc, cpu, event)
    }
}
