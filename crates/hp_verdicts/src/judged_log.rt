//! A log, judged and counted event by event.
ghost use Rattle.std.specs.Prelude.{◌≡◌, ◌<◌, ◌≤◌, ◌↔◌, ◌^◌, IsTrue};
ghost use Rattle.hp_judge.specs.Events.{frame_count};

use crate::counts::{BlockTallies, EventCounts, Usage, frames_of};
use crate::options::JudgeOptions;
use crate::selection::BlockRange;
use crate::verdict::Verdict;
use hp_judge::{LogEvent, MachineSize, Phase};
use hp_units::Block;
use std::alloc::{AllocError, Global};

/// The verdict on a log, with its counts.
#[derive(Drop)]
pub struct JudgedLog {
    size: MachineSize,
    range: Option<BlockRange>,
    verdict: Verdict,
    events: EventCounts,
    blocks: BlockTallies,
    ghost order: { size.block_order < 32 },
    ghost small: { frame_count size < 2 ^ 32 },
}

impl JudgedLog {
    /// Makes a log of no events.
    pub fn new(alloc: Global, size: &MachineSize, options: &JudgeOptions) -> JudgedLog
        requires order { size.now.block_order < 32 }
        requires small { frame_count size.now < 2 ^ 32 }
    {
        JudgedLog {
            size: *size,
            range: options.range(),
            verdict: Verdict::new(alloc, *size, options.allowed(), options.most()),
            events: EventCounts::none(),
            blocks: BlockTallies::new(alloc),
        }
    }

    /// Returns the size of the machine.
    pub fn size(&self) -> MachineSize
        ensures { result.block_order < 32 }
    {
        self.size
    }

    /// Returns the verdict on the log so far.
    pub fn verdict(&self) -> &Verdict {
        &self.verdict
    }

    /// Returns whether the log has as many events as can be read, 2^63.
    pub fn is_full(&self) -> bool
        ensures { IsTrue result ↔ 2 ^ 63 ≤ self.now.verdict.tables.count }
    {
        self.verdict.is_full()
    }

    /// Returns whether the log has no fault but allowed ones.
    pub fn is_lawful(&self) -> bool
        ensures { IsTrue result ↔ self.now.verdict.report.count ≡ 0 }
    {
        self.verdict.is_lawful()
    }

    /// Returns how many events of each kind there are.
    pub fn events(&self) -> EventCounts {
        self.events
    }

    /// Returns what happened to each memory block.
    pub fn blocks(&self) -> &BlockTallies {
        &self.blocks
    }

    /// Reads the next event.
    pub fn read(&mut self, event: &LogEvent) -> Result<(), AllocError>
        requires { self.old.verdict.tables.count < 2 ^ 63 }
    {
        let event = self.part_of(event);
        let is_late = self.is_late(&event);
        let before = self.usage(&event);
        self.verdict.read(&event)?;
        let after = self.usage(&event);
        self.note(&event, is_late, before, after)
    }
}

impl JudgedLog {
    /// Returns what the event does to the judged blocks, as [`BlockRange::part_of`] does.
    fn part_of(&self, event: &LogEvent) -> LogEvent {
        match self.range {
            Some(range) => range.part_of(&self.size, event),
            None => *event,
        }
    }

    /// Counts an event that was read.
    fn note(
        &mut self,
        event: &LogEvent,
        is_late: bool,
        before: Usage,
        after: Usage,
    ) -> Result<(), AllocError> {
        self.events.add(event);
        if !self.size.is_well_formed(event) {
            return Ok(());
        }
        self.blocks.grow(self.size.blocks_below(event))?;
        self.blocks.note(&self.size, event, is_late, before, after);
        Ok(())
    }

    /// Returns how many frames of an event's pieces are in use.
    fn usage(&self, event: &LogEvent) -> Usage {
        let verdict = &self.verdict;
        match event {
            LogEvent::Alloc { frame, order, .. } => Usage {
                first: verdict.count_in_use(*frame, frames_of(*order)),
                second: 0,
            },
            LogEvent::Free { frame, order } => Usage {
                first: verdict.count_in_use(*frame, frames_of(*order)),
                second: 0,
            },
            LogEvent::Move { from, to } => Usage {
                first: verdict.count_in_use(*from, 1),
                second: verdict.count_in_use(*to, 1),
            },
            _ => Usage {
                first: 0,
                second: 0,
            },
        }
    }

    /// Returns whether an event hands frames out while their block is going offline.
    fn is_late(&self, event: &LogEvent) -> bool {
        match event {
            LogEvent::Alloc { frame, .. } => self.is_going(self.size.block_of(*frame)),
            LogEvent::Move { to, .. } => self.is_going(self.size.block_of(*to)),
            _ => false,
        }
    }

    /// Returns whether a memory block is going offline.
    fn is_going(&self, block: u32) -> bool {
        match self.verdict.phase(Block(block)) {
            Phase::GoingOffline { .. } => true,
            _ => false,
        }
    }
}
