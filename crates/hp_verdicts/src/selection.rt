//! The part of a log that is judged.
ghost use Rattle.std.specs.Prelude.{◌≡◌, ◌<◌, if◌then◌else◌, true};
ghost use Rattle.hp_judge.specs.Events.{is_move, is_well_formed};
ghost use Rattle.hp_judge.specs.declared.events.LogEvent.TheVariants.{Move, Other};
ghost use Rattle.hp_verdicts.specs.Parts.{IsPartOf, contains};

use hp_judge::{LogEvent, MachineSize};
use hp_units::{Block, Frame, Order};

/// The memory blocks from `first` up to `end`, which is not in the range.
#[derive(Clone, Copy, Drop)]
pub struct BlockRange {
    pub first: u32,
    pub end: u32,
}

impl BlockRange {
    /// Returns whether a memory block is in the range.
    pub fn contains(&self, block: u32) -> bool
        ensures { result ≡ contains self.now block }
    {
        self.first <= block && block < self.end
    }

    /// Returns what the event does to the blocks of the range.
    ///
    /// An event of other blocks becomes `LogEvent::Other`, so that events keep their numbers. A
    /// move out of the range is a free, and one into it an alloc of a movable page.
    ///
    /// This also holds for frames and blocks outside the machine: such an event is malformed in the
    /// whole log, but not in this part. The part cannot refuse it, since `size` may end before a
    /// block that another part has. So a log is judged by its parts only if they have every block
    /// that it names.
    pub fn part_of(&self, size: &MachineSize, event: &LogEvent) -> LogEvent
        requires { size.now.block_order < 32 }
        ensures { is_well_formed size.now event.now ≡ true → IsPartOf size.now self.now event.now result }
    {
        match event {
            LogEvent::Alloc { frame, .. } => self.kept(Block(size.block_of(*frame)), event),
            LogEvent::Free { frame, .. } => self.kept(Block(size.block_of(*frame)), event),
            LogEvent::OnlineBegins { block, .. } => self.kept(*block, event),
            LogEvent::OnlineEnds { block, .. } => self.kept(*block, event),
            LogEvent::OfflineBegins { block } => self.kept(*block, event),
            LogEvent::OfflineEnds { block, .. } => self.kept(*block, event),
            LogEvent::Move { from, to } => self.part_of_move(size, *from, *to),
            LogEvent::Other => LogEvent::Other,
        }
    }

    /// Returns the event of a memory block if the block is in the range, else `LogEvent::Other`.
    fn kept(&self, block: Block, event: &LogEvent) -> LogEvent
        ensures { result ≡ (if contains self.now block then event.now else Other) }
    {
        if self.contains(block.0) {
            *event
        } else {
            LogEvent::Other
        }
    }

    /// Returns what a move does to the blocks of the range: the move, a free, an alloc, or `Other`.
    fn part_of_move(&self, size: &MachineSize, from: Frame, to: Frame) -> LogEvent
        requires { size.now.block_order < 32 }
        ensures { is_move size.now from to ≡ true → IsPartOf size.now self.now (Move from to) result }
    {
        let leaves = self.contains(size.block_of(from));
        let comes = self.contains(size.block_of(to));
        if leaves && comes {
            return LogEvent::Move { from, to };
        }
        if leaves {
            return LogEvent::Free {
                frame: from,
                order: Order(0),
            };
        }
        if comes {
            return LogEvent::Alloc {
                frame: to,
                order: Order(0),
                movable: true,
            };
        }
        LogEvent::Other
    }
}
