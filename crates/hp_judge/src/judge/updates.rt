//! Updates the judge's tables with an event.
ghost use Rattle.std.specs.Prelude.{◌≡◌, ◌<◌, ◌^◌, false, length, true};
ghost use Rattle.hp_judge.specs.Events.{block_of, is_move, is_of, is_online_begin, is_piece, is_well_formed};
ghost use Rattle.hp_judge.specs.Tables.{LiesBelow, StepsAt};

use super::Judge;
use crate::events::{LogEvent, piece_size};
use crate::frames::FrameState;
use hp_units::{Block, Frame, Order, Zone};

impl Judge {
    /// Updates the tables with an event of this machine, lawful or not.
    #[inline(always)]
    pub(super) fn apply(&mut self, event: &LogEvent)
        requires formed { is_well_formed self.old.size event.now ≡ true }
        requires room { LiesBelow self.old.size (length self.old.blocks) event.now }
        requires count { self.old.count < 2 ^ 63 }
        ensures size { self.new.size ≡ self.old.size }
        ensures steps { StepsAt self.old.size event.now self.old self.new }
    {
        match event {
            LogEvent::Alloc {
                frame,
                order,
                movable,
            } => self.apply_alloc(*frame, *order, *movable),
            LogEvent::Free { frame, order } => self.apply_free(*frame, *order),
            LogEvent::Move { from, to } => self.apply_move(*from, *to),
            LogEvent::OnlineBegins { block, zone } => self.apply_online(*block, *zone),
            LogEvent::OnlineEnds { block, .. } => self.apply_transition(*block, event),
            LogEvent::OfflineBegins { block } => self.apply_transition(*block, event),
            LogEvent::OfflineEnds { block, .. } => self.apply_transition(*block, event),
            LogEvent::Other => self.apply_other(),
        }
    }

    /// Counts an event that a machine of this size cannot have written.
    pub(super) fn skip(&mut self, event: &LogEvent)
        requires formed { is_well_formed self.old.size event.now ≡ false }
        requires count { self.old.count < 2 ^ 63 }
        ensures size { self.new.size ≡ self.old.size }
        ensures steps { StepsAt self.old.size event.now self.old self.new }
    {
        self.count += 1;
    }

    /// Counts an event that no law is about.
    fn apply_other(&mut self)
        requires { self.old.count < 2 ^ 63 }
        ensures size { self.new.size ≡ self.old.size }
        ensures steps { StepsAt self.old.size LogEvent.Other self.old self.new }
    {
        self.count += 1;
    }

    /// Updates the tables with an alloc.
    fn apply_alloc(&mut self, start: Frame, order: Order, movable: bool)
        requires piece { is_piece self.old.size start order ≡ true }
        requires room { block_of self.old.size start < length self.old.blocks }
        requires count { self.old.count < 2 ^ 63 }
        ensures size { self.new.size ≡ self.old.size }
        ensures steps { StepsAt self.old.size (LogEvent.Alloc start order movable) self.old self.new }
    {
        let number = self.count;
        self.count = number + 1;
        self.frames.set(
            start.0,
            piece_size(order),
            FrameState::InUse { since: number },
        );
    }

    /// Updates the tables with a free.
    fn apply_free(&mut self, start: Frame, order: Order)
        requires piece { is_piece self.old.size start order ≡ true }
        requires room { block_of self.old.size start < length self.old.blocks }
        requires count { self.old.count < 2 ^ 63 }
        ensures size { self.new.size ≡ self.old.size }
        ensures steps { StepsAt self.old.size (LogEvent.Free start order) self.old self.new }
    {
        let number = self.count;
        self.count = number + 1;
        self.frames.set(
            start.0,
            piece_size(order),
            FrameState::Free { since: number },
        );
    }

    /// Updates the tables with a move.
    fn apply_move(&mut self, from: Frame, to: Frame)
        requires is_move { is_move self.old.size from to ≡ true }
        requires from_room { block_of self.old.size from < length self.old.blocks }
        requires to_room { block_of self.old.size to < length self.old.blocks }
        requires count { self.old.count < 2 ^ 63 }
        ensures size { self.new.size ≡ self.old.size }
        ensures steps { StepsAt self.old.size (LogEvent.Move from to) self.old self.new }
    {
        let number = self.count;
        self.count = number + 1;
        self.frames
            .set(from.0, 1, FrameState::Free { since: number });
        self.frames
            .set(to.0, 1, FrameState::InUse { since: number });
    }

    /// Updates the tables with the start of an online.
    fn apply_online(&mut self, block: Block, zone: Zone)
        requires inside { block < self.old.size.blocks }
        requires room { block < length self.old.blocks }
        requires count { self.old.count < 2 ^ 63 }
        ensures size { self.new.size ≡ self.old.size }
        ensures steps { StepsAt self.old.size (LogEvent.OnlineBegins block zone) self.old self.new }
    {
        let number = self.count;
        self.count = number + 1;
        let count = piece_size(self.size.block_order);
        let at = block.0;
        self.frames.set(at * count, count, FrameState::Unknown);
        let event = LogEvent::OnlineBegins { block, zone };
        let state = self.blocks.state(at).after(&event, number);
        self.blocks.set(at, state);
    }

    /// Updates the tables with the end of an online, or with the start or the end of an offline.
    fn apply_transition(&mut self, block: Block, event: &LogEvent)
        requires inside { block < self.old.size.blocks }
        requires room { block < length self.old.blocks }
        requires own { is_of block event.now ≡ true }
        requires other { is_online_begin event.now ≡ false }
        requires count { self.old.count < 2 ^ 63 }
        ensures size { self.new.size ≡ self.old.size }
        ensures steps { StepsAt self.old.size event.now self.old self.new }
    {
        let number = self.count;
        self.count = number + 1;
        let state = self.blocks.state(block.0).after(event, number);
        self.blocks.set(block.0, state);
    }
}
