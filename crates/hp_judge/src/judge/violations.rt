//! Finds the law that an event breaks, from the judge's tables.
ghost use Rattle.std.specs.Prelude.{◌≡◌, ◌<◌, length, true};
ghost use Rattle.hp_judge.specs.Events.{block_of, is_move, is_of, is_piece, is_well_formed, leaves_offline};
ghost use Rattle.hp_judge.specs.Tables.{LiesBelow, block_at};
ghost use Rattle.hp_judge.specs.Verdicts.{FindsViolation, transition_violation, violation_in, violation_unless};

use super::Judge;
use crate::blocks::Phase;
use crate::events::{LogEvent, piece_size};
use crate::faults::{Law, Violation};
use hp_units::{Block, Frame, Order};

impl Judge {
    /// Returns the first law that an event breaks.
    #[inline(always)]
    pub(super) fn violation_of(&self, event: &LogEvent) -> Option<Violation>
        requires formed { is_well_formed self.now.size event.now ≡ true }
        requires room { LiesBelow self.now.size (length self.now.blocks) event.now }
        ensures { FindsViolation self.now.size (violation_in self.now event.now) result }
    {
        match event {
            LogEvent::Alloc {
                frame,
                order,
                movable,
            } => self.violation_of_alloc(*frame, *order, *movable),
            LogEvent::Free { frame, order } => self.violation_of_free(*frame, *order),
            LogEvent::Move { from, to } => self.violation_of_move(*from, *to),
            LogEvent::OnlineBegins { block, .. } => self.violation_of_transition(*block, event),
            LogEvent::OnlineEnds { block, .. } => self.violation_of_transition(*block, event),
            LogEvent::OfflineBegins { block } => self.violation_of_transition(*block, event),
            LogEvent::OfflineEnds { block, .. } => self.violation_of_transition(*block, event),
            LogEvent::Other => None,
        }
    }

    /// Returns the first law that an alloc breaks.
    fn violation_of_alloc(&self, start: Frame, order: Order, movable: bool) -> Option<Violation>
        requires piece { is_piece self.now.size start order ≡ true }
        requires room { block_of self.now.size start < length self.now.blocks }
        ensures { FindsViolation self.now.size
            (violation_in self.now (LogEvent.Alloc start order movable)) result }
    {
        if let Some(found) = self.frames.first_in_use(start.0, piece_size(order)) {
            return Some(Violation {
                law: Law::Once,
                place: found.frame,
                since: found.since,
            });
        }
        let block = self.blocks.state(self.size.block_of(start));
        if let Some(since) = block.gone {
            return Some(Violation {
                law: Law::Present,
                place: start.0,
                since,
            });
        }
        if movable {
            return None;
        }
        if let Some(since) = block.movable {
            return Some(Violation {
                law: Law::Movable,
                place: start.0,
                since,
            });
        }
        None
    }

    /// Returns the first law that a free breaks.
    fn violation_of_free(&self, start: Frame, order: Order) -> Option<Violation>
        requires piece { is_piece self.now.size start order ≡ true }
        requires room { block_of self.now.size start < length self.now.blocks }
        ensures { FindsViolation self.now.size (violation_in self.now (LogEvent.Free start order)) result }
    {
        if let Some(found) = self.frames.first_free(start.0, piece_size(order)) {
            return Some(Violation {
                law: Law::InUse,
                place: found.frame,
                since: found.since,
            });
        }
        None
    }

    /// Returns the first law that a move breaks.
    fn violation_of_move(&self, from: Frame, to: Frame) -> Option<Violation>
        requires is_move { is_move self.now.size from to ≡ true }
        requires from_room { block_of self.now.size from < length self.now.blocks }
        requires to_room { block_of self.now.size to < length self.now.blocks }
        ensures { FindsViolation self.now.size (violation_in self.now (LogEvent.Move from to)) result }
    {
        if let Some(found) = self.frames.first_in_use(to.0, 1) {
            return Some(Violation {
                law: Law::Once,
                place: found.frame,
                since: found.since,
            });
        }
        if let Some(found) = self.frames.first_free(from.0, 1) {
            return Some(Violation {
                law: Law::InUse,
                place: found.frame,
                since: found.since,
            });
        }
        if let Some(since) = self.blocks.state(self.size.block_of(to)).gone {
            return Some(Violation {
                law: Law::Present,
                place: to.0,
                since,
            });
        }
        None
    }

    /// Returns the first law that an event of a memory block breaks.
    fn violation_of_transition(&self, block: Block, event: &LogEvent) -> Option<Violation>
        requires inside { block < self.now.size.blocks }
        requires room { block < length self.now.blocks }
        requires own { is_of block event.now ≡ true }
        ensures { FindsViolation self.now.size (violation_in self.now event.now) result }
    {
        if event.leaves_offline() {
            return self.violation_of_offlining(block, event);
        }
        self.wrong_transition(block, event)
    }

    /// Returns the first law that is broken by an event that leaves `block` offline.
    fn violation_of_offlining(&self, block: Block, event: &LogEvent) -> Option<Violation>
        requires inside { block < self.now.size.blocks }
        requires room { block < length self.now.blocks }
        requires own { is_of block event.now ≡ true }
        requires offlines { leaves_offline event.now ≡ true }
        ensures { FindsViolation self.now.size (violation_in self.now event.now) result }
    {
        let count = piece_size(self.size.block_order);
        if let Some(found) = self.frames.first_in_use(block.0 * count, count) {
            return Some(Violation {
                law: Law::Empty,
                place: found.frame,
                since: found.since,
            });
        }
        self.wrong_transition(block, event)
    }

    /// Returns the law that an event breaks in the present phase of its block.
    fn wrong_transition(&self, block: Block, event: &LogEvent) -> Option<Violation>
        requires { block < length self.now.blocks }
        ensures { result ≡ transition_violation (block_at self.now.blocks block).phase block event.now }
    {
        wrong_transition(self.blocks.state(block.0).phase, block, event)
    }
}

/// Returns the law that an event breaks in the present phase of its block.
fn wrong_transition(phase: Phase, block: Block, event: &LogEvent) -> Option<Violation>
    ensures { result ≡ transition_violation phase block event.now }
{
    match phase {
        Phase::Unknown => None,
        Phase::GoingOnline { since } => violation_unless(
            event.is_online_end(),
            Law::GoingOnline,
            block,
            since,
        ),
        Phase::Online { since } => violation_unless(
            event.is_offline_begin(),
            Law::Online,
            block,
            since,
        ),
        Phase::GoingOffline { since } => violation_unless(
            event.is_offline_end(),
            Law::GoingOffline,
            block,
            since,
        ),
        Phase::Offline { since } => violation_unless(
            event.is_online_begin(),
            Law::Offline,
            block,
            since,
        ),
    }
}

/// Returns the violation of a law by an event of a block, unless the law holds.
fn violation_unless(holds: bool, law: Law, block: Block, since: u64) -> Option<Violation>
    ensures { result ≡ violation_unless holds law block since }
{
    if holds {
        return None;
    }
    Some(Violation {
        law,
        place: block.0,
        since,
    })
}
