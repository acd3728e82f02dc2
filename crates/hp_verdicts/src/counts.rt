//! Counts of a log besides its faults.
ghost use Rattle.std.specs.Prelude.{◌<◌};

use hp_judge::{LogEvent, MachineSize};
use hp_units::Order;
use std::alloc::{AllocError, Global};

/// How many events of each kind a log has.
#[derive(Clone, Copy, Drop)]
pub struct EventCounts {
    pub allocs: u64,
    pub frees: u64,
    pub moves: u64,
    /// Onlines that began.
    pub onlines: u64,
    /// Offlines that began.
    pub offlines: u64,
    /// Ends of onlines and offlines.
    pub ends: u64,
    /// Lines with no event, or with one of blocks that are not judged.
    pub others: u64,
}

impl EventCounts {
    /// Returns the counts of no events.
    pub fn none() -> EventCounts {
        EventCounts {
            allocs: 0,
            frees: 0,
            moves: 0,
            onlines: 0,
            offlines: 0,
            ends: 0,
            others: 0,
        }
    }

    /// Counts an event.
    pub fn add(&mut self, event: &LogEvent) {
        match event {
            LogEvent::Alloc { .. } => count(&mut self.allocs),
            LogEvent::Free { .. } => count(&mut self.frees),
            LogEvent::Move { .. } => count(&mut self.moves),
            LogEvent::OnlineBegins { .. } => count(&mut self.onlines),
            LogEvent::OfflineBegins { .. } => count(&mut self.offlines),
            LogEvent::OnlineEnds { .. } => count(&mut self.ends),
            LogEvent::OfflineEnds { .. } => count(&mut self.ends),
            LogEvent::Other => count(&mut self.others),
        }
    }
}

/// Adds one to a count.
fn count(counted: &mut u64) {
    *counted = counted.saturating_add(1);
}

/// What happened to a memory block.
#[derive(Clone, Copy, Drop)]
pub struct BlockCounts {
    /// Whether an event named the block, or one of its frames.
    pub is_named: bool,
    pub onlines: u64,
    pub failed_onlines: u64,
    pub offlines: u64,
    pub failed_offlines: u64,
    /// How many of its frames are in use, and the most that were at once.
    pub in_use: u32,
    pub most_in_use: u32,
    /// Frames that were handed out while the block was going offline.
    pub handed_out: u64,
    /// Pages that moved away from a frame of the block.
    pub moved: u64,
}

impl BlockCounts {
    /// Returns the counts of a block that no event has named.
    fn none() -> BlockCounts {
        BlockCounts {
            is_named: false,
            onlines: 0,
            failed_onlines: 0,
            offlines: 0,
            failed_offlines: 0,
            in_use: 0,
            most_in_use: 0,
            handed_out: 0,
            moved: 0,
        }
    }

    /// Notes an event on a piece that had `before` frames in use, and now has `after`.
    fn use_frames(&mut self, before: u32, after: u32) {
        self.is_named = true;
        let rest = self.in_use.saturating_sub(before);
        self.in_use = rest.saturating_add(after);
        self.most_in_use = self.most_in_use.max(self.in_use);
    }

    /// Counts the end of an online.
    fn end_online(&mut self, ok: bool) {
        self.is_named = true;
        if ok {
            count(&mut self.onlines);
        } else {
            count(&mut self.failed_onlines);
        }
    }

    /// Counts the end of an offline.
    fn end_offline(&mut self, ok: bool) {
        self.is_named = true;
        if ok {
            count(&mut self.offlines);
        } else {
            count(&mut self.failed_offlines);
        }
    }
}

/// How many frames of an event's pieces are in use, before the event or after it.
#[derive(Clone, Copy, Drop)]
pub struct Usage {
    /// The number for the piece of an alloc or a free, or for the frame that a page moves from.
    pub first: u32,
    /// The number for the frame that a page moves to; 0 for other events.
    pub second: u32,
}

/// What happened to each memory block.
#[derive(Drop)]
pub struct BlockTallies {
    rows: Vec<BlockCounts>,
}

impl BlockTallies {
    /// Makes an empty table.
    pub fn new(alloc: Global) -> BlockTallies {
        BlockTallies {
            rows: Vec::new(alloc),
        }
    }

    /// Returns the counts of each block, from block 0.
    pub fn rows(&self) -> &[BlockCounts] {
        self.rows.as_slice()
    }

    /// Extends the table to `blocks` memory blocks, if it has fewer.
    pub fn grow(&mut self, blocks: u32) -> Result<(), AllocError> {
        let blocks = blocks as usize;
        if blocks <= self.rows.len() {
            return Ok(());
        }
        self.rows.resize(blocks, BlockCounts::none())
    }

    /// Counts an event. `is_late` is whether its frames are handed out while their block is going
    /// offline.
    pub fn note(
        &mut self,
        size: &MachineSize,
        event: &LogEvent,
        is_late: bool,
        before: Usage,
        after: Usage,
    )
        requires { size.now.block_order < 32 }
    {
        match event {
            LogEvent::Alloc { frame, order, .. } => {
                let block = size.block_of(*frame);
                self.hand_out(block, frames_of(*order), is_late);
                self.use_frames(block, before.first, after.first);
            }
            LogEvent::Free { frame, .. } => {
                self.use_frames(size.block_of(*frame), before.first, after.first);
            }
            LogEvent::Move { from, to } => {
                self.note_move(
                    size.block_of(*from),
                    size.block_of(*to),
                    is_late,
                    before,
                    after,
                );
            }
            LogEvent::OnlineBegins { block, .. } => self.use_frames(block.0, u32::MAX, 0),
            LogEvent::OnlineEnds { block, ok } => self.end_online(block.0, *ok),
            LogEvent::OfflineBegins { block } => self.use_frames(block.0, 0, 0),
            LogEvent::OfflineEnds { block, ok } => self.end_offline(block.0, *ok),
            LogEvent::Other => {}
        }
    }

    /// Counts a move.
    fn note_move(&mut self, from: u32, to: u32, is_late: bool, before: Usage, after: Usage) {
        self.move_page(from);
        self.hand_out(to, 1, is_late);
        self.use_frames(from, before.first, after.first);
        self.use_frames(to, before.second, after.second);
    }

    /// Notes an event on a piece of the block that had `before` frames in use, and now has `after`.
    fn use_frames(&mut self, block: u32, before: u32, after: u32) {
        if let Some(row) = self.rows.get_mut(block as usize) {
            row.use_frames(before, after);
        }
    }

    /// Counts frames that are handed out while their block is going offline.
    fn hand_out(&mut self, block: u32, frames: u32, is_late: bool) {
        if !is_late {
            return;
        }
        if let Some(row) = self.rows.get_mut(block as usize) {
            row.handed_out = row.handed_out.saturating_add(frames as u64);
        }
    }

    /// Counts a page that leaves its frame in the block.
    fn move_page(&mut self, block: u32) {
        if let Some(row) = self.rows.get_mut(block as usize) {
            count(&mut row.moved);
        }
    }

    /// Counts the end of an online.
    fn end_online(&mut self, block: u32, ok: bool) {
        if let Some(row) = self.rows.get_mut(block as usize) {
            row.end_online(ok);
        }
    }

    /// Counts the end of an offline.
    fn end_offline(&mut self, block: u32, ok: bool) {
        if let Some(row) = self.rows.get_mut(block as usize) {
            row.end_offline(ok);
        }
    }
}

/// Returns the number of frames of a piece of this order, or 0 if the order is 32 or more.
pub(crate) fn frames_of(order: Order) -> u32 {
    1u32.checked_shl(order.0).unwrap_or(0)
}
