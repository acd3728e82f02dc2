//! The memory blocks of a log, each with its columns.
ghost use Rattle.std.specs.Prelude.{◌<◌};

use crate::columns::Columns;
use crate::marks::BlockSigns;
use hp_judge::LogEvent;
use hp_units::Block;
use hp_verdicts::JudgedLog;
use std::alloc::{AllocError, Global};

/// At most this many memory blocks have a band: the first that the log names.
const MOST_BANDS: usize = 1024;

/// The numbers of events are below this.
const EVENT_LIMIT: u64 = 1 << 63;

/// The columns of a log's memory blocks.
#[derive(Drop)]
pub struct LogBands {
    alloc: Global,
    /// The columns, in the order in which the log names the blocks.
    bands: Vec<Columns>,
    /// Per block, the index of its columns.
    places: Vec<Option<u32>>,
}

impl LogBands {
    /// Makes the bands of an empty log.
    pub fn new(alloc: Global) -> LogBands {
        LogBands {
            alloc,
            bands: Vec::new(alloc),
            places: Vec::new(alloc),
        }
    }

    /// Returns how many memory blocks have a band.
    pub fn count(&self) -> u64 {
        self.bands.len() as u64
    }

    /// Returns the columns of a memory block, if it has a band.
    pub fn columns(&self, block: u32) -> Option<&Columns> {
        let place = self.place(block)?;
        self.bands.get(place as usize)
    }

    /// Adds the event that `log` has read last.
    pub fn read(&mut self, log: &JudgedLog, event: &LogEvent) -> Result<(), AllocError> {
        let size = log.size();
        let none = BlockSigns::none();
        match event {
            LogEvent::Alloc { frame, .. } => self.add(log, size.block_of(*frame), none),
            LogEvent::Free { frame, .. } => self.add(log, size.block_of(*frame), none),
            LogEvent::Move { from, to } => {
                self.add(log, size.block_of(*from), none)?;
                self.add(log, size.block_of(*to), none)
            }
            LogEvent::OnlineBegins { block, .. } => self.add(log, block.0, none),
            LogEvent::OfflineBegins { block } => self.add(log, block.0, none),
            LogEvent::OnlineEnds { block, ok } => self.add(
                log,
                block.0,
                BlockSigns::of_online(*ok),
            ),
            LogEvent::OfflineEnds { block, ok } => self.add(
                log,
                block.0,
                BlockSigns::of_offline(*ok),
            ),
            LogEvent::Other => Ok(()),
        }
    }

    /// Extends each band to the end of the log.
    pub fn finish(&mut self, log: &JudgedLog) -> Result<(), AllocError> {
        let events = log.verdict().event_count();
        for columns in self.bands.iter_mut() {
            extend(columns, events)?;
        }
        Ok(())
    }
}

impl LogBands {
    /// Adds the last event to a memory block's band, if the log names the block.
    fn add(&mut self, log: &JudgedLog, block: u32, ends: BlockSigns) -> Result<(), AllocError> {
        let Some(count) = count_in_use(log, block) else {
            return Ok(());
        };
        let state = BlockSigns::of_phase(&log.verdict().phase(Block(block)));
        let event = log.verdict().event_count().saturating_sub(1);
        self.make_band(block)?;
        let Some(place) = self.place(block) else {
            return Ok(());
        };
        match self.bands.get_mut(place as usize) {
            Some(columns) => read_event(columns, event, count, state, ends),
            None => Ok(()),
        }
    }

    /// Returns the index of a block's band, if it has one.
    fn place(&self, block: u32) -> Option<u32> {
        match self.places.get(block as usize) {
            Some(place) => *place,
            None => None,
        }
    }

    /// Makes a block's band, if it has none and there is room.
    fn make_band(&mut self, block: u32) -> Result<(), AllocError> {
        if self.place(block).is_some() || self.bands.len() >= MOST_BANDS {
            return Ok(());
        }
        let place = self.bands.len() as u32;
        self.bands.push(Columns::new(self.alloc))?;
        self.set_place(block as usize, place)
    }

    /// Stores the index of a block's band.
    fn set_place(&mut self, block: usize, place: u32) -> Result<(), AllocError> {
        if self.places.len() <= block {
            self.places.resize(block.saturating_add(1), None)?;
        }
        if let Some(slot) = self.places.get_mut(block) {
            *slot = Some(place);
        }
        Ok(())
    }
}

/// Adds an event, unless it is there already: a move within a block names the block twice.
fn read_event(
    columns: &mut Columns,
    event: u64,
    count: u32,
    state: BlockSigns,
    ends: BlockSigns,
) -> Result<(), AllocError> {
    if columns.event_count() > event || event >= EVENT_LIMIT {
        return Ok(());
    }
    columns.read(event, count, state, ends)
}

/// Extends the columns to `events` events.
fn extend(columns: &mut Columns, events: u64) -> Result<(), AllocError> {
    if columns.event_count() > events || events >= EVENT_LIMIT {
        return Ok(());
    }
    columns.extend(events)
}

/// Returns how many frames of a memory block are in use, if the log names it.
fn count_in_use(log: &JudgedLog, block: u32) -> Option<u32> {
    let row = log.blocks().rows().get(block as usize)?;
    if row.is_named { Some(row.in_use) } else { None }
}
