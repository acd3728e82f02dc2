//! A memory block's frames in use over a log, in a limited number of columns.
ghost use Rattle.std.specs.Prelude.{◌≡◌, ℕ, ◌+◌, ◌/◌, ◌<◌, ◌≤◌, ◌^◌, [], OnOk, IfOk, length, slice_index};
ghost use Rattle.hp_log_pictures.specs.Columns.{events_below, peak_at};

use crate::marks::BlockSigns;
use std::alloc::{AllocError, Global};
use std::marker::Model;

/// The greatest number of columns.
pub const MOST_COLUMNS: usize = 1024;

/// A memory block's frames in use over a log, in columns of equal numbers of events.
///
/// A column keeps the greatest count of frames in use after one of its events. When all columns are
/// full, neighbours are joined, so the memory does not depend on the length of the log.
#[derive(Drop)]
pub struct Columns {
    alloc: Global,
    /// How many events a full column has.
    width: u64,
    events: u64,
    /// How many more events the last column takes.
    room: u64,
    /// The number of frames in use after the last event.
    count: u32,
    state: BlockSigns,
    peaks: Vec<u32>,
    marks: Vec<BlockSigns>,
}

impl Model for Columns {
    ghost use Rattle.std.specs.Prelude.{◌≡◌, ◌+◌, ◌*◌, ◌<◌, ◌≤◌, length};
    ghost use Rattle.hp_log_pictures.specs.Columns.{Sampled};

    ghost Value = { Sampled };

    ghost view = { λ c. record {
      width = c.width;
      events = c.events;
      room = c.room;
      count = c.count;
      peaks = c.peaks.items;
    } };

    ghost invariant = { λ c. (c.events + c.room ≡ length c.peaks.items * c.width) × (c.room < c.width)
        × (length c.peaks.items ≤ 1024) };
}

impl Columns {
    /// Makes the columns of an empty log, for a block with no frames in use.
    pub fn new(alloc: Global) -> Columns
        ensures { result ≡ record { width = 1; events = 0; room = 0; count = 0; peaks = [] } }
    {
        Columns {
            alloc,
            width: 1,
            events: 0,
            room: 0,
            count: 0,
            state: BlockSigns::none(),
            peaks: Vec::new(alloc),
            marks: Vec::new(alloc),
        }
    }

    /// Returns how many events the columns have.
    pub fn event_count(&self) -> u64
        ensures events { result ≡ self.now.events }
        // Each event lies in one column.
        ensures covered { events_below self.now (length self.now.peaks) ≡ result }
    {
        self.events
    }

    /// Returns how many events a full column has: event e lies in column e / width.
    pub fn width(&self) -> u64
        ensures width { result ≡ self.now.width }
        ensures some { 0 < result }
    {
        self.width
    }

    /// Returns the greatest count of each column.
    pub fn peaks(&self) -> &[u32]
        ensures { result.now ≡ self.now.peaks }
    {
        self.peaks.as_slice()
    }

    /// Returns the marks of each column.
    pub fn marks(&self) -> &[BlockSigns] {
        self.marks.as_slice()
    }

    /// Adds event number `event`, which leaves `count` frames in use and the marks `state`; `ends`
    /// are marks of this event only. The events between the last one that was added and this one
    /// changed nothing.
    pub fn read(
        &mut self,
        event: u64,
        count: u32,
        state: BlockSigns,
        ends: BlockSigns,
    ) -> Result<(), AllocError>
        requires next { self.old.events ≤ event }
        requires small { event < 2 ^ 63 }
        ensures events { OnOk result (self.new.events ≡ event + 1) }
        ensures count { OnOk result (self.new.count ≡ count) }
        // No column is lower than a count that one of its events left.
        ensures told { OnOk result (count ≤ peak_at self.new event) }
        ensures held { OnOk result ((e : ℕ) → self.old.events ≤ e → e < event
            → self.old.count ≤ peak_at self.new e) }
        ensures kept { OnOk result ((e : ℕ) → e < self.old.events
            → peak_at self.old e ≤ peak_at self.new e) }
    {
        self.extend(event)?;
        self.set(count, state);
        self.add_some(1, ends)?;
        Ok(())
    }

    /// Extends the columns to `events` events. The new ones changed nothing.
    pub fn extend(&mut self, events: u64) -> Result<(), AllocError>
        requires more { self.old.events ≤ events }
        requires small { events < 2 ^ 63 }
        ensures events { OnOk result (self.new.events ≡ events) }
        ensures count { self.new.count ≡ self.old.count }
        ensures held { OnOk result ((e : ℕ) → self.old.events ≤ e → e < events
            → self.old.count ≤ peak_at self.new e) }
        ensures kept { OnOk result ((e : ℕ) → e < self.old.events
            → peak_at self.old e ≤ peak_at self.new e) }
    {
        'behind: while self.event_count() < events {
            let rest = events - self.event_count();
            self.add_some(rest, BlockSigns::none())?;
        }
        Ok(())
    }
}

impl Columns {
    /// Sets the count and the marks that events leave from now on.
    fn set(&mut self, count: u32, state: BlockSigns)
        ensures { self.new ≡ record self.old { count = count } }
    {
        self.count = count;
        self.state = state;
    }

    /// Returns how many more events the last column takes.
    fn room(&self) -> u64
        ensures { result ≡ self.now.room }
    {
        self.room
    }

    /// Returns the marks of an event with these ends.
    fn marks_with(&self, ends: BlockSigns) -> BlockSigns {
        self.state.with(ends)
    }

    /// Adds at least one event and at most `most`, all to one column. They left the count as it is.
    fn add_some(&mut self, most: u64, ends: BlockSigns) -> Result<(), AllocError>
        requires some { 0 < most }
        requires small { self.old.events + most ≤ 2 ^ 63 }
        ensures count { self.new.count ≡ self.old.count }
        ensures more { OnOk result (self.old.events < self.new.events) }
        ensures most { OnOk result (self.new.events ≤ self.old.events + most) }
        ensures held { OnOk result ((e : ℕ) → self.old.events ≤ e → e < self.new.events
            → self.old.count ≤ peak_at self.new e) }
        ensures kept { OnOk result ((e : ℕ) → e < self.old.events
            → peak_at self.old e ≤ peak_at self.new e) }
    {
        let marks = self.marks_with(ends);
        if self.room() > 0 {
            self.raise_last(most, marks);
            return Ok(());
        }
        self.make_room()?;
        self.push_column(most, marks)?;
        Ok(())
    }

    /// Joins each two neighbouring columns into one if the number of columns is at its limit.
    fn make_room(&mut self) -> Result<(), AllocError>
        requires full { self.old.room ≡ 0 }
        requires small { self.old.events < 2 ^ 63 }
        ensures count { self.new.count ≡ self.old.count }
        ensures events { OnOk result (self.new.events ≡ self.old.events) }
        ensures full { OnOk result (self.new.room ≡ 0) }
        ensures few { OnOk result (length self.new.peaks < 1024) }
        ensures kept { OnOk result ((e : ℕ) → e < self.old.events
            → peak_at self.old e ≤ peak_at self.new e) }
    {
        if self.column_count() == MOST_COLUMNS {
            self.join()?;
            return Ok(());
        }
        Ok(())
    }

    /// Returns how many columns there are.
    fn column_count(&self) -> usize
        ensures columns { result ≡ length self.now.peaks }
        ensures few { result ≤ 1024 }
    {
        self.peaks.len()
    }

    /// Adds at least one event and at most `most` to the last column, which has room.
    fn raise_last(&mut self, most: u64, marks: BlockSigns)
        requires some { 0 < most }
        requires room { 0 < self.old.room }
        requires small { self.old.events + most ≤ 2 ^ 63 }
        ensures count { self.new.count ≡ self.old.count }
        ensures more { self.old.events < self.new.events }
        ensures most { self.new.events ≤ self.old.events + most }
        ensures held { (e : ℕ) → self.old.events ≤ e → e < self.new.events
            → self.old.count ≤ peak_at self.new e }
        ensures kept { (e : ℕ) → e < self.old.events → peak_at self.old e ≤ peak_at self.new e }
    {
        let added = most.min(self.room);
        let last = self.peaks.len() - 1;
        let peak = self.peaks[last].max(self.count);
        self.peaks[last] = peak;
        mark_last(&mut self.marks, marks);
        self.events += added;
        self.room -= added;
    }

    /// Adds a column with at least one event and at most `most`. The column before it is full.
    fn push_column(&mut self, most: u64, marks: BlockSigns) -> Result<(), AllocError>
        requires some { 0 < most }
        requires full { self.old.room ≡ 0 }
        requires few { length self.old.peaks < 1024 }
        requires small { self.old.events + most ≤ 2 ^ 63 }
        ensures count { self.new.count ≡ self.old.count }
        ensures more { OnOk result (self.old.events < self.new.events) }
        ensures most { OnOk result (self.new.events ≤ self.old.events + most) }
        ensures held { OnOk result ((e : ℕ) → self.old.events ≤ e → e < self.new.events
            → self.old.count ≤ peak_at self.new e) }
        ensures kept { OnOk result ((e : ℕ) → e < self.old.events
            → peak_at self.old e ≤ peak_at self.new e) }
    {
        self.marks.push(marks)?;
        self.peaks.push(self.count)?;
        let added = most.min(self.width);
        self.events += added;
        self.room = self.width - added;
        Ok(())
    }

    /// Joins each two neighbouring columns into one. All columns are full, and there are as many as
    /// there may be.
    fn join(&mut self) -> Result<(), AllocError>
        requires full { self.old.room ≡ 0 }
        requires many { length self.old.peaks ≡ 1024 }
        requires small { self.old.events < 2 ^ 63 }
        ensures count { self.new.count ≡ self.old.count }
        ensures events { OnOk result (self.new.events ≡ self.old.events) }
        ensures full { OnOk result (self.new.room ≡ 0) }
        ensures few { OnOk result (length self.new.peaks ≡ 512) }
        ensures kept { OnOk result ((e : ℕ) → e < self.old.events
            → peak_at self.old e ≤ peak_at self.new e) }
    {
        let marks = joined_marks(self.alloc, self.marks.as_slice())?;
        let peaks = joined_peaks(self.alloc, self.peaks.as_slice())?;
        self.marks = marks;
        self.peaks = peaks;
        self.width *= 2;
        Ok(())
    }
}

/// Adds marks to those of the last column.
fn mark_last(columns: &mut Vec<BlockSigns>, marks: BlockSigns) {
    if let Some(last) = columns.last_mut() {
        *last = last.with(marks);
    }
}

/// Returns the greater count of each two neighbouring columns.
fn joined_peaks(alloc: Global, peaks: &[u32]) -> Result<Vec<u32>, AllocError>
    requires { length peaks.now ≡ 1024 }
    ensures half { IfOk result (λ v. length v.items ≡ 512) }
    ensures kept { IfOk result (λ v. (k : ℕ) → k < 1024
        → slice_index peaks.now k ≤ slice_index v.items (k / 2)) }
{
    let mut out = Vec::new(alloc);
    for pair in 0..512usize {
        out.push(peaks[2 * pair].max(peaks[2 * pair + 1]))?;
    }
    Ok(out)
}

/// Returns the marks of each two neighbouring columns, taken together.
fn joined_marks(alloc: Global, marks: &[BlockSigns]) -> Result<Vec<BlockSigns>, AllocError> {
    let mut out = Vec::new(alloc);
    for pair in marks.chunks(2) {
        out.push(all_of(pair))?;
    }
    Ok(out)
}

/// Returns the marks of all these columns.
fn all_of(columns: &[BlockSigns]) -> BlockSigns {
    let mut all = BlockSigns::none();
    for marks in columns {
        all = all.with(*marks);
    }
    all
}
