//! The memory blocks of a row as text, in lines of limited width.
use crate::view::View;
use hp_map::BlockPicture;
use std::alloc::{AllocError, Global};

/// How rows are written.
#[derive(Clone, Copy)]
pub(crate) struct RowLayout {
    /// How many columns a line has for memory blocks.
    room: u64,
    /// Whether free frames are shown by the orders of their blocks.
    pub(crate) orders: bool,
    /// Whether only the memory blocks that changed are shown.
    changes: bool,
}

impl RowLayout {
    /// Returns how the rows of a view are written, with all memory blocks.
    pub(crate) fn new(view: View) -> RowLayout {
        RowLayout {
            room: view.width.saturating_sub(55).max(1),
            orders: view.orders,
            changes: false,
        }
    }

    /// Returns how rows are written after a row with these memory blocks. If it is the first row,
    /// and its memory takes more than one line, later rows show only the memory blocks that
    /// changed.
    pub(crate) fn after(
        self,
        alloc: Global,
        is_first: bool,
        blocks: &[BlockPicture],
    ) -> Result<RowLayout, AllocError> {
        if !is_first {
            return Ok(self);
        }
        let endless = RowLayout {
            room: u64::MAX,
            ..self
        };
        let line = memory_text(alloc, endless, &[], blocks)?;
        Ok(RowLayout {
            changes: line.len() as u64 > self.room,
            ..self
        })
    }
}

/// Returns a memory as text: all memory blocks, or those that changed, or ` =` if none did.
pub(crate) fn memory_text(
    alloc: Global,
    row_layout: RowLayout,
    before: &[BlockPicture],
    blocks: &[BlockPicture],
) -> Result<String, AllocError> {
    let mut lines = Lines::new(alloc, row_layout.room);
    for (number, block) in blocks.iter().enumerate() {
        if !row_layout.changes || is_changed(before, number, block) {
            lines.put_block(alloc, row_layout, block)?;
        }
    }
    lines.into_text()
}

/// Returns whether a memory block is drawn differently than before.
fn is_changed(before: &[BlockPicture], number: usize, block: &BlockPicture) -> bool {
    match before.get(number) {
        Some(before) => !before.is_same(block),
        None => true,
    }
}

/// The text of the memory blocks so far.
#[derive(Drop)]
struct Lines {
    text: String,
    /// How many columns a line has.
    room: u64,
    /// How many columns the last line has left.
    left: u64,
}

impl Lines {
    /// Creates an empty text with lines of this many columns.
    fn new(alloc: Global, room: u64) -> Lines {
        Lines {
            text: String::new(alloc),
            room,
            left: room,
        }
    }

    /// Adds a memory block. If it is wider than a line, it is written as counts of its frames.
    fn put_block(
        &mut self,
        alloc: Global,
        row_layout: RowLayout,
        block: &BlockPicture,
    ) -> Result<(), AllocError> {
        let mut drawn = String::from_str(alloc, " ")?;
        block.write(&mut drawn, row_layout.orders)?;
        if drawn.len() as u64 <= self.room {
            return self.put(drawn.as_str());
        }
        let mut counted = String::new(alloc);
        block.write_counted(&mut counted, row_layout.orders)?;
        self.put_counted(alloc, counted.as_str())
    }

    /// Adds a memory block written as counts: in one piece if it fits on a line, otherwise broken
    /// before counts.
    fn put_counted(&mut self, alloc: Global, counted: &str) -> Result<(), AllocError> {
        let is_whole = (counted.len() as u64) < self.room;
        let mut word = String::new(alloc);
        for piece in counted.split(' ') {
            // The mark of absent frames is a space, at which their count is split in two. So a
            // piece that begins with `*` belongs to the word before it.
            if !is_whole && !piece.starts_with('*') {
                self.put(word.as_str())?;
                word.clear();
            }
            word.push_str(" ")?;
            word.push_str(piece)?;
        }
        self.put(word.as_str())
    }

    /// Adds a piece, on a new line if it does not fit on this one.
    fn put(&mut self, piece: &str) -> Result<(), AllocError> {
        let columns = piece.len() as u64;
        if self.left < columns && self.left < self.room {
            let nothing = "";
            write!(self.text, "\n{nothing:<55}")?;
            self.left = self.room;
        }
        self.left = self.left.saturating_sub(columns);
        self.text.push_str(piece)
    }

    /// Returns the text, or ` =` if it is empty.
    fn into_text(self) -> Result<String, AllocError> {
        let Lines {
            text: mut all,
            room: _,
            left: _,
        } = self;
        if all.is_empty() {
            all.push_str(" =")?;
        }
        Ok(all)
    }
}
