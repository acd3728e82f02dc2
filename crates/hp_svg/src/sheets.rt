//! Where things are in a picture. Lengths are in pixels.
//!
//! From left to right, a row shows what was asked, the answer, and the memory blocks, each with its
//! head before its cells. Blocks that do not fit continue below, in a further strip.
ghost use Rattle.std.specs.Prelude.{◌<◌, ◌≤◌, ◌^◌};

use crate::elements::cells_of;
use hp_map::{BlockPicture, RowPicture, frames_in};
use hp_units::Frame;

/// How many letters of what was asked fit in its column.
pub(crate) const ASKED: usize = 29;

/// How many letters of an answer fit in its column.
pub(crate) const ANSWER: usize = 25;

/// The size of a row.
#[derive(Clone, Copy)]
pub(crate) struct Sheet {
    /// The number of memory blocks.
    pub(crate) blocks: u32,
    /// The number of characters of a block's cells.
    pub(crate) cells: u32,
    /// The number of frames of a block.
    pub(crate) frames: u32,
    /// The width of a cell.
    pub(crate) cell: u8,
}

/// Returns a count, or 2^32 - 1 if it is greater.
fn bounded(count: usize) -> u32 {
    count.min(u32::MAX as usize) as u32
}

/// Returns the blocks of the first row that has any.
fn first_blocks(rows: &[RowPicture]) -> &[BlockPicture] {
    for row in rows {
        if !row.blocks().is_empty() {
            return row.blocks();
        }
    }
    &[]
}

/// Returns the cells of the first block.
fn first_cells(blocks: &[BlockPicture]) -> &str {
    match blocks {
        [block, ..] => block.cells(),
        [] => "",
    }
}

impl Sheet {
    /// Returns the size of the first row that has blocks, with cells of this width.
    pub(crate) fn of(rows: &[RowPicture], cell: u8) -> Sheet {
        let blocks = first_blocks(rows);
        let cells = first_cells(blocks);
        Sheet {
            blocks: bounded(blocks.len()),
            cells: bounded(cells.len()),
            frames: bounded(frames_in(cells)),
            cell,
        }
    }

    /// Returns the width of the cells of a block.
    pub(crate) fn cells_width(&self) -> u128
        ensures { result < 2 ^ 40 }
    {
        self.cells as u128 * self.cell as u128
    }

    /// Returns whether cells are wide enough for lines between them.
    pub(crate) fn has_grid(&self) -> bool {
        self.cell >= 4
    }

    /// Returns the width of a block, with its head.
    fn block_width(&self) -> u128
        ensures low { result < 2 ^ 41 }
        ensures some { 0 < result }
    {
        48 + self.cells_width()
    }

    /// Returns the width of `count` blocks side by side.
    fn blocks_width(&self, count: u128) -> u128
        requires { count < 2 ^ 64 }
        ensures { result < 2 ^ 105 }
    {
        let width = self.block_width();
        let all = count * width;
        all
    }

    /// Returns how many blocks are side by side: as many as fit in a picture of width 1,600, and at
    /// least one.
    fn per_strip(&self) -> u128
        ensures low { result ≤ 1216 }
        ensures some { 0 < result }
    {
        let width = self.block_width();
        1216u128.saturating_sub(width) / width + 1
    }

    /// Returns how many strips of blocks a row has, one below another.
    fn strips(&self) -> u128
        ensures low { result ≤ 2 ^ 32 }
        ensures some { 0 < result }
    {
        let per_strip = self.per_strip();
        (self.blocks as u128).saturating_sub(1) / per_strip + 1
    }

    /// Returns the strip of its row in which a block is.
    fn strip_of(&self, block: usize) -> u128
        ensures { result < 2 ^ 64 }
    {
        let per_strip = self.per_strip();
        block as u128 / per_strip
    }

    /// Returns how many blocks are before a block in its strip.
    fn place_of(&self, block: usize) -> u128
        ensures { result < 1216 }
    {
        let per_strip = self.per_strip();
        block as u128 % per_strip
    }

    /// Returns the height of a row's blocks, with a gap below them if there are several strips.
    fn blocks_height(&self) -> u128
        ensures { result < 2 ^ 38 }
    {
        let strips = self.strips();
        if strips == 1 { 14 } else { 14 * strips + 6 }
    }

    /// Returns the x coordinate at which the head of a block begins.
    pub(crate) fn head_at(&self, block: usize) -> u128
        ensures { result < 2 ^ 106 }
    {
        336 + self.blocks_width(self.place_of(block))
    }

    /// Returns the x coordinate at which the cells of a block begin.
    pub(crate) fn cells_at(&self, block: usize) -> u128
        ensures { result < 2 ^ 107 }
    {
        self.head_at(block) + 48
    }

    /// Returns how far a block's strip is below the first strip of its row.
    pub(crate) fn strip_top(&self, block: usize) -> u128
        ensures { result < 2 ^ 70 }
    {
        14 * self.strip_of(block)
    }

    /// Returns the number of the first frame of a block.
    pub(crate) fn first_frame(&self, block: usize) -> u128
        ensures { result < 2 ^ 96 }
    {
        block as u128 * self.frames as u128
    }

    /// Returns the block in which a frame is.
    fn block_of(&self, frame: Frame) -> usize {
        (frame.0 / self.frames.max(1)) as usize
    }

    /// Returns how many frames of its block are before a frame.
    fn offset_of(&self, frame: Frame) -> u64
        ensures { result < 2 ^ 32 }
    {
        (frame.0 % self.frames.max(1)) as u64
    }

    /// Returns the number of frames per pageblock. A bar separates two pageblocks.
    fn pageblock_size(&self) -> u64
        ensures { 0 < result }
    {
        let bars = self.cells.saturating_sub(self.frames) as u64;
        (self.frames as u64 / (bars + 1)).max(1)
    }

    /// Returns the x coordinate at which the cell of the frame at `offset` in its block begins.
    pub(crate) fn cell_left(&self, block: usize, offset: u64) -> u128
        requires { offset < 2 ^ 32 }
        ensures { result < 2 ^ 108 }
    {
        let bars = offset / self.pageblock_size();
        self.cells_at(block) + cells_of(self.cell, (offset + bars) as usize)
    }

    /// Returns the step from one frame number above a block's cells to the next: 1 if a cell has
    /// room for a number, the size of a pageblock if that has room, and otherwise the size of a
    /// block. The longest number has `digits` digits, each 5 pixels wide.
    pub(crate) fn number_step(&self, digits: usize) -> u64
        ensures { 0 < result }
    {
        let room = 5 * digits as u128 + 2;
        let pageblock = self.pageblock_size();
        if self.cell as u128 >= room {
            1
        } else if cells_of(self.cell, pageblock as usize) >= room {
            pageblock
        } else {
            (self.frames as u64).max(1)
        }
    }

    /// Returns the x coordinate of the middle of a frame's cell.
    pub(crate) fn frame_left(&self, frame: Frame) -> u128 {
        let left = self.cell_left(self.block_of(frame), self.offset_of(frame));
        left + self.cell as u128 / 2
    }

    /// Returns the y coordinate of the middle of a frame's cell, if the blocks of its row begin at
    /// `here`.
    pub(crate) fn frame_top(&self, here: u128, frame: Frame) -> u128
        requires { here < 2 ^ 106 }
    {
        here + self.strip_top(self.block_of(frame)) + 6
    }

    /// Returns the width of a picture.
    pub(crate) fn width(&self) -> u128
        ensures { result < 2 ^ 106 }
    {
        let blocks = (self.blocks as u128).min(self.per_strip());
        let end = 384 + self.blocks_width(blocks);
        end.max(820)
    }

    /// Returns the y coordinate of a block's number, below a legend of `entries` entries.
    pub(crate) fn number_at(&self, entries: usize, block: usize) -> u128
        ensures { result < 2 ^ 91 }
    {
        numbers_at(entries) + 24 * self.strip_of(block)
    }

    /// Returns the y coordinate at which the rows begin, below a legend of `entries` entries.
    pub(crate) fn rows_at(&self, entries: usize) -> u128
        ensures { result < 2 ^ 91 }
    {
        numbers_at(entries) + 24 * self.strips() - 6
    }

    /// Returns the height of a row.
    pub(crate) fn row_height(&self, row: &RowPicture) -> u128
        ensures { result < 2 ^ 40 }
    {
        if row.blocks().is_empty() {
            return 14;
        }
        texts_height(row) + self.blocks_height()
    }

    /// Returns the height of a picture, with room for one more line below the rows.
    pub(crate) fn height(&self, entries: usize, rows: &[RowPicture]) -> u128
        ensures { result < 2 ^ 106 }
    {
        let mut height = 0u128;
        for row in rows {
            height += self.row_height(row);
        }
        self.rows_at(entries) + height + 14
    }
}

/// Returns the extra height if a text has more than `room` characters, and so a line of its own.
pub(crate) fn lines_above(room: usize, text: &str) -> u128
    ensures { result ≤ 14 }
{
    if text.chars().count() > room { 14 } else { 0 }
}

/// Returns the height of the texts of a row that are above its blocks.
pub(crate) fn texts_height(row: &RowPicture) -> u128
    ensures { result ≤ 28 }
{
    lines_above(ASKED, row.asked()) + lines_above(ANSWER, row.answer())
}

/// Returns the x coordinate of the entry at index `place` of the legend.
pub(crate) fn legend_left(place: usize) -> u128
    ensures { result < 2 ^ 100 }
{
    8 + 160 * (place as u128 % 5)
}

/// Returns the y coordinate of the entry at index `place` of the legend.
pub(crate) fn legend_top(place: usize) -> u128
    ensures { result < 2 ^ 100 }
{
    8 + 16 * (place as u128 / 5)
}

/// Returns the y coordinate of the blocks' numbers, below a legend of `entries` entries.
fn numbers_at(entries: usize) -> u128
    ensures { result < 2 ^ 90 }
{
    28 + 16 * ((entries as u128 + 4) / 5)
}
