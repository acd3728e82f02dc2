//! The frames of a memory block, counted.
ghost use Rattle.std.specs.Prelude.{◌≡◌};
ghost use Rattle.hp_map.specs.Counts.{frames_in};

use crate::block_picture::FreeBlock;
use std::alloc::AllocError;

/// Every character that a frame can have in cells. `.` is a free frame, and `:` one that is free
/// and isolated. `-` and a space are frames of an offline and an absent memory block. `K` is a
/// frame of the kernel, a digit one on a processor's list, and a letter one that holds a page.
pub const MARKS: &str = ".:- K0123456789abcdefghijklmnopqrstuvwxyz";

/// Returns the number of frames in cells: all characters except the bars between pageblocks.
pub fn frames_in(cells: &str) -> usize
    ensures { result ≡ frames_in cells.now }
{
    cells
        .as_bytes()
        .iter()
        .filter(|byte| **byte != b'|')
        .count()
}

/// Writes the number of frames, and of each character that occurs, such as `4: :*2 1*1 a*1`.
pub(crate) fn write_counts(out: &mut String, cells: &str) -> Result<(), AllocError> {
    let count = frames_in(cells);
    write!(out, "{count}:")?;
    for mark in MARKS.as_bytes() {
        write_count(out, *mark, count_of(cells, *mark))?;
    }
    Ok(())
}

/// Returns how often a character occurs in cells.
fn count_of(cells: &str, mark: u8) -> usize {
    cells
        .as_bytes()
        .iter()
        .filter(|byte| **byte == mark)
        .count()
}

/// Writes a character and how often it occurs, if it does.
fn write_count(out: &mut String, mark: u8, count: usize) -> Result<(), AllocError> {
    if count == 0 {
        return Ok(());
    }
    let mark = char::from(mark);
    write!(out, " {mark}*{count}")
}

/// Writes the number of free blocks of each order, such as ` (3)*2`, and then of those that are
/// isolated, such as ` {1}*1`.
pub(crate) fn write_order_counts(out: &mut String, free: &[FreeBlock]) -> Result<(), AllocError> {
    for order in 0..11 {
        write_order_count(out, order, false, free_count(free, order, false))?;
    }
    for order in 0..11 {
        write_order_count(out, order, true, free_count(free, order, true))?;
    }
    Ok(())
}

/// Returns how many free blocks have an order and are isolated, or are not.
fn free_count(free: &[FreeBlock], order: u32, is_isolated: bool) -> usize {
    free.iter()
        .filter(|block| block.order == order && block.is_isolated == is_isolated)
        .count()
}

/// Writes an order and the number of free blocks that have it, if there are any.
fn write_order_count(
    out: &mut String,
    order: u32,
    is_isolated: bool,
    count: usize,
) -> Result<(), AllocError> {
    if count == 0 {
        return Ok(());
    }
    if is_isolated {
        write!(out, " {{{order}}}*{count}")
    } else {
        write!(out, " ({order})*{count}")
    }
}
