//! The events of a step.
ghost use Rattle.std.specs.Prelude.{◌≡◌, ℕ, ◌<◌, ◌++◌, ◌∷◌, [], IfOk, OnOk, length};
ghost use Rattle.std.specs.List.{flat_map};
ghost use Rattle.std.specs.Option.{option_map_or};
ghost use Rattle.hp_units.specs.Arithmetic.{all_blocks, all_frames, frame_count};
ghost use Rattle.hp_units.specs.LayoutParts.{LayoutParts};
ghost use Rattle.hp_units.specs.Memory.{Memory};
ghost use Rattle.hp_judge.specs.Logs.{allocs_at, block_events, frees_at, same_page, stays, step_log, with_move};
ghost use Rattle.hp_judge.specs.Snapshots.{Shows, holder_at, page_in};
ghost use Rattle.hp_judge.specs.StepLogs.{movable_alloc, page_move, single_free};

use crate::LogEvent;
use crate::holders::{push_alloc, push_free};
use crate::phases::push_phase_events;
use crate::snapshots::Snapshot;
use hp_units::{Block, Frame, Layout, Owner, Page, block_of};
use std::alloc::{AllocError, Global};

/// Returns the log of a step that leads from one state of the layout to another. Time is linear in
/// the number of frames.
pub fn step_log(
    alloc: Global,
    layout: &Layout,
    before: &Snapshot,
    after: &Snapshot,
) -> Result<Vec<LogEvent>, AllocError>
    ensures { IfOk result (λ log. (s t : Memory) → Shows layout.now s before.now
        → Shows layout.now t after.now → log.items ≡ step_log layout.now s t) }
{
    let mut log = Vec::new(alloc);
    push_frees(&mut log, layout, before, after)?;
    push_block_events(&mut log, layout, before, after)?;
    push_allocs(&mut log, layout, before, after)?;
    match found_move(before, after, log.as_slice()) {
        Some(event) => log_of_one(alloc, event),
        None => Ok(log),
    }
}

/// Returns a log of one event.
fn log_of_one(alloc: Global, event: LogEvent) -> Result<Vec<LogEvent>, AllocError>
    ensures { IfOk result (λ log. log.items ≡ event ∷ []) }
{
    let mut log = Vec::new(alloc);
    log.push(event)?;
    Ok(log)
}

/// Adds the frees of all pieces that do not stay in use.
fn push_frees(
    log: &mut Vec<LogEvent>,
    layout: &Layout,
    before: &Snapshot,
    after: &Snapshot,
) -> Result<(), AllocError>
    ensures { OnOk result ((s t : Memory) → Shows layout.now s before.now → Shows layout.now t after.now
        → log.new.items ≡ log.old.items ++ flat_map (frees_at layout.now s t) (all_frames layout.now)) }
{
    for number in 0..layout.frames() {
        push_freed(log, layout, before, after, Frame(number))?;
    }
    Ok(())
}

/// Adds the free of the piece that started at a frame, unless it stays in use.
fn push_freed(
    log: &mut Vec<LogEvent>,
    layout: &Layout,
    before: &Snapshot,
    after: &Snapshot,
    frame: Frame,
) -> Result<(), AllocError>
    requires { frame < frame_count layout.now }
    ensures { OnOk result ((s t : Memory) → Shows layout.now s before.now → Shows layout.now t after.now
        → log.new.items ≡ log.old.items ++ frees_at layout.now s t frame) }
{
    if stays(layout, before, after, frame) {
        return Ok(());
    }
    push_free(log, frame, before.holder(frame))
}

/// Adds the starts and ends of onlines and offlines of all memory blocks.
fn push_block_events(
    log: &mut Vec<LogEvent>,
    layout: &Layout,
    before: &Snapshot,
    after: &Snapshot,
) -> Result<(), AllocError>
    ensures { OnOk result ((s t : Memory) → Shows layout.now s before.now → Shows layout.now t after.now
        → log.new.items ≡ log.old.items ++ flat_map (block_events s t) (all_blocks layout.now)) }
{
    for number in 0..layout.blocks() {
        let block = Block(number);
        push_phase_events(log, block, before.phase(block), after.phase(block))?;
    }
    Ok(())
}

/// Adds the allocs of all pieces in `after`, except those that stayed in use.
fn push_allocs(
    log: &mut Vec<LogEvent>,
    layout: &Layout,
    before: &Snapshot,
    after: &Snapshot,
) -> Result<(), AllocError>
    ensures { OnOk result ((s t : Memory) → Shows layout.now s before.now → Shows layout.now t after.now
        → log.new.items ≡ log.old.items ++ flat_map (allocs_at layout.now s t) (all_frames layout.now)) }
{
    for number in 0..layout.frames() {
        push_allocated(log, layout, before, after, Frame(number))?;
    }
    Ok(())
}

/// Adds the alloc of the piece that starts at a frame, unless it stayed in use.
fn push_allocated(
    log: &mut Vec<LogEvent>,
    layout: &Layout,
    before: &Snapshot,
    after: &Snapshot,
    frame: Frame,
) -> Result<(), AllocError>
    requires { frame < frame_count layout.now }
    ensures { OnOk result ((s t : Memory) → Shows layout.now s before.now → Shows layout.now t after.now
        → log.new.items ≡ log.old.items ++ allocs_at layout.now s t frame) }
{
    if stays(layout, before, after, frame) {
        return Ok(());
    }
    push_alloc(log, frame, after.holder(frame))
}

/// Returns whether the piece that starts at a frame stays in use: it has the same order and
/// mobility before and after, and its memory block does not go offline in between.
fn stays(layout: &Layout, before: &Snapshot, after: &Snapshot, frame: Frame) -> bool
    requires { frame < frame_count layout.now }
    ensures { (s t : Memory) → Shows layout.now s before.now → Shows layout.now t after.now
        → result ≡ stays layout.now s t frame }
{
    if !before.holder(frame).has_same_piece(after.holder(frame)) {
        return false;
    }
    let block = block_of(layout, frame);
    !before.phase(block).goes_offline(after.phase(block))
}

/// Returns the move that replaces the events of `log`, if the only change is that one page is at
/// another frame.
fn found_move(before: &Snapshot, after: &Snapshot, log: &[LogEvent]) -> Option<LogEvent>
    ensures { (l : LayoutParts) (s t : Memory) → Shows l s before.now → Shows l t after.now
        → with_move s t log.now ≡ option_map_or (λ event. event ∷ []) result log.now }
{
    let [first, second] = log else {
        return None;
    };
    let from = single_free(first)?;
    let to = movable_alloc(second)?;
    move_of_page(before, after, from, to)
}

/// Returns the move from one frame to the other, if the same page was at the first and is at the
/// second, and the frames differ.
fn move_of_page(before: &Snapshot, after: &Snapshot, from: Frame, to: Frame) -> Option<LogEvent>
    ensures { result
        ≡ page_move (page_in (holder_at before.now from)) (page_in (holder_at after.now to)) from to }
{
    if is_same_page(before.holder(from).page(), after.holder(to).page()) && from.0 != to.0 {
        Some(LogEvent::Move { from, to })
    } else {
        None
    }
}

/// Returns the frame if the event is a free of a single frame.
fn single_free(event: &LogEvent) -> Option<Frame>
    ensures { result ≡ single_free event.now }
{
    match event {
        LogEvent::Free { frame, order } if order.0 == 0 => Some(*frame),
        _ => None,
    }
}

/// Returns the frame if the event is an alloc of a single frame whose page can move.
fn movable_alloc(event: &LogEvent) -> Option<Frame>
    ensures { result ≡ movable_alloc event.now }
{
    match event {
        LogEvent::Alloc {
            frame,
            order,
            movable,
        } if *movable && order.0 == 0 => Some(*frame),
        _ => None,
    }
}

/// Returns whether there are two pages, and they are the same.
fn is_same_page(page: Option<(Owner, Page)>, other: Option<(Owner, Page)>) -> bool
    ensures { result ≡ same_page page other }
{
    match page {
        Some(page) => match other {
            Some(other) => page.0.0 == other.0.0 && page.1.0 == other.1.0,
            None => false,
        },
        None => false,
    }
}
