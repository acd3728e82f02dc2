//! The deltas of a step: its small changes, each with what undoes it.
use crate::writing::keys::{list_key, name_of, write_auto, write_frame, write_row};
use hp_tape::{Delta, FrameChange, ListId, RowChange};
use hp_units::{Auto, Frame, Kind, Mobility, Owner, Pageblock, Text, Words};
use indexmap::IndexSet;
use json::Writer;
use std::alloc::{AllocError, Global};

/// Writes the deltas of a step, in order.
pub(super) fn write_deltas(
    out: &mut Writer,
    alloc: Global,
    names: &IndexSet<Text>,
    deltas: &[Delta],
) -> Result<(), AllocError> {
    out.begin_array()?;
    for delta in deltas {
        out.begin_array()?;
        write_delta(out, alloc, names, delta)?;
        out.end_array()?;
    }
    out.end_array()
}

/// Writes the name and the values of a delta.
fn write_delta(
    out: &mut Writer,
    alloc: Global,
    names: &IndexSet<Text>,
    delta: &Delta,
) -> Result<(), AllocError> {
    match delta {
        Delta::Link { list, frame, after } => {
            write_link(out, alloc, "link", *list, *frame, *after)
        }
        Delta::Unlink { list, frame, after } => {
            write_link(out, alloc, "unlink", *list, *frame, *after)
        }
        Delta::Kind {
            pageblock,
            was,
            now,
        } => write_kinds(out, *pageblock, *was, *now),
        Delta::Kernel { frame, was, now } => write_kernel(out, *frame, *was, *now),
        Delta::Map {
            owner,
            page,
            change,
        } => write_map(out, names, Owner(u32::from(*owner)), *page, *change),
        Delta::Swap { a, b } => write_swap(out, *a, *b),
        Delta::Word {
            index,
            frame,
            was,
            now,
        } => write_word(out, *frame, *index, u64::from(*was), u64::from(*now)),
        Delta::LargeWord {
            index,
            frame,
            change,
        } => write_word(out, *frame, *index, change.was(), change.now()),
        Delta::Filled { index, frame, now } => write_word(out, *frame, *index, 0, *now),
        Delta::Emptied { frame, words } => write_emptied(out, *frame, words),
        Delta::Row(change) => write_rows(out, change),
        Delta::Auto { was, now } => write_autos(out, *was, *now),
    }
}

/// Writes that a frame was put on a list or taken off.
fn write_link(
    out: &mut Writer,
    alloc: Global,
    verb: &str,
    list: ListId,
    frame: Frame,
    after: Option<Frame>,
) -> Result<(), AllocError> {
    let key = list_key(alloc, list)?;
    out.string(verb)?;
    out.string(key.as_str())?;
    out.u64(u64::from(frame.0))?;
    write_frame(out, after)
}

/// Writes that a pageblock got another kind: its mobility, and whether it is isolated.
fn write_kinds(
    out: &mut Writer,
    pageblock: Pageblock,
    was: Kind,
    now: Kind,
) -> Result<(), AllocError> {
    out.string("kind")?;
    out.u64(u64::from(pageblock.0))?;
    out.string(kind_words(was))?;
    out.string(kind_words(now))
}

/// Returns the words for a kind.
fn kind_words(kind: Kind) -> &'static str {
    match kind.mobility {
        Mobility::Unmovable => {
            if kind.isolated {
                "unmovable isolated"
            } else {
                "unmovable"
            }
        }
        Mobility::Movable => {
            if kind.isolated {
                "movable isolated"
            } else {
                "movable"
            }
        }
    }
}

/// Writes that a kernel's block began or ended.
fn write_kernel(
    out: &mut Writer,
    frame: Frame,
    was: Option<u8>,
    now: Option<u8>,
) -> Result<(), AllocError> {
    out.string("kernel")?;
    out.u64(u64::from(frame.0))?;
    write_small(out, was)?;
    write_small(out, now)
}

/// Writes a small number, or that there is none.
fn write_small(out: &mut Writer, number: Option<u8>) -> Result<(), AllocError> {
    match number {
        Some(number) => out.u64(u64::from(number)),
        None => out.null(),
    }
}

/// Writes that a page was mapped, unmapped or moved.
fn write_map(
    out: &mut Writer,
    names: &IndexSet<Text>,
    owner: Owner,
    page: u16,
    change: FrameChange,
) -> Result<(), AllocError> {
    out.string("map")?;
    out.string(name_of(names, owner))?;
    out.u64(u64::from(page))?;
    write_frame(out, change.before())?;
    write_frame(
        out,
        match change {
            FrameChange::Mapped(frame) => Some(frame),
            FrameChange::Unmapped(_) => None,
            FrameChange::Moved { now, .. } => Some(now),
        },
    )
}

/// Writes that two frames exchanged their words.
fn write_swap(out: &mut Writer, a: Frame, b: Frame) -> Result<(), AllocError> {
    out.string("swap")?;
    out.u64(u64::from(a.0))?;
    out.u64(u64::from(b.0))
}

/// Writes that a word changed.
fn write_word(
    out: &mut Writer,
    frame: Frame,
    index: u16,
    was: u64,
    now: u64,
) -> Result<(), AllocError> {
    out.string("word")?;
    out.u64(u64::from(frame.0))?;
    out.u64(u64::from(index))?;
    out.quoted_u64(was)?;
    out.quoted_u64(now)
}

/// Writes that the buffer of a frame's words moved into the journal, and these words.
fn write_emptied(out: &mut Writer, frame: Frame, words: &Words) -> Result<(), AllocError> {
    out.string("emptied")?;
    out.u64(u64::from(frame.0))?;
    out.begin_array()?;
    for word in words.as_slice() {
        out.quoted_u64(*word)?;
    }
    out.end_array()
}

/// Writes that the row of a memory block changed.
fn write_rows(out: &mut Writer, change: &RowChange) -> Result<(), AllocError> {
    let before = change.before();
    let after = change.after();
    out.string("row")?;
    out.u64(u64::from(change.block().0))?;
    write_row(out, &before)?;
    write_row(out, &after)
}

/// Writes a change of what an added memory block becomes.
fn write_autos(out: &mut Writer, was: Auto, now: Auto) -> Result<(), AllocError> {
    out.string("auto")?;
    write_auto(out, was)?;
    write_auto(out, now)
}
