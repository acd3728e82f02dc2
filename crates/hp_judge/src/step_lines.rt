//! Events as lines of JSON, as hp_logs reads them.

use crate::LogEvent;
use hp_units::Zone;
use std::alloc::AllocError;

/// Writes the first line of a log: how many frames a memory block has.
pub fn write_size(out: &mut String, block_frames: u32) -> Result<(), AllocError> {
    writeln!(out, "{{\"block_frames\": {block_frames}}}")
}

/// Writes an event as a JSON object in a line of its own.
pub fn write_event(out: &mut String, event: &LogEvent) -> Result<(), AllocError> {
    match event {
        LogEvent::Alloc {
            frame,
            order,
            movable,
        } => write_alloc(out, frame.0, order.0, *movable),
        LogEvent::Free { frame, order } => write_free(out, frame.0, order.0),
        LogEvent::OnlineBegins { block, zone } => write_online(out, block.0, *zone),
        LogEvent::OnlineEnds { block, ok } => write_end(out, "online", block.0, *ok),
        LogEvent::OfflineBegins { block } => write_offline(out, block.0),
        LogEvent::OfflineEnds { block, ok } => write_end(out, "offline", block.0, *ok),
        LogEvent::Move { from, to } => write_move(out, from.0, to.0),
        LogEvent::Other => writeln!(out, "{{}}"),
    }
}

/// Writes that 2^order frames are handed out.
fn write_alloc(out: &mut String, frame: u32, order: u32, movable: bool) -> Result<(), AllocError> {
    writeln!(
        out,
        "{{\"alloc\": {frame}, \"order\": {order}, \"movable\": {movable}}}"
    )
}

/// Writes that 2^order frames come back.
fn write_free(out: &mut String, frame: u32, order: u32) -> Result<(), AllocError> {
    writeln!(out, "{{\"free\": {frame}, \"order\": {order}}}")
}

/// Writes that a page moved to another frame.
fn write_move(out: &mut String, from: u32, to: u32) -> Result<(), AllocError> {
    writeln!(out, "{{\"move\": {from}, \"to\": {to}}}")
}

/// Writes that an online begins.
fn write_online(out: &mut String, block: u32, zone: Zone) -> Result<(), AllocError> {
    let zone = match zone {
        Zone::Normal => "normal",
        Zone::Movable => "movable",
    };
    writeln!(out, "{{\"online\": {block}, \"zone\": \"{zone}\"}}")
}

/// Writes that an offline begins.
fn write_offline(out: &mut String, block: u32) -> Result<(), AllocError> {
    writeln!(out, "{{\"offline\": {block}}}")
}

/// Writes that an online or an offline ends, and whether it succeeded.
fn write_end(out: &mut String, word: &str, block: u32, ok: bool) -> Result<(), AllocError> {
    let end = if ok { "ok" } else { "failed" };
    writeln!(out, "{{\"{word}\": {block}, \"end\": \"{end}\"}}")
}
