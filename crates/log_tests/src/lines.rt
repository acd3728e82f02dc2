//! Events written as lines of JSON and read back.

use hp_judge::{LogEvent, write_event, write_size};
use hp_logs::json_event;
use hp_units::{Block, Frame, Order, Zone};
use json::Scratch;
use std::alloc::{AllocError, Global};
use std::test::Fail;

/// Returns whether `line` is the event's line, and is read back as an event with the same line.
fn has_line(alloc: Global, event: &LogEvent, line: &str) -> Result<bool, AllocError> {
    let mut text = String::new(alloc);
    write_event(&mut text, event)?;
    let again = line_of_read(alloc, line)?;
    Ok(text.as_str().strip_suffix("\n") == Some(line) && again == text)
}

/// Reads a line and returns the line of its event. Returns an empty text if the line cannot be read
/// as an event.
fn line_of_read(alloc: Global, line: &str) -> Result<String, AllocError> {
    let mut scratch = Scratch::new(alloc);
    let mut out = String::new(alloc);
    if let Ok(event) = json_event(line.as_bytes(), false, &mut scratch) {
        write_event(&mut out, &event)?;
    }
    Ok(out)
}

/// Returns whether an alloc, a free and a move are written as the right JSON.
fn frames_have_lines(alloc: Global) -> Result<bool, AllocError> {
    let (frame, order) = (Frame(512), Order(3));
    let alloced = LogEvent::Alloc {
        frame,
        order,
        movable: true,
    };
    let freed = LogEvent::Free { frame, order };
    let moved = LogEvent::Move {
        from: frame,
        to: Frame(u32::MAX),
    };
    Ok(
        has_line(
            alloc,
            &alloced,
            "{\"alloc\": 512, \"order\": 3, \"movable\": true}",
        )? && has_line(alloc, &freed, "{\"free\": 512, \"order\": 3}")?
            && has_line(alloc, &moved, "{\"move\": 512, \"to\": 4294967295}")?,
    )
}

/// Returns whether the starts of onlines and offlines are written as the right JSON.
fn begins_have_lines(alloc: Global) -> Result<bool, AllocError> {
    let block = Block(2);
    let normal = LogEvent::OnlineBegins {
        block,
        zone: Zone::Normal,
    };
    let movable = LogEvent::OnlineBegins {
        block,
        zone: Zone::Movable,
    };
    let offline = LogEvent::OfflineBegins { block };
    Ok(
        has_line(alloc, &normal, "{\"online\": 2, \"zone\": \"normal\"}")?
            && has_line(alloc, &movable, "{\"online\": 2, \"zone\": \"movable\"}")?
            && has_line(alloc, &offline, "{\"offline\": 2}")?,
    )
}

/// Returns whether the ends of onlines and offlines, and `Other`, are written as the right JSON.
fn ends_have_lines(alloc: Global) -> Result<bool, AllocError> {
    let block = Block(0);
    let online = LogEvent::OnlineEnds { block, ok: true };
    let offline = LogEvent::OfflineEnds { block, ok: false };
    Ok(
        has_line(alloc, &online, "{\"online\": 0, \"end\": \"ok\"}")?
            && has_line(alloc, &offline, "{\"offline\": 0, \"end\": \"failed\"}")?
            && has_line(alloc, &LogEvent::Other, "{}")?,
    )
}

/// Returns whether the number of frames per memory block is written as the right JSON.
fn size_has_line(alloc: Global) -> Result<bool, AllocError> {
    let mut text = String::new(alloc);
    write_size(&mut text, 1024)?;
    Ok(text.as_str() == "{\"block_frames\": 1024}\n")
}

#[test]
fn each_event_has_its_line(rt: HostRuntime) -> Result<(), Fail> {
    assert!(rt; frames_have_lines(rt.alloc())?);
    assert!(rt; begins_have_lines(rt.alloc())?);
    assert!(rt; ends_have_lines(rt.alloc())?);
    assert!(rt; size_has_line(rt.alloc())?);
    Ok(())
}
