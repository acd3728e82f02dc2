//! Lines of logs, and the events that they mean.

use hp_judge::LogEvent;
use hp_logs::{LineFault, ftrace_event, json_block_frames, json_event};
use hp_units::Zone;
use json::Scratch;
use std::alloc::{AllocError, Global};
use std::test::Fail;

/// Returns an event as numbers: its kind, then its fields.
fn numbers_of(event: &LogEvent) -> [u32; 4] {
    match event {
        LogEvent::Alloc {
            frame,
            order,
            movable,
        } => [1, frame.0, order.0, *movable as u32],
        LogEvent::Free { frame, order } => [2, frame.0, order.0, 0],
        LogEvent::Move { from, to } => [3, from.0, to.0, 0],
        LogEvent::OnlineBegins { block, zone } => [4, block.0, zone_number(*zone), 0],
        LogEvent::OnlineEnds { block, ok } => [5, block.0, *ok as u32, 0],
        LogEvent::OfflineBegins { block } => [6, block.0, 0, 0],
        LogEvent::OfflineEnds { block, ok } => [7, block.0, *ok as u32, 0],
        LogEvent::Other => [8, 0, 0, 0],
    }
}

fn zone_number(zone: Zone) -> u32 {
    match zone {
        Zone::Normal => 0,
        Zone::Movable => 1,
    }
}

/// Returns the event of a log's first line of JSON as numbers.
fn json_numbers(alloc: Global, line: &str) -> Result<[u32; 4], LineFault> {
    let mut scratch = Scratch::new(alloc);
    let event = json_event(line.as_bytes(), true, &mut scratch)?;
    Ok(numbers_of(&event))
}

/// Returns whether each line of JSON is read as the event beside it.
fn json_says(alloc: Global, rows: &[(&str, [u32; 4])]) -> bool {
    for (line, wanted) in rows {
        let Ok(numbers) = json_numbers(alloc, line) else {
            return false;
        };
        if numbers != *wanted {
            return false;
        }
    }
    true
}

/// Returns whether each line of JSON has the fault beside it.
fn json_fails(alloc: Global, rows: &[(&str, LineFault)]) -> bool {
    for (line, wanted) in rows {
        let Err(fault) = json_numbers(alloc, line) else {
            return false;
        };
        if fault != *wanted {
            return false;
        }
    }
    true
}

/// Returns whether each line of ftrace is read as the event beside it.
fn ftrace_says(rows: &[(&str, [u32; 4])]) -> bool {
    for (line, wanted) in rows {
        let Ok(event) = ftrace_event(line.as_bytes()) else {
            return false;
        };
        if numbers_of(&event) != *wanted {
            return false;
        }
    }
    true
}

/// Returns whether a line of ftrace reports that events are missing.
fn is_lost(line: &str) -> bool {
    match ftrace_event(line.as_bytes()) {
        Ok(_) => false,
        Err(fault) => fault == LineFault::EventsLost,
    }
}

/// Lines of JSON of every kind, each with its event as `numbers_of` returns it.
const JSON_LINES: &[(&str, [u32; 4])] = &[
    ("{\"block_frames\": 8}", [8, 0, 0, 0]),
    (
        "{\"alloc\": 16, \"order\": 3, \"movable\": true}",
        [1, 16, 3, 1],
    ),
    ("{\"alloc\": 3, \"note\": [1, {\"a\": null}]}", [1, 3, 0, 0]),
    (
        "{\"order\": 2, \"free\": 4294967295}",
        [2, 4294967295, 2, 0],
    ),
    ("{\"move\": 5, \"to\": 7}", [3, 5, 7, 0]),
    ("{\"online\": 2, \"zone\": \"movable\"}", [4, 2, 1, 0]),
    ("{\"online\": 2}", [4, 2, 0, 0]),
    ("{\"online\": 2, \"end\": \"ok\"}", [5, 2, 1, 0]),
    ("{\"offline\": 1}", [6, 1, 0, 0]),
    ("{\"offline\": 1, \"end\": \"failed\"}", [7, 1, 0, 0]),
    ("", [8, 0, 0, 0]),
    ("{\"note\": \"begins\"}", [8, 0, 0, 0]),
];

#[test]
fn json_lines_are_their_events(rt: HostRuntime) {
    assert!(rt; json_says(rt.alloc(), JSON_LINES));
}

#[test]
fn json_lines_have_their_faults(rt: HostRuntime) {
    let rows = [
        ("[1]", LineFault::NotAnObject),
        ("{\"alloc\": 1", LineFault::NotAnObject),
        ("{\"allok\": 1}", LineFault::UnknownKey),
        ("{\"free\": 1, \"free\": 1}", LineFault::RepeatedKey),
        ("{\"note\": 1, \"note\": 1}", LineFault::RepeatedKey),
        (
            "{\"note\": [], \"free\": 1, \"note\": {}}",
            LineFault::RepeatedKey,
        ),
        ("{\"alloc\": 4294967296}", LineFault::WrongValue),
        (
            "{\"online\": 1, \"end\": \"perhaps\"}",
            LineFault::WrongValue,
        ),
        ("{\"alloc\": 1, \"free\": 1}", LineFault::NotAnEvent),
        ("{\"block_frames\": 8, \"free\": 1}", LineFault::NotAnEvent),
    ];
    assert!(rt; json_fails(rt.alloc(), &rows));
}

/// Returns a line with a note of lists that nest `depth` deep.
fn nested_note(alloc: Global, depth: usize) -> Result<String, AllocError> {
    let mut line = String::new(alloc);
    line.push_str("{\"note\": ")?;
    for _level in 0..depth {
        line.push('[')?;
    }
    for _level in 0..depth {
        line.push(']')?;
    }
    line.push('}')?;
    Ok(line)
}

/// Returns the event of a line with a note that nests `depth` deep, or the line's fault.
fn nested_numbers(alloc: Global, depth: usize) -> Result<Result<[u32; 4], LineFault>, AllocError> {
    let line = nested_note(alloc, depth)?;
    Ok(json_numbers(alloc, line.as_str()))
}

#[test]
fn a_note_may_nest_128_deep(rt: HostRuntime) -> Result<(), Fail> {
    let other = Ok([8, 0, 0, 0]);
    let refused = Err(LineFault::NotAnObject);
    assert!(rt; nested_numbers(rt.alloc(), 13)? == other);
    assert!(rt; nested_numbers(rt.alloc(), 128)? == other);
    assert!(rt; nested_numbers(rt.alloc(), 129)? == refused);
    assert!(rt; nested_numbers(rt.alloc(), 32_000)? == refused);
    Ok(())
}

/// Lines as Linux 6.1 or `trace-cmd report` writes them, each with its event as `numbers_of`
/// returns it.
const FTRACE_LINES: &[(&str, [u32; 4])] = &[
    ("# tracer: nop", [8, 0, 0, 0]),
    (
        "  dd-12 [001] ..... 7: mm_page_alloc: page=00000000b2 pfn=0x110 order=3 \
         migratetype=1 gfp_flags=GFP_HIGHUSER_MOVABLE",
        [1, 272, 3, 1],
    ),
    (
        "  dd-12 [000] d..1. 8: mm_page_alloc: page=00000000b2 pfn=0x11 order=0 \
         migratetype=0 gfp_flags=GFP_KERNEL",
        [1, 17, 0, 0],
    ),
    (
        "  [a]-1 [001] ..... 9: mm_page_free: page=00000000b2 pfn=0x8 order=2",
        [2, 8, 2, 0],
    ),
    (
        "  sh-9 [000] ..... 3: tracing_mark_write: begin memory32/state online_movable",
        [4, 32, 1, 0],
    ),
    (
        "  sh-9 [000] ..... 4: tracing_mark_write: end memory32/state online_movable ok",
        [5, 32, 1, 0],
    ),
    (
        "  sh-9 [000] ..... 5: tracing_mark_write: begin memory33/state offline",
        [6, 33, 0, 0],
    ),
    (
        "  sh-9 [000] ..... 6: print: tracing_mark_write: end memory33/state offline Device or \
         resource busy",
        [7, 33, 0, 0],
    ),
    (
        "  sh-9 [000] ..... 6: sched_switch: prev_comm=sh",
        [8, 0, 0, 0],
    ),
];

#[test]
fn ftrace_lines_are_their_events(rt: HostRuntime) {
    assert!(rt; ftrace_says(FTRACE_LINES));
}

#[test]
fn lost_events_are_a_fault_of_ftrace(rt: HostRuntime) {
    assert!(rt; is_lost("CPU:1 [LOST 12 EVENTS]"));
    assert!(rt; !is_lost("CPU:1"));
    assert!(rt; is_lost("# entries-in-buffer/entries-written: 5/12   #P:2"));
    assert!(rt; !is_lost("# entries-in-buffer/entries-written: 12/12   #P:2"));
    assert!(rt; !is_lost("# entries-in-buffer/entries-written:"));
}

#[test]
fn the_first_line_alone_says_how_many_frames_a_block_has(rt: HostRuntime) {
    let mut scratch = Scratch::new(rt.alloc());
    let line = b"{\"block_frames\": 32768, \"note\": \"x86\"}";
    assert_eq!(rt; json_block_frames(line, &mut scratch), Ok(Some(32768)));
    assert_eq!(rt;
        json_block_frames(b"{\"alloc\": 1}", &mut scratch),
        Ok(None)
    );
    assert!(rt; is_late(rt.alloc(), line));
    assert!(rt; !is_late(rt.alloc(), b"{}"));
}

/// Returns whether a line is refused because only the first line of a log may have the number of
/// frames per memory block.
fn is_late(alloc: Global, line: &[u8]) -> bool {
    let mut scratch = Scratch::new(alloc);
    match json_event(line, false, &mut scratch) {
        Ok(_) => false,
        Err(fault) => fault == LineFault::LateBlockFrames,
    }
}
