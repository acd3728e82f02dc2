//! Reads events from the text of Linux's ftrace.

use crate::faults::LineFault;
use hp_judge::LogEvent;
use hp_units::{Block, Frame, Order, Zone};
use memchr::memchr;

/// The beginning of the comment with which Linux counts the events in its buffers and those that it
/// wrote.
const COUNTS: &[u8] = b"# entries-in-buffer/entries-written:";

/// Reads a line of ftrace as an event.
///
/// The page events are the kernel's `mm_page_alloc` and `mm_page_free`. Onlines and offlines are
/// marks that a test writes into trace_marker around each write to a file of a memory block: `begin
/// memory32/state offline`, then `end memory32/state offline ok`, or another word in place of `ok`.
/// Every other line is `LogEvent::Other`, but a line which says that events are missing is a fault.
pub fn ftrace_event(line: &[u8]) -> Result<LogEvent, LineFault> {
    match traced(line) {
        Some((b"mm_page_alloc", fields)) => alloc_event(fields),
        Some((b"mm_page_free", fields)) => free_event(fields),
        Some((b"tracing_mark_write", text)) => Ok(mark_event(text)),
        Some((b"print", text)) => Ok(print_event(text)),
        Some(_) => Ok(LogEvent::Other),
        None => untraced_event(line),
    }
}

/// Splits a line `TASK-PID [CPU] FLAGS TIME: NAME: TEXT` into the event's name and its text.
fn traced(line: &[u8]) -> Option<(&[u8], &[u8])> {
    let rest = after_processor(line)?;
    let time_end = memchr(b':', rest)?;
    let rest = without_spaces(&rest[time_end + 1..]);
    let name_end = memchr(b':', rest)?;
    Some((&rest[..name_end], &rest[name_end + 1..]))
}

/// Returns what follows the processor's number in brackets. A task's name may have brackets, too.
fn after_processor(line: &[u8]) -> Option<&[u8]> {
    let mut rest = line;
    for _bracket in 0..line.len() {
        let open = memchr(b'[', rest)?;
        rest = &rest[open + 1..];
        let close = memchr(b']', rest)?;
        if close > 0 && rest[..close].iter().all(|b| b.is_ascii_digit()) {
            return Some(&rest[close + 1..]);
        }
    }
    None
}

/// Skips spaces.
fn without_spaces(text: &[u8]) -> &[u8] {
    match text.iter().position(|b| *b != b' ') {
        Some(start) => &text[start..],
        None => &[],
    }
}

/// Reads a line that no processor wrote: a comment or a note. It may say that events are missing.
fn untraced_event(line: &[u8]) -> Result<LogEvent, LineFault> {
    let is_note = line.starts_with(b"CPU:") && line.ends_with(b"]");
    if is_note || is_overwritten(line) {
        return Err(LineFault::EventsLost);
    }
    Ok(LogEvent::Other)
}

/// Returns whether the line is the comment with which Linux counts the events in its buffers and
/// those that it wrote, and the counts differ: it overwrote the oldest events.
fn is_overwritten(line: &[u8]) -> bool {
    let Some(counts) = line.strip_prefix(COUNTS) else {
        return false;
    };
    let Ok(text) = str::from_utf8(counts) else {
        return false;
    };
    let Some(counts) = text.split_whitespace().next() else {
        return false;
    };
    match counts.split_once('/') {
        Some((kept, written)) => kept != written,
        None => false,
    }
}

/// The fields of a page event.
#[derive(Clone, Copy, Drop)]
struct PageFields {
    frame: Option<u32>,
    order: Option<u32>,
    movable: bool,
}

/// Reads the fields of a page event.
fn page_fields(text: &[u8]) -> PageFields {
    let mut fields = PageFields {
        frame: None,
        order: None,
        movable: false,
    };
    let Ok(text) = str::from_utf8(text) else {
        return fields;
    };
    for word in text.split(' ') {
        if let Some(number) = word.strip_prefix("pfn=") {
            fields.frame = frame_number(number);
        } else if let Some(number) = word.strip_prefix("order=") {
            fields.order = number.parse::<u32>().ok();
        } else if let Some(flags) = word.strip_prefix("gfp_flags=") {
            fields.movable = is_movable(flags);
        }
    }
    fields
}

/// Reads the number of a frame: hexadecimal after `0x`, otherwise decimal, as older versions of
/// Linux write it.
fn frame_number(text: &str) -> Option<u32> {
    match text.strip_prefix("0x") {
        Some(digits) => u32::from_str_radix(digits, 16).ok(),
        None => text.parse::<u32>().ok(),
    }
}

/// Returns whether the flags of an alloc allow its page to be moved. Linux writes some sets of
/// flags as one name, such as GFP_TRANSHUGE: include/trace/events/mmflags.h has the names.
fn is_movable(flags: &str) -> bool {
    flags.split('|').any(|flag| {
        matches!(
            flag,
            "__GFP_MOVABLE" | "GFP_HIGHUSER_MOVABLE" | "GFP_TRANSHUGE" | "GFP_TRANSHUGE_LIGHT"
        )
    })
}

/// Reads an alloc. Linux writes frame 0 for a request that it refused.
fn alloc_event(text: &[u8]) -> Result<LogEvent, LineFault> {
    let fields = page_fields(text);
    match (fields.frame, fields.order) {
        (Some(0), Some(_)) => Ok(LogEvent::Other),
        (Some(frame), Some(order)) => Ok(LogEvent::Alloc {
            frame: Frame(frame),
            order: Order(order),
            movable: fields.movable,
        }),
        _ => Err(LineFault::WrongFields),
    }
}

/// Reads a free.
fn free_event(text: &[u8]) -> Result<LogEvent, LineFault> {
    let fields = page_fields(text);
    match (fields.frame, fields.order) {
        (Some(frame), Some(order)) => Ok(LogEvent::Free {
            frame: Frame(frame),
            order: Order(order),
        }),
        _ => Err(LineFault::WrongFields),
    }
}

/// Reads a mark as `trace-cmd report` prints it: `print: tracing_mark_write: TEXT`.
fn print_event(text: &[u8]) -> LogEvent {
    match without_spaces(text).strip_prefix(b"tracing_mark_write:") {
        Some(text) => mark_event(text),
        None => LogEvent::Other,
    }
}

/// Reads a mark. A mark that is not the start or the end of an online or an offline is
/// `LogEvent::Other`.
fn mark_event(text: &[u8]) -> LogEvent {
    match str::from_utf8(text) {
        Ok(text) => marked(text).unwrap_or(LogEvent::Other),
        Err(_) => LogEvent::Other,
    }
}

/// Reads `begin memoryBLOCK/FILE WRITTEN` or `end memoryBLOCK/FILE WRITTEN RESULT`.
fn marked(text: &str) -> Option<LogEvent> {
    let mut words = text.split_whitespace();
    let verb = words.next()?;
    let (block, file) = words.next()?.strip_prefix("memory")?.split_once('/')?;
    let block = Block(block.parse::<u32>().ok()?);
    let write = write_of(file, words.next()?)?;
    match verb {
        "begin" => Some(write.begin(block)),
        "end" => Some(write.end(block, words.next()? == "ok")),
        _ => None,
    }
}

/// What a write to a file of a memory block asks for.
#[derive(Clone, Copy, Drop)]
enum StateWrite {
    Online(Zone),
    Offline,
}

impl StateWrite {
    /// Returns the event at the start of the write.
    fn begin(self, block: Block) -> LogEvent {
        match self {
            StateWrite::Online(zone) => LogEvent::OnlineBegins { block, zone },
            StateWrite::Offline => LogEvent::OfflineBegins { block },
        }
    }

    /// Returns the event at the end of the write.
    fn end(self, block: Block, ok: bool) -> LogEvent {
        match self {
            StateWrite::Online(_) => LogEvent::OnlineEnds { block, ok },
            StateWrite::Offline => LogEvent::OfflineEnds { block, ok },
        }
    }
}

/// Returns what a write to a file of a memory block asks for, if it is an online or an offline. If
/// the kernel chooses the zone, zone Normal is returned, since the log does not show which one it
/// is.
fn write_of(file: &str, text: &str) -> Option<StateWrite> {
    match (file, text) {
        ("state", "online_movable") => Some(StateWrite::Online(Zone::Movable)),
        ("state", "online_kernel") => Some(StateWrite::Online(Zone::Normal)),
        ("state", "online") => Some(StateWrite::Online(Zone::Normal)),
        ("online", "1") => Some(StateWrite::Online(Zone::Normal)),
        ("state", "offline") => Some(StateWrite::Offline),
        ("online", "0") => Some(StateWrite::Offline),
        _ => None,
    }
}
