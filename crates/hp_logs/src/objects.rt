//! Reads events from lines of JSON.

use crate::faults::LineFault;
use hp_judge::LogEvent;
use hp_units::{Block, Frame, Order, Zone};
use json::{MAX_DEPTH, Reader, Scratch, Token};

/// An object in which no key comes twice has at most this many keys.
const MOST_KEYS: usize = 12;

/// How deep the lists and objects of a note may nest. This is a constant, so that no log decides
/// how deep the reader recurses: as deep as json reads any text.
const NOTE_DEPTH: usize = MAX_DEPTH;

/// Reads a line as an event. These are `LogEvent::Other`: an empty line, an object with no key but
/// `note`, and a first line with the number of frames per memory block.
pub fn json_event(
    line: &[u8],
    is_first: bool,
    scratch: &mut Scratch,
) -> Result<LogEvent, LineFault> {
    let keys = line_keys(line, scratch)?;
    if keys.block_frames.is_some() && !is_first {
        return Err(LineFault::LateBlockFrames);
    }
    keys.event()
}

/// Returns how many frames a memory block has, if the line has that number.
pub fn json_block_frames(line: &[u8], scratch: &mut Scratch) -> Result<Option<u32>, LineFault> {
    let keys = line_keys(line, scratch)?;
    Ok(keys.block_frames)
}

/// Reads the keys of a line; an empty line has none.
fn line_keys(line: &[u8], scratch: &mut Scratch) -> Result<Keys, LineFault> {
    let Ok(text) = str::from_utf8(line) else {
        return Err(LineFault::NotAnObject);
    };
    let mut reader = Reader::new(text, scratch)?;
    match reader.next() {
        Some(Token::BeginObject) => object_keys(&mut reader),
        None => Ok(Keys::none()),
        Some(_) => Err(LineFault::NotAnObject),
    }
}

/// Reads the rest of a line whose object has begun.
fn object_keys(reader: &mut Reader<'_>) -> Result<Keys, LineFault> {
    let keys = read_keys(reader)?;
    if reader.next().is_some() {
        return Err(LineFault::NotAnObject);
    }
    Ok(keys)
}

/// Reads all keys of an object and their values.
fn read_keys(reader: &mut Reader<'_>) -> Result<Keys, LineFault> {
    let mut keys = Keys::none();
    let mut has_note = false;
    for _key in 0..=MOST_KEYS {
        match reader.next_key() {
            Ok(Some("note")) if has_note => return Err(LineFault::RepeatedKey),
            Ok(Some("note")) => {
                skip_note(reader)?;
                has_note = true;
            }
            Ok(Some(key)) => keys.set(key, reader.next())?,
            Ok(None) => return Ok(keys),
            Err(_) => return Err(LineFault::NotAnObject),
        }
    }
    Err(LineFault::RepeatedKey)
}

/// Skips the value of a note, of any type.
fn skip_note(reader: &mut Reader<'_>) -> Result<(), LineFault> {
    match reader.skip_value(NOTE_DEPTH) {
        Ok(()) => Ok(()),
        Err(_) => Err(LineFault::NotAnObject),
    }
}

/// The keys of a line and their values.
#[derive(Clone, Copy, Drop)]
struct Keys {
    alloc: Option<u32>,
    free: Option<u32>,
    online: Option<u32>,
    offline: Option<u32>,
    moved: Option<u32>,
    to: Option<u32>,
    order: Option<u32>,
    movable: Option<bool>,
    zone: Option<Zone>,
    end: Option<bool>,
    block_frames: Option<u32>,
}

impl Keys {
    /// Returns the keys of an empty object.
    fn none() -> Keys {
        Keys {
            alloc: None,
            free: None,
            online: None,
            offline: None,
            moved: None,
            to: None,
            order: None,
            movable: None,
            zone: None,
            end: None,
            block_frames: None,
        }
    }

    /// Sets the value of a key.
    fn set(&mut self, key: &str, value: Option<Token<'_>>) -> Result<(), LineFault> {
        match key {
            "alloc" => set_number(&mut self.alloc, value),
            "free" => set_number(&mut self.free, value),
            "online" => set_number(&mut self.online, value),
            "offline" => set_number(&mut self.offline, value),
            "move" => set_number(&mut self.moved, value),
            "to" => set_number(&mut self.to, value),
            "order" => set_number(&mut self.order, value),
            "movable" => set_bool(&mut self.movable, value),
            "zone" => set_zone(&mut self.zone, value),
            "end" => set_end(&mut self.end, value),
            "block_frames" => set_number(&mut self.block_frames, value),
            _ => Err(LineFault::UnknownKey),
        }
    }

    /// Returns the event that the keys describe.
    fn event(&self) -> Result<LogEvent, LineFault> {
        if self.block_frames.is_some() && self.is_named() {
            return Err(LineFault::NotAnEvent);
        }
        match (self.alloc, self.free, self.online, self.offline, self.moved) {
            (Some(frame), None, None, None, None) => self.alloc_event(Frame(frame)),
            (None, Some(frame), None, None, None) => self.free_event(Frame(frame)),
            (None, None, Some(block), None, None) => self.online_event(Block(block)),
            (None, None, None, Some(block), None) => self.offline_event(Block(block)),
            (None, None, None, None, Some(from)) => self.move_event(Frame(from)),
            (None, None, None, None, None) => self.other_event(),
            _ => Err(LineFault::NotAnEvent),
        }
    }

    /// Returns whether a key names an event.
    fn is_named(&self) -> bool {
        let is_of_frames = self.alloc.is_some() || self.free.is_some() || self.moved.is_some();
        is_of_frames || self.online.is_some() || self.offline.is_some()
    }

    /// Returns whether the line has `zone`, `end` or `to`, which no alloc or free has.
    fn is_of_blocks(&self) -> bool {
        self.zone.is_some() || self.end.is_some() || self.to.is_some()
    }

    /// Returns whether the line has `order` or `movable`, which only an alloc or a free can have.
    fn is_of_pieces(&self) -> bool {
        self.order.is_some() || self.movable.is_some()
    }

    /// Returns the `Alloc` event of the piece that starts at `frame`.
    fn alloc_event(&self, frame: Frame) -> Result<LogEvent, LineFault> {
        if self.is_of_blocks() {
            return Err(LineFault::NotAnEvent);
        }
        Ok(LogEvent::Alloc {
            frame,
            order: Order(self.order.unwrap_or(0)),
            movable: self.movable.unwrap_or(false),
        })
    }

    /// Returns the `Free` event of the piece that starts at `frame`.
    fn free_event(&self, frame: Frame) -> Result<LogEvent, LineFault> {
        if self.is_of_blocks() || self.movable.is_some() {
            return Err(LineFault::NotAnEvent);
        }
        Ok(LogEvent::Free {
            frame,
            order: Order(self.order.unwrap_or(0)),
        })
    }

    /// Returns the event that starts or ends an online of `block`.
    fn online_event(&self, block: Block) -> Result<LogEvent, LineFault> {
        if self.is_of_pieces() || self.to.is_some() {
            return Err(LineFault::NotAnEvent);
        }
        match (self.end, self.zone) {
            (Some(ok), None) => Ok(LogEvent::OnlineEnds { block, ok }),
            (Some(_), Some(_)) => Err(LineFault::NotAnEvent),
            (None, zone) => Ok(LogEvent::OnlineBegins {
                block,
                zone: zone.unwrap_or(Zone::Normal),
            }),
        }
    }

    /// Returns the event that starts or ends an offline of `block`.
    fn offline_event(&self, block: Block) -> Result<LogEvent, LineFault> {
        if self.is_of_pieces() || self.to.is_some() || self.zone.is_some() {
            return Err(LineFault::NotAnEvent);
        }
        match self.end {
            Some(ok) => Ok(LogEvent::OfflineEnds { block, ok }),
            None => Ok(LogEvent::OfflineBegins { block }),
        }
    }

    /// Returns the `Move` event of the page at `from`.
    fn move_event(&self, from: Frame) -> Result<LogEvent, LineFault> {
        if self.is_of_pieces() || self.zone.is_some() || self.end.is_some() {
            return Err(LineFault::NotAnEvent);
        }
        match self.to {
            Some(to) => Ok(LogEvent::Move {
                from,
                to: Frame(to),
            }),
            None => Err(LineFault::NotAnEvent),
        }
    }

    /// Returns `LogEvent::Other`, for a line without an event.
    fn other_event(&self) -> Result<LogEvent, LineFault> {
        if self.is_of_pieces() || self.is_of_blocks() {
            return Err(LineFault::NotAnEvent);
        }
        Ok(LogEvent::Other)
    }
}

/// Sets a key to a number.
fn set_number(slot: &mut Option<u32>, value: Option<Token<'_>>) -> Result<(), LineFault> {
    if slot.is_some() {
        return Err(LineFault::RepeatedKey);
    }
    *slot = number_of(value);
    checked(slot.is_some())
}

/// Sets a key to a truth value.
fn set_bool(slot: &mut Option<bool>, value: Option<Token<'_>>) -> Result<(), LineFault> {
    if slot.is_some() {
        return Err(LineFault::RepeatedKey);
    }
    *slot = match value {
        Some(Token::Bool(value)) => Some(value),
        _ => None,
    };
    checked(slot.is_some())
}

/// Sets a key to a zone.
fn set_zone(slot: &mut Option<Zone>, value: Option<Token<'_>>) -> Result<(), LineFault> {
    if slot.is_some() {
        return Err(LineFault::RepeatedKey);
    }
    *slot = match value {
        Some(Token::String("normal")) => Some(Zone::Normal),
        Some(Token::String("movable")) => Some(Zone::Movable),
        _ => None,
    };
    checked(slot.is_some())
}

/// Sets a key to an end: true for `ok`, false for `failed`.
fn set_end(slot: &mut Option<bool>, value: Option<Token<'_>>) -> Result<(), LineFault> {
    if slot.is_some() {
        return Err(LineFault::RepeatedKey);
    }
    *slot = match value {
        Some(Token::String("ok")) => Some(true),
        Some(Token::String("failed")) => Some(false),
        _ => None,
    };
    checked(slot.is_some())
}

/// Returns the token's value if it is a whole number below 2^32, written in digits only.
fn number_of(value: Option<Token<'_>>) -> Option<u32> {
    match value {
        Some(Token::Number(text)) => text.parse::<u32>().ok(),
        _ => None,
    }
}

/// Fails with `WrongValue` unless the key can have the value.
fn checked(is_known: bool) -> Result<(), LineFault> {
    if is_known {
        Ok(())
    } else {
        Err(LineFault::WrongValue)
    }
}
