//! Lines of about the greatest length, from reads of several sizes.

use crate::streams::LogBytes;
use hp_logs::{LINE_LIMIT, LineFault, LineReader, LogFault};
use std::alloc::{AllocError, Global};
use std::test::Fail;

/// The greatest number of bytes that a read gives.
const READS: &[usize] = &[1, 7, 4096, 1_048_576];

/// Returns a log whose second line has `length` spaces, and then ends with `rest`.
fn log_of(alloc: Global, length: usize, rest: &str) -> Result<Vec<u8>, AllocError> {
    let mut log = Vec::new(alloc);
    log.extend_from_slice(b"{}\n")?;
    let spaces = vec![in alloc; b' '; length]?;
    log.extend_from_slice(spaces.as_slice())?;
    log.extend_from_slice(rest.as_bytes())?;
    Ok(log)
}

/// Returns whether the next line has this number and this many bytes.
fn takes(reader: &mut LineReader, source: &mut LogBytes<'_>, number: u64, length: usize) -> bool {
    match reader.advance(source) {
        Ok(true) => reader.number() == number && reader.line().len() == length,
        _ => false,
    }
}

/// Returns whether the second line is refused because it is too long.
fn refuses(reader: &mut LineReader, source: &mut LogBytes<'_>) -> bool {
    match reader.advance(source) {
        Err(LogFault::Line { number, fault }) => number == 2 && fault == LineFault::TooLong,
        _ => false,
    }
}

/// Returns whether the log's second line has this many bytes, and `{}` is the third, if there is
/// one.
fn is_taken(
    alloc: Global,
    log: &[u8],
    read: usize,
    length: usize,
    has_third: bool,
) -> Result<bool, AllocError> {
    let mut reader = LineReader::new(alloc)?;
    let mut source = LogBytes::in_pieces(log, read);
    let begins = takes(&mut reader, &mut source, 1, 2)
        && takes(&mut reader, &mut source, 2, length);
    Ok(begins && takes(&mut reader, &mut source, 3, 2) == has_third)
}

/// Returns whether the log's second line is refused, also when it is asked for once more.
fn is_refused(alloc: Global, log: &[u8], read: usize) -> Result<bool, AllocError> {
    let mut reader = LineReader::new(alloc)?;
    let mut source = LogBytes::in_pieces(log, read);
    let begins = takes(&mut reader, &mut source, 1, 2);
    Ok(begins && refuses(&mut reader, &mut source) && refuses(&mut reader, &mut source))
}

/// Returns whether a line of this length is taken, whatever the reads give.
fn is_always_taken(alloc: Global, length: usize, rest: &str) -> Result<bool, AllocError> {
    let log = log_of(alloc, length, rest)?;
    for read in READS {
        if !is_taken(alloc, log.as_slice(), *read, length, rest.ends_with("}"))? {
            return Ok(false);
        }
    }
    Ok(true)
}

/// Returns whether a line of this length is refused, whatever the reads give.
fn is_always_refused(alloc: Global, length: usize, rest: &str) -> Result<bool, AllocError> {
    let log = log_of(alloc, length, rest)?;
    for read in READS {
        if !is_refused(alloc, log.as_slice(), *read)? {
            return Ok(false);
        }
    }
    Ok(true)
}

#[test]
fn a_line_of_the_greatest_length_is_taken(rt: HostRuntime) -> Result<(), Fail> {
    assert!(rt; is_always_taken(rt.alloc(), LINE_LIMIT, "\n{}")?);
    assert!(rt; is_always_taken(rt.alloc(), LINE_LIMIT, "\r\n{}")?);
    assert!(rt; is_always_taken(rt.alloc(), LINE_LIMIT, "")?);
    Ok(())
}

#[test]
fn a_longer_line_is_refused(rt: HostRuntime) -> Result<(), Fail> {
    assert!(rt; is_always_refused(rt.alloc(), LINE_LIMIT + 1, "\n{}")?);
    assert!(rt; is_always_refused(rt.alloc(), LINE_LIMIT + 1, "\r\n{}")?);
    assert!(rt; is_always_refused(rt.alloc(), LINE_LIMIT + 1, "")?);
    assert!(rt; is_always_refused(rt.alloc(), 100_000, "\n{}")?);
    Ok(())
}
