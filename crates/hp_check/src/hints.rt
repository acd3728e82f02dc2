//! The likely reason why a text is not JSON.
use crate::finding::Hint;
use crate::json_positions::{halves_at, has_comment, is_blank, nests_deeper};
use crate::quotes::is_odd;

/// The byte order mark of UTF-8.
const MARK: &[u8] = &[0xEF, 0xBB, 0xBF];

/// The most objects and lists that the JSON reader accepts inside one another.
const DEEPEST: u64 = 127;

/// Returns the likely reason why a text is not JSON, given the line and column at which the reader
/// stopped.
pub(crate) fn hint_of(input: &[u8], line: u64, column: u64) -> Hint {
    if is_blank(input) {
        return Hint::NoText;
    }
    if input.starts_with(MARK) {
        return Hint::ByteOrderMark;
    }
    if let Some((before, rest)) = halves_at(input, line, column) {
        let is_after_comma = before.trim_ascii_end().ends_with(b",");
        if is_after_comma && matches!(rest, [b']' | b'}' | b',', ..]) {
            return Hint::Comma;
        }
        let first = std::str::from_utf8(rest)
            .ok()
            .and_then(|rest| rest.chars().next());
        if let Some(c) = first.filter(|c| is_odd(*c)) {
            return Hint::Unexpected(c);
        }
    }
    if nests_deeper(input, DEEPEST) {
        Hint::TooDeep
    } else if has_comment(input) {
        Hint::Comment
    } else {
        Hint::Nothing
    }
}
