//! Quotes from a scenario's text, as findings show them.
ghost use Rattle.std.specs.Prelude.{OnOk, string_bytes};
ghost use Rattle.hp_check.specs.Hints.{AddsText};

use hp_text::{Brackets, write_start};
use std::alloc::AllocError;

/// The most characters of a text that are shown.
const MOST: usize = 60;

/// Writes the start of a text between backquotes, escaped as in JSON.
pub(crate) fn write_quoted(out: &mut String, text: &str) -> Result<(), AllocError>
    ensures { OnOk result (AddsText (string_bytes out.old) (string_bytes out.new)) }
{
    out.push_str("`")?;
    write_start(out, text, Brackets::Kept, MOST)?;
    out.push_str("`")
}

/// Writes that a character was not expected.
pub(crate) fn write_unexpected(out: &mut String, c: char) -> Result<(), AllocError> {
    let mut buffer = [0; 4];
    out.push_str("unexpected ")?;
    write_quoted(out, c.encode_utf8(&mut buffer))
}

/// Returns whether a character is odd: a control character, or one beyond ASCII. No punctuation of
/// JSON has one. In a line only the word and the path of an `echo` or a `cat` may have one, and no
/// control file takes it.
pub(crate) fn is_odd(c: char) -> bool {
    !c.is_ascii() || c.is_ascii_control()
}

/// Returns the first odd character of a text.
pub(crate) fn first_odd(text: &str) -> Option<char> {
    text.chars().find(|c| is_odd(*c))
}
