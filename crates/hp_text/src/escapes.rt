//! Writes texts as in JSON strings.
ghost use Rattle.std.specs.Prelude.{◌≡◌, ◌++◌, ◌&&◌, OnOk, string_bytes};
ghost use Rattle.hp_text.specs.Escapes.{are_escaped, escaped, escaped_start, escaped_text, is_bracket, is_hidden, numbered};

use std::alloc::AllocError;

/// How square brackets are written.
#[derive(Clone, Copy, PartialEq, Eq)]
pub enum Brackets {
    /// As they are.
    Kept,
    /// As `\u` escapes.
    Escaped,
}

/// Writes a text as in a JSON string (RFC 8259, section 7), without the quotation marks, on one
/// line. `brackets` is how square brackets are written.
///
/// Quotation marks, backslashes, newlines, carriage returns and tabs are written as `\"`, `\\`,
/// `\n`, `\r` and `\t`. Other characters that a reader cannot see, that a terminal may obey, or
/// that change the order in which text is read are written as `\u` escapes (The Unicode Standard,
/// chapter 23):
///
/// - control characters: U+0000 to U+001F, U+007F to U+009F;
/// - white space other than the space: U+00A0, U+1680, U+2000 to U+200A, U+2028, U+2029, U+202F,
///   U+205F, U+3000;
/// - the soft hyphen: U+00AD;
/// - characters of no width: U+180E, U+200B to U+200D, U+2060 to U+2064, U+FEFF;
/// - marks of direction: U+061C, U+200E, U+200F, U+202A to U+202E, U+2066 to U+2069;
/// - marks of annotation: U+206A to U+206F, U+FFF9 to U+FFFB;
/// - U+2065, which is not assigned.
#[tactic(auto, unfolding(crate::specs::Escapes::escaped_text))]
pub fn write_escaped(out: &mut String, text: &str, brackets: Brackets) -> Result<(), AllocError>
    ensures { OnOk result (string_bytes out.new ≡ string_bytes out.old ++ escaped_text brackets text.now) }
{
    for c in text.chars() {
        write_character(out, brackets, c)?;
    }
    Ok(())
}

/// Writes at most `most` characters of a text as [`write_escaped`] does, and `..` after them if the
/// text has more.
#[tactic(auto, unfolding(crate::specs::Escapes::escaped_start))]
pub fn write_start(
    out: &mut String,
    text: &str,
    brackets: Brackets,
    most: usize,
) -> Result<(), AllocError>
    ensures { OnOk result
        (string_bytes out.new ≡ string_bytes out.old ++ escaped_start brackets most text.now) }
{
    let mut written = 0;
    for c in text.chars() {
        if written == most {
            out.push_str("..")?;
            return Ok(());
        }
        write_character(out, brackets, c)?;
        written += 1;
    }
    Ok(())
}

/// Writes a character as in a JSON string.
fn write_character(out: &mut String, brackets: Brackets, c: char) -> Result<(), AllocError>
    ensures { OnOk result (string_bytes out.new ≡ string_bytes out.old ++ escaped brackets c) }
{
    match c {
        '"' => out.push_str("\\\""),
        '\\' => out.push_str("\\\\"),
        '\n' => out.push_str("\\n"),
        '\r' => out.push_str("\\r"),
        '\t' => out.push_str("\\t"),
        _ if is_hidden(c) || (are_escaped(brackets) && is_bracket(c)) => write_escape(out, c),
        _ => out.push(c),
    }
}

/// Writes a character as a `\u` escape.
fn write_escape(out: &mut String, c: char) -> Result<(), AllocError>
    ensures { OnOk result (string_bytes out.new ≡ string_bytes out.old ++ numbered c) }
{
    let code = c as u32;
    write!(out, "\\u{code:04x}")
}

/// Returns whether square brackets are written as `\u` escapes.
fn are_escaped(brackets: Brackets) -> bool
    ensures { result ≡ are_escaped brackets }
{
    match brackets {
        Brackets::Kept => false,
        Brackets::Escaped => true,
    }
}

/// Returns whether a character is a square bracket.
fn is_bracket(c: char) -> bool
    ensures { result ≡ is_bracket c }
{
    c == '[' || c == ']'
}

/// Returns whether a character cannot be seen, is obeyed by a terminal, or changes the order in
/// which text is read.
fn is_hidden(c: char) -> bool
    ensures { result ≡ is_hidden c }
{
    c < ' '
        || ('\u{7F}' <= c && c <= '\u{A0}')
        || c == '\u{AD}'
        || c == '\u{61C}'
        || c == '\u{1680}'
        || c == '\u{180E}'
        || ('\u{2000}' <= c && c <= '\u{200F}')
        || ('\u{2028}' <= c && c <= '\u{202F}')
        || ('\u{205F}' <= c && c <= '\u{206F}')
        || c == '\u{3000}'
        || c == '\u{FEFF}'
        || ('\u{FFF9}' <= c && c <= '\u{FFFB}')
}
