//! Writes JSON as lines of printable ASCII.
ghost use Rattle.std.specs.Prelude.{◌≡◌, ◌<◌, ◌≤◌, OnOk, string_bytes};
ghost use Rattle.hp_trace_json.specs.Ascii.{AddsLine, AddsPlain, IsPlain};

use std::alloc::AllocError;

/// Writes JSON as one line. Each `<`, and each character that is not printable ASCII, is written as
/// a `\u` escape. JSON that has such characters only in strings still means the same (RFC 8259,
/// section 7). No string can end a `script` element or open a comment in one, and none changes how
/// a line is shown.
pub(crate) fn write_line(out: &mut String, json: &str) -> Result<(), AllocError>
    ensures { OnOk result (AddsLine (string_bytes out.old) (string_bytes out.new)) }
{
    write_plain(out, json)?;
    out.push('\n')
}

/// Writes characters. Those that are not plain (printable ASCII other than `<`) are written as
/// escapes.
fn write_plain(out: &mut String, json: &str) -> Result<(), AllocError>
    ensures { OnOk result (AddsPlain (string_bytes out.old) (string_bytes out.new)) }
{
    for c in json.chars() {
        write_character(out, c)?;
    }
    Ok(())
}

/// Writes a character, as an escape if it is not plain. A character past U+FFFF takes two escapes.
fn write_character(out: &mut String, c: char) -> Result<(), AllocError>
    ensures { OnOk result (AddsPlain (string_bytes out.old) (string_bytes out.new)) }
{
    if ' ' <= c && c < '\u{7F}' && c != '<' {
        return out.push(c);
    }
    let code = c as u32;
    if code < 0x1_0000 {
        return write_unit(out, code);
    }
    let rest = code - 0x1_0000;
    write_unit(out, 0xD800 + rest / 0x400)?;
    write_unit(out, 0xDC00 + rest % 0x400)
}

/// Writes a code unit of UTF-16 as an escape.
fn write_unit(out: &mut String, unit: u32) -> Result<(), AllocError>
    ensures { OnOk result (AddsPlain (string_bytes out.old) (string_bytes out.new)) }
{
    out.push('\\')?;
    out.push('u')?;
    out.push(hex_digit(unit / 0x1000 % 16))?;
    out.push(hex_digit(unit / 0x100 % 16))?;
    out.push(hex_digit(unit / 0x10 % 16))?;
    out.push(hex_digit(unit % 16))
}

/// Returns the hexadecimal digit of a number below 16.
fn hex_digit(number: u32) -> char
    requires { number < 16 }
    ensures { IsPlain result }
{
    if number < 10 {
        char::from(b'0' + number as u8)
    } else {
        char::from(b'a' + (number - 10) as u8)
    }
}
