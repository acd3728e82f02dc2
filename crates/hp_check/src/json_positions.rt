//! Where things are in a scenario's text: the lines in which the entries of `calls` begin, whether
//! it has comments, and how deep brackets nest.
//!
//! The functions read the brackets, commas, colons, words and strings of the JSON. They decode no
//! number and no escape, and accept any bytes.
ghost use Rattle.std.specs.Prelude.{◌≡◌, ℕ, ◌≤◌, ◌+◌, ◌^◌, ◌<◌, List, [], true, false, IfOk, OnOk, is_some};
ghost use Rattle.hp_check.specs.JsonPositions.{AreSignLines, KeepSignLines, is_space as is_white, line_after as line_then};

use std::alloc::{AllocError, Global};

/// A walk over the lexemes of a JSON text: how many brackets are open, and what it has found of
/// `calls`.
#[derive(Drop)]
struct Walk {
    depth: u64,
    /// Whether the latest key of the scenario itself is `calls`.
    is_key_calls: bool,
    is_in_calls: bool,
    is_entry_next: bool,
    /// The lines in which the entries so far begin.
    lines: Vec<u64>,
}

impl Walk {
    /// Goes past a lexeme, if one begins here; `line` is its line.
    fn pass(&mut self, line: u64, lexeme: Option<Lexeme>) -> Result<(), AllocError>
        requires { self.old.depth + 1 < 2 ^ 64 }
        ensures depth { OnOk result (self.new.depth ≤ self.old.depth + 1) }
        ensures lines { OnOk result
            (KeepSignLines (is_some lexeme) line self.old.lines.items self.new.lines.items) }
    {
        let Some(lexeme) = lexeme else {
            return Ok(());
        };
        match lexeme {
            Lexeme::Text { is_calls } => {
                self.note(line)?;
                // At depth 1, a string is a key or the value at a key. After a value, the next key
                // comes before any list.
                if self.depth == 1 {
                    self.is_key_calls = is_calls;
                }
                Ok(())
            }
            Lexeme::Word => self.note(line),
            Lexeme::Object => {
                self.note(line)?;
                self.depth += 1;
                Ok(())
            }
            Lexeme::List => {
                self.note(line)?;
                self.open_list();
                Ok(())
            }
            Lexeme::Close => {
                self.close();
                Ok(())
            }
            Lexeme::Comma => {
                self.is_entry_next = self.is_in_calls && self.depth == 2;
                Ok(())
            }
            Lexeme::Colon => Ok(()),
        }
    }

    /// Notes the line in which an entry begins, if one is next.
    fn note(&mut self, line: u64) -> Result<(), AllocError>
        ensures depth { OnOk result (self.new.depth ≡ self.old.depth) }
        ensures lines { OnOk result (KeepSignLines true line self.old.lines.items self.new.lines.items) }
    {
        if self.is_entry_next {
            self.lines.push(line)?;
            self.is_entry_next = false;
        }
        Ok(())
    }

    /// Enters a list. If it is the list at the key `calls`, forgets the lines of an earlier one.
    fn open_list(&mut self)
        requires { self.old.depth + 1 < 2 ^ 64 }
        ensures depth { self.new.depth ≡ self.old.depth + 1 }
        ensures lines { (input : List ℕ) → AreSignLines input self.old.lines.items
            → AreSignLines input self.new.lines.items }
    {
        if self.depth == 1 && self.is_key_calls {
            self.is_in_calls = true;
            self.is_entry_next = true;
            self.lines.clear();
        }
        self.depth += 1;
    }

    /// Leaves a list or an object.
    fn close(&mut self)
        ensures depth { self.new.depth ≤ self.old.depth }
        ensures lines { self.new.lines.items ≡ self.old.lines.items }
    {
        self.depth = self.depth.saturating_sub(1);
        self.is_entry_next = false;
        if self.depth < 2 {
            self.is_in_calls = false;
        }
    }
}

/// Returns the line of the text in which each entry of `calls` begins, counted from 1. If the key
/// comes twice, the last list counts.
pub fn call_lines(alloc: Global, input: &[u8]) -> Result<Vec<u64>, AllocError>
    ensures signs { IfOk result (λ lines. AreSignLines input.now lines.items) }
{
    let mut walk = Walk {
        depth: 0,
        is_key_calls: false,
        is_in_calls: false,
        is_entry_next: false,
        lines: Vec::new(alloc),
    };
    let mut mode = Mode::Between;
    let mut line = 1u64;
    for place in 0..input.len() {
        let lexeme = lexeme_at(mode, input[place], &input[place..]);
        walk.pass(line, lexeme)?;
        mode = mode_after(mode, input[place]);
        line = line_after(line, input[place]);
    }
    Ok(walk.lines)
}

/// Returns the number of the line that the next byte is in; `line` is the line of this byte.
fn line_after(line: u64, byte: u8) -> u64
    requires { line + 1 < 2 ^ 64 }
    ensures { result ≡ line_then line byte }
{
    if byte == b'\n' { line + 1 } else { line }
}

/// Where a byte is in a JSON text, which decides how it is read.
#[derive(Clone, Copy, PartialEq, Eq, Drop)]
enum Mode {
    /// Outside of words and strings.
    Between,
    /// In a word, such as a number.
    Word,
    /// In a string.
    Text,
    /// In a string, after a backslash.
    Escape,
}

/// What begins at a byte of a JSON text.
#[derive(Clone, Copy, PartialEq, Eq, Drop)]
enum Lexeme {
    /// A string. `is_calls` is whether it is `calls`, written without escapes.
    Text { is_calls: bool },
    /// A number or another word.
    Word,
    /// An object.
    Object,
    /// A list.
    List,
    /// The end of a list or of an object.
    Close,
    /// A comma.
    Comma,
    /// A colon.
    Colon,
}

/// Returns whether a byte is white space of JSON.
fn is_space(byte: u8) -> bool
    ensures { result ≡ is_white byte }
{
    matches!(byte, b' ' | b'\t' | b'\n' | b'\r')
}

/// Returns whether a byte is a bracket, a comma or a colon.
fn is_sign(byte: u8) -> bool
    ensures { result ≡ true → is_white byte ≡ false }
{
    matches!(byte, b'{' | b'}' | b'[' | b']' | b',' | b':')
}

/// Returns whether a bracket, a comma, a colon, a word or a string begins at a byte.
fn begins(mode: Mode, byte: u8) -> bool
    ensures { result ≡ true → is_white byte ≡ false }
{
    match mode {
        Mode::Between => !is_space(byte),
        Mode::Word => is_sign(byte),
        Mode::Text | Mode::Escape => false,
    }
}

/// Returns the mode of the next byte.
fn mode_after(mode: Mode, byte: u8) -> Mode {
    match (mode, byte) {
        (Mode::Escape, _) => Mode::Text,
        (Mode::Text, b'\\') => Mode::Escape,
        (Mode::Text, b'"') => Mode::Between,
        (Mode::Text, _) | (Mode::Between, b'"') => Mode::Text,
        (Mode::Between | Mode::Word, _) => {
            if is_space(byte) || is_sign(byte) {
                Mode::Between
            } else {
                Mode::Word
            }
        }
    }
}

/// Returns what begins at a byte of a text, if something does. `rest` is the text from that byte
/// on.
fn lexeme_at(mode: Mode, byte: u8, rest: &[u8]) -> Option<Lexeme>
    ensures { is_some result ≡ true → is_white byte ≡ false }
{
    if !begins(mode, byte) {
        return None;
    }
    match byte {
        b'"' => Some(Lexeme::Text {
            is_calls: rest.starts_with(b"\"calls\""),
        }),
        b'{' => Some(Lexeme::Object),
        b'[' => Some(Lexeme::List),
        b'}' | b']' => Some(Lexeme::Close),
        b',' => Some(Lexeme::Comma),
        b':' => Some(Lexeme::Colon),
        _ => Some(Lexeme::Word),
    }
}

/// Returns whether a text has nothing but white space of JSON.
pub fn is_blank(input: &[u8]) -> bool {
    input.iter().all(|byte| is_space(*byte))
}

/// Returns whether a word outside of strings begins with a slash or with `#`, as a comment does in
/// other languages. JSON has no such word.
pub fn has_comment(input: &[u8]) -> bool {
    let mut mode = Mode::Between;
    for byte in input {
        let byte = *byte;
        if begins(mode, byte) && (byte == b'/' || byte == b'#') {
            return true;
        }
        mode = mode_after(mode, byte);
    }
    false
}

/// Returns whether more than `limit` objects and lists are open at once somewhere, by the brackets
/// outside of strings.
pub fn nests_deeper(input: &[u8], limit: u64) -> bool {
    let mut mode = Mode::Between;
    let mut nested = 0u64;
    for byte in input {
        let byte = *byte;
        if begins(mode, byte) {
            nested = match byte {
                b'{' | b'[' => nested.saturating_add(1),
                b'}' | b']' => nested.saturating_sub(1),
                _ => nested,
            };
        }
        if nested > limit {
            return true;
        }
        mode = mode_after(mode, byte);
    }
    false
}

/// Returns the text before the byte at a line and a column, both counted from 1, and the text from
/// that byte on. Returns `None` if there is no such byte.
pub fn halves_at(input: &[u8], line: u64, column: u64) -> Option<(&[u8], &[u8])> {
    let mut here = 1u64;
    let mut passed = 0u64;
    for place in 0..input.len() {
        passed += 1;
        if here == line && passed == column {
            return Some(input.split_at(place));
        }
        if input[place] == b'\n' {
            here += 1;
            passed = 0;
        }
    }
    None
}
