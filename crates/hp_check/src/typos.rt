//! The first wrong word of a text that cannot be read as a line.
ghost use Rattle.std.specs.Prelude.{OnOk, string_bytes};
ghost use Rattle.hp_check.specs.Hints.{AddsText};

use crate::quotes::write_quoted;
use hp_units::{number32, number64};
use std::alloc::AllocError;

/// The greatest number of characters in a name.
const LONGEST: usize = 32;

/// What a word of a line may be.
#[derive(Clone, Copy)]
enum WordKind {
    /// A number below 2^32.
    Narrow,
    /// A number below 2^64.
    Wide,
    /// The name of an owner.
    Name,
    /// A fixed word, such as a verb or `off`.
    Word,
}

/// Writes the first wrong word of a text that cannot be read as a line, and what is wrong with it,
/// if that can be found.
pub(crate) fn write_typo(out: &mut String, text: &str) -> Result<(), AllocError>
    ensures { OnOk result (AddsText (string_bytes out.old) (string_bytes out.new)) }
{
    match typo_in(text) {
        Some((word, why)) => {
            write_quoted(out, word)?;
            out.push_str(why)
        }
        None => Ok(()),
    }
}

/// Returns the first word in which a mistake is found, and what the mistake is. Each word is
/// checked for the kind that is required at its index: the processor's number, the verb, and what
/// comes after it.
fn typo_in(text: &str) -> Option<(&str, &'static str)> {
    let mut words = text.split(' ');
    let cpu = words.next()?;
    if let Some(why) = why_not(WordKind::Narrow, cpu) {
        return Some((cpu, why));
    }
    let verb = words.next()?;
    if let Some(why) = why_not(WordKind::Word, verb) {
        return Some((verb, why));
    }
    let kinds = kinds_of(verb);
    for kind in kinds {
        let word = words.next()?;
        if let Some(why) = why_not(*kind, word) {
            return Some((word, why));
        }
    }
    None
}

/// Returns what is wrong with a word that should be of this kind, if that can be found.
fn why_not(kind: WordKind, word: &str) -> Option<&'static str> {
    match kind {
        WordKind::Narrow => number_typo(number32(word).is_some(), word, " is above 4294967295; "),
        WordKind::Wide => number_typo(
            number64(word).is_some(),
            word,
            " is above 18446744073709551615; ",
        ),
        WordKind::Name => spelling_typo(word),
        WordKind::Word => capitals_typo(word),
    }
}

/// Returns what is wrong with a word of digits that is not a number: a leading zero, or else
/// `too_many`. Returns `None` for any other word.
fn number_typo(is_number: bool, word: &str, too_many: &'static str) -> Option<&'static str> {
    if is_number || !word.as_bytes().iter().all(|byte| byte.is_ascii_digit()) {
        return None;
    }
    match word.as_bytes() {
        [] => None,
        [b'0', ..] => Some(" has a zero in front; "),
        _ => Some(too_many),
    }
}

/// Returns what is wrong with a name, if it has characters that no name has, or too many.
pub(crate) fn spelling_typo(word: &str) -> Option<&'static str> {
    let capitals = capitals_typo(word);
    if capitals.is_some() {
        return capitals;
    }
    let has_letters = word.bytes().all(|byte| byte.is_ascii_lowercase()
        || byte.is_ascii_digit()
        || byte == b'_');
    if !has_letters {
        return Some(" has other letters than a to z, 0 to 9 and _; ");
    }
    if word.len() > LONGEST {
        Some(" has more than 32 letters; ")
    } else {
        None
    }
}

/// Returns what is wrong with a word that must be in lower case, if it has capitals.
fn capitals_typo(word: &str) -> Option<&'static str> {
    if word.as_bytes().iter().any(|byte| byte.is_ascii_uppercase()) {
        Some(" has capital letters; ")
    } else {
        None
    }
}

/// Returns the kinds of the words after a verb, as many as are checked.
fn kinds_of(verb: &str) -> &'static [WordKind] {
    match verb {
        "kalloc" | "kfree" | "drain" | "remove" => &[WordKind::Narrow],
        "map" | "unmap" => &[WordKind::Name, WordKind::Narrow],
        "write" => &[
            WordKind::Name,
            WordKind::Narrow,
            WordKind::Narrow,
            WordKind::Wide,
        ],
        "read" => &[WordKind::Name, WordKind::Narrow, WordKind::Narrow],
        "online" => &[WordKind::Narrow, WordKind::Word],
        "begin" => &[WordKind::Word, WordKind::Narrow],
        "drainfor" => &[WordKind::Wide, WordKind::Narrow],
        "migrate" | "commit" | "cancel" | "undo" => &[WordKind::Wide],
        "plan" => &[WordKind::Narrow, WordKind::Word, WordKind::Narrow],
        _ => &[],
    }
}
