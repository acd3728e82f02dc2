//! What was expected in place of a text that cannot be read as a line.
ghost use Rattle.std.specs.Prelude.{OnOk, string_bytes};
ghost use Rattle.hp_check.specs.Hints.{AddsText};

use crate::name_typos::{NameTypo, write_name_typo};
use crate::typos::write_typo;
use hp_units::number32;
use std::alloc::AllocError;

/// Writes why a text cannot be read as a line. If it begins or ends with a space, writes that
/// alone. Otherwise writes the wrong name or word, if it can be found, and what was expected.
/// `names` is what `name_typo` returned for the text.
pub fn write_expected(
    out: &mut String,
    text: &str,
    names: &Option<NameTypo>,
) -> Result<(), AllocError>
    ensures { OnOk result (AddsText (string_bytes out.old) (string_bytes out.new)) }
{
    if text.starts_with(' ') {
        return out.push_str("it begins with a space");
    }
    if text.ends_with(' ') {
        return out.push_str("it ends with a space");
    }
    write_wrong_word(out, text, names)?;
    out.push_str(wanted(text))
}

/// Writes the wrong name or word and why it is wrong, if that can be found.
fn write_wrong_word(
    out: &mut String,
    text: &str,
    names: &Option<NameTypo>,
) -> Result<(), AllocError>
    ensures { OnOk result (AddsText (string_bytes out.old) (string_bytes out.new)) }
{
    match names {
        Some(typo) => write_name_typo(out, text, typo),
        None => write_typo(out, text),
    }
}

/// Returns what to report of a text that cannot be read as a line: that its first word is no number
/// of a processor, that its verb is missing or unknown, or else the form that the verb requires.
/// For some unknown verbs, this includes a guess at the line.
fn wanted(text: &str) -> &'static str {
    let mut words = text.split(' ');
    let cpu = words.next().and_then(|word| number32(word));
    if cpu.is_none() {
        return "its first word is no number of a processor";
    }
    let Some(verb) = words.next() else {
        return "a verb is missing";
    };
    text_beside(verb, forms())
        .or(text_beside(verb, guesses()))
        .unwrap_or("its second word is no verb")
}

/// Returns the text beside a word in a table, if the table has the word.
fn text_beside(word: &str, table: &'static [(&'static str, &'static str)]) -> Option<&'static str> {
    for row in table {
        if word == row.0 {
            return Some(row.1);
        }
    }
    None
}

/// Returns each verb with the form of its line.
fn forms() -> &'static [(&'static str, &'static str)] {
    &[
        ("kalloc", "wanted: C kalloc ORDER"),
        ("kfree", "wanted: C kfree FRAME"),
        ("map", "wanted: C map NAME PAGE"),
        ("unmap", "wanted: C unmap NAME PAGE"),
        ("write", "wanted: C write NAME PAGE INDEX VALUE"),
        ("read", "wanted: C read NAME PAGE INDEX"),
        ("drain", "wanted: C drain CPU"),
        (
            "online",
            "wanted: C online BLOCK ZONE, where ZONE is normal or movable",
        ),
        ("remove", "wanted: C remove BLOCK"),
        (
            "begin",
            "wanted: C begin ITEM .., where an ITEM is off BLOCK, normal BLOCK or movable BLOCK",
        ),
        ("drainfor", "wanted: C drainfor OP CPU"),
        ("migrate", "wanted: C migrate OP"),
        ("commit", "wanted: C commit OP"),
        ("cancel", "wanted: C cancel OP"),
        ("undo", "wanted: C undo SERIAL"),
        (
            "plan",
            "wanted: C plan TURNS ITEM .., where an ITEM is off BLOCK, normal BLOCK or movable \
             BLOCK",
        ),
        ("echo", "wanted: C echo TEXT PATH"),
        ("cat", "wanted: C cat PATH"),
        ("seal", "wanted: C seal"),
    ]
}

/// Returns each word that was probably meant as a verb, with a guess at the line.
fn guesses() -> &'static [(&'static str, &'static str)] {
    &[
        (
            "offline",
            "its second word is no verb; perhaps C plan TURNS off BLOCK, or C echo offline \
             memoryN/state",
        ),
        (
            "probe",
            "its second word is no verb; perhaps C echo 0xADDRESS probe",
        ),
        (
            "alloc",
            "its second word is no verb; perhaps C kalloc ORDER",
        ),
        ("free", "its second word is no verb; perhaps C kfree FRAME"),
        ("abort", "its second word is no verb; perhaps C cancel OP"),
        (
            "",
            "its second word is no verb; perhaps it has a space too many",
        ),
        (
            "rollback",
            "its second word is no verb; perhaps C undo SERIAL",
        ),
    ]
}
