//! What is wrong with the names for results in a text that cannot be read as a line.
ghost use Rattle.std.specs.Prelude.{OnOk, string_bytes};
ghost use Rattle.hp_check.specs.Hints.{AddsText};

use crate::quotes::write_quoted;
use crate::typos::spelling_typo;
use hp_scripts::{Bindings, NameFault, name_fault};
use hp_units::Text;
use std::alloc::{AllocError, Global};
use strsim::generic_levenshtein;

/// A mistake in a `$NAME` or an `as NAME`, because of which a text cannot be read as a line.
#[derive(Drop)]
pub struct NameTypo {
    /// The fault.
    pub fault: NameFault,
    /// For an unknown name, the one that was probably meant.
    pub meant: Meant,
}

/// The name that was probably meant.
#[derive(Drop)]
pub enum Meant {
    /// None is known.
    Nothing,
    /// This name of the same processor, which differs in a letter.
    Near(Text),
    /// The name itself, but it is a name of the processor with this number.
    Other(Text),
}

/// Returns what is wrong with the names for results in a text that cannot be read as a line.
/// `bound` has the names that the lines before it gave to their results. Returns `None` if the
/// names are not the reason.
pub fn name_typo(
    alloc: Global,
    text: &str,
    bound: &Bindings,
) -> Result<Option<NameTypo>, AllocError> {
    let Some(fault) = name_fault(alloc, text, bound)? else {
        return Ok(None);
    };
    // In the words of an `echo` or a `cat`, a dollar sign means nothing.
    let names_a_file = matches!(text.split(' ').nth(1), Some("echo" | "cat"));
    let meant = match fault {
        NameFault::UnknownName => meant_in(alloc, text, bound)?,
        NameFault::ReferenceNotHere if names_a_file => return Ok(None),
        _ => Meant::Nothing,
    };
    Ok(Some(NameTypo { fault, meant }))
}

/// Returns the name that was probably meant by the unknown one in a text: a similar name of the
/// same processor, or else the same name of another processor.
fn meant_in(alloc: Global, text: &str, bound: &Bindings) -> Result<Meant, AllocError> {
    let Some(name) = reference_in(text).strip_prefix('$') else {
        return Ok(Meant::Nothing);
    };
    let cpu = text.split(' ').next().unwrap_or(text);
    let mut other = None;
    for index in 0..bound.len() {
        let Some((owner, known)) = bound.key_at(index).and_then(|key| key.split_once(' ')) else {
            continue;
        };
        if owner == cpu && is_similar(alloc, known, name)? {
            return Ok(Meant::Near(Text::new(String::from_str(alloc, known)?)));
        }
        if known == name {
            other = other.or(Some(owner));
        }
    }
    match other {
        Some(owner) => Ok(Meant::Other(Text::new(String::from_str(alloc, owner)?))),
        None => Ok(Meant::Nothing),
    }
}

/// Returns whether two names differ in at most one letter, which is replaced, or is missing in one
/// of the two.
fn is_similar(alloc: Global, a: &str, b: &str) -> Result<bool, AllocError> {
    let a = a.as_bytes();
    let b = b.as_bytes();
    Ok(a.len().abs_diff(b.len()) <= 1 && generic_levenshtein(alloc, a, b)? <= 1)
}

/// Writes the name that is wrong, and why.
pub(crate) fn write_name_typo(
    out: &mut String,
    text: &str,
    typo: &NameTypo,
) -> Result<(), AllocError>
    ensures { OnOk result (AddsText (string_bytes out.old) (string_bytes out.new)) }
{
    let word = word_in(text, typo.fault);
    write_quoted(out, word)?;
    out.push_str(cause(text, word, typo.fault))?;
    write_meant(out, &typo.meant)
}

/// Writes the name that was probably meant, or which processor has the name itself. Writes nothing
/// if neither is known.
fn write_meant(out: &mut String, meant: &Meant) -> Result<(), AllocError>
    ensures { OnOk result (AddsText (string_bytes out.old) (string_bytes out.new)) }
{
    match meant {
        Meant::Nothing => Ok(()),
        Meant::Near(name) => {
            let name = name.as_str();
            write!(out, "perhaps `${name}`; ")
        }
        Meant::Other(cpu) => {
            let cpu = cpu.as_str();
            write!(out, "it is one of processor {cpu}; ")
        }
    }
}

/// Returns the word of a text that is the wrong name.
fn word_in(text: &str, fault: NameFault) -> &str {
    match fault {
        NameFault::UnknownName | NameFault::WrongKind => reference_in(text),
        // A reference may only come right after some verbs. If one comes elsewhere, so does the
        // last one.
        NameFault::ReferenceNotHere => text
            .rsplit(' ')
            .find(|word| word.starts_with('$'))
            .unwrap_or(""),
        NameFault::NameNotHere | NameFault::BadName => text.rsplit(' ').next().unwrap_or(text),
    }
}

/// Returns why the wrong name is wrong.
fn cause(text: &str, word: &str, fault: NameFault) -> &'static str {
    match fault {
        NameFault::UnknownName => " is no result of an earlier line of its processor; ",
        NameFault::WrongKind => match text.split(' ').nth(1) {
            Some("kfree") => " is an operation, not a frame; ",
            _ => " is a frame, not an operation; ",
        },
        NameFault::ReferenceNotHere => " may come for an OP and for a kfree's FRAME alone; ",
        NameFault::NameNotHere => " names no result: only a begin and a kalloc have one; ",
        NameFault::BadName => spelling_typo(word).unwrap_or(" is no name; "),
    }
}

/// Returns the first word after the processor's that begins with a dollar sign, or the empty text
/// if there is none.
fn reference_in(text: &str) -> &str {
    let mut words = text.split(' ');
    let _processor = words.next();
    words.find(|word| word.starts_with('$')).unwrap_or("")
}
