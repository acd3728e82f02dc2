//! Why names are not understood: hints, whose texts and reasons are tested (lab_tests).

use crate::bindings::Bindings;
use crate::results::{NameUse, ResultKind, use_of_verb};
use crate::words::{after_dollar, last_two, name_at_end, words_in};
use std::alloc::{AllocError, Global};

/// Why the names in a text are not understood, so that it cannot be read as a line.
#[derive(Clone, Copy, Debug, PartialEq, Eq, Drop)]
pub enum NameFault {
    /// No earlier line of the processor gives its result the name after `$`.
    UnknownName,
    /// The name after `$` is that of a frame, but the verb works on an operation; or the other way
    /// round.
    WrongKind,
    /// A word begins with `$`, and is not the one after `drainfor`, `migrate`, `commit`, `cancel`
    /// or `kfree`.
    ReferenceNotHere,
    /// The line ends in `as` and a word, but its verb is neither `begin` nor `kalloc`.
    NameNotHere,
    /// The word after `as` does not have the form of a name.
    BadName,
}

/// Returns why the names in a text are not understood, given what names are bound to before it.
/// Call this only for a text that cannot be read as a line: the words of an `echo` may look like
/// names.
pub fn name_fault(
    alloc: Global,
    text: &str,
    bound: &Bindings,
) -> Result<Option<NameFault>, AllocError> {
    let words = words_in(alloc, text)?;
    fault_of(alloc, words.as_slice(), bound)
}

/// Returns why the names among words are not understood.
fn fault_of(
    alloc: Global,
    words: &[&str],
    bound: &Bindings,
) -> Result<Option<NameFault>, AllocError> {
    let [cpu, verb, args @ ..] = words else {
        return Ok(None);
    };
    match use_of_verb(verb) {
        Some(NameUse::Gives(_kind)) => {
            let is_bad = has_mark_at_end(args) && name_at_end(args).is_none();
            Ok(stray_fault(has_reference(args), is_bad, NameFault::BadName))
        }
        Some(NameUse::Takes(kind)) => fault_of_work(alloc, bound, cpu, kind, args),
        None => Ok(stray_fault(
            has_reference(args),
            has_mark_at_end(args),
            NameFault::NameNotHere,
        )),
    }
}

/// Returns the fault of the words after a verb that works on a result of this kind.
fn fault_of_work(
    alloc: Global,
    bound: &Bindings,
    cpu: &str,
    kind: ResultKind,
    args: &[&str],
) -> Result<Option<NameFault>, AllocError> {
    let [word, rest @ ..] = args else {
        return Ok(None);
    };
    if let Some(fault) = reference_fault(alloc, bound, cpu, kind, word)? {
        return Ok(Some(fault));
    }
    Ok(stray_fault(
        has_reference(rest),
        has_mark_at_end(args),
        NameFault::NameNotHere,
    ))
}

/// Returns the fault of the word after the verb, if it begins with `$` and names no result of this
/// kind.
fn reference_fault(
    alloc: Global,
    bound: &Bindings,
    cpu: &str,
    kind: ResultKind,
    word: &str,
) -> Result<Option<NameFault>, AllocError> {
    let Some(name) = after_dollar(word) else {
        return Ok(None);
    };
    let Some(found) = bound.result_at(alloc, cpu, name)? else {
        return Ok(Some(NameFault::UnknownName));
    };
    Ok(if found.kind.is(kind) {
        None
    } else {
        Some(NameFault::WrongKind)
    })
}

/// Returns `ReferenceNotHere` if a word begins with `$`; if not, `fault` if the text ends in `as`
/// and a word that is no name or may not be there.
fn stray_fault(has_reference: bool, has_name: bool, fault: NameFault) -> Option<NameFault> {
    if has_reference {
        Some(NameFault::ReferenceNotHere)
    } else if has_name {
        Some(fault)
    } else {
        None
    }
}

/// Returns whether one of the words begins with `$`.
fn has_reference(words: &[&str]) -> bool {
    for word in words {
        if is_reference(word) {
            return true;
        }
    }
    false
}

fn is_reference(word: &str) -> bool {
    after_dollar(word).is_some()
}

/// Returns whether `as` is the last word but one.
fn has_mark_at_end(words: &[&str]) -> bool {
    match last_two(words) {
        Some((mark, _word)) => mark == "as",
        None => false,
    }
}
