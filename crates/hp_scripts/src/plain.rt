//! The text of a line without names.
ghost use Rattle.std.specs.Prelude.{◌≡◌, ◌∷◌, IfOk, map, option_map};
ghost use Rattle.std.specs.Fmt.{decimal};
ghost use Rattle.hp_scripts.specs.NamedWords.{before_name as words_before, joined as joined_words};
ghost use Rattle.hp_scripts.specs.Plain as spec;

use crate::bindings::{Bindings, Naming, key_of};
use crate::results::{NameUse, NamedResult, ResultKind, use_of_verb};
use crate::words::{after_dollar, joined, name_at_end, words_in};
use hp_units::Text;
use std::alloc::{AllocError, Global};

/// A line's text without names, and what its names stood for.
#[derive(Drop)]
pub struct PlainLine {
    /// The text, without ` as NAME`, and with a number in place of `$NAME`. A name that is not
    /// understood stays, and the text then cannot be read as a line.
    pub text: Text,
    /// The index of the line whose result the name after `$` means.
    pub source: Option<usize>,
    /// The name of the line's own result.
    pub naming: Option<Naming>,
}

/// Takes the names out of a line's text, given what names are bound to before it.
pub fn plain_line(alloc: Global, text: &str, bound: &Bindings) -> Result<PlainLine, AllocError>
    ensures { IfOk result (λ plain. plain ≡ spec.plain_in bound.now text.now) }
{
    let words = words_in(alloc, text)?;
    plain_of(alloc, text, words.as_slice(), bound)
}

/// Takes the names out of a text of these words.
#[tactic(auto, unfolding(crate::specs::Plain::plain_of))]
fn plain_of(
    alloc: Global,
    text: &str,
    words: &[&str],
    bound: &Bindings,
) -> Result<PlainLine, AllocError>
    ensures { IfOk result
        (λ plain. plain ≡ spec.plain_of bound.now text.now (map (λ w. w.now) words.now)) }
{
    let [cpu, verb, args @ ..] = words else {
        return unchanged(alloc, text);
    };
    match use_of_verb(verb) {
        Some(NameUse::Gives(kind)) => {
            naming_line(alloc, text, words, cpu, kind, name_at_end(args))
        }
        Some(NameUse::Takes(kind)) => working_line(alloc, text, bound, cpu, verb, kind, args),
        None => unchanged(alloc, text),
    }
}

/// Returns a text as it is.
fn unchanged(alloc: Global, text: &str) -> Result<PlainLine, AllocError>
    ensures { IfOk result (λ plain. plain ≡ spec.unchanged text.now) }
{
    Ok(PlainLine {
        text: Text::new(String::from_str(alloc, text)?),
        source: None,
        naming: None,
    })
}

/// Takes ` as NAME` off the end of a text. Returns the text unchanged if no name is at its end.
fn naming_line(
    alloc: Global,
    text: &str,
    words: &[&str],
    cpu: &str,
    kind: ResultKind,
    name: Option<&str>,
) -> Result<PlainLine, AllocError>
    ensures { IfOk result (λ plain. plain ≡ spec.naming_line text.now (map (λ w. w.now) words.now) cpu.now
        kind (option_map (λ n. n.now) name.entry)) }
{
    let Some(name) = name else {
        return unchanged(alloc, text);
    };
    let key = key_of(alloc, cpu, name)?;
    let text = joined(alloc, before_name(words))?;
    Ok(PlainLine {
        text,
        source: None,
        naming: Some(Naming { key, kind }),
    })
}

/// Returns all words but the last two.
fn before_name<'a, 'b>(words: &'b [&'a str]) -> &'b [&'a str]
    ensures { map (λ w. w.now) result.now ≡ words_before (map (λ w. w.now) words.now) }
{
    &words[..words.len().saturating_sub(2)]
}

/// Replaces the first word after the verb by the number of the result of this kind that it names.
/// Returns the text unchanged if the word names none.
fn working_line(
    alloc: Global,
    text: &str,
    bound: &Bindings,
    cpu: &str,
    verb: &str,
    kind: ResultKind,
    args: &[&str],
) -> Result<PlainLine, AllocError>
    ensures { IfOk result (λ plain. plain
        ≡ spec.working_line bound.now text.now cpu.now verb.now kind (map (λ w. w.now) args.now)) }
{
    let [word, rest @ ..] = args else {
        return unchanged(alloc, text);
    };
    match result_named(alloc, bound, cpu, kind, word)? {
        Some(found) => numbered_line(alloc, cpu, verb, rest, found),
        None => unchanged(alloc, text),
    }
}

/// Returns the result of this kind that a word names, if it names one.
fn result_named(
    alloc: Global,
    bound: &Bindings,
    cpu: &str,
    kind: ResultKind,
    word: &str,
) -> Result<Option<NamedResult>, AllocError>
    ensures { IfOk result (λ found. found ≡ spec.result_named bound.now cpu.now kind word.now) }
{
    let Some(name) = after_dollar(word) else {
        return Ok(None);
    };
    let Some(found) = bound.result_at(alloc, cpu, name)? else {
        return Ok(None);
    };
    Ok(if found.kind.is(kind) {
        Some(found)
    } else {
        None
    })
}

/// Returns a line with the number of a result after its verb.
fn numbered_line(
    alloc: Global,
    cpu: &str,
    verb: &str,
    rest: &[&str],
    found: NamedResult,
) -> Result<PlainLine, AllocError>
    ensures { IfOk result (λ plain. plain ≡ record {
      text = joined_words (cpu.now ∷ verb.now ∷ decimal found.number ∷ map (λ w. w.now) rest.now);
      source = Some found.line;
      naming = None;
    }) }
{
    let text = numbered_text(alloc, cpu, verb, found.number, rest)?;
    Ok(PlainLine {
        text,
        source: Some(found.line),
        naming: None,
    })
}

/// Joins words with one space between them. The third word is a number.
fn numbered_text(
    alloc: Global,
    cpu: &str,
    verb: &str,
    number: u64,
    rest: &[&str],
) -> Result<Text, AllocError>
    ensures { IfOk result
        (λ text. text ≡ joined_words (cpu.now ∷ verb.now ∷ decimal number ∷ map (λ w. w.now) rest.now)) }
{
    let mut text = String::new(alloc);
    write!(text, "{cpu} {verb} {number}")?;
    for word in rest {
        text.push(' ')?;
        text.push_str(word)?;
    }
    Ok(Text::new(text))
}
