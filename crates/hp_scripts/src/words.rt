//! The words of a line, and the names among them.
ghost use Rattle.std.specs.Prelude.{◌≡◌, IfOk, map, option_map};
ghost use Rattle.hp_scenario.specs.Words.{words_of};
ghost use Rattle.hp_scripts.specs.NamedWords as spec;

use hp_scenario::{is_name, split_words};
use hp_units::Text;
use std::alloc::{AllocError, Global};

/// Returns the words of a text, which single spaces separate.
pub(crate) fn words_in<'a>(alloc: Global, text: &'a str) -> Result<Vec<&'a str>, AllocError>
    ensures { IfOk result (λ words. map (λ w. w.now) words.items ≡ words_of text.now) }
{
    let mut words = Vec::new(alloc);
    split_words(&mut words, text)?;
    Ok(words)
}

/// Returns the last two words.
#[tactic(auto, unfolding(crate::specs::NamedWords::last_two))]
pub(crate) fn last_two<'a>(words: &[&'a str]) -> Option<(&'a str, &'a str)>
    ensures { option_map (λ t. (t.0.now, t.1.now)) result ≡ spec.last_two (map (λ w. w.now) words.now) }
{
    match words {
        [.., mark, name] => Some((mark, name)),
        _ => None,
    }
}

/// Returns the name that the last two words give, if they are `as` and a name.
pub(crate) fn name_at_end<'a>(words: &[&'a str]) -> Option<&'a str>
    ensures { option_map (λ n. n.now) result ≡ spec.name_at_end (map (λ w. w.now) words.now) }
{
    let (mark, name) = last_two(words)?;
    if mark == "as" && is_name(name) {
        Some(name)
    } else {
        None
    }
}

/// Returns what comes after a `$` at the start of a word.
pub(crate) fn after_dollar(word: &str) -> Option<&str>
    ensures { option_map (λ n. n.now) result ≡ spec.after_dollar word.now }
{
    let bytes = word.as_bytes();
    if bytes.is_empty() || bytes[0] != b'$' {
        return None;
    }
    Some(&word[1..])
}

/// Returns words with one space between them.
pub(crate) fn joined(alloc: Global, words: &[&str]) -> Result<Text, AllocError>
    ensures { IfOk result (λ text. text ≡ spec.joined (map (λ w. w.now) words.now)) }
{
    Ok(Text::new(words.join(alloc, " ")?))
}
