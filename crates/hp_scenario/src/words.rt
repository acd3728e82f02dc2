//! The words of a line, and the names among them.
ghost use Rattle.std.specs.Prelude.{◌≡◌, ◌==◌, ◌∷◌, [], MatchOption, OnOk, map};
ghost use Rattle.std.specs.List.{list_all, position};
ghost use Rattle.hp_scenario.specs.Words.{is_name_byte as name_byte, is_name as names, words_of};

use std::alloc::AllocError;

/// Replaces `words` by the words of a text, which are between single spaces.
///
/// # Errors
///
/// `AllocError` if memory allocation fails. `words` then holds a part of them.
#[tactic(auto, using(crate::proofs::WordsCut::last_word))]
pub fn split_words<'a>(words: &mut Vec<&'a str>, text: &'a str) -> Result<(), AllocError>
    ensures { OnOk result (map (λ w. w.now) words.new.items ≡ words_of text.now) }
{
    words.clear();
    let mut rest = text;
    'cut: while let Some((word, more)) = cut_word(rest) {
        words.push(word)?;
        rest = more;
    }
    words.push(rest)?;
    Ok(())
}

/// Cuts off the first word. Returns it with what comes after its space, or `None` if the text is
/// one word.
#[tactic(auto, using(crate::proofs::WordsCut::cut_at_spaces))]
fn cut_word<'a>(text: &'a str) -> Option<(&'a str, &'a str)>
    ensures { MatchOption result (words_of text.now ≡ text.now ∷ [])
        (λ cut. words_of text.now ≡ cut.0.now ∷ words_of cut.1.now) }
{
    match space_in(text.as_bytes()) {
        Some(end) => Some((&text[..end], &text[end + 1..])),
        None => None,
    }
}

/// Returns the index of the first space.
fn space_in(text: &[u8]) -> Option<usize>
    ensures { result ≡ position (λ b. b == 32) text.now }
{
    text.iter().position(|byte| *byte == b' ')
}

fn is_name_byte(byte: u8) -> bool
    ensures { result ≡ name_byte byte }
{
    byte.is_ascii_lowercase() || byte.is_ascii_digit() || byte == b'_'
}

fn are_name_bytes(bytes: &[u8]) -> bool
    ensures { result ≡ list_all name_byte bytes.now }
{
    bytes.iter().all(|byte| is_name_byte(*byte))
}

/// Returns whether a word is a name: a letter from `a` to `z`, then at most 31 of these letters,
/// digits and `_`.
pub fn is_name(word: &str) -> bool
    ensures { result ≡ names word.now }
{
    match word.as_bytes() {
        [] => false,
        [first, rest @ ..] => {
            first.is_ascii_lowercase() && rest.len() < 32 && are_name_bytes(rest)
        }
    }
}
