//! The numbers in a line.
ghost use Rattle.std.specs.Prelude.{◌≡◌, ◌<◌, ◌≤◌, true, IfSome, length};
ghost use Rattle.std.specs.Str.{all_ascii_digits};
ghost use Rattle.std.specs.Str.Parse.{digits_value as value_of};
ghost use Rattle.hp_units.specs.NumberWords.{is_bare as bare, number_of};
ghost use Rattle.hp_scenario.specs.Words.{IsPlainNumber};

use hp_units::{number32 as any_number32, number64 as any_number64};

/// Any number with this many digits fits into 64 bits.
const FEW: usize = 18;

/// Returns the number below 2^32 in a word, as `hp_units` reads it. Faster for at most `FEW` digits
/// without a leading zero.
#[inline(always)]
#[tactic(auto, using(crate::proofs::PlainNumbers::plain_fits))]
pub(crate) fn number32(word: &str) -> Option<u32>
    ensures { result ≡ number_of 32 word.now }
{
    match lone_digit(word.as_bytes()) {
        Some(digit) => Some(digit as u32),
        None => longer_number32(word),
    }
}

/// Returns the number below 2^32 in a word. Called for a word that is not a single digit.
#[inline(never)]
#[tactic(auto, using(crate::proofs::PlainNumbers::plain_fits, crate::proofs::PlainNumbers::plain_exceeds))]
fn longer_number32(word: &str) -> Option<u32>
    ensures { result ≡ number_of 32 word.now }
{
    let Some(number) = plain_number(word.as_bytes()) else {
        return any_number32(word);
    };
    if number > u32::MAX as u64 {
        return None;
    }
    Some(number as u32)
}

/// Returns the number below 2^64 in a word, as `hp_units` reads it. Faster for at most `FEW` digits
/// without a leading zero.
#[tactic(auto, using(crate::proofs::PlainNumbers::plain_fits))]
pub(crate) fn number64(word: &str) -> Option<u64>
    ensures { result ≡ number_of 64 word.now }
{
    match plain_number(word.as_bytes()) {
        Some(number) => Some(number),
        None => any_number64(word),
    }
}

/// Returns the digit if a word is a single digit.
#[tactic(auto, using(crate::proofs::PlainNumbers::lone))]
fn lone_digit(word: &[u8]) -> Option<u8>
    ensures { IfSome result (λ n. IsPlainNumber word.now n) }
{
    if word.len() != 1 || !word[0].is_ascii_digit() {
        return None;
    }
    Some(word[0] - b'0')
}

/// Returns the number in a word of at most `FEW` digits without a leading zero. If it returns
/// `None`, the word may still be a number.
#[tactic(auto, using(crate::proofs::PlainNumbers::plain))]
fn plain_number(word: &[u8]) -> Option<u64>
    ensures { IfSome result (λ n. IsPlainNumber word.now n) }
{
    if word.is_empty() || word.len() > FEW || !is_bare(word) {
        return None;
    }
    digits_value(word)
}

/// Returns whether a word begins with neither a plus sign nor a 0; the word `0` alone is bare too.
fn is_bare(word: &[u8]) -> bool
    requires { 0 < length word.now }
    ensures { result ≡ bare word.now }
{
    word[0] != b'+' && (word.len() < 2 || word[0] != b'0')
}

/// Returns the number that at most 18 digits write, or `None` if there is another byte.
#[tactic(auto, using(crate::proofs::PlainNumbers::digits_read))]
fn digits_value(digits: &[u8]) -> Option<u64>
    requires { length digits.now ≤ 18 }
    ensures digits { IfSome result (λ n. all_ascii_digits digits.now ≡ true) }
    ensures value { IfSome result (λ n. value_of 10 digits.now ≡ n) }
{
    let mut number = 0;
    for byte in digits {
        if !byte.is_ascii_digit() {
            return None;
        }
        number = number * 10 + (*byte - b'0') as u64;
    }
    Some(number)
}
