//! Parses numbers from words.
ghost use Rattle.std.specs.Prelude.{◌≡◌};
ghost use Rattle.hp_units.specs.NumberWords.{NumbersAreSpelled, is_bare as bare, number_of};

/// Returns whether the word has neither a leading `+` nor a leading zero; `parse` would accept
/// both.
fn is_bare(word: &str) -> bool
    ensures { result ≡ bare word.now }
{
    !word.starts_with('+') && (word.len() < 2 || !word.starts_with('0'))
}

/// Parses a decimal number below 2^32, without a sign and without leading zeros. Returns `None` for
/// any other word.
#[tactic(auto, using(crate::proofs::NumbersParsed::parsed, crate::proofs::NumbersParsed::refused))]
pub fn number32(word: &str) -> Option<u32>
    ensures { result ≡ number_of 32 word.now }
{
    if !is_bare(word) {
        return None;
    }
    word.parse::<u32>().ok()
}

/// Parses a decimal number below 2^64, without a sign and without leading zeros. Returns `None` for
/// any other word.
#[tactic(auto, using(crate::proofs::NumbersParsed::parsed, crate::proofs::NumbersParsed::refused))]
pub fn number64(word: &str) -> Option<u64>
    ensures { result ≡ number_of 64 word.now }
{
    if !is_bare(word) {
        return None;
    }
    word.parse::<u64>().ok()
}

/// If `bits` is at most 64, a word is read as the number n if and only if n is below 2^bits and the
/// word is n in decimal digits.
pub fn numbers_are_spelled()
    ensures { NumbersAreSpelled }
{}
