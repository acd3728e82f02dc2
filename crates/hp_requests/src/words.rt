//! The words of paths and of written texts.
ghost use Rattle.std.specs.Prelude.{◌≡◌, ◌<◌, IfSome};
ghost use Rattle.hp_requests.specs.Words as means;

use hp_units::{Block, number32};

/// Returns the memory block whose directory has this name.
#[tactic(auto, unfolding(crate::specs::Words::block_named))]
pub(crate) fn block_named(name: &str) -> Option<Block>
    ensures { result ≡ means.block_named name.now }
{
    Some(Block(number32(name.strip_prefix("memory")?)?))
}

/// Returns the value of a hexadecimal digit of either case.
fn hex_digit(byte: u8) -> Option<u8>
    ensures is { result ≡ means.hex_digit byte }
    ensures bound { IfSome result (λ digit. digit < 16) }
{
    match byte {
        b'0'..=b'9' => Some(byte - b'0'),
        b'A'..=b'F' => Some(byte - b'A' + 10),
        b'a'..=b'f' => Some(byte - b'a' + 10),
        _ => None,
    }
}

/// Returns the number that 1 to 16 hexadecimal digits write.
#[tactic(auto, unfolding(crate::specs::Words::hex_number))]
fn hex_number(digits: &[u8]) -> Option<u64>
    ensures { result ≡ means.hex_number digits.now }
{
    if digits.is_empty() || digits.len() > 16 {
        return None;
    }
    let mut number = 0;
    for digit in digits {
        number = number * 16 + u64::from(hex_digit(*digit)?);
    }
    Some(number)
}

/// Returns the byte address in a text: `0x` and 1 to 16 hexadecimal digits.
#[tactic(auto, unfolding(crate::specs::Words::address_of))]
pub(crate) fn address_from(text: &[u8]) -> Option<u64>
    ensures { result ≡ means.address_of text.now }
{
    match text {
        [b'0', b'x', digits @ ..] => hex_number(digits),
        _ => None,
    }
}

/// Returns a written text without its final newline, if it has one.
pub(crate) fn without_newline(bytes: &[u8]) -> &[u8]
    ensures { result.now ≡ means.without_newline bytes.now }
{
    match bytes {
        [front @ .., b'\n'] => front,
        _ => bytes,
    }
}
