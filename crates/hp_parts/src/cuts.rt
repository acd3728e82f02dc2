//! Cuts a text into lines.
ghost use Rattle.std.specs.Prelude.{◌≡◌, ◌<◌, ◌≤◌, ◌+◌, IfNone, IfSome, length};
ghost use Rattle.hp_parts.specs.Cuts.{HasNoNewline, IsLineAt, line_number};

use memchr::memchr;

/// Returns the text from index `place` up to the next newline, or `None` if none follows.
pub fn line_at(input: &[u8], place: usize) -> Option<&[u8]>
    requires { place ≤ length input.now }
    ensures is { IfSome result (λ text. IsLineAt input.now place text.now) }
    ensures none { IfNone result (HasNoNewline input.now place) }
    ensures within { IfSome result (λ text. place + length text.now < length input.now) }
{
    let rest = &input[place..];
    match memchr(b'\n', rest) {
        Some(end) => Some(&rest[..end]),
        None => None,
    }
}

/// Returns the number, counted from 1, of the line at index `place`. Counts all newlines before it,
/// so use it only for messages.
pub fn line_number(input: &[u8], place: usize) -> u64
    requires { place ≤ length input.now }
    ensures { result ≡ line_number input.now place }
{
    let before = &input[..place];
    before.iter().filter(|b| **b == b'\n').count() as u64 + 1
}
