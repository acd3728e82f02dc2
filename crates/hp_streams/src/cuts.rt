//! Cuts bytes into lines.
ghost use Rattle.std.specs.Prelude.{IfNone, IfSome};
ghost use Rattle.hp_streams.specs.Cuts.{IsCut};
ghost use Rattle.hp_streams.specs.Talks.{IsWhole};

use memchr::memchr;

/// Returns the bytes before the first newline, and those after it, if there is a newline.
pub(crate) fn cut(bytes: &[u8]) -> Option<(&[u8], &[u8])>
    ensures some { IfSome result (λ parts. IsCut bytes.now parts.0.now parts.1.now) }
    ensures none { IfNone result (IsWhole bytes.now) }
{
    match memchr(b'\n', bytes) {
        Some(end) => Some((&bytes[..end], &bytes[end + 1..])),
        None => None,
    }
}
