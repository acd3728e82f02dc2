//! Hashes of byte strings. A hit is compared byte by byte, so nothing is proved about them.

use hp_schedules::mixed;

/// Returns a hash of the bytes, taken eight at a time.
pub(crate) fn digest_of(bytes: &[u8]) -> u64 {
    let mut digest = bytes.len() as u64;
    let (words, rest) = bytes.as_chunks::<8>();
    for word in words {
        digest = mixed(digest, u64::from_le_bytes(*word));
    }
    mixed(digest, word_of(rest))
}

/// Returns up to eight bytes as one word.
fn word_of(bytes: &[u8]) -> u64 {
    let mut word = 0u64;
    for byte in bytes {
        word = (word << 8) | u64::from(*byte);
    }
    word
}
