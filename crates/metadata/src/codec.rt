//! Words of 64 bits in bytes, big-endian, and the sum over them.
ghost use Rattle.std.specs.Prelude.{◌≡◌, ◌+◌, ◌*◌, ◌^◌, ◌<◌, ◌≤◌, length, take, drop, ℕ, slice_index};
ghost use Rattle.metadata.specs.Words.{word, bytes_of, sum_of, sealed};

use crate::layout::WORD_BYTES;
use sha2::{Digest, Sha256};

/// Returns word `index` of the bytes.
pub(crate) fn word(bytes: &[u8], index: usize) -> u64
    requires { WORD_BYTES * index + WORD_BYTES ≤ length bytes.now }
    ensures { result ≡ word bytes.now index }
{
    let mut part = [0u8; WORD_BYTES];
    let at = WORD_BYTES * index;
    part.copy_from_slice(&bytes[at..at + WORD_BYTES]);
    u64::from_be_bytes(part)
}

/// Returns the sum over the bytes: the first word of their SHA-256 digest.
pub(crate) fn sum_of(bytes: &[u8]) -> u64
    ensures { result ≡ sum_of bytes.now }
{
    let digest = Sha256::digest(bytes);
    word(&digest, 0)
}

/// Puts the words into the buffer, and behind them their sum.
pub(crate) fn seal(words: &[u64], buffer: &mut [u8])
    requires { length buffer.old ≡ WORD_BYTES * length words.now + WORD_BYTES }
    ensures sealed { buffer.new ≡ sealed words.now }
    ensures sum_fits { sum_of (bytes_of words.now) < 2 ^ 64 }
    ensures words_fit { (i : ℕ) → slice_index words.now i < 2 ^ 64 }
{
    put_words(words, buffer);
    let end = WORD_BYTES * words.len();
    let sum = sum_of(&buffer[..end]);
    buffer[end..].copy_from_slice(&sum.to_be_bytes());
}

/// Puts the words at the buffer's start.
fn put_words(words: &[u64], buffer: &mut [u8])
    requires { WORD_BYTES * length words.now ≤ length buffer.old }
    ensures front { take (WORD_BYTES * length words.now) buffer.new ≡ bytes_of words.now }
{
    for index in 0..words.len() {
        let at = WORD_BYTES * index;
        buffer[at..at + WORD_BYTES].copy_from_slice(&words[index].to_be_bytes());
    }
}
