//! The bits of a device's blocks, 64 to a word: block `b` is bit `b % 64` of word `b / 64`.
ghost use Rattle.std.specs.Prelude.{◌≡◌, ℕ, ◌+◌, ◌*◌, ◌/◌, ◌<◌, ◌≤◌, ◌==◌, ◌&&◌, ◌||◌, not, length};
ghost use Rattle.std.specs.List.{list_any};
ghost use Rattle.blocks.specs.Ranges.{below, is_between};
ghost use Rattle.peerdisk.specs.Stamped.{bit_of};

use blocks::{EXTENT_BLOCKS, Range};

// Blocks per word.
const WORD_BLOCKS: u64 = 64;

/// Words per extent.
pub(crate) const EXTENT_WORDS: usize = (EXTENT_BLOCKS / WORD_BLOCKS) as usize;

/// Returns whether the bit of one of these blocks is one.
pub(crate) fn has_bit(words: &[u64], range: Range) -> bool
    requires inside { range.first.0 + range.count ≤ 64 * length words.now }
    requires small { range.first.0 + range.count < 18446744073709551616 }
    ensures { result ≡ list_any (λ offset. bit_of words.now (range.first.0 + offset)) (below range.count) }
{
    let first = range.first.0;
    for block in first..first + range.count {
        if words[(block / WORD_BLOCKS) as usize] >> (block % WORD_BLOCKS) & 1 == 1 {
            return true;
        }
    }
    false
}

/// Sets the bits of these blocks.
pub(crate) fn set_bits(words: &mut [u64], range: Range)
    requires inside { range.first.0 + range.count ≤ 64 * length words.old }
    requires small { range.first.0 + range.count < 18446744073709551616 }
    ensures { (block : ℕ) → bit_of words.new block ≡ (bit_of words.old block || is_between range.first.0 range.count block) }
{
    let first = range.first.0;
    for block in first..first + range.count {
        words[(block / WORD_BLOCKS) as usize] |= 1 << (block % WORD_BLOCKS);
    }
}

/// Clears the bits of the extent's blocks.
pub(crate) fn clear_extent(words: &mut [u64], extent: usize)
    requires { 16 * extent + 16 ≤ length words.old }
    ensures { (block : ℕ) → bit_of words.new block ≡ (not (block / 1024 == extent) && bit_of words.old block) }
{
    let first = extent * EXTENT_WORDS;
    words[first..first + EXTENT_WORDS].fill(0);
}
