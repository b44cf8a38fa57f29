//! The words and counts of a device whose blocks are all marked.
ghost use Rattle.std.specs.Prelude.{◌≡◌, ℕ, ◌+◌, ◌/◌, nat_lt, true, length, replicate, slice_index};
ghost use Rattle.bitmap.specs.Marks.{bit_of, count_in};

use crate::marks::WORD_BLOCKS;
use blocks::EXTENT_BLOCKS;

// Marks each of the device's blocks in its words. The bits past its end are zero.
pub(crate) fn fill_words(words: &mut [u64], blocks: u64)
    requires { length words.old ≡ (blocks + 63) / 64 }
    ensures { (b : ℕ) → bit_of words.new b ≡ nat_lt b blocks }
{
    words.fill(u64::MAX);
    let rest = blocks % WORD_BLOCKS;
    if rest > 0 {
        words[(blocks / WORD_BLOCKS) as usize] = (1 << rest) - 1;
    }
}

// Counts each block of the device in its extent.
pub(crate) fn fill_counts(counts: &mut [u32], blocks: u64)
    requires { length counts.old ≡ (blocks + 1023) / 1024 }
    ensures { (extent : ℕ) → slice_index counts.new extent ≡ count_in (replicate blocks true) extent }
{
    counts.fill(EXTENT_BLOCKS as u32);
    let rest = blocks % EXTENT_BLOCKS;
    if rest > 0 {
        counts[(blocks / EXTENT_BLOCKS) as usize] = rest as u32;
    }
}
