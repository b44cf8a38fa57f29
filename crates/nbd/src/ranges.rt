//! Block ranges of a request.
ghost use Rattle.std.specs.Prelude.{◌≡◌, ◌+◌, ◌<◌, ◌^◌};
ghost use Rattle.nbd.specs.Pieces.{pieces};
ghost use Rattle.nbd.specs.Spans.{covering};

use blocks::{BLOCK_BYTES, Block, EXTENT_BLOCKS, MAX_RANGE, Range};
use std::marker::Model;

/// The blocks of a request in ranges that the device takes at once: each has at most 32 blocks, lies in one
/// extent of 1,024 blocks, and begins where the one before it ends.
#[derive(Debug, Drop)]
pub struct Ranges {
    first_block: u64,
    block_count: u64,
}

impl Model for Ranges {
    ghost use Rattle.std.specs.Prelude.{ℕ, List, ◌+◌, ◌<◌, ◌^◌};
    ghost use Rattle.nbd.specs.Pieces.{pieces};

    ghost Value = { List (ℕ × ℕ) };

    ghost view = { λ s. pieces s.first_block s.block_count };

    ghost invariant = { λ s. s.first_block + s.block_count < 2 ^ 64 };
}

impl Ranges {
    /// Returns the ranges of the blocks that have any of `length` bytes from the byte `offset` on, in their order.
    pub fn covering(offset: u64, length: u32) -> Ranges
        requires inside { offset + length < 2 ^ 64 }
        ensures { result ≡ covering offset length }
    {
        let first = offset / BLOCK_BYTES as u64;
        let end = (offset + u64::from(length)).div_ceil(BLOCK_BYTES as u64);
        Ranges::over(first, end - first)
    }

    /// Returns the ranges of `block_count` blocks from `first_block` on.
    pub(crate) fn over(first_block: u64, block_count: u64) -> Ranges
        requires { first_block + block_count < 2 ^ 64 }
        ensures { result ≡ pieces first_block block_count }
    {
        Ranges {
            first_block,
            block_count,
        }
    }
}

impl Iterator for Ranges {
    type Item = Range;

    ghost use Rattle.std.specs.Iterator.{YieldsFirstBy, item_count};
    ghost use Rattle.nbd.specs.Pieces.{pair_of};

    ghost next_gives = { YieldsFirstBy pair_of (λ left. left) };

    ghost remaining = { item_count (λ left. left) };

    fn next(&mut self) -> Option<Range> {
        if self.block_count == 0 {
            return None;
        }
        let in_extent = EXTENT_BLOCKS - self.first_block % EXTENT_BLOCKS;
        let range = Range {
            first: Block(self.first_block),
            count: self.block_count.min(MAX_RANGE.min(in_extent)),
        };
        self.first_block += range.count;
        self.block_count -= range.count;
        Some(range)
    }
}
