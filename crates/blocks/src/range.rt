//! Ranges of blocks: what one write covers.
ghost use Rattle.std.specs.Prelude.{◌≡◌, ◌+◌, ◌-◌, ◌/◌, ◌<◌, ◌≤◌, ◌↔◌, IsTrue, IsOk, IfOk, IfErr};
ghost use Rattle.blocks.specs.Ranges.{IsRange, ranges_meet};
ghost use Rattle.blocks.specs.declared.refusal.Refusal.TheVariants.{BadRange};

use crate::{Block, EXTENT_BLOCKS, Refusal};

/// The most blocks of one write: 128 KiB (this project's limit).
pub const MAX_RANGE: u64 = 32;

/// The blocks of one write: 1 to 32 of them, in one extent.
#[derive(Clone, Copy, Debug, PartialEq, Eq)]
pub struct Range {
    /// The first block.
    pub first: Block,
    /// How many blocks.
    pub count: u64,
    ghost some: { 0 < count },
    ghost few: { count ≤ 32 },
    ghost one_extent: { first.0 / 1024 ≡ (first.0 + count - 1) / 1024 },
}

impl Range {
    /// Returns the range of `count` blocks from `first` on, in a device of `blocks` blocks.
    ///
    /// `BadRange` (1) if the range is empty, has more than 32 blocks, goes past the device's end, or covers two
    /// extents (this project's rule). It takes no memory.
    pub fn new(first: u64, count: u64, blocks: u32) -> Result<Range, Refusal>
        ensures accepted { IsOk result ↔ IsRange blocks first count }
        ensures range { IfOk result (λ r. (r.first.0 ≡ first) × (r.count ≡ count)) }
        ensures refused { IfErr result (λ e. e ≡ BadRange) }
    {
        let device = u64::from(blocks);
        if count == 0 || count > MAX_RANGE || first > device || count > device - first {
            return Err(Refusal::BadRange);
        }
        if first / EXTENT_BLOCKS != (first + count - 1) / EXTENT_BLOCKS {
            return Err(Refusal::BadRange);
        }
        Ok(Range {
            first: Block(first),
            count,
        })
    }

    /// Returns whether the block is one of the range.
    pub fn contains(&self, block: Block) -> bool
        ensures { IsTrue result ↔ ((self.now.first.0 ≤ block.0) × (block.0 < self.now.first.0 + self.now.count)) }
    {
        self.first.0 <= block.0 && block.0 - self.first.0 < self.count
    }

    /// Returns whether the two ranges share a block.
    pub fn meets(&self, other: &Range) -> bool
        ensures { result ≡ ranges_meet self.now.first.0 self.now.count other.now.first.0 other.now.count }
    {
        self.contains(other.first) || other.contains(self.first)
    }
}
