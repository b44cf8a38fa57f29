//! The bitmap of a device, with counts.
ghost use Rattle.std.specs.Prelude.{◌≡◌, ◌+◌, ◌<◌, ◌≤◌, true, false, length, slice_set, replicate, option_map, IfOk, IfErr};
ghost use Rattle.blocks.specs.Ranges.{is_between};
ghost use Rattle.bitmap.specs.Marks.{count, count_in, first_marked, marked, marking, IsWords};
ghost use Rattle.blocks.specs.declared.block.TheConstants.{MAX_DEVICE_BLOCKS};
ghost use Rattle.blocks.specs.declared.refusal.Refusal.TheVariants.{NoMemory};

use crate::full::{fill_counts, fill_words};
use blocks::{Block, EXTENT_BLOCKS, Extent, Range, Refusal};
use std::alloc::Global;
use std::marker::Model;

/// Blocks per word.
pub(crate) const WORD_BLOCKS: u64 = 64;

/// The marked blocks of a device (DRBD's quick-sync bitmap). Proofs see a `bool` for each block.
///
/// It has its full size from the start, a bit for each block and a count for each extent: 264 MiB for a device of 8 TiB.
/// Only `from_marks`, `unmarked` and `copy` take memory.
///
/// `is_marked`, `clear`, `len` and the counts take constant time, and `mark` at most 32 steps. `first_from` passes over
/// an extent without marks, and over 64 blocks without marks, in one step, and over all that `skip_unmarked` has passed
/// in none. `unmarked`, `copy` and `mark_all` take a step for each 64 blocks, and `from_marks` one for each block.
#[derive(Drop)]
pub struct Bitmap {
    blocks: u64,
    words: Vec<u64>,
    counts: Vec<u32>,
    total: u32,
    // No block below this one is marked, so that a search begins here.
    cursor: u64,
}

impl Model for Bitmap {
    ghost use Rattle.std.specs.Prelude.{List, Bool};

    ghost Value = { List Bool };

    ghost use Rattle.bitmap.specs.Fields.{marks_of, AreCounted};

    ghost view = { λ b. marks_of b.blocks b.words.items };

    ghost invariant = { λ b. AreCounted b.blocks b.words.items b.counts.items b.total b.cursor };
}

impl Bitmap {
    /// Returns the bitmap of a device with these marks, one for each block. There are at most `MAX_DEVICE_BLOCKS`.
    ///
    /// `NoMemory` (7) if there is no memory.
    pub fn from_marks(alloc: Global, marks: &[bool]) -> Result<Bitmap, Refusal>
        requires { length marks.now ≤ MAX_DEVICE_BLOCKS }
        ensures made { IfOk result (λ bitmap. bitmap ≡ marks.now) }
        ensures refused { IfErr result (λ e. e ≡ NoMemory) }
    {
        let mut bitmap = Bitmap::unmarked(alloc, marks.len() as u64)?;
        for (block, mark) in marks.iter().enumerate() {
            if *mark {
                bitmap.set(block as u64, true);
            }
        }
        Ok(bitmap)
    }

    /// Returns the bitmap of a device of this many blocks, at most `MAX_DEVICE_BLOCKS`. None of them is marked.
    ///
    /// `NoMemory` (7) if there is no memory.
    pub fn unmarked(alloc: Global, blocks: u64) -> Result<Bitmap, Refusal>
        requires { blocks ≤ MAX_DEVICE_BLOCKS }
        ensures made { IfOk result (λ bitmap. bitmap ≡ replicate blocks false) }
        ensures refused { IfErr result (λ e. e ≡ NoMemory) }
    {
        let words = vec![in alloc; 0u64; blocks.div_ceil(WORD_BLOCKS) as usize]?;
        let counts = vec![in alloc; 0u32; blocks.div_ceil(EXTENT_BLOCKS) as usize]?;
        Ok(Bitmap {
            blocks,
            words,
            counts,
            total: 0,
            cursor: 0,
        })
    }

    /// Returns a bitmap with the same marks.
    ///
    /// `NoMemory` (7) if there is no memory.
    pub fn copy(&self, alloc: Global) -> Result<Bitmap, Refusal>
        ensures made { IfOk result (λ bitmap. bitmap ≡ self.now) }
        ensures refused { IfErr result (λ e. e ≡ NoMemory) }
    {
        let words = self.words.to_vec(alloc)?;
        let counts = self.counts.to_vec(alloc)?;
        Ok(Bitmap {
            blocks: self.blocks,
            words,
            counts,
            total: self.total,
            cursor: self.cursor,
        })
    }

    /// Returns how many blocks the device has.
    pub fn len(&self) -> u64
        ensures { result ≡ length self.now }
    {
        self.blocks
    }

    /// Marks the blocks of a range, which lie inside the device. It takes no memory.
    pub fn mark(&mut self, range: Range)
        requires { range.first.0 + range.count ≤ length self.old }
        ensures { self.new ≡ marking (is_between range.first.0 range.count) self.old }
    {
        self.mark_span(range.first.0, range.count);
    }

    /// Marks every block. It takes no memory.
    pub fn mark_all(&mut self)
        ensures { self.new ≡ replicate (length self.old) true }
    {
        fill_words(&mut self.words, self.blocks);
        fill_counts(&mut self.counts, self.blocks);
        self.total = self.blocks as u32;
        self.cursor = 0;
    }

    /// Clears the mark of the block, which lies inside the device. It takes no memory.
    pub fn clear(&mut self, block: Block)
        requires { block.0 < length self.old }
        ensures { self.new ≡ slice_set self.old block.0 false }
    {
        self.set(block.0, false);
    }

    /// Returns whether the block is marked. No block past the device's end is.
    pub fn is_marked(&self, block: Block) -> bool
        ensures { result ≡ marked self.now block.0 }
    {
        block.0 < self.blocks
            && self.words[(block.0 / WORD_BLOCKS) as usize] >> (block.0 % WORD_BLOCKS) & 1 == 1
    }

    /// Passes over the blocks below the lowest marked one, so that later searches begin there. It changes no mark.
    ///
    /// A caller that takes marks away in order, as a resync does, calls it before `first_from`. Each search then takes
    /// constant time, whatever the device's size: over the whole resync, the device is gone over once. A mark that is
    /// made below the cursor takes it back to that block.
    pub fn skip_unmarked(&mut self)
        ensures { self.new ≡ self.old }
    {
        self.cursor = match self.first_from(Block(self.cursor)) {
            Some(block) => block.0,
            None => self.blocks,
        };
    }

    /// Returns the first marked block from this one on.
    pub fn first_from(&self, from: Block) -> Option<Block>
        ensures { option_map (λ b. b.0) result ≡ first_marked from.0 self.now }
    {
        let mut block = from.0.max(self.cursor);
        while block < self.blocks {
            if self.counts[(block / EXTENT_BLOCKS) as usize] == 0 {
                block = (block / EXTENT_BLOCKS + 1) * EXTENT_BLOCKS;
            } else if self.words[(block / WORD_BLOCKS) as usize] == 0 {
                block = (block / WORD_BLOCKS + 1) * WORD_BLOCKS;
            } else if self.is_marked(Block(block)) {
                return Some(Block(block));
            } else {
                block += 1;
            }
        }
        None
    }

    /// Returns how many blocks are marked.
    pub fn count(&self) -> u32
        ensures { result ≡ count self.now }
    {
        self.total
    }

    /// Returns how many blocks of the extent are marked: none of an extent past the device's end.
    pub fn count_in(&self, extent: Extent) -> u32
        ensures { result ≡ count_in self.now extent.0 }
    {
        self.counts.get(extent.0 as usize).copied().unwrap_or(0)
    }

    /// Returns the marks, 64 to a word: block `b` is bit `b % 64` of word `b / 64`, and the rest of the last word is
    /// zero.
    pub fn words(&self) -> &[u64]
        ensures { IsWords result.now self.now }
    {
        &self.words
    }

    // Marks the `count` blocks from `first` on.
    fn mark_span(&mut self, first: u64, count: u64)
        requires { first + count ≤ length self.old }
        ensures { self.new ≡ marking (is_between first count) self.old }
    {
        prove!(first <= self.blocks && count <= self.blocks - first);
        for block in first..first + count {
            self.set(block, true);
        }
    }

    // Sets the block's mark, or clears it.
    fn set(&mut self, block: u64, mark: bool)
        requires { block < length self.old }
        ensures { self.new ≡ slice_set self.old block mark }
    {
        if self.is_marked(Block(block)) == mark {
            return;
        }
        let extent = (block / EXTENT_BLOCKS) as usize;
        self.words[(block / WORD_BLOCKS) as usize] ^= 1 << (block % WORD_BLOCKS);
        if mark {
            self.counts[extent] += 1;
            self.total += 1;
            self.cursor = self.cursor.min(block);
        } else {
            self.counts[extent] -= 1;
            self.total -= 1;
        }
    }
}
