//! The blocks of the last epoch's items.
ghost use Rattle.std.specs.Prelude.{◌≡◌, ◌+◌, ◌≤◌, length, IfOk, IfErr};
ghost use Rattle.peerdisk.specs.Blocks.{adding, has_any, none_of};
ghost use Rattle.blocks.specs.declared.refusal.Refusal.TheVariants.{NoMemory};

use crate::words::{EXTENT_WORDS, clear_extent, has_bit, set_bits};
use blocks::{EXTENT_BLOCKS, Range, Refusal};
use std::alloc::Global;
use std::marker::Model;

/// The blocks of a device that the items of the last epoch cover: a bit for each block, and for each extent the number
/// of the last epoch whose items covered some of it. The bits of an extent count only if that is the last epoch, so an
/// epoch begins without a pass over them.
///
/// It has its full size from the start: 264 MiB for a device of 8 TiB. Only `new` takes memory. `has_any` takes a step
/// for each block of its range, and `add` too, and 16 steps more if it is the first of its epoch in the extent.
/// `begin` takes constant time, except once in four billion epochs, where it takes a step for each extent.
#[derive(Drop)]
pub struct LastEpoch {
    blocks: u32,
    words: Vec<u64>,
    stamps: Vec<u32>,
    // A number of its own, not the epoch's number in a stream: it rises from one connection to the next too.
    epoch: u32,
}

impl Model for LastEpoch {
    ghost use Rattle.std.specs.Prelude.{List, Bool};
    ghost use Rattle.peerdisk.specs.Stamped.{covered, AreStamped};

    ghost Value = { List Bool };

    ghost view = { λ e. covered e.blocks e.epoch e.stamps.items e.words.items };

    ghost invariant = { λ e. AreStamped e.blocks e.epoch e.stamps.items e.words.items };
}

impl LastEpoch {
    /// Returns a last epoch without items, for a device of `blocks` blocks. `NoMemory` (7) if there is no memory; no
    /// later call takes memory.
    pub fn new(alloc: Global, blocks: u32) -> Result<LastEpoch, Refusal>
        ensures empty { IfOk result (λ e. e ≡ none_of blocks) }
        ensures refused { IfErr result (λ e. e ≡ NoMemory) }
    {
        let extents = u64::from(blocks).div_ceil(EXTENT_BLOCKS) as usize;
        let words = vec![in alloc; 0u64; extents * EXTENT_WORDS]?;
        let stamps = vec![in alloc; 0u32; extents]?;
        Ok(LastEpoch {
            blocks,
            words,
            stamps,
            epoch: 1,
        })
    }

    /// Returns whether an item of the epoch covers one of these blocks.
    pub fn has_any(&self, range: Range) -> bool
        requires { range.first.0 + range.count ≤ length self.now }
        ensures { result ≡ has_any range.first.0 range.count self.now }
    {
        let extent = range.first.extent().0 as usize;
        self.stamps[extent] == self.epoch && has_bit(&self.words, range)
    }

    /// Adds the blocks of an item of the epoch.
    pub fn add(&mut self, range: Range)
        requires { range.first.0 + range.count ≤ length self.old }
        ensures { self.new ≡ adding range.first.0 range.count self.old }
    {
        let extent = range.first.extent().0 as usize;
        if self.stamps[extent] != self.epoch {
            // Its bits are those of an older epoch.
            clear_extent(&mut self.words, extent);
            self.stamps[extent] = self.epoch;
        }
        set_bits(&mut self.words, range);
    }

    /// Begins the next epoch, with no item yet.
    pub fn begin(&mut self)
        ensures { self.new ≡ none_of (length self.old) }
    {
        if self.epoch == u32::MAX {
            self.stamps.fill(0);
            self.epoch = 0;
        }
        self.epoch += 1;
    }
}
