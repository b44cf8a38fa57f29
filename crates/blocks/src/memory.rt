//! A disk in memory.
ghost use Rattle.std.specs.Prelude.{◌≡◌, ℕ, true, ◌+◌, ◌*◌, ◌/◌, ◌<◌, ◌≤◌, ◌↔◌, ◌++◌, length, take, drop, replicate, vec_len, slice_get, IsOk, IfOk, IfErr};
ghost use Rattle.blocks.specs.Contents.{blocks_of, overwritten};
ghost use Rattle.blocks.specs.Images.{IsImage};
ghost use Rattle.blocks.specs.declared.block.TheConstants.{BLOCK_BYTES};
ghost use Rattle.blocks.specs.declared.refusal.Refusal.TheVariants.{BadSetting, NoMemory};

use crate::{BLOCK_BYTES, Block, MAX_BLOCKS, Range, Refusal, Store, StoreFault};
use std::alloc::Global;
use std::marker::Model;

/// The bytes of a block of zeros.
const ZERO_BLOCK: [u8; BLOCK_BYTES] = [0; BLOCK_BYTES];

/// A disk that is one buffer in memory. Its reads and writes never fail.
#[derive(Drop)]
pub struct MemStore {
    bytes: Vec<u8>,
}

impl Model for MemStore {
    ghost use Rattle.std.specs.Prelude.{ℕ, List};
    ghost use Rattle.blocks.specs.Contents.{blocks_of};
    ghost use Rattle.blocks.specs.Images.{IsImage};

    ghost Value = { List (List ℕ) };

    ghost view = { λ s. blocks_of 4096 s.bytes.items };

    ghost invariant = { λ s. IsImage s.bytes.items };
}

impl MemStore {
    /// Returns a disk of `blocks` blocks, 1 to 262,144, each filled with zeros. `NoMemory` (7) if its buffer cannot
    /// be allocated.
    pub fn zeroed(alloc: Global, blocks: u32) -> Result<MemStore, Refusal>
        requires some { 0 < blocks }
        requires few { blocks ≤ 262144 }
        ensures zeros { IfOk result (λ s. s ≡ replicate blocks (replicate 4096 0)) }
        ensures refused { IfErr result (λ e. e ≡ NoMemory) }
    {
        let mut bytes = Vec::with_capacity(alloc, blocks as usize * BLOCK_BYTES)?;
        // A block at a time: without optimization a byte at a time takes a second for each 3,000 blocks.
        for _block in 0..blocks {
            bytes.extend_from_slice(&ZERO_BLOCK)?;
        }
        Ok(MemStore { bytes })
    }

    /// Returns the disk that an image holds. `BadSetting` (15) if the image is not 1 to 262,144 whole blocks; then it
    /// is dropped. It takes no memory.
    pub fn from_image(image: Vec<u8>) -> Result<MemStore, Refusal>
        ensures accepted { IsOk result ↔ IsImage image.items }
        ensures contents { IfOk result (λ s. s ≡ blocks_of 4096 image.items) }
        ensures refused { IfErr result (λ e. e ≡ BadSetting) }
    {
        let len = image.len();
        if len == 0 || len % BLOCK_BYTES != 0 || len / BLOCK_BYTES > MAX_BLOCKS as usize {
            return Err(Refusal::BadSetting);
        }
        Ok(MemStore { bytes: image })
    }
}

impl MemStore {
    /// Returns the bytes of a block, in the disk's buffer.
    pub fn block(&self, block: Block) -> &[u8]
        requires inside { block.0 < length self.now }
        ensures { slice_get self.now block.0 ≡ Some result.now }
    {
        let bytes = self.bytes.as_slice();
        let at = block.0 as usize * BLOCK_BYTES;
        &bytes[at..at + BLOCK_BYTES]
    }

    /// Writes whole blocks from this one on.
    pub(crate) fn overwrite(&mut self, first: Block, bytes: &[u8])
        requires inside { first.0 + length bytes.now / 4096 ≤ length self.old }
        requires whole { 4096 * (length bytes.now / 4096) ≡ length bytes.now }
        ensures { self.new ≡ overwritten self.old first.0 (blocks_of 4096 bytes.now) }
    {
        put(&mut self.bytes, first.0 as usize * BLOCK_BYTES, bytes);
    }
}

impl Store for MemStore {
    ghost contents = { λ s. s };

    ghost faults = { λ _. 0 };

    ghost steady = { λ _. true };

    fn blocks(&self) -> u32 {
        (self.bytes.as_slice().len() / BLOCK_BYTES) as u32
    }

    fn write(&mut self, range: Range, bytes: &[u8]) -> Result<(), StoreFault>
        requires inside { range.first.0 + range.count ≤ length self.old }
        requires whole { length bytes.now ≡ BLOCK_BYTES * range.count }
        ensures works { IsOk result }
        ensures written { self.new ≡ overwritten self.old range.first.0 (blocks_of BLOCK_BYTES bytes.now) }
        ensures size { length self.new ≡ length self.old }
    {
        self.overwrite(range.first, bytes);
        Ok(())
    }

    fn read(&mut self, block: Block, buffer: &mut [u8]) -> Result<(), StoreFault>
        requires inside { block.0 < length self.old }
        requires whole { length buffer.old ≡ BLOCK_BYTES }
        ensures works { IsOk result }
        ensures read { slice_get self.old block.0 ≡ Some buffer.new }
        ensures same { self.new ≡ self.old }
    {
        get(&self.bytes, block.0 as usize * BLOCK_BYTES, buffer);
        Ok(())
    }
}

/// Overwrites the buffer with these bytes, from `at` on.
fn put(buffer: &mut [u8], at: usize, bytes: &[u8])
    requires { at + length bytes.now ≤ length buffer.old }
    ensures { buffer.new ≡ take at buffer.old ++ bytes.now ++ drop (at + length bytes.now) buffer.old }
{
    buffer[at..at + bytes.len()].copy_from_slice(bytes);
}

/// Fills the buffer with the bytes from `at` on.
fn get(bytes: &[u8], at: usize, buffer: &mut [u8])
    requires { at + length buffer.old ≤ length bytes.now }
    ensures { buffer.new ≡ take (length buffer.old) (drop at bytes.now) }
{
    buffer.copy_from_slice(&bytes[at..at + buffer.len()]);
}
