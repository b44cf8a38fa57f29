//! The workload: the bytes and the blocks of writes.
ghost use Rattle.std.specs.Prelude.{◌≡◌, ◌<◌, ◌≤◌, ◌+◌, ◌*◌, length, IfOk};

use blocks::{BLOCK_BYTES, Refusal};
use bytes::Bytes;
use std::alloc::Global;

/// Blocks of the buffer that contents are taken from: 256 MiB, several times what a processor's cache holds.
const SOURCE_BLOCKS: usize = 65_536;

/// The distance from one write's contents to the next one's: odd, so that each block of the buffer has its turn, and
/// far, so that none is fetched ahead.
const SOURCE_STRIDE: usize = 20_011;

/// The distance from one write's block to the next one's: odd, so that each block of the device has its turn.
const DEVICE_STRIDE: u64 = 100_003;

/// The contents of all writes, in one buffer that they share. Each of its blocks begins with its own number.
#[derive(Drop)]
pub(crate) struct Workload {
    source: Bytes,
    ghost size: { length source ≡ 65536 * 4096 },
}

impl Workload {
    /// Makes the buffer. `NoMemory` (7) if there is no memory for it.
    pub(crate) fn new(alloc: Global) -> Result<Workload, Refusal> {
        let mut source = Vec::from_elem(alloc, 0x5Au8, SOURCE_BLOCKS * BLOCK_BYTES)?;
        number_blocks(&mut source);
        Ok(Workload {
            source: Bytes::from_vec(source)?,
        })
    }

    /// Returns where in the buffer the contents of this write begin.
    fn start(turn: u32) -> usize
        ensures { result + 4096 ≤ 65536 * 4096 }
    {
        turn as usize * SOURCE_STRIDE % SOURCE_BLOCKS * BLOCK_BYTES
    }

    /// Returns the bytes of this write, in the buffer.
    pub(crate) fn bytes(&self, turn: u32) -> &[u8]
        ensures { length result.now ≡ 4096 }
    {
        let start = Workload::start(turn);
        &self.source.as_slice()[start..start + BLOCK_BYTES]
    }

    /// Returns the contents of this write, which share the buffer.
    pub(crate) fn contents(&self, turn: u32) -> Result<Bytes, Refusal> {
        let start = Workload::start(turn);
        Ok(self.source.slice(start..start + BLOCK_BYTES)?)
    }
}

/// Puts its own number at the beginning of each block.
fn number_blocks(source: &mut [u8])
    ensures { length source.new ≡ length source.old }
{
    for block in 0..source.len() / BLOCK_BYTES {
        let at = block * BLOCK_BYTES;
        source[at..at + 8].copy_from_slice(&(block as u64).to_be_bytes());
    }
}

/// Returns the block that this write goes to, on a device of `blocks` blocks.
pub(crate) fn block_of(turn: u32, blocks: u32) -> u32
    requires { 0 < blocks }
    ensures { result < blocks }
{
    (u64::from(turn) * DEVICE_STRIDE % u64::from(blocks)) as u32
}
