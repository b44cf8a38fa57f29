//! The loop that copies what the pair must: each write's bytes to the local disk, into a frame, and from
//! there to the peer's disk.
ghost use Rattle.std.specs.Prelude.{◌≡◌, ◌<◌, ◌≤◌, ◌*◌, length, IfOk};

use crate::writes::image::{blank, block_in, put_block};
use crate::writes::workload::{Workload, block_of};
use blocks::{BLOCK_BYTES, Refusal};
use std::alloc::Global;

/// Bytes of the frame of a write of one block, which begins with its numbers.
const FRAME_BYTES: usize = 4128;

/// Both disks, and as many frames as are in flight.
#[derive(Drop)]
pub(crate) struct Copies {
    blocks: u32,
    in_flight: u32,
    local: Vec<u8>,
    frames: Vec<u8>,
    peer: Vec<u8>,
    ghost some: { 0 < blocks },
    ghost flying: { 0 < in_flight },
    ghost whole: { length local.items ≡ blocks * 4096 },
    ghost framed: { length frames.items ≡ in_flight * 4128 },
    ghost whole_peer: { length peer.items ≡ blocks * 4096 },
}

impl Copies {
    /// Makes disks of `blocks` blocks. `NoMemory` (7) if there is no memory for them.
    pub(crate) fn new(alloc: Global, blocks: u32, in_flight: u32) -> Result<Copies, Refusal>
        requires some { 0 < blocks }
        requires flying { 0 < in_flight }
    {
        Ok(Copies {
            blocks,
            in_flight,
            local: blank(alloc, blocks)?,
            frames: Vec::from_elem(alloc, 0u8, in_flight as usize * FRAME_BYTES)?,
            peer: blank(alloc, blocks)?,
        })
    }

    /// Returns the number of blocks of each disk.
    pub(crate) fn blocks(&self) -> u32
        ensures { result ≡ self.now.blocks }
    {
        self.blocks
    }

    /// Copies the bytes of `writes` writes, as many at a time as are in flight.
    pub(crate) fn copy(&mut self, workload: &Workload, writes: u32) {
        for first in (0..writes).step_by(self.in_flight as usize) {
            let end = first.saturating_add(self.in_flight).min(writes);
            for turn in first..end {
                self.write(workload, turn);
            }
            for turn in first..end {
                self.send(workload, turn);
            }
            for turn in first..end {
                self.apply(turn);
            }
        }
    }

    // Copies the write's bytes to the local disk.
    fn write(&mut self, workload: &Workload, turn: u32) {
        let block = block_of(turn, self.blocks);
        put_block(&mut self.local, block, workload.bytes(turn));
    }

    // Copies its bytes into a frame.
    fn send(&mut self, workload: &Workload, turn: u32) {
        let end = (turn % self.in_flight) as usize * FRAME_BYTES + FRAME_BYTES;
        self.frames[end - BLOCK_BYTES..end].copy_from_slice(workload.bytes(turn));
    }

    // Copies the frame's bytes to the peer's disk.
    fn apply(&mut self, turn: u32) {
        let end = (turn % self.in_flight) as usize * FRAME_BYTES + FRAME_BYTES;
        let block = block_of(turn, self.blocks);
        put_block(&mut self.peer, block, &self.frames[end - BLOCK_BYTES..end]);
    }

    /// Returns the bytes of a block of the local disk, and of the peer's.
    pub(crate) fn block(&self, block: u32) -> (&[u8], &[u8])
        requires { block < self.now.blocks }
    {
        (block_in(&self.local, block), block_in(&self.peer, block))
    }
}
