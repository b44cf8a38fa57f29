//! The interface of a disk.
ghost use Rattle.std.specs.Prelude.{◌≡◌, ℕ, ◌+◌, ◌*◌, ◌/◌, ◌<◌, ◌≤◌, Bool, true, false, IsTrue, List, length, slice_get, IsOk, OnOk, OnErr};
ghost use Rattle.blocks.specs.Contents.{AreRead, blocks_of, overwritten, IsTorn};
ghost use Rattle.blocks.specs.declared.block.TheConstants.{BLOCK_BYTES};

use crate::{BLOCK_BYTES, Block, Range};
use std::fmt;

/// The failure of a disk in a call.
#[derive(Clone, Copy, Debug, PartialEq, Eq)]
pub struct StoreFault;

impl fmt::Display for StoreFault {
    fn fmt<W: fmt::Write>(&self, f: &mut fmt::Formatter<W>) -> fmt::Result {
        f.write_str("the disk failed")
    }
}

/// A node's disk: a sequence of blocks of 4,096 bytes. It keeps what was written, and only its own calls change it.
pub trait Store {
    /// What it holds, block by block.
    ghost contents: { Self → List (List ℕ) };

    /// How many of its calls have failed.
    ghost faults: { Self → ℕ };

    /// Whether it is known that its calls do not fail, and that each read gives what it holds.
    ghost steady: { Self → Bool } = { λ _. false };

    /// Whether each read so far gave what it held. It falls at a read that gave anything else, which no code can tell,
    /// and never rises.
    ghost faithful: { Self → Bool } = { λ _. true };

    /// Returns how many blocks it has.
    fn blocks(&self) -> u32
        ensures { result ≡ length (contents self.now) };

    /// Writes the bytes to the blocks of the range, and changes no other. A fault leaves each block of the range with
    /// its old bytes or its new ones. It takes no memory.
    fn write(&mut self, range: Range, bytes: &[u8]) -> Result<(), StoreFault>
        requires inside { range.first.0 + range.count ≤ length (contents self.old) }
        requires whole { length bytes.now ≡ BLOCK_BYTES * range.count }

        ensures written { OnOk result (contents self.new
            ≡ overwritten (contents self.old) range.first.0 (blocks_of BLOCK_BYTES bytes.now)) }
        ensures torn { OnErr result (IsTorn (contents self.old) range.first.0
            (blocks_of BLOCK_BYTES bytes.now) (contents self.new)) }
        ensures size { length (contents self.new) ≡ length (contents self.old) }

        // A steady disk does not fail, and stays steady.
        ensures works { steady self.old ≡ true → IsOk result }
        ensures still_steady { steady self.old ≡ true → steady self.new ≡ true }

        // It reads nothing.
        ensures still_faithful { faithful self.new ≡ faithful self.old }

        // Only a call that fails is counted.
        ensures uncounted { OnOk result (faults self.new ≡ faults self.old) }
        ensures counted { OnErr result (faults self.old < faults self.new) };

    /// Reads a block: what the disk holds there, if it is faithful afterwards. After a fault the buffer holds nothing of
    /// use. It changes no block, and takes no memory.
    fn read(&mut self, block: Block, buffer: &mut [u8]) -> Result<(), StoreFault>
        requires inside { block.0 < length (contents self.old) }
        requires whole { length buffer.old ≡ BLOCK_BYTES }

        ensures read { OnOk result (IsTrue (faithful self.new) → slice_get (contents self.old) block.0 ≡ Some buffer.new) }
        ensures falls { IsTrue (faithful self.new) → IsTrue (faithful self.old) }
        ensures same { contents self.new ≡ contents self.old }

        ensures works { steady self.old ≡ true → IsOk result }
        ensures still_steady { steady self.old ≡ true → steady self.new ≡ true }
        ensures sure { steady self.old ≡ true → faithful self.new ≡ faithful self.old }

        ensures uncounted { OnOk result (faults self.new ≡ faults self.old) }
        ensures counted { OnErr result (faults self.old < faults self.new) };

    /// Reads as many blocks as the buffer holds, from block `first` on, as `read` reads each of them. A disk that can read
    /// many blocks in one call does so here.
    fn read_blocks(&mut self, first: Block, buffer: &mut [u8]) -> Result<(), StoreFault>
        requires inside { first.0 + length buffer.old / BLOCK_BYTES ≤ length (contents self.old) }
        requires whole { BLOCK_BYTES * (length buffer.old / BLOCK_BYTES) ≡ length buffer.old }

        ensures read { OnOk result (IsTrue (faithful self.new) → AreRead (contents self.old) first.0 buffer.new (length buffer.old / BLOCK_BYTES)) }
        ensures falls { IsTrue (faithful self.new) → IsTrue (faithful self.old) }
        ensures same { contents self.new ≡ contents self.old }

        ensures works { steady self.old ≡ true → IsOk result }
        ensures still_steady { steady self.old ≡ true → steady self.new ≡ true }
        ensures sure { steady self.old ≡ true → faithful self.new ≡ faithful self.old }

        ensures uncounted { OnOk result (faults self.new ≡ faults self.old) }
        ensures counted { OnErr result (faults self.old < faults self.new) }
    {
        // Every block of the disk has a number below 2^32.
        let _blocks = self.blocks();
        for offset in 0..buffer.len() / BLOCK_BYTES {
            let at = offset * BLOCK_BYTES;
            let block = Block(first.0 + offset as u64);
            self.read(block, &mut buffer[at..at + BLOCK_BYTES])?;
        }
        Ok(())
    }
}
