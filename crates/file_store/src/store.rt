//! The disk over a file.
ghost use Rattle.std.specs.Prelude.{◌≡◌, ◌+◌, ◌*◌, ◌/◌, ◌<◌, ◌≤◌, false, IsTrue, length, slice_get, Some, OnOk, OnErr};
ghost use Rattle.blocks.specs.Contents.{blocks_of, overwritten, AreRead, IsTorn};
ghost use Rattle.blocks.specs.declared.block.TheConstants.{BLOCK_BYTES};
ghost use Rattle.file_store.specs.Events.{replay};
ghost use Rattle.file_store.specs.declared.remains.Remains.TheVariants.{New, Old, Mixed};

use crate::OpeningContents;
use crate::remains::{Remains, remains_of};
use blocks::{BLOCK_BYTES, Block, GhostCount, Range, Store, StoreFault};
use recorded_file::{OpenedFile, RecordedFile};
use std::io;
use std::marker::PhantomData;
use std::os::unix::fs::FileExt;

/// A disk over a file, with no copy in memory. Each write and each read is a call of the file.
///
/// For proofs it holds what `X` says that the image at its path held when it was opened, with all that was written since, and its
/// reads are faithful as long as the file gave just that. The record of the file's calls says so.
#[derive(Drop)]
pub struct FileStore<F, X: OpeningContents> {
    file: RecordedFile<F>,
    blocks: u32,
    opening: PhantomData<X>,
    faults: GhostCount,
    is_torn: bool,
    ghost sized: { length (replay blocks (X.OpeningContents.held file.path) file.events).disk ≡ blocks },
}

impl<F: FileExt, X: OpeningContents> FileStore<F, X> {
    ghost use Rattle.file_store.specs.Stores.{count_of, disk_of, faithful_of, torn_of, IsFresh, IsSameBut};

    /// Creates a disk of `blocks` blocks over a file that holds the image of its path. The file need not be an image: whatever is read and
    /// written at offsets will do. Takes no memory.
    pub fn over(file: OpenedFile<F>, blocks: u32) -> FileStore<F, X>
        ensures blocks { count_of result ≡ blocks }
        ensures fresh { IsFresh file.path result }
        ensures whole { torn_of result ≡ false }
    {
        FileStore {
            file: RecordedFile::over(file),
            blocks,
            opening: PhantomData,
            faults: GhostCount::new(),
            is_torn: false,
        }
    }

    /// Returns whether the file may have kept a part of a block of a write that it refused: the block read back has some, and not all, of
    /// the sectors that it was to have, and is no block of zeros, or it could not be read. It may have had them before. A later write
    /// to the same place does not change the result.
    pub fn is_torn(&self) -> bool
        ensures { result ≡ torn_of self.now }
    {
        self.is_torn
    }

    // Writes these blocks. The system's error if the file does not take all of them.
    fn put(&mut self, first: Block, bytes: &[u8]) -> io::Result<()>
        requires inside { first.0 + length bytes.now / BLOCK_BYTES ≤ self.old.blocks }
        requires below { first.0 < 4294967296 }
        ensures written { OnOk result (disk_of X.OpeningContents.held self.new
            ≡ overwritten (disk_of X.OpeningContents.held self.old) first.0 (blocks_of BLOCK_BYTES bytes.now)) }
        ensures kept { OnErr result (disk_of X.OpeningContents.held self.new
            ≡ disk_of X.OpeningContents.held self.old) }
        ensures faithful { faithful_of X.OpeningContents.held self.new
            ≡ faithful_of X.OpeningContents.held self.old }
        ensures same { IsSameBut self.old self.new }
    {
        self.file.write(first, bytes)
    }

    // Writes a block of a failed write once more, and returns what the file has of it.
    fn put_again(&mut self, block: Block, bytes: &[u8]) -> Remains
        requires inside { block.0 + length bytes.now / BLOCK_BYTES ≤ self.old.blocks }
        requires below { block.0 < 4294967296 }
        ensures new { result ≡ New → disk_of X.OpeningContents.held self.new
            ≡ overwritten (disk_of X.OpeningContents.held self.old) block.0 (blocks_of BLOCK_BYTES bytes.now) }
        ensures old { result ≡ Old → disk_of X.OpeningContents.held self.new
            ≡ disk_of X.OpeningContents.held self.old }
        ensures mixed { result ≡ Mixed → disk_of X.OpeningContents.held self.new
            ≡ disk_of X.OpeningContents.held self.old }
        ensures faithful { faithful_of X.OpeningContents.held self.new
            ≡ faithful_of X.OpeningContents.held self.old }
        ensures same { IsSameBut self.old self.new }
    {
        remains_of(&mut self.file, block, bytes)
    }

    // Finds which blocks of a failed write the file has after all, each tried once more by itself.
    fn find_remains(&mut self, range: Range, bytes: &[u8])
        requires inside { range.first.0 + range.count ≤ self.old.blocks }
        requires whole { length bytes.now ≡ BLOCK_BYTES * range.count }
        ensures torn { IsTorn (disk_of X.OpeningContents.held self.old) range.first.0 (blocks_of BLOCK_BYTES bytes.now)
            (disk_of X.OpeningContents.held self.new) }
        ensures faithful { faithful_of X.OpeningContents.held self.new
            ≡ faithful_of X.OpeningContents.held self.old }
        ensures same { IsSameBut self.old self.new }
    {
        // Every block of the disk has a number below 2^32.
        let _blocks = self.blocks;
        for offset in 0..range.count {
            let at = offset as usize * BLOCK_BYTES;
            let block = Block(range.first.0 + offset);
            let bytes = &bytes[at..at + BLOCK_BYTES];
            match self.put_again(block, bytes) {
                Remains::New => {}
                Remains::Old => {}
                Remains::Mixed => self.is_torn = true,
            }
        }
    }
}

impl<F: FileExt, X: OpeningContents> Store for FileStore<F, X> {
    ghost use Rattle.file_store.specs.Stores.{disk_of, faithful_of};

    ghost contents = { disk_of X.OpeningContents.held };

    ghost faults = { λ s. s.faults.count };

    ghost faithful = { faithful_of X.OpeningContents.held };

    fn blocks(&self) -> u32 {
        self.blocks
    }

    fn write(&mut self, range: Range, bytes: &[u8]) -> Result<(), StoreFault> {
        // Every block of the disk has a number below 2^32.
        let _blocks = self.blocks;
        if self.put(range.first, bytes).is_err() {
            self.find_remains(range, bytes);
            self.faults = self.faults.more();
            return Err(StoreFault);
        }
        Ok(())
    }

    fn read(&mut self, block: Block, buffer: &mut [u8]) -> Result<(), StoreFault> {
        self.read_blocks(block, buffer)
    }

    fn read_blocks(&mut self, first: Block, buffer: &mut [u8]) -> Result<(), StoreFault> {
        // Every block of the disk has a number below 2^32.
        let _blocks = self.blocks;
        if self.file.read(first, buffer).is_err() {
            self.faults = self.faults.more();
            return Err(StoreFault);
        }
        Ok(())
    }
}

// It owns a file and nothing of `X`.
unsafe impl<F: Send, X: OpeningContents> Send for FileStore<F, X> {}
