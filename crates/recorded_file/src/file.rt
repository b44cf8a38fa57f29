//! A file whose calls are on record.
ghost use Rattle.std.specs.Prelude.{◌≡◌, ◌*◌, ◌<◌, ◌∷◌, [], IfOk, OnErr, OnOk, Ok, true, false};
ghost use Rattle.recorded_file.specs.Calls.{given, written};

use crate::OpenedFile;
use crate::holes::Holes;
use crate::record::Record;
use blocks::{BLOCK_BYTES, Block, are_zeros};
use std::io;
use std::marker::Model;
use std::os::unix::fs::FileExt;

/// The kind of a note: the file took these bytes.
const WRITTEN: u64 = 0;

/// The kind of a note: the file gave these bytes.
const GIVEN: u64 = 1;

/// A file of blocks of 4,096 bytes. Each call that it took is on a record, which takes no byte of the running program and is there for
/// clauses; nothing else writes to the file, and nothing else puts a call on the record.
///
/// The system's calls promise nothing to a proof. So that each note below stands behind the call that it tells of, with the same place
/// and the same bytes, is to be read here, and nowhere else. Where the file gives what it is to hold, and has no data there, a write
/// needs no call.
#[derive(Drop)]
pub struct RecordedFile<F> {
    file: F,
    holes: Holes,
    name: Record,
    record: Record,
}

impl<F> Model for RecordedFile<F> {
    ghost use Rattle.recorded_file.specs.Calls.{FileCalls, path_in};

    ghost Value = { FileCalls };

    ghost view = { λ f. record { path = path_in f.name.events; events = f.record.events } };
}

impl<F: FileExt> RecordedFile<F> {
    /// Puts a file on record, from now on. Whatever is read and written at offsets will do. Takes no memory.
    pub fn over(opened: OpenedFile<F>) -> RecordedFile<F>
        ensures path { result.path ≡ opened.path }
        ensures none { result.events ≡ [] }
    {
        let OpenedFile { file, holes, name } = opened;
        RecordedFile {
            file,
            holes,
            name,
            record: Record::new(),
        }
    }

    /// Writes these bytes from the block `first` on. The system's error if it does not take all of them: then it may have taken some.
    /// Zeros for a place where the file has no data are not written, since a read gives them there already: so a sparse file stays
    /// sparse.
    pub fn write(&mut self, first: Block, bytes: &[u8]) -> io::Result<()>
        requires { first.0 < 4294967296 }
        ensures taken { OnOk result (self.new.events ≡ written first.0 bytes.now ∷ self.old.events) }
        ensures same { OnErr result (self.new.events ≡ self.old.events) }
        ensures path { self.new.path ≡ self.old.path }
    {
        if !self.is_hole_for(position(first), bytes) {
            self.file.write_all_at(bytes, position(first))?;
        }
        self.record.note(&[WRITTEN, first.0], bytes);
        Ok(())
    }

    /// Fills the buffer with the bytes from the block `first` on. The system's error if it does not give all of them.
    pub fn read(&mut self, first: Block, buffer: &mut [u8]) -> io::Result<()>
        requires { first.0 < 4294967296 }
        ensures given { OnOk result (self.new.events ≡ given first.0 buffer.new ∷ self.old.events) }
        ensures same { OnErr result (self.new.events ≡ self.old.events) }
        ensures path { self.new.path ≡ self.old.path }
    {
        self.file.read_exact_at(buffer, position(first))?;
        self.record.note(&[GIVEN, first.0], buffer);
        Ok(())
    }

    /// Reads back into `found` what a write of `bytes` that failed has left from the block `first` on, and returns whether it is just
    /// these bytes. If so, the file counts as having taken them. The system's error if they cannot be read.
    pub fn read_back(&mut self, first: Block, bytes: &[u8], found: &mut [u8]) -> io::Result<bool>
        requires { first.0 < 4294967296 }
        ensures taken { result ≡ Ok true → self.new.events ≡ written first.0 bytes.now ∷ self.old.events }
        ensures other { result ≡ Ok false → self.new.events ≡ self.old.events }
        ensures same { OnErr result (self.new.events ≡ self.old.events) }
        ensures path { self.new.path ≡ self.old.path }
    {
        self.file.read_exact_at(found, position(first))?;
        if *found != *bytes {
            return Ok(false);
        }
        self.record.note(&[WRITTEN, first.0], bytes);
        Ok(true)
    }

    // Returns whether these are zeros, which the file gives at this offset although it has no data there. That it gives them is seen
    // by reading: what a file system says of its holes only tells where that touches no disk.
    fn is_hole_for(&self, offset: u64, bytes: &[u8]) -> bool {
        // What costs least comes first: bytes that are no zeros mostly tell so at their front, and the file system is asked for none.
        are_zeros(bytes) && self.holes.has(offset) && self.gives_zeros(offset, bytes.len())
    }

    // Returns whether the file gives `length` zeros from this offset on.
    fn gives_zeros(&self, offset: u64, length: usize) -> bool {
        let mut found = [0; BLOCK_BYTES];
        for at in (0..length).step_by(BLOCK_BYTES) {
            if self
                .file
                .read_exact_at(&mut found, offset.saturating_add(at as u64))
                .is_err()
                || !are_zeros(&found)
            {
                return false;
            }
        }
        true
    }
}

/// Returns where a block of a device begins in its image, in bytes.
fn position(block: Block) -> u64
    requires { block.0 < 4294967296 }
    ensures { result ≡ block.0 * 4096 }
{
    block.0 * BLOCK_BYTES as u64
}
