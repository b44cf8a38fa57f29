//! A file of the operating system, as a `StableFile`.
ghost use Rattle.std.specs.Prelude.{◌≡◌, ◌+◌, [], ℕ, List, length};
ghost use Rattle.metadata.specs.Events.{replay, may_leave_of, LeftSince};

use crate::{FileFault, RawFile, Record, StableFile};
use blocks::GhostCount;
use std::io;
use std::marker::PhantomData;

/// What the file held when it was opened. Nothing but proofs can name it: a function over `X: OpeningBytes` does the same whatever
/// the file held, and its contract is of them all.
pub trait OpeningBytes: Drop {
    ghost bytes: { List ℕ };
}

/// The bytes that a program names, since it has to name some.
#[derive(Drop)]
pub struct AnyBytes;

impl OpeningBytes for AnyBytes {
    ghost bytes = { [] };
}

// The kinds of a note.
const WRITTEN: u64 = 0;

const WRITE_FAILED: u64 = 1;

const READ: u64 = 2;

const RESIZED: u64 = 3;

const RESIZE_FAILED: u64 = 4;

const SYNCED: u64 = 5;

const MEASURED: u64 = 6;

/// A metadata file over a file of the operating system.
///
/// For proofs it holds what `X` says that the file held when it was opened, with all that was written since, and is faithful as
/// long as the file gave just that. A record of the calls, which takes no byte of the running program, says so. What the disk has
/// is not known before the first sync. After a sync that failed each further one fails, since the system may have dropped what was
/// written.
#[derive(Drop)]
pub struct MetadataFile<R: RawFile, X: OpeningBytes> {
    file: R,
    opening: PhantomData<X>,
    calls: Record,
    faults: GhostCount,
    may_sync: bool,
}

impl<R: RawFile, X: OpeningBytes> MetadataFile<R, X> {
    ghost use Rattle.metadata.specs.Files.{IsFresh};

    /// Returns the file as metadata sees it, before any call. Takes no memory.
    pub fn over(file: R) -> MetadataFile<R, X>
        ensures { IsFresh result }
    {
        MetadataFile {
            file,
            opening: PhantomData,
            calls: Record::new(),
            faults: GhostCount::new(),
            may_sync: true,
        }
    }

    /// Returns the file of the operating system.
    pub fn into_raw(self) -> R {
        let MetadataFile {
            file,
            opening: _,
            calls: _,
            faults: _,
            may_sync: _,
        } = self;
        file
    }

    // Counts a call that failed, and returns why.
    fn fault(&mut self, error: io::Error) -> FileFault
        ensures same { self.new.calls ≡ self.old.calls }
        ensures counted { self.new.faults.count ≡ self.old.faults.count + 1 }
    {
        self.faults = self.faults.more();
        if error.kind() == io::ErrorKind::StorageFull {
            FileFault::Full
        } else {
            FileFault::Failed
        }
    }
}

impl<R: RawFile, X: OpeningBytes> StableFile for MetadataFile<R, X> {
    ghost use Rattle.metadata.specs.FileLaws.{counts_now, only_now};

    ghost seen = { λ f. (replay X.OpeningBytes.bytes f.calls.events).seen };

    ghost may_leave = { λ f. may_leave_of (replay X.OpeningBytes.bytes f.calls.events) };

    ghost moment = { λ f. length f.calls.events };

    ghost left_since = { λ f. LeftSince X.OpeningBytes.bytes f.calls.events };

    ghost faults = { λ f. f.faults.count };

    ghost faithful = { λ f. (replay X.OpeningBytes.bytes f.calls.events).faithful };

    ghost counts_now = { λ f. counts_now X.OpeningBytes.bytes f.calls.events };

    ghost only_now = { λ f. only_now X.OpeningBytes.bytes f.calls.events };

    fn len(&mut self) -> Result<u64, FileFault> {
        match self.file.len() {
            Ok(len) => {
                self.calls.note(&[MEASURED, len], &[]);
                Ok(len)
            }
            Err(error) => Err(self.fault(error)),
        }
    }

    fn read_at(&mut self, at: u64, buffer: &mut [u8]) -> Result<(), FileFault> {
        match self.file.read_exact_at(at, buffer) {
            Ok(()) => {
                self.calls.note(&[READ, at], buffer);
                Ok(())
            }
            Err(error) => Err(self.fault(error)),
        }
    }

    fn write_at(&mut self, at: u64, bytes: &[u8]) -> Result<(), FileFault> {
        match self.file.write_all_at(at, bytes) {
            Ok(()) => {
                self.calls.note(&[WRITTEN, at], bytes);
                Ok(())
            }
            Err(error) => {
                self.calls.note(&[WRITE_FAILED, at], bytes);
                Err(self.fault(error))
            }
        }
    }

    fn set_len(&mut self, len: u64) -> Result<(), FileFault> {
        match self.file.set_len(len) {
            Ok(()) => {
                self.calls.note(&[RESIZED, len], &[]);
                Ok(())
            }
            Err(error) => {
                self.calls.note(&[RESIZE_FAILED, len], &[]);
                Err(self.fault(error))
            }
        }
    }

    fn sync(&mut self) -> Result<(), FileFault> {
        if !self.may_sync {
            self.faults = self.faults.more();
            return Err(FileFault::Failed);
        }
        match self.file.sync() {
            Ok(()) => {
                self.calls.note(&[SYNCED, 0], &[]);
                Ok(())
            }
            Err(error) => {
                self.may_sync = false;
                Err(self.fault(error))
            }
        }
    }
}

// It owns a file and nothing of `X`.
unsafe impl<R: RawFile + Send, X: OpeningBytes> Send for MetadataFile<R, X> {}
