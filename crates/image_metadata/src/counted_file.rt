//! A metadata file whose writes are counted by their place.
use metadata::{MAX_EXTENTS, RawFile};
use std::alloc::{AllocError, Global};
use std::fs::File;
use std::io;
use std::sync::Arc;
use std::sync::atomic::{AtomicU64, Ordering};

/// Where the entries of the extents begin in a metadata file, in bytes (docs/FORMATS.md, "Metadata files").
pub const ENTRIES_AT: u64 = 4096;

/// Where the marks of the blocks begin.
pub const MARKS_AT: u64 = ENTRIES_AT + MAX_EXTENTS;

/// How many writes the parts of a metadata file got.
#[derive(Drop)]
pub struct WriteCounts {
    /// Those to the entries of the active extents.
    pub activity_log: Arc<AtomicU64, Global>,
    /// Those to the marks of the blocks.
    pub bitmap: Arc<AtomicU64, Global>,
}

impl WriteCounts {
    /// Returns counts of no write. `AllocError` if there is no memory.
    pub fn new(alloc: Global) -> Result<WriteCounts, AllocError> {
        Ok(WriteCounts {
            activity_log: counter(alloc)?,
            bitmap: counter(alloc)?,
        })
    }

    /// Returns the same counts under a further handle. `AllocError` if there are too many handles.
    pub fn share(&self) -> Result<WriteCounts, AllocError> {
        Ok(WriteCounts {
            activity_log: Arc::try_clone(&self.activity_log)?,
            bitmap: Arc::try_clone(&self.bitmap)?,
        })
    }

    // Counts a write at this byte of the file. The header and the identifiers stand before both parts.
    fn note(&self, at: u64) {
        if at >= MARKS_AT {
            self.bitmap.fetch_add(1, Ordering::SeqCst);
        } else if at >= ENTRIES_AT {
            self.activity_log.fetch_add(1, Ordering::SeqCst);
        }
    }
}

// Returns a counter at 0.
fn counter(alloc: Global) -> Result<Arc<AtomicU64, Global>, AllocError> {
    match Arc::new(alloc, AtomicU64::new(0)) {
        Ok(counter) => Ok(counter),
        Err(_) => Err(AllocError {}),
    }
}

/// A metadata file of the operating system, whose writes are counted if somebody asks for that.
#[derive(Drop)]
pub struct CountedFile {
    pub(crate) file: File,
    counts: Option<WriteCounts>,
}

impl CountedFile {
    /// Returns the file, with its writes counted by these if they are given.
    pub fn new(file: File, counts: Option<WriteCounts>) -> CountedFile {
        CountedFile { file, counts }
    }
}

impl RawFile for CountedFile {
    fn len(&mut self) -> io::Result<u64> {
        RawFile::len(&mut self.file)
    }

    fn read_exact_at(&mut self, at: u64, buffer: &mut [u8]) -> io::Result<()> {
        RawFile::read_exact_at(&mut self.file, at, buffer)
    }

    fn write_all_at(&mut self, at: u64, bytes: &[u8]) -> io::Result<()> {
        RawFile::write_all_at(&mut self.file, at, bytes)?;
        if let Some(counts) = &self.counts {
            counts.note(at);
        }
        Ok(())
    }

    fn set_len(&mut self, len: u64) -> io::Result<()> {
        RawFile::set_len(&mut self.file, len)
    }

    fn sync(&mut self) -> io::Result<()> {
        RawFile::sync(&mut self.file)
    }
}
