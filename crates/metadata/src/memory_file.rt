//! A file in memory, for tests.
use crate::RawFile;
use std::alloc::{AllocError, Global};
use std::collections::BTreeMap;
use std::io;

/// A file's bytes, kept where they are not zero.
#[derive(Drop)]
pub struct SparseBytes {
    len: u64,
    // The bytes that are not zero, by their offsets.
    set: BTreeMap<u64, u8>,
}

impl SparseBytes {
    /// Returns the bytes of an empty file. Takes no memory.
    pub fn new(alloc: Global) -> SparseBytes {
        SparseBytes {
            len: 0,
            set: BTreeMap::new(alloc),
        }
    }

    /// Returns how many bytes there are.
    pub fn len(&self) -> u64 {
        self.len
    }

    /// Returns how many of them are not zero.
    pub fn count_set(&self) -> usize {
        self.set.len()
    }

    /// Returns the byte at an offset, or 0 past the end.
    pub fn get(&self, at: u64) -> u8 {
        self.set.get(&at).copied().unwrap_or(0)
    }

    /// Puts a byte, past the end too. An error if there is no memory.
    pub fn put(&mut self, at: u64, byte: u8) -> Result<(), AllocError> {
        if byte == 0 {
            self.set.remove(&at);
        } else {
            self.set.insert(at, byte)?;
        }
        self.len = self.len.max(at.saturating_add(1));
        Ok(())
    }

    /// Cuts the file, or fills it up with zeros.
    pub fn set_len(&mut self, len: u64) {
        self.set.retain(|at, _| *at < len);
        self.len = len;
    }

    /// Returns the same bytes. An error if there is no memory.
    pub fn copy(&self) -> Result<SparseBytes, AllocError> {
        Ok(SparseBytes {
            len: self.len,
            set: self.set.clone()?,
        })
    }
}

/// A file in memory that fails or stops at a call that a test names, and says what a crash would leave of it. Calls are counted from
/// 1, those that fail too.
#[derive(Drop)]
pub struct MemoryFile {
    alloc: Global,
    bytes: SparseBytes,
    synced: SparseBytes,
    // What has changed since the last sync, the oldest first.
    changes: Vec<Change>,
    calls: u64,
    trouble: Trouble,
}

/// A change that a crash may undo until the next sync.
#[derive(Drop)]
enum Change {
    Write { at: u64, bytes: Vec<u8> },
    Length(u64),
}

/// At which call a file does not do what it is asked.
#[derive(Clone, Copy, Debug, PartialEq, Eq)]
pub enum Trouble {
    /// At none.
    Never,
    /// This call fails and changes nothing; those after it go on.
    FailsAt(u64),
    /// The machine stops in this call: it and those after it fail. If it is a write, a crash may leave it.
    StopsAt(u64),
}

/// What a crash makes of the changes since the last sync.
#[derive(Clone, Copy, Debug, PartialEq, Eq)]
pub enum AfterCrash {
    /// None reached the disk.
    Lost,
    /// All reached it.
    Kept,
    /// Of each write the first half reached it.
    Half,
    /// Each write left this byte in all of its range.
    Torn(u8),
}

/// How a call ends.
#[derive(Drop)]
enum Answer {
    Done,
    Fails,
    Stops,
}

impl MemoryFile {
    /// Returns a file with these bytes, all of them on the disk. An error if there is no memory for two copies.
    pub fn new(
        alloc: Global,
        bytes: &SparseBytes,
        trouble: Trouble,
    ) -> Result<MemoryFile, AllocError> {
        Ok(MemoryFile {
            alloc,
            bytes: bytes.copy()?,
            synced: bytes.copy()?,
            changes: Vec::new(alloc),
            calls: 0,
            trouble,
        })
    }

    /// Returns what a read would.
    pub fn bytes(&self) -> &SparseBytes {
        &self.bytes
    }

    /// Returns how many calls there were.
    pub fn calls(&self) -> u64 {
        self.calls
    }

    /// Returns what a crash now leaves. An error if there is no memory for it.
    pub fn after_crash(&self, reading: AfterCrash) -> Result<SparseBytes, AllocError> {
        let mut left = self.synced.copy()?;
        if reading != AfterCrash::Lost {
            for change in &self.changes {
                apply(&mut left, change, reading)?;
            }
        }
        Ok(left)
    }

    // Counts a call, and returns how it ends.
    fn call(&mut self) -> Answer {
        self.calls = self.calls.saturating_add(1);
        match self.trouble {
            Trouble::FailsAt(call) if self.calls == call => Answer::Fails,
            Trouble::StopsAt(call) if self.calls == call => Answer::Stops,
            Trouble::StopsAt(call) if self.calls > call => Answer::Fails,
            _ => Answer::Done,
        }
    }

    // Makes a change, or only notes it if the machine stops meanwhile.
    fn change(&mut self, change: Change) -> io::Result<()> {
        match self.call() {
            Answer::Done => {
                apply(&mut self.bytes, &change, AfterCrash::Kept)?;
                self.changes.push(change)?;
                Ok(())
            }
            Answer::Stops => {
                self.changes.push(change)?;
                Err(io::ErrorKind::Other.into())
            }
            Answer::Fails => Err(io::ErrorKind::Other.into()),
        }
    }

    // Counts a call that changes nothing.
    fn look(&mut self) -> io::Result<()> {
        match self.call() {
            Answer::Done => Ok(()),
            _ => Err(io::ErrorKind::Other.into()),
        }
    }
}

impl RawFile for MemoryFile {
    fn len(&mut self) -> io::Result<u64> {
        self.look()?;
        Ok(self.bytes.len())
    }

    fn read_exact_at(&mut self, at: u64, buffer: &mut [u8]) -> io::Result<()> {
        self.look()?;
        if at.saturating_add(buffer.len() as u64) > self.bytes.len() {
            return Err(io::ErrorKind::UnexpectedEof.into());
        }
        let mut place = at;
        for byte in buffer {
            *byte = self.bytes.get(place);
            place = place.saturating_add(1);
        }
        Ok(())
    }

    fn write_all_at(&mut self, at: u64, bytes: &[u8]) -> io::Result<()> {
        let bytes = bytes.to_vec(self.alloc)?;
        self.change(Change::Write { at, bytes })
    }

    fn set_len(&mut self, len: u64) -> io::Result<()> {
        self.change(Change::Length(len))
    }

    fn sync(&mut self) -> io::Result<()> {
        self.look()?;
        self.synced = self.bytes.copy()?;
        self.changes.clear();
        Ok(())
    }
}

// Makes a change to a file's bytes, as the reading says.
fn apply(file: &mut SparseBytes, change: &Change, reading: AfterCrash) -> Result<(), AllocError> {
    match change {
        Change::Length(len) => {
            file.set_len(*len);
            Ok(())
        }
        Change::Write { at, bytes } => overwrite(file, *at, bytes, reading),
    }
}

// Writes bytes into a file, which grows if it ends before them.
fn overwrite(
    file: &mut SparseBytes,
    at: u64,
    bytes: &[u8],
    reading: AfterCrash,
) -> Result<(), AllocError> {
    let half = bytes.len() / 2;
    let mut place = at;
    for (index, byte) in bytes.iter().enumerate() {
        match reading {
            AfterCrash::Kept => file.put(place, *byte)?,
            AfterCrash::Half if index < half => file.put(place, *byte)?,
            AfterCrash::Torn(other) => file.put(place, other)?,
            _ => {}
        }
        place = place.saturating_add(1);
    }
    Ok(())
}
