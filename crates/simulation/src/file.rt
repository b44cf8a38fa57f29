//! A metadata file that a power cut may tear.
use crate::process::{Ending, Process};
use crate::random::Random;
use metadata::{RawFile, SparseBytes};
use std::alloc::{AllocError, Global};
use std::cell::RefCell;
use std::io;
use std::rc::Rc;

/// A change of a file that is not on the disk yet.
#[derive(Drop)]
enum Change {
    Write { at: u64, bytes: Vec<u8> },
    Length(u64),
}

/// A metadata file: what it was told to hold, and what the disk has of it.
#[derive(Drop)]
pub(crate) struct TornFile {
    alloc: Global,
    told: SparseBytes,
    synced: SparseBytes,
    // What was told since, the oldest first.
    changes: Vec<Change>,
    // How many changes and syncs there were.
    count: u64,
}

impl TornFile {
    /// Returns an empty file.
    pub(crate) fn new(alloc: Global) -> TornFile {
        TornFile {
            alloc,
            told: SparseBytes::new(alloc),
            synced: SparseBytes::new(alloc),
            changes: Vec::new(alloc),
            count: 0,
        }
    }

    /// Returns a number that grows with each change.
    pub(crate) fn changes(&self) -> u64 {
        self.count
    }

    /// Returns how many bytes it was told to hold.
    pub(crate) fn len(&self) -> u64 {
        self.told.len()
    }

    /// Returns a byte that it was told to hold.
    pub(crate) fn told(&self, at: u64) -> u8 {
        self.told.get(at)
    }

    /// Returns whether a byte is not 0 in what it was told to hold, nor in anything that a power cut may leave: a change that is not on
    /// the disk may leave any byte.
    pub(crate) fn is_set_for_sure(&self, at: u64) -> bool {
        self.told.get(at) != 0
            && self.synced.get(at) != 0
            && !self.changes.iter().any(|change| touches(change, at))
    }

    /// Has it hold nothing, as a file that is made anew.
    pub(crate) fn empty(&mut self) {
        self.told = SparseBytes::new(self.alloc);
        self.synced = SparseBytes::new(self.alloc);
        self.changes.clear();
        self.count = self.count.saturating_add(1);
    }

    // Makes a change. An error if there is no memory.
    fn change(&mut self, change: Change) -> Result<(), AllocError> {
        self.count = self.count.saturating_add(1);
        apply(&mut self.told, &change, Reading::Kept)?;
        self.changes.push(change)?;
        Ok(())
    }

    // Puts all changes on the disk. An error if there is no memory.
    fn sync(&mut self) -> Result<(), AllocError> {
        self.count = self.count.saturating_add(1);
        for change in &self.changes {
            apply(&mut self.synced, change, Reading::Kept)?;
        }
        self.changes.clear();
        Ok(())
    }

    /// Cuts the power: each change that is not on the disk may be lost, kept or torn. An error if there is no memory.
    pub(crate) fn cut_power(&mut self, random: &mut Random) -> Result<(), AllocError> {
        self.count = self.count.saturating_add(1);
        for change in &self.changes {
            apply(&mut self.synced, change, Reading::pick(random))?;
        }
        self.changes.clear();
        self.told = self.synced.copy()?;
        Ok(())
    }
}

/// What a power cut leaves of a change.
#[derive(Clone, Copy)]
enum Reading {
    Lost,
    Kept,
    /// This many bytes from the beginning on.
    Front(u64),
    /// Any bytes, by a seed.
    Torn(u64),
}

impl Reading {
    fn pick(random: &mut Random) -> Reading {
        match random.below(4) {
            0 => Reading::Lost,
            1 => Reading::Kept,
            2 => Reading::Front(random.below(128)),
            _ => Reading::Torn(random.next()),
        }
    }
}

// Returns whether a change may have changed this byte.
fn touches(change: &Change, place: u64) -> bool {
    match change {
        Change::Write { at, bytes } => place >= *at
            && place.saturating_sub(*at) < bytes.len() as u64,
        Change::Length(len) => place >= *len,
    }
}

// Makes a change to a file's bytes, as the reading says. An error if there is no memory.
fn apply(file: &mut SparseBytes, change: &Change, reading: Reading) -> Result<(), AllocError> {
    match change {
        Change::Length(len) => {
            if !matches!(reading, Reading::Lost) {
                file.set_len(*len);
            }
            Ok(())
        }
        Change::Write { at, bytes } => overwrite(file, *at, bytes, reading),
    }
}

// Writes bytes into a file, as the reading says. An error if there is no memory.
fn overwrite(
    file: &mut SparseBytes,
    at: u64,
    bytes: &[u8],
    reading: Reading,
) -> Result<(), AllocError> {
    let mut random = match reading {
        Reading::Torn(seed) => Random::new(seed),
        _ => Random::new(0),
    };
    let mut offset = 0u64;
    for byte in bytes {
        let place = at.saturating_add(offset);
        match reading {
            Reading::Lost => {}
            Reading::Kept => file.put(place, *byte)?,
            Reading::Front(count) if offset < count => file.put(place, *byte)?,
            Reading::Front(_) => {}
            Reading::Torn(_) => file.put(place, (random.next() >> 56) as u8)?,
        }
        offset = offset.saturating_add(1);
    }
    Ok(())
}

/// The file as a process sees it.
#[derive(Drop)]
pub(crate) struct OpenFile {
    pub(crate) alloc: Global,
    pub(crate) file: Rc<RefCell<TornFile>>,
    pub(crate) process: Rc<Process>,
}

impl OpenFile {
    // Does a part of a write in which the process stops: none of it, its first half or all.
    fn write_part(&self, at: u64, bytes: &[u8]) -> Result<(), AllocError> {
        let count = match self.process.part() % 3 {
            0 => 0,
            1 => bytes.len() / 2,
            _ => bytes.len(),
        };
        let mut part = Vec::new(self.alloc);
        for byte in bytes.iter().take(count) {
            part.push(*byte)?;
        }
        if let Ok(mut file) = self.file.try_borrow_mut() {
            file.change(Change::Write { at, bytes: part })?;
        }
        Ok(())
    }
}

impl RawFile for OpenFile {
    fn len(&mut self) -> io::Result<u64> {
        match (self.process.file_call(), self.file.try_borrow()) {
            (Ending::Done, Ok(file)) => Ok(file.len()),
            _ => Err(io::ErrorKind::Other.into()),
        }
    }

    fn read_exact_at(&mut self, at: u64, buffer: &mut [u8]) -> io::Result<()> {
        if self.process.file_call() != Ending::Done {
            return Err(io::ErrorKind::Other.into());
        }
        let Ok(file) = self.file.try_borrow() else {
            return Err(io::ErrorKind::Other.into());
        };
        if at.saturating_add(buffer.len() as u64) > file.len() {
            return Err(io::ErrorKind::UnexpectedEof.into());
        }
        let mut place = at;
        for byte in buffer {
            *byte = file.told(place);
            place = place.saturating_add(1);
        }
        Ok(())
    }

    fn write_all_at(&mut self, at: u64, bytes: &[u8]) -> io::Result<()> {
        match self.process.file_call() {
            Ending::Done => {}
            Ending::Stops => {
                self.write_part(at, bytes)?;
                return Err(io::ErrorKind::Other.into());
            }
            Ending::Fails | Ending::Gone => return Err(io::ErrorKind::Other.into()),
        }
        let bytes = bytes.to_vec(self.alloc)?;
        match self.file.try_borrow_mut() {
            Ok(mut file) => Ok(file.change(Change::Write { at, bytes })?),
            Err(_) => Err(io::ErrorKind::Other.into()),
        }
    }

    fn set_len(&mut self, len: u64) -> io::Result<()> {
        match (self.process.file_call(), self.file.try_borrow_mut()) {
            (Ending::Done, Ok(mut file)) => Ok(file.change(Change::Length(len))?),
            _ => Err(io::ErrorKind::Other.into()),
        }
    }

    fn sync(&mut self) -> io::Result<()> {
        match (self.process.file_call(), self.file.try_borrow_mut()) {
            (Ending::Done, Ok(mut file)) => Ok(file.sync()?),
            _ => Err(io::ErrorKind::Other.into()),
        }
    }
}
