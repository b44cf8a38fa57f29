//! A disk with a volatile cache.
use crate::contents::{Contents, SECTORS};
use crate::process::{Ending, Process};
use crate::random::Random;
use blocks::BLOCK_BYTES;
use std::alloc::{AllocError, Global};
use std::cell::RefCell;
use std::collections::BTreeMap;
use std::io;
use std::os::unix::fs::FileExt;
use std::rc::Rc;

/// What a block was written with, and is not yet on the platter.
#[derive(Clone, Copy)]
struct Unsynced {
    block: u64,
    contents: Contents,
}

/// A disk: what a read gives, and what is on the platter.
#[derive(Drop)]
pub(crate) struct Disk {
    // Blocks that were never written are in none of these.
    cached: BTreeMap<u64, Contents>,
    platter: BTreeMap<u64, Contents>,
    // The oldest first.
    unsynced: Vec<Unsynced>,
    // How many of them a block has.
    waiting: BTreeMap<u64, u64>,
    changes: u64,
}

impl Disk {
    /// Returns a disk that was never written.
    pub(crate) fn new(alloc: Global) -> Disk {
        Disk {
            cached: BTreeMap::new(alloc),
            platter: BTreeMap::new(alloc),
            unsynced: Vec::new(alloc),
            waiting: BTreeMap::new(alloc),
            changes: 0,
        }
    }

    /// Returns what a read of a block gives.
    pub(crate) fn cached(&self, block: u64) -> Contents {
        of_block(&self.cached, block)
    }

    /// Returns what a block has on the platter.
    pub(crate) fn platter(&self, block: u64) -> Contents {
        of_block(&self.platter, block)
    }

    /// Returns whether the block has a write that is not on the platter.
    pub(crate) fn is_waiting(&self, block: u64) -> bool {
        self.waiting.get(&block).is_some()
    }

    /// Returns a number that grows with each change.
    pub(crate) fn changes(&self) -> u64 {
        self.changes
    }

    /// Writes a block into the cache. An error if there is no memory.
    fn write(&mut self, block: u64, contents: Contents) -> Result<(), AllocError> {
        if !self.is_waiting(block) && self.cached(block) == contents {
            return Ok(());
        }
        self.changes = self.changes.saturating_add(1);
        self.unsynced.push(Unsynced { block, contents })?;
        let waiting = self.waiting.get(&block).copied().unwrap_or(0);
        self.waiting.insert(block, waiting.saturating_add(1))?;
        self.cached.insert(block, contents)?;
        Ok(())
    }

    /// Puts the cache on the platter. An error if there is no memory.
    pub(crate) fn sync(&mut self) -> Result<(), AllocError> {
        self.changes = self.changes.saturating_add(1);
        for write in &self.unsynced {
            self.platter.insert(write.block, write.contents)?;
        }
        self.unsynced.clear();
        self.waiting.clear();
        Ok(())
    }

    /// Cuts the power: of each write that is not on the platter each sector may get there or not. An error if there is no memory.
    pub(crate) fn cut_power(&mut self, random: &mut Random) -> Result<(), AllocError> {
        self.changes = self.changes.saturating_add(1);
        let fate = Fate::pick(random);
        for write in &self.unsynced {
            let before = of_block(&self.platter, write.block);
            let left = fate.left(random, before, write.contents);
            self.platter.insert(write.block, left)?;
        }
        self.unsynced.clear();
        self.waiting.clear();
        self.cached = self.platter.clone()?;
        Ok(())
    }
}

// Returns what a block has.
fn of_block(blocks: &BTreeMap<u64, Contents>, block: u64) -> Contents {
    blocks.get(&block).copied().unwrap_or(Contents::NOTHING)
}

/// What a power cut makes of writes that are not on the platter.
#[derive(Clone, Copy)]
enum Fate {
    Lost,
    Kept,
    /// Each is lost or kept.
    Whole,
    /// Each sector of each is lost or kept.
    Torn,
}

impl Fate {
    fn pick(random: &mut Random) -> Fate {
        match random.below(5) {
            0 => Fate::Lost,
            1 => Fate::Kept,
            2 => Fate::Whole,
            _ => Fate::Torn,
        }
    }

    // Returns what is left of a write over what was there.
    fn left(self, random: &mut Random, before: Contents, written: Contents) -> Contents {
        match self {
            Fate::Lost => before,
            Fate::Kept => written,
            Fate::Whole => { if random.one_in(2) { before } else { written } }
            Fate::Torn => mixed(random, before, written),
        }
    }
}

// Returns a block in which each sector is of one or of the other.
fn mixed(random: &mut Random, before: Contents, written: Contents) -> Contents {
    let mut sectors = 0u64;
    let mut bit = 1u64;
    for _ in 0..SECTORS {
        if random.one_in(2) {
            sectors |= bit;
        }
        bit = bit.wrapping_mul(2);
    }
    before.with_sectors(written, sectors)
}

/// The disk as a file of a node's process.
#[derive(Drop)]
pub(crate) struct DiskFile {
    pub(crate) disk: Rc<RefCell<Disk>>,
    pub(crate) process: Rc<Process>,
}

impl DiskFile {
    // Writes blocks into the cache, or those parts of them that are done. An error if there is no memory.
    fn write_some(&self, first: u64, bytes: &[u8], which: Which) -> Result<(), AllocError> {
        let Ok(mut disk) = self.disk.try_borrow_mut() else {
            return Ok(());
        };
        for (place, bytes) in bytes.chunks(BLOCK_BYTES).enumerate() {
            let place = place as u64;
            let block = first.saturating_add(place);
            let before = disk.cached(block);
            disk.write(block, which.left(place, before, Contents::of_bytes(bytes)))?;
        }
        Ok(())
    }
}

/// Which blocks of a write are done.
#[derive(Clone, Copy)]
enum Which {
    All,
    /// By the bits of a number.
    Bits(u64),
    /// So many sectors from the beginning on.
    Sectors(u64),
}

impl Which {
    // Returns what the block at a place of a write holds then.
    fn left(self, place: u64, before: Contents, written: Contents) -> Contents {
        match self {
            Which::All => written,
            Which::Bits(bits) => {
                if (bits >> (place % 64)) % 2 == 1 {
                    written
                } else {
                    before
                }
            }
            Which::Sectors(count) => {
                let left = count.saturating_sub(place.saturating_mul(8)).min(8);
                before.with_sectors(written, (1u64 << left).wrapping_sub(1))
            }
        }
    }
}

impl FileExt for DiskFile {
    fn read_at(&self, buf: &mut [u8], offset: u64) -> io::Result<usize> {
        if self.process.disk_call() != Ending::Done {
            return Err(io::ErrorKind::Other.into());
        }
        let Ok(disk) = self.disk.try_borrow() else {
            return Err(io::ErrorKind::Other.into());
        };
        let length = buf.len();
        let first = offset / BLOCK_BYTES as u64;
        for (place, bytes) in buf.chunks_mut(BLOCK_BYTES).enumerate() {
            disk.cached(first.saturating_add(place as u64)).fill(bytes);
        }
        Ok(length)
    }

    fn write_at(&self, buf: &[u8], offset: u64) -> io::Result<usize> {
        let first = offset / BLOCK_BYTES as u64;
        let part = self.process.part();
        let ending = self.process.disk_call();
        let which = match ending {
            Ending::Done => Which::All,
            Ending::Fails => Which::Bits(part),
            Ending::Stops => Which::Sectors(part % 257),
            Ending::Gone => return Err(io::ErrorKind::Other.into()),
        };
        self.write_some(first, buf, which)?;
        if ending == Ending::Done {
            Ok(buf.len())
        } else {
            Err(io::ErrorKind::Other.into())
        }
    }
}
