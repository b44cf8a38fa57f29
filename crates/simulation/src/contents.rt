//! What a block holds.
use blocks::BLOCK_BYTES;

/// Bytes of a sector, which a disk has whole or not at all after a power cut.
const SECTOR_BYTES: usize = 512;

/// Sectors of a block.
pub(crate) const SECTORS: usize = 8;

/// Bits of a mark that name the block.
const BLOCK_BITS: u32 = 24;

/// What a block holds: for each sector the mark of the write that made it, which lies in the sector's first bytes. 0 if no write did.
#[derive(Clone, Copy, PartialEq, Eq)]
pub(crate) struct Contents {
    pub(crate) marks: [u64; SECTORS],
}

impl Contents {
    // What a block holds that no write of the simulation made.
    const STRANGE: Contents = Contents {
        marks: [u64::MAX; SECTORS],
    };

    /// What a block holds that was never written.
    pub(crate) const NOTHING: Contents = Contents {
        marks: [0; SECTORS],
    };

    /// Returns what write `id` leaves in a block.
    pub(crate) fn of_write(id: u64, block: u64) -> Contents {
        Contents {
            marks: [id.wrapping_mul(1 << BLOCK_BITS).wrapping_add(block); SECTORS],
        }
    }

    /// Returns the block with those sectors of another whose bits are set in `sectors`, that of the first one lowest.
    pub(crate) fn with_sectors(self, other: Contents, sectors: u64) -> Contents {
        let mut mixed = self;
        let mut rest = sectors;
        for (mark, new) in mixed.marks.iter_mut().zip(other.marks.iter()) {
            if rest % 2 == 1 {
                *mark = *new;
            }
            rest /= 2;
        }
        mixed
    }

    /// Returns what the bytes of a block say.
    pub(crate) fn of_bytes(bytes: &[u8]) -> Contents {
        let mut marks = [0; SECTORS];
        for (mark, sector) in marks.iter_mut().zip(bytes.chunks(SECTOR_BYTES)) {
            *mark = mark_of(sector);
        }
        let contents = Contents { marks };
        let mut filled = [0u8; BLOCK_BYTES];
        contents.fill(&mut filled);
        if &filled[..] == bytes {
            contents
        } else {
            Contents::STRANGE
        }
    }

    /// Fills the bytes of a block.
    pub(crate) fn fill(&self, bytes: &mut [u8]) {
        bytes.fill(0);
        for (sector, mark) in bytes.chunks_mut(SECTOR_BYTES).zip(self.marks.iter()) {
            for (byte, digit) in sector.iter_mut().zip(mark.to_be_bytes().iter()) {
                *byte = *digit;
            }
        }
    }
}

/// Returns the number of the write that made a sector; 0 if none did.
pub(crate) fn writer_of(mark: u64) -> u64 {
    mark >> BLOCK_BITS
}

/// Returns the block that a sector's write was to.
pub(crate) fn block_of(mark: u64) -> u64 {
    mark % (1 << BLOCK_BITS)
}

// Returns the mark of a sector.
fn mark_of(sector: &[u8]) -> u64 {
    let mut mark = 0u64;
    for byte in sector.iter().take(8) {
        mark = mark << 8 | u64::from(*byte);
    }
    mark
}

const _: () = prove!(BLOCK_BYTES == SECTORS * SECTOR_BYTES);
