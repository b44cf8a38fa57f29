//! Blocks and extents of a device, by their numbers.
ghost use Rattle.std.specs.Prelude.{◌≡◌, ◌/◌};

use std::fmt;

/// Bytes of a block.
pub const BLOCK_BYTES: usize = 4096;

/// Blocks of an extent of the activity log, 4 MiB (DRBD User's Guide, "The activity log"). The last
/// extent of a device may be shorter.
pub const EXTENT_BLOCKS: u64 = 1024;

/// The most blocks that a device in memory, a pair or a run may have: 1 GiB (this project's limit).
pub const MAX_BLOCKS: u32 = 262_144;

/// The most blocks that a device may have: 8 TiB. A full resync then takes half of the places of a stream.
pub const MAX_DEVICE_BLOCKS: u32 = 2_147_483_648;

/// The number of a block, from 0. Any number is allowed here: whether a device has the block is tested where it is
/// used.
#[derive(Clone, Copy, Debug, PartialEq, Eq, PartialOrd, Ord, Hash)]
pub struct Block(pub u64);

impl Block {
    /// Returns the extent that the block lies in.
    pub fn extent(self) -> Extent
        ensures { result.0 ≡ self.0 / EXTENT_BLOCKS }
    {
        Extent(self.0 / EXTENT_BLOCKS)
    }
}

impl fmt::Display for Block {
    fn fmt<W: fmt::Write>(&self, f: &mut fmt::Formatter<W>) -> fmt::Result {
        let number = self.0;
        write!(f, "{number}")
    }
}

/// The number of an extent, from 0.
#[derive(Clone, Copy, Debug, PartialEq, Eq, PartialOrd, Ord, Hash)]
pub struct Extent(pub u64);
