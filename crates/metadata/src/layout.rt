//! Where a metadata file has what, in bytes from its start. docs/FORMATS.md, "Metadata files", has the table.
//!
//! The header, the selector and each slot lie in sectors of their own, of 512 bytes. The entries of the extents have the room
//! that the largest device needs, so that each offset is the same for every device.

/// The first word of a metadata file: the text `DRBDPAIR`.
pub const MAGIC: u64 = 0x4452_4244_5041_4952;

/// The version of the format.
pub const VERSION: u64 = 1;

/// The second word: the version and the bytes of a block, 32 bits each.
pub(crate) const FORMAT: u64 = 0x0000_0001_0000_1000;

/// Bytes of a word.
pub(crate) const WORD_BYTES: usize = 8;

/// Words of the header, without its sum: magic, format, blocks, id of the pair, id of the node.
pub(crate) const HEADER_WORDS: usize = 5;

/// Bytes of the header with its sum.
pub(crate) const HEADER_BYTES: usize = 48;

/// Where the selector lies: a byte, 0 if the first slot counts and else not 0.
pub(crate) const SELECTOR_AT: u64 = 512;

/// Where the first slot begins.
pub(crate) const FIRST_SLOT_AT: u64 = 1024;

/// Where the second slot begins.
pub(crate) const SECOND_SLOT_AT: u64 = 1536;

/// Words of a slot, without its sum.
pub(crate) const SLOT_WORDS: usize = 15;

/// Bytes of a slot with its sum.
pub(crate) const SLOT_BYTES: usize = 128;

/// Where the entries of the extents begin, a byte for each: not 0 if the extent is entered.
pub(crate) const EXTENTS_AT: u64 = 4096;

/// The most extents that a device may have: those of `blocks::MAX_DEVICE_BLOCKS`.
pub const MAX_EXTENTS: u64 = 2_097_152;

/// Where the marks begin, a byte for each block: not 0 if the block is marked. The file ends behind the last of them.
pub(crate) const MARKS_AT: u64 = 2_101_248;
