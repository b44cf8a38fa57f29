//! What is replaced as a whole.
use blocks::Tuple;

/// The id that a system has from one start to the next, 128 bits.
#[derive(Clone, Copy, Debug, PartialEq, Eq)]
pub struct BootId {
    /// The first 8 bytes, big-endian.
    pub high: u64,
    /// The last 8 bytes, big-endian.
    pub low: u64,
}

/// What the image was when its node ended cleanly. Another device, inode, size or time of change means that somebody else has
/// used it since.
#[derive(Clone, Copy, Debug, PartialEq, Eq)]
pub struct CleanEnd {
    /// The number of the device that the image lies on.
    pub device: u64,
    /// The image's inode.
    pub inode: u64,
    /// Its bytes.
    pub size: u64,
    /// Its time of change: seconds since 1970.
    pub seconds: u64,
    /// Its time of change: nanoseconds of the second.
    pub nanoseconds: u64,
}

/// The identifiers of a disk, and what goes with them.
#[derive(Clone, Copy, Debug, PartialEq, Eq)]
pub struct Identifiers {
    /// The generation identifiers, as a close now would leave them.
    pub tuple: Tuple,
    /// Whether the disk was a primary's when it was last used.
    pub is_primary: bool,
    /// Whether the disk holds what some disk of the pair held at one moment.
    pub is_consistent: bool,
    /// The id of the system that used it last.
    pub boot: BootId,
    /// The id of the node whose secondary it is, or 0.
    pub secondary_of: u64,
    /// If its node ended cleanly, what the image was then.
    pub clean_end: Option<CleanEnd>,
}
