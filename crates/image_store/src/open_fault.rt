//! Failures to open an image.
use std::io;
use thiserror::Error;

/// Why an image file did not become a disk, or was not locked.
#[derive(Debug, Drop, Error)]
pub enum OpenFault {
    /// The file has `found` bytes, and the requested device has `wanted`.
    #[error("the image has {found} bytes, and an image of this device has {wanted} (see --blocks)")]
    WrongLength { found: u64, wanted: u64 },
    /// The file cannot be opened for reading and writing, or measured, or gives no second handle; or a block device takes no writes.
    #[error("the image could not be opened: {0}")]
    Unread(io::Error),
    /// The system refuses the lock, and not because one is kept, as a file system that has none does.
    #[error("the image could not be locked: {0}")]
    LockRefused(io::Error),
    /// The file is a folder, a pipe or the like.
    #[error("an image is a regular file or a block device")]
    NotAFile,
    /// A lock on the image is kept.
    #[error("the image is in use, by another process or under another path")]
    InUse,
}
