//! The lock on an image.
use crate::OpenFault;
use recorded_file::bytes_of;
use std::fs::{File, OpenOptions, TryLockError};
use std::os::unix::fs::{FileTypeExt, MetadataExt};
use std::rt::Files;
use std::{fs, io};

/// An image that no other process of this program uses while the lock is kept. The lock is advisory: it keeps out those
/// who take it, and nobody else. Dropping it frees the image.
#[derive(Drop)]
pub struct ImageLock {
    file: File,
}

impl ImageLock {
    /// Opens the image at `path` for reading and writing, and locks it. Follows links, so two paths of one file have one
    /// lock. Does not wait, creates no file, and changes none.
    ///
    /// `InUse` comes if a lock on the image is kept, by another process or by this one, or if another file has taken its
    /// place meanwhile; `NotAFile` if it is neither a regular file nor a block device; `Unread` if the system refuses to open or find
    /// it; `LockRefused` if it refuses the lock for another reason.
    pub fn take<H: Files<File = File>>(rt: &H, path: &str) -> Result<ImageLock, OpenFault> {
        let file = OpenOptions::new()
            .read(true)
            .write(true)
            .open(rt, path)
            .map_err(OpenFault::Unread)?;
        match file.metadata() {
            Ok(found) if found.is_file() || found.file_type().is_block_device() => {}
            Ok(_) => return Err(OpenFault::NotAFile),
            Err(error) => return Err(OpenFault::Unread(error)),
        }
        match file.try_lock() {
            Ok(()) => {}
            Err(TryLockError::WouldBlock) => return Err(OpenFault::InUse),
            Err(TryLockError::Error(error)) => return Err(OpenFault::LockRefused(error)),
        }
        match is_at(rt, path, &file) {
            Ok(true) => Ok(ImageLock { file }),
            Ok(false) => Err(OpenFault::InUse),
            Err(error) => Err(OpenFault::Unread(error)),
        }
    }

    /// Returns whether `path` still names the locked file, and the file has `image_bytes` bytes: a program that takes no lock may
    /// have replaced or resized it.
    pub fn is_unchanged<H: Files<File = File>>(
        &self,
        rt: &H,
        path: &str,
        image_bytes: u64,
    ) -> bool {
        match self.image_bytes() {
            Ok(found) => found == image_bytes && is_at(rt, path, &self.file).unwrap_or(false),
            Err(_) => false,
        }
    }

    /// Returns the locked file.
    pub fn file(&self) -> &File {
        &self.file
    }

    /// Returns how many bytes the image has.
    pub fn image_bytes(&self) -> io::Result<u64> {
        bytes_of(&self.file)
    }
}

// Returns whether the path names this file. A run replaces its image before it frees the lock, so a lock taken then may
// be one on the old file, which keeps nobody out.
fn is_at<H: Files<File = File>>(rt: &H, path: &str, file: &File) -> io::Result<bool> {
    let locked = file.metadata()?;
    let named = fs::metadata(rt, path)?;
    Ok((locked.dev(), locked.ino()) == (named.dev(), named.ino()))
}
