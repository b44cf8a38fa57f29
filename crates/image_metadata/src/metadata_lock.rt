//! Opening a metadata file under a lock of its own.
use std::fs::{File, OpenOptions, TryLockError};
use std::io;
use std::rt::Files;
use thiserror::Error;

/// Why a metadata file could not be used.
#[derive(Debug, Drop, Error)]
pub enum MetadataFileFault {
    /// It cannot be opened or created for reading and writing.
    #[error("the metadata file could not be opened: {0}")]
    Unopened(io::Error),
    /// A lock on it is kept.
    #[error("the metadata file is in use, by another process or for another image")]
    InUse,
    /// It is a folder, a pipe or the like.
    #[error("a metadata file is a regular file")]
    NotAFile,
}

/// Opens the metadata file at `path` for reading and writing, creates it if it is missing, and locks it: nobody else of this program
/// uses it until the file is dropped.
pub fn open_locked<H: Files<File = File>>(rt: &H, path: &str) -> Result<File, MetadataFileFault> {
    let file = OpenOptions::new()
        .read(true)
        .write(true)
        .create(true)
        .open(rt, path)
        .map_err(MetadataFileFault::Unopened)?;
    match file.metadata() {
        Ok(found) if found.is_file() => {}
        Ok(_) => return Err(MetadataFileFault::NotAFile),
        Err(error) => return Err(MetadataFileFault::Unopened(error)),
    }
    match file.try_lock() {
        Ok(()) => Ok(file),
        Err(TryLockError::WouldBlock) => Err(MetadataFileFault::InUse),
        Err(TryLockError::Error(error)) => Err(MetadataFileFault::Unopened(error)),
    }
}
