//! The length of a file.
use std::fs::File;
use std::io;
use std::io::{Seek, SeekFrom};

/// Returns how many bytes a file has: a regular file by its length, a block device by where it ends.
pub fn bytes_of(file: &File) -> io::Result<u64> {
    let found = file.metadata()?;
    if found.is_file() {
        return Ok(found.len());
    }
    let mut device = file;
    device.seek(SeekFrom::End(0))
}
