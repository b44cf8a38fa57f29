//! Places of a file that have no data.
ghost use Rattle.std.specs.Prelude.{◌<◌, ◌^◌, ◌-◌};

use crate::Stretch;
use std::fs::File;
use std::os::fd::{AsRawFd, RawFd};

/// Asks `lseek` for the first byte with data, from an offset on: the offset itself, at once, if there are data.
const SEEK_DATA: i32 = 3;

/// Asks `lseek` for the first byte without data, from an offset on.
const SEEK_HOLE: i32 = 4;

/// Tells where a file has no data, as far as its file system tells it.
#[derive(Drop)]
pub(crate) struct Holes {
    descriptor: Option<RawFd>,
}

impl Holes {
    /// Creates it for a file about whose holes nothing is known.
    pub(crate) fn unknown() -> Holes {
        Holes { descriptor: None }
    }

    /// Creates it for this file. It is to be kept together with the file, which keeps the descriptor open.
    pub(crate) fn of(file: &File) -> Holes {
        Holes {
            descriptor: Some(file.as_raw_fd()),
        }
    }

    /// Returns whether the file has no data at this offset. It has some if the file system has no holes, or if nothing is known. It
    /// moves the file's position, at which nothing is read or written.
    pub(crate) fn has(&self, offset: u64) -> bool {
        let offset = offset.cast_signed();
        match self.descriptor {
            Some(descriptor) => libc::lseek(descriptor, offset, SEEK_DATA) != offset,
            None => false,
        }
    }

    /// Returns what the file has at this offset, and up to where. Data up to the end of all offsets if nothing is known, or if the file
    /// system has no holes. It moves the file's position, as `has` does.
    pub(crate) fn stretch_at(&self, offset: u64) -> Stretch
        requires { offset < 2 ^ 64 - 1 }
        ensures { offset < result.end }
    {
        let Some(descriptor) = self.descriptor else {
            return Stretch::data(u64::MAX);
        };
        match position_of(descriptor, offset, SEEK_HOLE) {
            Some(hole) if hole == offset => hole_at(descriptor, offset),
            Some(hole) if hole > offset => Stretch::data(hole),
            _ => Stretch::data(u64::MAX),
        }
    }
}

// Returns the hole at this offset, where the file had no data a moment ago.
fn hole_at(descriptor: RawFd, offset: u64) -> Stretch
    requires { offset < 2 ^ 64 - 1 }
    ensures { offset < result.end }
{
    match position_of(descriptor, offset, SEEK_DATA) {
        Some(data) if data > offset => Stretch::hole(data),
        // A write came between the two looks.
        Some(_) => Stretch::data(offset + 1),
        None => Stretch::hole(u64::MAX),
    }
}

// Returns where `lseek` goes from this offset, `None` if it refuses.
fn position_of(descriptor: RawFd, offset: u64, whence: i32) -> Option<u64> {
    let Ok(offset) = i64::try_from(offset) else {
        return None;
    };
    u64::try_from(libc::lseek(descriptor, offset, whence)).ok()
}
