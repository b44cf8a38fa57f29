//! What an image file is at its end, by which a later start tells whether another program has changed it.
use metadata::CleanEnd;
use std::fs::File;
use std::io;
use std::os::unix::fs::MetadataExt;

/// Returns what the image is now. A time before 1970 counts as 1970.
pub fn image_state(image: &File) -> io::Result<CleanEnd> {
    let found = image.metadata()?;
    Ok(CleanEnd {
        device: found.dev(),
        inode: found.ino(),
        size: found.len(),
        seconds: u64::try_from(found.mtime()).unwrap_or(0),
        nanoseconds: u64::try_from(found.mtime_nsec()).unwrap_or(0),
    })
}

/// Returns whether an image is as it was at a clean end: it has the same size and time of change. Its device and inode may be others,
/// since a mirror may be moved to another folder with its files.
pub fn is_unchanged(then: &CleanEnd, now: &CleanEnd) -> bool {
    (then.size, then.seconds, then.nanoseconds) == (now.size, now.seconds, now.nanoseconds)
}
