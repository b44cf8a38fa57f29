//! Descriptors 0, 1 and 2.
use std::fs::{File, OpenOptions};
use std::io;
use std::rt::Files;

/// Opens `/dev/null` three times, for reading and writing. A program may be started with some of its standard input, output
/// and error closed. The next files that it opens would take their descriptors, 0 to 2: an image would get what is written
/// to standard error, or be read as standard input. So the caller does this before it opens anything, and keeps the files
/// until it ends. A file that cannot be opened is left out.
pub(crate) fn hold<H: Files<File = File>>(rt: &H) -> [io::Result<File>; 3] {
    let mut options = OpenOptions::new();
    options.read(true).write(true);
    [
        options.open(rt, "/dev/null"),
        options.open(rt, "/dev/null"),
        options.open(rt, "/dev/null"),
    ]
}
