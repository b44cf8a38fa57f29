//! The options of a session's run.
use blocks::Protocol;

/// The options of a run.
#[derive(Clone, Copy, Debug, PartialEq, Eq)]
pub struct RunOptions {
    /// When a write counts as completed.
    pub protocol: Protocol,
    /// Blocks of the device, 1 to 262,144.
    pub blocks: u32,
    /// Threads that write, 1 to 16.
    pub writers: u32,
    /// Writes of each writer, 1 to 10,000, of one block each.
    pub writes: u32,
    /// How often the link is cut and reconnected, 0 to 100. Sockets are not reconnected: 0 over them.
    pub cuts: u32,
    /// The path of the frames from one node to the other.
    pub path: Path,
    /// The output while the run goes on.
    pub live: LiveOutput,
}

/// The path of a run's frames from one node to the other.
#[derive(Clone, Copy, Debug, PartialEq, Eq)]
pub enum Path {
    /// Through a link in this process.
    Link,
    /// Over sockets on 127.0.0.1, one for each direction.
    Sockets,
}

/// The output of a run on standard error while it goes on.
#[derive(Clone, Copy, Debug, PartialEq, Eq)]
pub struct LiveOutput {
    /// The status lines of both nodes, once a second and at the end.
    pub status: bool,
    /// How many writes are completed, once a second, in one line that is overwritten: for a terminal.
    pub progress: bool,
}

/// The files that hold the disks. A disk with no file is filled with zeros, and is not saved.
#[derive(Clone, Copy, Debug, PartialEq, Eq)]
pub struct Images<'a> {
    pub local: Option<&'a str>,
    pub peer: Option<&'a str>,
}
