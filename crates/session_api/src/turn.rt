//! A turn of a thread at a locked node.

/// The most steps of a turn: a thread that has the lock does a few steps before it lets others in.
pub const STEPS: u32 = 32;

/// The most writes to the disk in a turn. Each has at most 128 KiB, so whoever waits for the lock waits for 256 KiB of them at most.
pub const TURN_WRITES: u32 = 2;

/// What a turn did.
#[derive(Clone, Copy, Debug, PartialEq, Eq)]
pub struct Turn {
    /// Whether any step was done. A frame that is refused for what it says counts as none, though it closes the end.
    pub worked: bool,
    /// Whether a frame was pushed, for which the other half may wait.
    pub pushed: bool,
    /// Whether the link was full: the node sends no further frame in this turn, since each one tried is encoded first.
    pub link_full: bool,
    /// How many writes went to the disk.
    pub writes: u32,
    /// Whether something happened for which a writer may wait: its write ended, or there may be room for it.
    pub wakes_writers: bool,
    /// The number of the connection that closed by itself in this turn, if one did.
    pub closed: Option<u32>,
}

impl Turn {
    /// A turn that did nothing.
    pub const NOTHING: Turn = Turn {
        worked: false,
        pushed: false,
        link_full: false,
        writes: 0,
        wakes_writers: false,
        closed: None,
    };
}
