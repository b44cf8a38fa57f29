//! Events of a pair.
use bytes::Bytes;

/// An event of a pair: a call of one node, or `Open`, which opens both. Nothing else happens during it.
#[derive(Debug, Drop)]
pub enum Event {
    /// Both ends open with a new link, and owe their hello. The two words are the generation identifiers for a
    /// resync and for the loss of the connection.
    Open { sync: u64, loss: u64 },
    /// A write of whole blocks of 4,096 bytes, from a first block on.
    Submit { first: u64, contents: Bytes },
    /// The primary's disk does the write of this number.
    Local(u64),
    /// The primary's disk fails the write of the first number, and keeps as many of its first blocks as the second
    /// says.
    LocalFault(u64, u64),
    /// The primary puts its next frame into the link.
    Send,
    /// The secondary takes the next frame.
    Receive,
    /// The secondary's disk does the item at this place of the stream.
    Peer(u32),
    /// The secondary's disk fails the item at this place, and keeps as many of its first blocks as the second
    /// number says.
    PeerFault(u32, u64),
    /// The secondary puts its next acknowledgement into the link.
    AckOut,
    /// The primary takes the next acknowledgement.
    AckIn,
    /// The primary reads the block that the resync copies next, and appends it to the stream.
    Resync,
    /// The primary's disk fails that read.
    ResyncFault,
    /// The primary closes its end.
    ClosePrimary,
    /// The secondary closes its end.
    CloseSecondary,
}

/// One of the two nodes.
#[derive(Clone, Copy, Debug, PartialEq, Eq)]
pub enum Side {
    Primary,
    Secondary,
}
