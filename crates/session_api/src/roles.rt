//! The roles of a session's threads.

/// The role of a thread of the primary's half.
#[derive(Clone, Copy, Debug, PartialEq, Eq)]
pub enum PrimaryRole {
    /// Sends the stream.
    Sender,
    /// Takes acknowledgements.
    Receiver,
    /// Performs the writes on the disk.
    Disk,
    /// Copies marked blocks.
    Resync,
}

/// The role of a thread of the secondary's half.
#[derive(Clone, Copy, Debug, PartialEq, Eq)]
pub enum SecondaryRole {
    /// Takes the stream.
    Receiver,
    /// Sends acknowledgements.
    Sender,
    /// Performs the received items on the disk.
    Disk,
}
