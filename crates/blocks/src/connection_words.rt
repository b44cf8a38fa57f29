//! The two words of a connection.

/// The two words under which a connection is opened: each becomes a generation identifier if it is needed (DRBD User's Guide,
/// "Generation identifiers"). They are fresh: neither is zero, they differ, and no tuple that the primary knows has them.
#[derive(Clone, Copy, Debug, PartialEq, Eq)]
pub struct ConnectionWords {
    /// The identifier of the generation that a resync begins.
    pub sync: u64,
    /// The identifier of the generation that the loss of the connection begins.
    pub loss: u64,
}
