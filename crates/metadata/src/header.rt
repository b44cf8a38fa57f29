//! What is written once.

/// What a metadata file says of its device for ever.
#[derive(Clone, Copy, Debug, PartialEq, Eq)]
pub struct Header {
    /// The blocks of the device, 1 to `blocks::MAX_DEVICE_BLOCKS`.
    pub blocks: u64,
    /// The id of the pair that the disk belongs to.
    pub pair: u64,
    /// The id of the node.
    pub node: u64,
}
