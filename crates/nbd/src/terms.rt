//! What the handshake agreed.
ghost use Rattle.std.specs.Prelude.{◌≡◌};
ghost use Rattle.nbd.specs.Terms.{plain};

/// What the handshake agreed: how the server replies to requests, and whether the client may ask for the blocks that are zeros.
#[derive(Clone, Copy, Debug, PartialEq, Eq)]
pub struct Terms {
    /// Replies to READ and BLOCK_STATUS come in chunks (NBD protocol, "Structured reply message").
    pub structured: bool,
    /// BLOCK_STATUS tells of the metadata context `base:allocation` (NBD protocol, "Metadata querying").
    pub allocation: bool,
}

impl Terms {
    /// Returns the terms of a client that has agreed nothing.
    pub fn plain() -> Terms
        ensures { result ≡ plain }
    {
        Terms {
            structured: false,
            allocation: false,
        }
    }
}
