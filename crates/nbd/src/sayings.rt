//! Bytes for a client that are no answer to an accepted request.
ghost use Rattle.std.specs.Prelude.{◌≡◌};

use std::marker::Model;

/// Bytes for the client of one connection: the greeting, replies to options, and replies to requests that the export refuses.
/// [`Connection::greet`](crate::Connection::greet) and [`Output::into_parts`](crate::Output::into_parts) alone make them, and they
/// cannot be copied: whoever writes to a client can write nothing of its own making.
#[derive(Debug, Drop)]
pub struct Sayings {
    of: u64,
    bytes: Vec<u8>,
}

impl Model for Sayings {
    ghost use Rattle.nbd.specs.Outputs.{SayingsState};

    ghost Value = { SayingsState };

    ghost view = { λ s. record { of = s.of; bytes = s.bytes.items } };
}

impl Sayings {
    /// Creates these bytes for the client of the connection with the number `of`.
    pub(crate) fn new(of: u64, bytes: Vec<u8>) -> Sayings
        ensures { result ≡ record { of = of; bytes = bytes.items } }
    {
        Sayings { of, bytes }
    }

    /// Returns the number of the connection whose client they are for.
    pub fn of(&self) -> u64
        ensures { result ≡ self.now.of }
    {
        self.of
    }

    /// Returns the bytes to send.
    pub fn as_slice(&self) -> &[u8]
        ensures { result.now ≡ self.now.bytes }
    {
        self.bytes.as_slice()
    }
}
