//! The pieces of what a request writes.
ghost use Rattle.std.specs.Prelude.{◌≡◌};

use bytes::Bytes;
use device_parts::Part;
use std::marker::Model;

/// Bytes that a request writes to one place of the device. [`Pieces::next`](crate::Pieces::next) alone makes one, and it cannot be copied: a
/// body that can write nothing but pieces writes each byte of a request once, and no other.
#[derive(Debug, Drop)]
pub struct Piece {
    block: u64,
    from: u32,
    bytes: Bytes,
}

impl Model for Piece {
    ghost use Rattle.device_parts.specs.Places.{Place};

    ghost Value = { Place };

    ghost view = { λ p. record { block = p.block; from = p.from; bytes = p.bytes } };
}

impl Piece {
    /// Creates the piece of these bytes, from the byte `from` of a block on.
    pub(crate) fn new(block: u64, from: u32, bytes: Bytes) -> Piece
        ensures { result ≡ record { block = block; from = from; bytes = bytes } }
    {
        Piece { block, from, bytes }
    }
}

impl Part for Piece {
    ghost place = { λ p. p };

    fn block(&self) -> u64 {
        self.block
    }

    fn from(&self) -> u32 {
        self.from
    }

    fn into_bytes(self) -> Bytes {
        let Piece { bytes, .. } = self;
        bytes
    }
}
