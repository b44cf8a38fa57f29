//! Bytes on their way to a client.
ghost use Rattle.std.specs.Prelude.{◌≡◌, ◌++◌, [], OnOk};

use std::alloc::AllocError;
use std::marker::Model;

/// Bytes on their way to a client, and how many of them are written.
#[derive(Drop)]
pub struct Piece {
    bytes: Vec<u8>,
    written: usize,
}

impl Model for Piece {
    ghost use Rattle.std.specs.Prelude.{ℕ, List, ◌≤◌, drop, length};

    ghost Value = { List ℕ };

    ghost view = { λ p. drop p.written p.bytes.items };

    ghost invariant = { λ p. p.written ≤ length p.bytes.items };
}

impl Piece {
    /// Creates a piece of these bytes, none of them written.
    pub fn new(bytes: Vec<u8>) -> Piece
        ensures { result ≡ bytes.items }
    {
        Piece { bytes, written: 0 }
    }

    /// Returns how many bytes it has, written or not.
    pub fn len(&self) -> usize {
        self.bytes.len()
    }

    /// Appends bytes. If there is no memory, leaves it as it was.
    pub fn append(&mut self, bytes: &[u8]) -> Result<(), AllocError>
        ensures { OnOk result (self.new ≡ self.old ++ bytes.now) }
    {
        self.bytes.extend_from_slice(bytes)
    }

    /// Returns the bytes that are not written, `None` if there are none.
    pub fn rest(&self) -> Option<&[u8]> {
        match self.bytes.get(self.written..) {
            Some(rest) if !rest.is_empty() => Some(rest),
            _ => None,
        }
    }

    /// Counts bytes at the front of the rest as written.
    pub fn pass(&mut self, count: usize) {
        self.written = self.written.saturating_add(count).min(self.bytes.len());
    }

    /// Drops all bytes, and keeps their room.
    pub fn clear(&mut self)
        ensures { self.new ≡ [] }
    {
        self.bytes.clear();
        self.written = 0;
    }
}
