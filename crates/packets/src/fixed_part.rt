//! The part of a message that has a fixed number of bytes.
ghost use Rattle.std.specs.Prelude.{◌≡◌, ◌+◌, ◌≤◌, [], ◌++◌, length};

use std::marker::Model;

/// The most bytes that are stored inline: the longest frame without blocks, UUIDS, has this many.
pub const FIXED_BYTES: usize = 40;

/// At most 40 bytes, stored inline: the longest frame without blocks, UUIDS, has 40. It takes no memory.
#[derive(Debug, Drop)]
pub struct FixedPart {
    bytes: [u8; FIXED_BYTES],
    len: usize,
}

impl Model for FixedPart {
    ghost use Rattle.std.specs.Prelude.{ℕ, List, ◌≤◌, take};
    ghost use Rattle.packets.specs.declared.fixed_part.TheConstants.{FIXED_BYTES};

    ghost Value = { List ℕ };

    ghost view = { λ p. take p.len p.bytes };

    ghost invariant = { λ p. p.len ≤ FIXED_BYTES };
}

impl FixedPart {
    /// Returns an empty one.
    pub fn new() -> FixedPart
        ensures { result ≡ [] }
    {
        FixedPart {
            bytes: [0; FIXED_BYTES],
            len: 0,
        }
    }

    /// Appends bytes.
    pub fn put(&mut self, bytes: &[u8])
        requires { length self.old + length bytes.now ≤ FIXED_BYTES }
        ensures { self.new ≡ self.old ++ bytes.now }
    {
        let end = self.len + bytes.len();
        self.bytes[self.len..end].copy_from_slice(bytes);
        self.len = end;
    }

    /// Returns the bytes.
    pub fn as_slice(&self) -> &[u8]
        ensures value { result.now ≡ self.now }
        ensures few { length self.now ≤ FIXED_BYTES }
    {
        &self.bytes[..self.len]
    }
}
