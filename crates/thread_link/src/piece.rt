//! Pieces of the bytes that come over a socket: part of a frame, or of several.
ghost use Rattle.std.specs.Prelude.{◌≡◌, ◌<◌, ◌≤◌, length};

use std::marker::Model;

/// The most bytes of a piece: a frame of one block fits in one (this project's choice).
pub const PIECE_BYTES: usize = 4352;

/// 1 to 4,352 bytes, and the number of the connection that they belong to. It is stored inline, and takes no memory.
#[derive(Drop)]
pub struct Piece {
    bytes: [u8; PIECE_BYTES],
    len: usize,
    number: u32,
}

impl Model for Piece {
    ghost use Rattle.std.specs.Prelude.{◌<◌, ◌≤◌, take};
    ghost use Rattle.thread_link.specs.Pieces.{PieceState};
    ghost use Rattle.thread_link.specs.declared.piece.TheConstants.{PIECE_BYTES};

    ghost Value = { PieceState };

    ghost view = { λ p. record { number = p.number; bytes = take p.len p.bytes } };

    ghost invariant = { λ p. (0 < p.len) × (p.len ≤ PIECE_BYTES) };
}

impl Piece {
    /// Creates a piece of a first connection.
    pub fn new(bytes: &[u8]) -> Piece
        requires some { 0 < length bytes.now }
        requires few { length bytes.now ≤ PIECE_BYTES }
        ensures { result ≡ record { number = 1; bytes = bytes.now } }
    {
        Piece::of(1, bytes)
    }

    /// Creates a piece of connection `number`.
    #[inline]
    pub(crate) fn of(number: u32, bytes: &[u8]) -> Piece
        requires some { 0 < length bytes.now }
        requires few { length bytes.now ≤ PIECE_BYTES }
        ensures { result ≡ record { number = number; bytes = bytes.now } }
    {
        let mut held = [0; PIECE_BYTES];
        held[..bytes.len()].copy_from_slice(bytes);
        Piece {
            bytes: held,
            len: bytes.len(),
            number,
        }
    }

    /// Writes another piece over this one.
    #[inline]
    pub(crate) fn write(&mut self, number: u32, bytes: &[u8])
        requires some { 0 < length bytes.now }
        requires few { length bytes.now ≤ PIECE_BYTES }
        ensures { self.new ≡ record { number = number; bytes = bytes.now } }
    {
        self.bytes[..bytes.len()].copy_from_slice(bytes);
        self.len = bytes.len();
        self.number = number;
    }

    /// Returns a copy of the piece.
    pub(crate) fn copied(&self) -> Piece
        ensures { result ≡ self.now }
    {
        Piece {
            bytes: self.bytes,
            len: self.len,
            number: self.number,
        }
    }

    /// Returns its bytes.
    #[inline]
    pub fn bytes(&self) -> &[u8]
        ensures value { result.now ≡ self.now.bytes }
        ensures some { 0 < length self.now.bytes }
        ensures few { length self.now.bytes ≤ PIECE_BYTES }
    {
        &self.bytes[..self.len]
    }

    /// Returns the number of its connection.
    #[inline]
    pub fn number(&self) -> u32
        ensures { result ≡ self.now.number }
    {
        self.number
    }
}
