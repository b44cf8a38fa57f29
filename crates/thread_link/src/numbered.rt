//! Whole frames in a row.
ghost use Rattle.std.specs.Prelude.{◌≡◌, ◌<◌, ◌≤◌, ◌++◌, length};
ghost use Rattle.packets.specs.declared.cutting.TheConstants.{MAX_FRAME_BYTES};

use packets::Frame;
use std::marker::Model;

/// A frame of 1 to 131,104 bytes, and the number of the connection that it belongs to. It goes through a row as it is: none of its
/// bytes is copied.
#[derive(Drop)]
pub struct Numbered {
    number: u32,
    frame: Frame,
}

impl Model for Numbered {
    ghost use Rattle.std.specs.Prelude.{◌<◌, ◌≤◌, length};
    ghost use Rattle.packets.specs.declared.cutting.TheConstants.{MAX_FRAME_BYTES};
    ghost use Rattle.thread_link.specs.Pieces.{PieceState};

    ghost Value = { PieceState };

    ghost view = { λ n. record { number = n.number; bytes = n.frame } };

    ghost invariant = { λ n. (0 < length n.frame) × (length n.frame ≤ MAX_FRAME_BYTES) };
}

impl Numbered {
    /// Gives a frame the number of its connection.
    pub(crate) fn new(number: u32, frame: Frame) -> Numbered
        requires some { 0 < length frame }
        requires few { length frame ≤ MAX_FRAME_BYTES }
        ensures { result ≡ record { number = number; bytes = frame } }
    {
        Numbered { number, frame }
    }

    /// Returns the number of its connection.
    #[inline]
    pub(crate) fn number(&self) -> u32
        ensures { result ≡ self.now.number }
    {
        self.number
    }

    /// Returns its bytes in two parts.
    #[inline]
    pub(crate) fn parts(&self) -> (&[u8], &[u8])
        ensures bytes { result.0.now ++ result.1.now ≡ self.now.bytes }
        ensures some { 0 < length self.now.bytes }
        ensures few { length self.now.bytes ≤ MAX_FRAME_BYTES }
    {
        self.frame.parts()
    }

    /// Returns the frame.
    #[inline]
    pub(crate) fn frame(&self) -> &Frame
        ensures { result.now ≡ self.now.bytes }
    {
        &self.frame
    }

    /// Returns the frame without the number.
    #[inline]
    pub(crate) fn into_frame(self) -> Frame
        ensures { result ≡ self.bytes }
    {
        self.frame
    }
}
