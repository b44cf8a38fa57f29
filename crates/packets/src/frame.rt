//! Frames, the units that go over a link.
ghost use Rattle.std.specs.Prelude.{◌≡◌, ◌<◌, ◌≤◌, ◌↔◌, ◌++◌, drop, length, take, true};
ghost use Rattle.packets.specs.declared.fixed_part.TheConstants.{FIXED_BYTES};

use crate::FixedPart;
use bytes::Bytes;
use std::marker::Model;

/// The bytes before the blocks of a frame that has some.
pub(crate) const FRONT_BYTES: usize = 32;

/// The bytes of one frame of a link. Any bytes are allowed here: who takes the frame checks them.
///
/// A frame of at most 40 bytes, which is each one without blocks, is stored inline and takes no memory. A longer one
/// shares a buffer: that of its blocks, with an inline front before them, or one with all of its bytes.
#[derive(Debug, Drop)]
pub struct Frame {
    held: Held,
}

/// The storage of a frame's bytes.
#[derive(Debug, Drop)]
enum Held {
    Inline(FixedPart),
    Whole(Bytes),
    // The 32 bytes before the blocks, and the blocks.
    Fronted(FixedPart, Bytes),
}

impl Model for Frame {
    ghost use Rattle.std.specs.Prelude.{ℕ, List};

    ghost Value = { List ℕ };

    ghost use Rattle.packets.specs.Held.{IsHeld, held_bytes};

    ghost view = { λ f. held_bytes f.held };

    ghost invariant = { λ f. IsHeld f.held };
}

impl Frame {
    /// Returns a frame of these bytes. It takes no memory.
    pub fn new(bytes: Bytes) -> Frame
        ensures { result ≡ bytes }
    {
        Frame {
            held: Held::Whole(bytes),
        }
    }

    /// Returns a frame of at most 40 bytes. It takes no memory.
    pub fn inline(bytes: &[u8]) -> Frame
        requires { length bytes.now ≤ FIXED_BYTES }
        ensures { result ≡ bytes.now }
    {
        let mut part = FixedPart::new();
        part.put(bytes);
        Frame::of(part)
    }

    /// Returns a frame of bytes that are inline already.
    pub(crate) fn of(part: FixedPart) -> Frame
        ensures { result ≡ part }
    {
        Frame {
            held: Held::Inline(part),
        }
    }

    /// Returns a frame of a front of 32 bytes and of blocks, which it shares. It takes no memory.
    pub(crate) fn fronted(front: FixedPart, blocks: Bytes) -> Frame
        requires front { length front ≡ 32 }
        requires blocks { 8 < length blocks }
        ensures { result ≡ front ++ blocks }
    {
        Frame {
            held: Held::Fronted(front, blocks),
        }
    }

    /// Returns its bytes in two parts. All are in the first part, unless its blocks have a buffer of their own; then
    /// the 32 bytes before them are.
    pub fn parts(&self) -> (&[u8], &[u8])
        ensures bytes { result.0.now ++ result.1.now ≡ self.now }
        ensures front { length self.now ≤ FIXED_BYTES → result.0.now ≡ self.now }
        ensures numbers { take 32 result.0.now ≡ take 32 self.now }
    {
        match &self.held {
            Held::Inline(part) => (part.as_slice(), &[]),
            Held::Whole(bytes) => (bytes.as_slice(), &[]),
            Held::Fronted(front, blocks) => (front.as_slice(), blocks.as_slice()),
        }
    }

    /// Returns whether it has this many bytes.
    pub(crate) fn has_length(&self, count: usize) -> bool
        ensures { result ≡ true ↔ length self.now ≡ count }
    {
        let (front, blocks) = self.parts();
        count.checked_sub(front.len()) == Some(blocks.len())
    }

    /// Returns the bytes of a frame of more than 40 behind its first 32, in the same buffer. It takes no memory.
    pub fn into_blocks(self) -> Bytes
        requires { FIXED_BYTES < length self }
        ensures { result ≡ drop 32 self }
    {
        match self.held {
            Held::Inline(part) => {
                // Proof hint: brings the fact that inline bytes are at most 40 into scope.
                let _ = part.as_slice();
                unreachable!()
            }
            Held::Whole(bytes) => {
                let mut bytes = bytes;
                bytes.advance(FRONT_BYTES);
                bytes
            }
            Held::Fronted(_, blocks) => blocks,
        }
    }
}
