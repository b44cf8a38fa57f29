//! Sheets, the contents of the slots of a row.
ghost use Rattle.std.specs.Prelude.{◌≡◌, ◌<◌, ◌≤◌, ◌++◌, length};
ghost use Rattle.packets.specs.declared.cutting.TheConstants.{MAX_FRAME_BYTES};
ghost use Rattle.thread_link.specs.Row.{piece_of};

use crate::Piece;
use crate::numbered::Numbered;

/// What a slot of a row holds: a piece that is written on a page of the row, or a whole frame.
#[derive(Drop)]
pub enum Sheet {
    /// A piece, in its own allocation. It is written and read in place, so that none of its bytes moves as it goes through a row.
    Written(Box<Piece>),
    /// A frame.
    Whole(Numbered),
}

impl Sheet {
    /// Returns the number of its connection.
    #[inline]
    pub(crate) fn number(&self) -> u32
        ensures { result ≡ (piece_of self.now).number }
    {
        match self {
            Sheet::Written(piece) => piece.number(),
            Sheet::Whole(numbered) => numbered.number(),
        }
    }

    /// Returns its bytes in two parts.
    #[inline]
    pub fn parts(&self) -> (&[u8], &[u8])
        ensures bytes { result.0.now ++ result.1.now ≡ (piece_of self.now).bytes }
        ensures some { 0 < length (piece_of self.now).bytes }
        ensures few { length (piece_of self.now).bytes ≤ MAX_FRAME_BYTES }
    {
        match self {
            Sheet::Written(piece) => (piece.bytes(), &[]),
            Sheet::Whole(numbered) => numbered.parts(),
        }
    }

    /// Returns how many bytes it has.
    #[inline]
    pub(crate) fn len(&self) -> usize
        ensures value { result ≡ length (piece_of self.now).bytes }
        ensures some { 0 < result }
    {
        let (first, second) = self.parts();
        first.len() + second.len()
    }

    /// Returns its page, which can go back to the row, and drops a frame.
    #[inline]
    pub(crate) fn into_page(self) -> Option<Box<Piece>> {
        match self {
            Sheet::Written(page) => Some(page),
            Sheet::Whole(_) => None,
        }
    }
}
