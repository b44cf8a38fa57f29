//! The rest of a sheet that was taken in part.
ghost use Rattle.std.specs.Prelude.{◌≡◌, ◌<◌, ◌≤◌, ◌++◌, drop, length};
ghost use Rattle.packets.specs.declared.cutting.TheConstants.{MAX_FRAME_BYTES};
ghost use Rattle.thread_link.specs.Inward.{behind, kept_piece};
ghost use Rattle.thread_link.specs.Row.{piece_of};

use crate::numbered::Numbered;
use crate::{Piece, Sheet};
use std::marker::Model;

/// The contents of a sheet, and how many bytes were taken from their front.
#[derive(Drop)]
pub(crate) struct Rest {
    of: Kept,
    used: usize,
}

/// What a sheet held: a copy of its piece, since its page goes back to the row, or its frame.
#[derive(Drop)]
enum Kept {
    Copied(Piece),
    Whole(Numbered),
}

impl Model for Rest {
    ghost use Rattle.std.specs.Prelude.{◌≤◌, length};
    ghost use Rattle.thread_link.specs.Pieces.{PieceState};
    ghost use Rattle.thread_link.specs.Inward.{kept_piece, behind};

    ghost Value = { PieceState };

    ghost view = { λ r. behind r.used (kept_piece r.of) };

    ghost invariant = { λ r. r.used ≤ length (kept_piece r.of).bytes };
}

impl Rest {
    /// Returns the rest of a sheet after its first `used` bytes, and the sheet's page if it has one.
    #[cold]
    pub(crate) fn of(sheet: Sheet, used: usize) -> (Rest, Option<Box<Piece>>)
        requires { used ≤ length (piece_of sheet).bytes }
        ensures { result.0 ≡ behind used (piece_of sheet) }
    {
        match sheet {
            Sheet::Written(page) => {
                let of = Kept::Copied(page.copied());
                (Rest { of, used }, Some(page))
            }
            Sheet::Whole(numbered) => {
                let of = Kept::Whole(numbered);
                (Rest { of, used }, None)
            }
        }
    }

    /// Returns the number of its connection.
    #[inline]
    pub(crate) fn number(&self) -> u32
        ensures { result ≡ self.now.number }
    {
        match &self.of {
            Kept::Copied(piece) => piece.number(),
            Kept::Whole(numbered) => numbered.number(),
        }
    }

    /// Returns the remaining bytes in two parts.
    pub(crate) fn parts(&self) -> (&[u8], &[u8])
        ensures { result.0.now ++ result.1.now ≡ self.now.bytes }
    {
        let (first, second) = self.of.parts();
        if self.used <= first.len() {
            (&first[self.used..], second)
        } else {
            (&[], &second[self.used - first.len()..])
        }
    }

    /// Takes `count` bytes from the front.
    pub(crate) fn advance(&mut self, count: usize)
        requires { count ≤ length self.old.bytes }
        ensures { self.new ≡ record self.old { bytes = drop count self.old.bytes } }
    {
        // None has more bytes than the longest frame.
        let _ = self.of.parts();
        self.used += count;
    }
}

impl Kept {
    /// Returns all of its bytes in two parts.
    fn parts(&self) -> (&[u8], &[u8])
        ensures bytes { result.0.now ++ result.1.now ≡ (kept_piece self.now).bytes }
        ensures few { length (kept_piece self.now).bytes ≤ MAX_FRAME_BYTES }
    {
        match self {
            Kept::Copied(piece) => (piece.bytes(), &[]),
            Kept::Whole(numbered) => numbered.parts(),
        }
    }
}
