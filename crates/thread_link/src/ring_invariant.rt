//! Invariants that hold at every moment of a row.

use std::marker::Brand;

/// A fact that holds at every moment of a row, whatever its two ends do. It has no bytes: whoever makes a row picks it.
/// An end whose call is refused knows that the fact held at a moment when the row was full, or empty. Neither end can
/// know the fact from what it did itself: so it has looked at the row.
pub trait RingInvariant {
    ghost use Rattle.std.specs.Prelude.{List, [], ◌∷◌, ◌++◌};
    ghost use Rattle.thread_link.specs.Pieces.{PieceState};

    /// The fact about the pieces pushed and the pieces taken so far.
    ghost holds: { List PieceState → List PieceState → Type 0 };

    /// A push keeps it.
    ghost push_keeps: { (pushed taken : List PieceState) (piece : PieceState) → holds pushed taken → holds (pushed ++ piece ∷ []) taken };

    /// Taking the first piece of the row keeps it.
    ghost take_keeps: { (taken there : List PieceState) (piece : PieceState) → holds (taken ++ piece ∷ there) taken → holds (taken ++ piece ∷ there) (taken ++ piece ∷ []) };
}

/// No invariant: a fact that always holds.
pub struct NoInvariant;

impl RingInvariant for NoInvariant {
    ghost use Rattle.std.specs.Prelude.{⊤};

    ghost holds = { λ pushed taken. ⊤ };

    ghost push_keeps = { λ pushed taken piece held. tt };

    ghost take_keeps = { λ taken there piece held. tt };
}

impl RingInvariant for Brand {
    ghost use Rattle.std.specs.Prelude.{⊤};

    ghost holds = { λ pushed taken. ⊤ };

    ghost push_keeps = { λ pushed taken piece held. tt };

    ghost take_keeps = { λ taken there piece held. tt };
}
