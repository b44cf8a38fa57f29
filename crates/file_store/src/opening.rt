//! What the images held when they were opened.
ghost use Rattle.std.specs.Prelude.{ℕ, List, []};

/// What each block of each image held when it was opened, by the image's path. Nothing but proofs can name it: a function over
/// `X: OpeningContents` does the same whatever they held, and its contract is of them all.
pub trait OpeningContents: Drop {
    ghost held: { List ℕ → ℕ → List ℕ };
}

/// The contents that a program names, since it has to name some.
#[derive(Drop)]
pub struct AnyContents;

impl OpeningContents for AnyContents {
    ghost held = { λ _ _. [] };
}
