//! The last writes of all blocks, which only contracts read.
ghost use Rattle.std.specs.Prelude.{◌≡◌, ℕ, List, replicate};
ghost use Rattle.std.specs.Borrow.{ftrue};
ghost use Rattle.transferlog.specs.Log.{with_last_write};

use blocks::Range;
use std::marker::Model;

/// For each block of a device the number of the last write to it, 0 if there is none. It takes no bytes, and its
/// calls do nothing when the program runs.
#[derive(Drop)]
pub(crate) struct GhostNumbers {
    pub ghost numbers: { List ℕ },
}

impl Model for GhostNumbers {
    ghost also_owns = { λ _. ftrue };
}

// It owns nothing.
unsafe impl Send for GhostNumbers {}

impl GhostNumbers {
    /// Returns the numbers of a device of `_blocks` blocks without a write.
    pub(crate) fn new(_blocks: &u32) -> GhostNumbers
        ensures { result.numbers ≡ replicate _blocks.now 0 }
    {
        GhostNumbers {}
    }

    /// Returns the numbers after write `_number` has covered the range.
    pub(crate) fn with(&self, _range: &Range, _number: &u64) -> GhostNumbers
        ensures { result.numbers ≡ with_last_write _number.now _range.now.first.0 _range.now.count self.now.numbers }
    {
        GhostNumbers {}
    }
}
