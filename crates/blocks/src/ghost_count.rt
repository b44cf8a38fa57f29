//! A count that only contracts read.
ghost use Rattle.std.specs.Prelude.{◌≡◌, ◌+◌, ℕ};
ghost use Rattle.std.specs.Borrow.{ftrue};

use std::marker::Model;

/// A count of events, like the faults of a store. It takes no bytes, and its calls do nothing when the program runs.
#[derive(Drop)]
pub struct GhostCount {
    pub ghost count: { ℕ },
}

impl Model for GhostCount {
    ghost also_owns = { λ _. ftrue };
}

// It owns nothing.
unsafe impl Send for GhostCount {}

impl GhostCount {
    /// Returns a count of 0.
    pub fn new() -> GhostCount
        ensures { result.count ≡ 0 }
    {
        GhostCount {}
    }

    /// Returns the count that is higher by 1.
    pub fn more(&self) -> GhostCount
        ensures { result.count ≡ self.now.count + 1 }
    {
        GhostCount {}
    }
}
