//! The numbers of a caller's own writes, for clauses alone.
ghost use Rattle.std.specs.Prelude.{◌≡◌, ℕ, List, [], ◌++◌};
ghost use Rattle.std.specs.Borrow.{ftrue};

use std::marker::{Model, PhantomData};

/// A list of numbers that only clauses read. It takes no bytes, and its calls do nothing when the program runs.
#[derive(Drop)]
pub struct OwnNumbers {
    marker: PhantomData<u64>,
    pub ghost numbers: { List ℕ },
}

impl Model for OwnNumbers {
    ghost also_owns = { λ _. ftrue };
}

// It owns nothing.
unsafe impl Send for OwnNumbers {}

impl OwnNumbers {
    pub(crate) fn new() -> OwnNumbers
        ensures { result.numbers ≡ [] }
    {
        OwnNumbers {
            marker: PhantomData,
        }
    }

    /// Adds these numbers at the end.
    pub(crate) fn add(&mut self, _numbers: &[u64])
        ensures { self.new.numbers ≡ self.old.numbers ++ _numbers.now }
    {}
}
