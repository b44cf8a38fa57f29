//! That the writes of a request are complete.
ghost use Rattle.std.specs.Prelude.{◌≡◌, ◌+◌, ◌≤◌, length};

use primary::Receipt;
use std::marker::Model;

/// That this many writes which were begun are complete. `complete_all` makes one of their receipts, and `nothing` is that of a
/// request which has begun no write yet. It cannot be copied.
#[derive(Debug, Drop)]
pub(crate) struct Done {
    writes: usize,
}

impl Model for Done {
    ghost use Rattle.serve_requests.specs.Rounds.{DoneState};

    ghost Value = { DoneState };

    ghost view = { λ d. record { writes = d.writes } };
}

impl Done {
    /// Creates it for no write.
    pub(crate) fn nothing() -> Done
        ensures { result.writes ≡ 0 }
    {
        Done { writes: 0 }
    }

    /// Creates it for as many writes as have their receipts after the first `earlier` ones.
    pub(crate) fn by_receipts(receipts: &Vec<Receipt>, earlier: usize) -> Done
        requires { earlier ≤ length receipts.now.items }
        ensures { earlier + result.writes ≡ length receipts.now.items }
    {
        Done {
            writes: receipts.len() - earlier,
        }
    }

    /// Returns how many writes are complete.
    pub(crate) fn writes(&self) -> usize
        ensures { result ≡ self.now.writes }
    {
        self.writes
    }
}
