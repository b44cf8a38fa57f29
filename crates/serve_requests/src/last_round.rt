//! The number of a round of syncing, as a request takes it.
ghost use Rattle.std.specs.Prelude.{◌≡◌};

use crate::done::Done;
use std::marker::Model;
use std::sync::atomic::{AtomicU64, Ordering};

/// The last round of syncing that had begun once writes of a request were complete, and how many these were. So the sync of each
/// later round began after they were.
#[derive(Debug, Drop)]
pub(crate) struct LastRound {
    round: u64,
    writes: usize,
}

impl Model for LastRound {
    ghost use Rattle.serve_requests.specs.Rounds.{LastRoundState};

    ghost Value = { LastRoundState };

    ghost view = { λ l. record { round = l.round; writes = l.writes } };
}

impl LastRound {
    /// Reads the number of the last round that has begun, once these writes are complete.
    pub(crate) fn after(done: Done, begun: &AtomicU64) -> LastRound
        ensures { result.writes ≡ done.writes }
    {
        LastRound {
            round: begun.load(Ordering::SeqCst),
            writes: done.writes(),
        }
    }

    /// Returns the number of the round.
    pub(crate) fn round(&self) -> u64
        ensures { result ≡ self.now.round }
    {
        self.round
    }
}
