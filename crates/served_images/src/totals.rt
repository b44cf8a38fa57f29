//! The results of a server's sessions.
ghost use Rattle.std.specs.Prelude.{◌≡◌};
ghost use Rattle.served_images.specs.Ends.{results};
ghost use Rattle.served_images.specs.Sessions.{counted};

use program_values::Results;
use settlement::Confirmed;

/// The results of a server's sessions.
#[derive(Clone, Copy, Debug, PartialEq, Eq)]
pub struct Totals {
    /// Writes that were completed.
    pub completed: u64,
    /// Receipts that the settlements confirmed.
    pub confirmed: u64,
    /// Blocks that were marked after the last session: the peer's image may not have them.
    pub marked: u32,
}

impl Totals {
    /// The results before the first session.
    pub const NOTHING: Totals = Totals {
        completed: 0,
        confirmed: 0,
        marked: 0,
    };

    /// Returns the results that are printed, where the disks were compared with this many unmarked differences, or not.
    pub fn results(&self, unmarked: Option<u32>) -> Results
        ensures { result ≡ results self.now unmarked }
    {
        Results {
            completed: self.completed,
            settled: self.confirmed,
            unmarked,
        }
    }

    /// Adds the results of one session, after which this many blocks are marked.
    pub fn with_session(&self, completed: usize, session: Confirmed, marked: u32) -> Totals
        ensures completed { result.completed ≡ counted self.now.completed completed }
        ensures confirmed { result.confirmed ≡ counted self.now.confirmed session.confirmed }
        ensures last { result.marked ≡ marked }
    {
        Totals {
            completed: self.completed.saturating_add(completed as u64),
            confirmed: self.confirmed.saturating_add(session.confirmed),
            marked,
        }
    }
}
