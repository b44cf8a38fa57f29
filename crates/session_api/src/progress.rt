//! How far both nodes of a session have come.
ghost use Rattle.std.specs.Prelude.{◌≡◌, ◌&&◌, ◌||◌, Bool};
ghost use Rattle.model.specs.Primary.{PrimaryHistory};
ghost use Rattle.model.specs.Secondary.{SecondaryHistory};
ghost use Rattle.node_lines.specs.Progress.{PrimaryShows, SecondaryShows, has_taken, is_quiet, sent_items};

use node_lines::{PrimaryProgress, SecondaryProgress};

/// How far both nodes of a session have come, each at a moment of its own.
#[derive(Clone, Copy, Debug)]
pub struct Progress {
    pub primary: PrimaryProgress,
    pub secondary: SecondaryProgress,
}

impl Progress {
    /// Returns whether the link has nothing more to do. The primary's end is closed, or its connection is established, no block is
    /// marked, every epoch is acknowledged, and no item waits to be sent; and then the secondary's end is closed, or it has taken all
    /// that was sent, the identifiers that end a resync too.
    pub fn is_quiet(&self) -> bool
        ensures { (h : PrimaryHistory) (is_doubted : Bool) (g : SecondaryHistory) → PrimaryShows self.now.primary h → SecondaryShows is_doubted self.now.secondary g
            → result ≡ (is_quiet h && has_taken (sent_items h) g) }
    {
        self.primary.is_quiet && self.secondary.has_taken(self.primary.sent)
    }

    /// Returns whether a call of a metadata file has failed. Then the link is down and stays so, and writes to extents that are not
    /// entered are refused.
    pub fn is_metadata_broken(&self) -> bool
        ensures { result ≡ (self.now.primary.is_metadata_broken || self.now.secondary.is_metadata_broken) }
    {
        self.primary.is_metadata_broken || self.secondary.is_metadata_broken
    }
}
