//! That the images are on stable storage.
ghost use Rattle.std.specs.Prelude.{◌≡◌, is_none, IfSome};
ghost use Rattle.image_store.specs.declared.sync_handle.Disk.TheVariants.{Local, Peer};

use image_store::SyncedAll;
use std::marker::Model;

/// That the local image is on stable storage, and the peer's too unless the mirror goes on without it, with all that a round of
/// syncing waits for. It is made of what a sync of the local image left, or shared by one that was. It cannot be copied otherwise.
#[derive(Debug, Drop)]
pub struct Stored {
    round: u64,
    is_alone: bool,
}

impl Model for Stored {
    ghost use Rattle.serve_requests.specs.Stored.{StoredState};

    ghost Value = { StoredState };

    ghost view = { λ s. record { round = s.round; is_alone = s.is_alone } };
}

impl Stored {
    /// Creates what a sync of the local image, and one of the peer's if there was one, leave for their round.
    pub(crate) fn of(local: SyncedAll, peer: Option<SyncedAll>) -> Stored
        requires local { local.disk ≡ Local }
        requires peer { IfSome peer (λ synced. synced.disk ≡ Peer) }
        requires same { IfSome peer (λ synced. synced.round ≡ local.round) }
        ensures { result ≡ record { round = local.round; is_alone = is_none peer } }
    {
        Stored {
            round: local.round(),
            is_alone: peer.is_none(),
        }
    }

    /// Returns the same for another request that waits for an earlier round.
    pub(crate) fn share(&self) -> Stored
        ensures { result ≡ self.now }
    {
        Stored {
            round: self.round,
            is_alone: self.is_alone,
        }
    }

    /// Returns the last round that it does for.
    pub(crate) fn round(&self) -> u64
        ensures { result ≡ self.now.round }
    {
        self.round
    }

    /// Returns whether the local image alone is on stable storage.
    pub(crate) fn is_alone(&self) -> bool
        ensures { result ≡ self.now.is_alone }
    {
        self.is_alone
    }
}
