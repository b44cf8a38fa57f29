//! Read-only accessors.
ghost use Rattle.std.specs.Prelude.{◌≡◌, ◌==◌, length, is_some};
ghost use Rattle.secondary_protocol.specs.Core.{may_take, whole};
ghost use Rattle.secondary_core.specs.Connections.{is_hello_done};

use crate::state::SecondaryCore;
use blocks::{Refusal, Settings, Tuple};

/// Whether a secondary's data may be used, and up to which epoch they are whole.
#[derive(Clone, Copy, Debug, PartialEq, Eq)]
pub struct Usage {
    /// Whether its data are of the generation that its identifiers name: not while it has none (current 0), and not from SYNC_UUID
    /// to the UUIDS that ends a resync. Such a disk mixes generations, and is not to be used.
    pub consistent: bool,
    /// The last epoch up to whose end every item is applied: 0 if there is none. An item that failed, or was dropped then, is not.
    pub whole: u32,
    /// How many items are taken and not yet applied.
    pub pending: u32,
}

impl SecondaryCore {
    /// Checks whether a frame may be taken: `NotConnected` (12) if the end is closed, else `PendingFull` (18) if as
    /// many items are pending as the settings allow.
    pub fn may_take(&self) -> Result<(), Refusal>
        ensures { result ≡ may_take self.now.state }
    {
        if !self.is_open() {
            return Err(Refusal::NotConnected);
        }
        self.disk.may_put()
    }

    /// Returns whether nothing is pending.
    pub fn is_drained(&self) -> bool
        ensures { result ≡ (length self.now.state.pending == 0) }
    {
        self.disk.is_empty()
    }

    /// Returns whether the data are of the generation that the identifiers name, as `Usage` has it.
    pub fn is_consistent(&self) -> bool
        ensures { result ≡ self.now.state.consistent }
    {
        self.is_consistent
    }

    /// Returns the disk's generation identifiers.
    pub fn tuple(&self) -> Tuple
        ensures { result ≡ self.now.state.tuple }
    {
        self.generations.tuple
    }

    /// Returns whether the end is open.
    pub fn is_open(&self) -> bool
        ensures { result ≡ is_some self.now.state.end }
    {
        self.connection.is_some()
    }

    /// Returns whether the hello is done: the end is open, and has taken three frames and sent three.
    pub fn is_hello_done(&self) -> bool
        ensures { result ≡ is_hello_done self.now.state.end }
    {
        let Some(connection) = &self.connection else {
            return false;
        };
        connection.handshake.is_received() && connection.handshake.is_sent()
    }

    /// Returns the number of the last connection, 0 before the first.
    pub fn connection_number(&self) -> u32
        ensures { result ≡ self.now.state.number }
    {
        self.number
    }

    /// Returns how many items of the last connection's stream were taken.
    pub fn items_taken(&self) -> u32
        ensures { result ≡ self.now.state.intake.places }
    {
        self.inbox.places()
    }

    /// Returns how many writes and resync items of the last connection's stream are applied. An item that the disk
    /// failed does not count, and neither does one that was dropped then.
    pub fn items_applied(&self) -> u32
        ensures { result ≡ self.now.state.items_applied }
    {
        self.items_applied
    }

    /// Returns the settings.
    pub fn settings(&self) -> Settings
        ensures { result ≡ self.now.state.settings }
    {
        self.settings
    }

    /// Returns whether the data may be used, and up to which epoch they are whole.
    pub fn usage(&self) -> Usage
        ensures { result ≡ record { consistent = self.now.state.consistent; whole = whole self.now.state; pending = length self.now.state.pending } }
    {
        Usage {
            consistent: self.is_consistent,
            whole: match (self.failed, self.disk.first_epoch()) {
                (Some(epoch), _) | (None, Some(epoch)) => epoch.saturating_sub(1),
                (None, None) => self.inbox.barriers(),
            },
            pending: self.disk.len() as u32,
        }
    }
}
