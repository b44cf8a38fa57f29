//! Opening a connection.
ghost use Rattle.std.specs.Prelude.{◌≡◌, false};
ghost use Rattle.blocks.specs.Identifiers.{are_fresh, is_fresh};
ghost use Rattle.primary_core.specs.OutOfMemory.{is_out_of_memory};
ghost use Rattle.primary_core.specs.Submit.{result_of_tests};
ghost use Rattle.primary_protocol.specs.Transitions.{known_tuples, open_end, open_tests};

use crate::connection::Connection;
use crate::outbox::Outbox;
use crate::state::PrimaryCore;
use blocks::Refusal;
use generations::fresh;
use handshakes::Handshake;
use resync::Resync;

impl PrimaryCore {
    /// Opens the end, with one word for a resync and one for the loss of the connection.
    ///
    /// `NotDrained` (36) if it is open; `UsedIdentifier` (33) if a word is zero or is in a known tuple, or if both
    /// are equal; `StreamFull` (6) if 4,294,967,295 connections were opened; else `NoMemory` (7) if there is no
    /// room for the SYNC_UUID and the UUIDS of a resync.
    pub fn open(&mut self, sync: u64, loss: u64) -> Result<(), Refusal>
        ensures { (result, self.new.state) ≡ open_end sync loss (is_out_of_memory result) self.old.state }
    {
        self.may_open(sync, loss)?;
        let mut outbox = Outbox::new(self.alloc);
        outbox.reserve(3)?;
        self.connections += 1;
        self.connection = Some(Connection {
            sync,
            loss,
            handshake: Handshake::new(self.generations.tuple),
            outbox,
            resync: Resync::new(),
        });
        Ok(())
    }

    /// Checks whether `open` would accept these words, except for memory: `NotDrained` (36), `UsedIdentifier` (33)
    /// and `StreamFull` (6) as for `open`. It changes nothing, and takes no memory.
    pub fn may_open(&self, sync: u64, loss: u64) -> Result<(), Refusal>
        ensures { result ≡ result_of_tests (open_tests sync loss false self.now.state) }
    {
        if self.connection.is_some() {
            return Err(Refusal::NotDrained);
        }
        if !self.are_fresh(sync, loss) {
            return Err(Refusal::UsedIdentifier);
        }
        if self.connections == u32::MAX {
            return Err(Refusal::StreamFull);
        }
        Ok(())
    }

    fn are_fresh(&self, sync: u64, loss: u64) -> bool
        ensures { result ≡ are_fresh sync loss (known_tuples self.now.state) }
    {
        self.is_fresh(sync) && self.is_fresh(loss) && sync != loss
    }

    fn is_fresh(&self, word: u64) -> bool
        ensures { result ≡ is_fresh word (known_tuples self.now.state) }
    {
        let own = self.generations.tuple;
        match self.peer {
            Some(peer) => fresh(word, &[own, peer]).is_ok(),
            None => fresh(word, &[own]).is_ok(),
        }
    }
}
