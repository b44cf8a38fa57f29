//! The target side of a resync. The disk's identifiers change only here.
ghost use Rattle.std.specs.Prelude.{◌≡◌};
ghost use Rattle.packets.specs.Spelling.{IsSpellable};
ghost use Rattle.packets.specs.declared.packet.Packet.TheVariants as packet;
ghost use Rattle.endpoint.specs.Meaning.{meaning};
ghost use Rattle.secondary_core.specs.Receiving.{MayTake, item_at};

use crate::item::PendingItem;
use crate::state::SecondaryCore;
use blocks::{Block, Command, Refusal, Tuple, What};
use bytes::Bytes;

impl SecondaryCore {
    // Takes SYNC_UUID, the first item of a stream: until the resync is over the data are of no generation.
    pub(crate) fn resync_begins(&mut self, word: u64) -> Result<What, Refusal>
        requires { MayTake self.old }
        ensures { (result, self.new.state) ≡ item_at (meaning (packet.SyncUuid word)) self.old.state.end self.old.state }
    {
        if self.inbox.places() != 0 || word == 0 {
            return Err(Refusal::BadField);
        }
        self.inbox.resync(true);
        self.generations.sync_target_start(word);
        self.is_consistent = false;
        self.is_ready = false;
        Ok(What::Frame(Command::SyncUuid, Some(0)))
    }

    pub(crate) fn resync_block(
        &mut self,
        first: Block,
        at: u32,
        contents: Bytes,
    ) -> Result<What, Refusal>
        requires may { MayTake self.old }
        requires spellable { IsSpellable (packet.RsDataReply first at contents) }
        ensures { (result, self.new.state) ≡ item_at (meaning (packet.RsDataReply first at contents)) self.old.state.end self.old.state }
    {
        let range = self.next_range(at, first, 1)?;
        if !self.inbox.is_resync() || !self.inbox.is_apart(range) {
            return Err(Refusal::BadField);
        }
        self.admit(PendingItem::resync(range, contents));
        Ok(What::Frame(Command::RsDataReply, Some(at)))
    }

    // Takes UUIDS after the hello: from here on the data are those of the primary.
    pub(crate) fn resync_ends(&mut self, tuple: Tuple) -> Result<What, Refusal>
        requires { MayTake self.old }
        ensures { (result, self.new.state) ≡ item_at (meaning (packet.Uuids tuple)) self.old.state.end self.old.state }
    {
        if !self.inbox.has_place() || !self.inbox.is_resync() {
            return Err(Refusal::BadField);
        }
        let place = self.inbox.places();
        self.inbox.resync(false);
        self.generations.adopt(tuple);
        self.is_consistent = true;
        self.is_ready = false;
        Ok(What::Frame(Command::Uuids, Some(place)))
    }
}
