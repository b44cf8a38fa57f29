//! The source side of a resync: its beginning, the transfer of each block, and its end.
ghost use Rattle.std.specs.Prelude.{◌≡◌, ◌<◌, ◌≤◌, length, false, set, true, Ok, Err, Some, OnOk, MatchResult};
ghost use Rattle.endpoint.specs.Meaning.{meaning, named};
ghost use Rattle.packets.specs.declared.packet.Packet.TheVariants as packet;
ghost use Rattle.primary_core.specs.Kept.{barriers_due};
ghost use Rattle.primary_core.specs.Resyncing.{resync_choice};
ghost use Rattle.primary_core.specs.OutOfMemory.{is_out_of_memory};
ghost use Rattle.primary_core.specs.Take.{resyncing, taken_as};
ghost use Rattle.primary_protocol.specs.Core.{EndState, ending, is_over, is_established};
ghost use Rattle.primary_protocol.specs.Taking.{names_block, taking_ack, without_block};
ghost use Rattle.primary_protocol.specs.Transitions.{copying, next_place};

use crate::item::{ItemKind, StreamItem};
use crate::state::PrimaryCore;
use crate::submit::MOST_ITEMS;
use blocks::{Block, Command, Done, Refusal, What};
use bytes::Bytes;
use packets::Acknowledgement;
use resync::{UnderWay, next};

impl PrimaryCore {
    /// Begins a resync on the established connection, and appends SYNC_UUID to its stream. It takes no memory.
    pub(crate) fn begin_resync(&mut self)
        requires is_established { is_established self.old.state ≡ true }
        requires places { self.old.state.log.epochs.places ≡ 0 }
        requires due { barriers_due self.old.state.log.epochs ≡ 0 }
        requires room { (e : EndState) → self.old.state.end ≡ Some e → 2 ≤ self.old.stream_room }
        ensures { (e : EndState) → self.old.state.end ≡ Some e → self.new.state ≡ resyncing e self.old.state }
    {
        let Some(connection) = &self.connection else {
            return;
        };
        let word = connection.sync;
        self.generations.sync_start(word);
        self.log.uuids();
        if let Some(connection) = &mut self.connection {
            connection.resync.begin();
            // SYNC_UUID is the first item of the stream.
            connection.outbox.clear();
        }
        self.append(ItemKind::SyncUuid(word));
    }

    /// Returns the block that the resync copies next, the lowest marked one that no open write covers, and makes
    /// room for its item and its barrier.
    ///
    /// `NotConnected` (12) if the end is closed; `NothingToDo` (10) if no resync runs, a block is under way, or no
    /// marked block is free; `StreamFull` (6) if the stream has 4,294,967,288 items or more; else `NoMemory` (7) if
    /// there is no room.
    pub fn resync_block(&mut self) -> Result<Block, Refusal>
        ensures block { MatchResult result (λ b. resync_choice false self.old.state ≡ Ok b.0) (λ e. resync_choice (is_out_of_memory result) self.old.state ≡ Err e) }
        ensures same { self.new.state ≡ self.old.state }
        ensures room { OnOk result (3 ≤ self.new.stream_room) }
        ensures log_room { OnOk result (0 < self.new.log_room) }
    {
        self.marks.skip_unmarked();
        let block = self.next_block()?;
        self.make_room()?;
        Ok(block)
    }

    // Returns the block that the resync copies next, as `resync_block` does, but makes no room.
    fn next_block(&self) -> Result<Block, Refusal>
        ensures { MatchResult result (λ b. resync_choice false self.now.state ≡ Ok b.0) (λ e. resync_choice false self.now.state ≡ Err e) }
    {
        let Some(connection) = &self.connection else {
            return Err(Refusal::NotConnected);
        };
        if !connection.resync.is_waiting() {
            return Err(Refusal::NothingToDo);
        }
        let Some(block) = next(&self.marks, &self.held) else {
            return Err(Refusal::NothingToDo);
        };
        if self.log.places() >= MOST_ITEMS {
            return Err(Refusal::StreamFull);
        }
        Ok(block)
    }

    /// Puts the block that `resync_block` chose under way, and appends it to the stream with these bytes, which are
    /// shared. It takes no memory.
    pub fn resync_read(&mut self, block: Block, contents: Bytes) -> Done
        requires chosen { resync_choice false self.old.state ≡ Ok block.0 }
        requires whole { length contents ≡ 4096 }
        requires room { 3 ≤ self.old.stream_room }
        requires log_room { 0 < self.old.log_room }
        ensures { (e : EndState) → self.old.state.end ≡ Some e → (result, self.new.state) ≡ copying block.0 contents e self.old.state }
    {
        let epoch = self.log.epoch();
        let Ok(place) = self.log.place_resync() else {
            return Done::about(What::Nothing);
        };
        if let Some(connection) = &mut self.connection {
            connection.resync.copy(UnderWay {
                block,
                place,
                epoch,
            });
        }
        self.append(ItemKind::Resync(block, contents));
        self.finish_step(What::Block(block, place), None)
    }

    /// Takes the peer's acknowledgement of the block under way. `UnknownAck` (25) if it names anything else, or the
    /// block was not sent.
    pub(crate) fn acknowledge_block(&mut self, ack: Acknowledgement) -> Result<Done, Refusal>
        ensures { (e : EndState) → self.old.state.end ≡ Some e → taken_as result self.new.state ≡ taking_ack (meaning (packet.RsWriteAck ack)) e self.old.state }
    {
        if !self.is_under_way(ack) {
            return Err(Refusal::UnknownAck);
        }
        self.release_block(ack.first);
        let barrier = self.log.resync_acked();
        Ok(self.finish_step(What::Frame(Command::RsWriteAck, None), barrier))
    }

    // Returns whether the acknowledgement names the block under way, and that block was sent.
    fn is_under_way(&self, ack: Acknowledgement) -> bool
        ensures { (e : EndState) → self.now.state.end ≡ Some e → result ≡ names_block (named ack) (next_place e self.now.state) e.under_way }
    {
        let Some(connection) = &self.connection else {
            return false;
        };
        connection.resync.is_under_way(ack.first, ack.place)
            && (ack.number == 0 && ack.count == 1)
            && ack.place < self.next_place()
    }

    // Clears the block's mark and ends its transfer.
    fn release_block(&mut self, block: Block)
        ensures { (e : EndState) → self.old.state.end ≡ Some e → self.new.state ≡ without_block block.0 e self.old.state }
    {
        self.unmark(block);
        if let Some(connection) = &mut self.connection {
            connection.resync.acknowledged();
        }
    }

    // Clears the block's mark.
    fn unmark(&mut self, block: Block)
        ensures { self.new.state ≡ record self.old.state { marks = set self.old.state.marks block.0 false } }
    {
        if block.0 < self.marks.len() {
            self.marks.clear(block);
        }
    }

    /// Returns whether the running resync is over: no block is marked, and none is under way.
    pub(crate) fn is_over(&self) -> bool
        ensures { result ≡ is_over self.now.state }
    {
        match &self.connection {
            Some(connection) => connection.resync.is_waiting() && self.marks.count() == 0,
            None => false,
        }
    }

    /// Ends the resync: moves the bitmap identifier into the history, and appends UUIDS to the stream.
    pub(crate) fn end_resync(&mut self)
        requires over { is_over self.old.state ≡ true }
        ensures { self.new.state ≡ ending self.old.state }
    {
        self.generations.sync_end();
        self.log.uuids();
        if let Some(connection) = &mut self.connection {
            connection.resync.end();
        }
        self.append(ItemKind::Uuids(self.generations.tuple));
    }
}
