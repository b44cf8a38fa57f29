//! Taking a frame.
ghost use Rattle.std.specs.Prelude.{◌≡◌, ◌+◌, ◌<◌, ◌≤◌, true, false, length, Ok, Err, IsOk, IfOk, IfErr, OnOk, OnErr, MatchResult};
ghost use Rattle.blocks.specs.declared.refusal.Refusal.TheVariants.{BadField, NoMemory};
ghost use Rattle.packets.specs.Spelling.{IsSpellable};
ghost use Rattle.packets.specs.declared.packet.Packet.TheVariants as packet;
ghost use Rattle.model.specs.Stream.{contents_of, first_of};
ghost use Rattle.endpoint.specs.Meaning.{meaning, received};
ghost use Rattle.secondary_protocol.specs.Core.{may_take, take_at};
ghost use Rattle.secondary_core.specs.Receiving.{MayTake, admitted, is_next, item_at, judged_at};

use crate::connection::Connection;
use crate::handshake::take_hello_frame;
use crate::item::{PendingItem, whole_blocks};
use crate::send::acknowledge;
use crate::state::SecondaryCore;
use blocks::{Block, Command, Done, Range, Refusal, What};
use bytes::Bytes;
use packets::Packet;

impl SecondaryCore {
    /// Makes room for all that taking one frame, and the later steps of its item, may need, so that none of these
    /// takes memory. `NoMemory` (7) if there is none; then nothing changes.
    pub fn ready(&mut self) -> Result<(), Refusal>
        ensures ready { OnOk result (self.new ≡ record self.old { is_ready = true }) }
        ensures unchanged { OnErr result (self.new ≡ self.old) }
        ensures refused { IfErr result (λ e. e ≡ NoMemory) }
    {
        self.disk.reserve(self.inbox.places())?;
        if let Some(connection) = &mut self.connection {
            connection.outbox.reserve(self.disk.len())?;
        }
        self.is_ready = true;
        Ok(())
    }

    /// Takes a frame: a packet, or the fault that was read in its place (20 to 23).
    ///
    /// Each refusal is a protocol error: the frame counts as taken, and the end closes. In the hello these are
    /// `OtherProtocol` (34), `OtherSize` (35), and `BadCommand` (21) for every frame but the next one. After it
    /// `BadCommand` comes for a frame that is no item, and `BadField` (23) for an item that may not come at the
    /// next place: it names another place; its blocks are not 1 to 32 of the device and of one extent, or the last
    /// epoch has one of them; the number of a write does not rise; a barrier is not the next; a resync begins
    /// elsewhere than at place 0, or with the identifier 0; or an item of a resync comes while none runs (this
    /// project's rules). It takes no memory.
    pub fn take(&mut self, frame: Result<Packet, Refusal>) -> Result<Done, Refusal>
        requires may_take { IsOk (may_take self.old.state) }
        requires ready { self.old.is_ready ≡ true }
        requires spellable { IfOk frame IsSpellable }
        ensures { (result, self.new.state) ≡ take_at (received frame) self.old.state.end self.old.state }
    {
        match self.judge(frame) {
            Ok(what) => Ok(Done::about(what)),
            Err(refusal) => {
                self.connection = None;
                Err(refusal)
            }
        }
    }

    // Takes the frame and returns its name. A refused frame changes nothing.
    fn judge(&mut self, frame: Result<Packet, Refusal>) -> Result<What, Refusal>
        requires may { MayTake self.old }
        requires spellable { IfOk frame IsSpellable }
        ensures { (result, self.new.state) ≡ judged_at (received frame) self.old.state.end self.old.state }
    {
        let packet = frame?;
        let Some(Connection { handshake, .. }) = &mut self.connection else {
            return Err(Refusal::NotConnected);
        };
        if handshake.is_received() {
            return self.item(packet);
        }
        let command = take_hello_frame(handshake, &packet, &self.settings)?;
        Ok(What::Frame(command, None))
    }

    // Takes an item of the stream at the next place.
    fn item(&mut self, packet: Packet) -> Result<What, Refusal>
        requires may { MayTake self.old }
        requires spellable { IsSpellable packet }
        ensures { (result, self.new.state) ≡ item_at (meaning packet) self.old.state.end self.old.state }
    {
        match packet {
            Packet::Data {
                first,
                number,
                place,
                contents,
            } => self.write(first, number, place, contents),
            Packet::RsDataReply {
                first,
                place,
                contents,
            } => self.resync_block(first, place, contents),
            Packet::Barrier { number } => self.barrier(number),
            Packet::SyncUuid { word } => self.resync_begins(word),
            Packet::Uuids(tuple) => self.resync_ends(tuple),
            _ => Err(Refusal::BadCommand),
        }
    }

    fn write(
        &mut self,
        first: Block,
        number: u64,
        at: u32,
        contents: Bytes,
    ) -> Result<What, Refusal>
        requires may { MayTake self.old }
        requires spellable { IsSpellable (packet.Data first number at contents) }
        ensures { (result, self.new.state) ≡ item_at (meaning (packet.Data first number at contents)) self.old.state.end self.old.state }
    {
        let range = self.next_range(at, first, whole_blocks(&contents))?;
        if !self.inbox.is_rising(number) || !self.inbox.is_apart(range) {
            return Err(Refusal::BadField);
        }
        self.admit(PendingItem::write(number, range, contents));
        Ok(What::Frame(Command::Data, Some(at)))
    }

    // Returns the blocks of an item that names place `at`. `BadField` (23) if that is not the next place, or these
    // are not 1 to 32 blocks of the device and of one extent.
    pub(crate) fn next_range(&self, at: u32, first: Block, count: u64) -> Result<Range, Refusal>
        ensures { MatchResult result
            (λ range. (is_next at first.0 count self.now.state ≡ true) × (range.first.0 ≡ first.0) × (range.count ≡ count))
            (λ e. (is_next at first.0 count self.now.state ≡ false) × (e ≡ BadField)) }
    {
        if at != self.inbox.places() || !self.inbox.has_place() {
            return Err(Refusal::BadField);
        }
        Range::new(first.0, count, self.settings.blocks).or(Err(Refusal::BadField))
    }

    // Makes an item with blocks pending for the disk, and its receipt due if the protocol asks for one.
    pub(crate) fn admit(&mut self, item: PendingItem)
        requires may { MayTake self.old }
        requires place { self.old.state.intake.places < 4294967295 }
        requires some { 0 < length (contents_of item) }
        requires inside { first_of item + length (contents_of item) ≤ self.old.state.settings.blocks }
        ensures { self.new.state ≡ admitted item self.old.state }
    {
        let place = self.inbox.places();
        let epoch = self.inbox.epoch();
        let receipt = item.receipt(self.settings.protocol, place);
        self.inbox.item(&item);
        // The disk has room for it.
        let _ = self.disk.put(place, epoch, item);
        acknowledge(&mut self.connection, receipt, &self.disk);
        self.is_ready = false;
    }

    fn barrier(&mut self, number: u32) -> Result<What, Refusal>
        requires { MayTake self.old }
        ensures { (result, self.new.state) ≡ item_at (meaning (packet.Barrier number)) self.old.state.end self.old.state }
    {
        if !self.inbox.has_place() || number != self.inbox.epoch() {
            return Err(Refusal::BadField);
        }
        let Some(Connection { outbox, .. }) = &mut self.connection else {
            return Err(Refusal::NotConnected);
        };
        let place = self.inbox.places();
        outbox.ended(self.inbox.barrier());
        acknowledge(&mut self.connection, None, &self.disk);
        self.is_ready = false;
        Ok(What::Frame(Command::Barrier, Some(place)))
    }
}
