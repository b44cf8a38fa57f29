//! Sending the next frame.
ghost use Rattle.std.specs.Prelude.{◌≡◌, ◌⊎◌, ◌+◌, ◌-◌, ◌<◌, ◌≤◌, ◌∷◌, [], true, drop, length, slice_get, Ok, Err, Some, IsOk, IfOk, IfErr, OnOk, MatchResult};
ghost use Rattle.blocks.specs.declared.refusal.Refusal.TheVariants.{NoMemory};
ghost use Rattle.endpoint.specs.Meaning.{meaning};
ghost use Rattle.packets.specs.Spelling.{IsSpellable};
ghost use Rattle.packets.specs.Table.{has_blocks};
ghost use Rattle.primary_core.specs.Items.{IsSent, item_as};
ghost use Rattle.primary_core.specs.Kept.{owing};
ghost use Rattle.primary_core.specs.Send.{owes_blocks, sent_now};
ghost use Rattle.primary_core.specs.State.{items_in};
ghost use Rattle.handshakes.specs.Hello.{advanced};
ghost use Rattle.primary_protocol.specs.Core.{EndState, appending, with_end};
ghost use Rattle.primary_protocol.specs.Transitions.{due, next_place};

use crate::item::{ItemKind, StreamItem};
use crate::state::PrimaryCore;
use blocks::{Done, Refusal, What};
use packets::Packet;

impl PrimaryCore {
    /// Returns the packet to send next: first those of the hello, then those of the stream. Its bytes are shared.
    ///
    /// `NotConnected` (12) if the end is closed, `NothingThere` (13) if nothing is due, else `NoMemory` (7) if the
    /// packet has blocks and their bytes cannot be shared.
    pub fn due(&self) -> Result<Packet, Refusal>
        ensures due { MatchResult result (λ p. (due self.now.state ≡ Ok (meaning p)) × IsSpellable p) (λ e. (due self.now.state ≡ Err e) ⊎ ((e ≡ NoMemory) × IsOk (due self.now.state))) }
        ensures inline { IfOk result (λ p. has_blocks p ≡ owes_blocks self.now.state) }
        ensures memory { IfErr result (λ e. e ≡ NoMemory → owes_blocks self.now.state ≡ true) }
    {
        let Some(connection) = &self.connection else {
            return Err(Refusal::NotConnected);
        };
        if let Some(packet) = connection.handshake.due(&self.settings) {
            return Ok(packet);
        }
        match connection.outbox.next() {
            Some(item) => item.packet(self.next_place()),
            None => Err(Refusal::NothingThere),
        }
    }

    /// Records that the packet that `due` returns was sent. Under protocol A this may complete a write. It takes no
    /// memory.
    pub fn sent(&mut self) -> Done
        requires { IsOk (due self.old.state) }
        ensures { (result, self.new.state) ≡ sent_now self.old.state }
    {
        let Some(connection) = &self.connection else {
            return Done::about(What::Nothing);
        };
        if let Some(packet) = connection.handshake.due(&self.settings) {
            self.hello_frame_sent();
            return Done::about(What::Frame(packet.command(), None));
        }
        let place = self.next_place();
        let Some(item) = self.pop() else {
            return Done::about(What::Nothing);
        };
        let what = What::Frame(item.command(), Some(place));
        match item.write() {
            Some(number) => {
                let barrier = self.log.sent(number);
                self.finish_step(what, barrier)
            }
            None => Done::about(what),
        }
    }

    // Counts another frame of this node's hello as sent.
    fn hello_frame_sent(&mut self)
        ensures { self.new.state ≡ with_end (λ e. record e { hello_sent = advanced e.hello_sent }) self.old.state }
    {
        if let Some(connection) = &mut self.connection {
            connection.handshake.frame_sent();
        }
    }

    // Removes and returns the first unsent item.
    fn pop(&mut self) -> Option<StreamItem>
        ensures item { result ≡ slice_get (items_in self.old.state.end) 0 }
        ensures state { self.new.state ≡ with_end (λ e. record e { unsent = drop 1 e.unsent }) self.old.state }
    {
        match &mut self.connection {
            Some(connection) => connection.outbox.pop(),
            None => None,
        }
    }

    /// Returns the place of the next item to send.
    pub(crate) fn next_place(&self) -> u32
        ensures { (e : EndState) → self.now.state.end ≡ Some e → result ≡ next_place e self.now.state }
    {
        u64::from(self.log.places()).saturating_sub(self.unsent() as u64) as u32
    }

    /// Makes room for an item, its barrier and the UUIDS of a resync: in the stream, if a connection is open, and
    /// in the log.
    pub(crate) fn make_room(&mut self) -> Result<(), Refusal>
        ensures same { self.new.state ≡ self.old.state }
        ensures room { OnOk result ((e : EndState) → self.new.state.end ≡ Some e → 3 ≤ self.new.stream_room) }
        ensures log_room { OnOk result (0 < self.new.log_room) }
        ensures refused { IfErr result (λ e. e ≡ NoMemory) }
    {
        if let Some(connection) = &mut self.connection {
            connection.outbox.reserve(3)?;
        }
        self.log.reserve()
    }

    /// Appends an item to the stream if a connection is open. Items of every kind are appended by this call. It
    /// takes no memory.
    pub(crate) fn append(&mut self, kind: ItemKind)
        requires sent { IsSent kind }
        requires room { (e : EndState) → self.old.state.end ≡ Some e → 1 + owing None (Some e) self.old.state.log ≤ self.old.stream_room }
        ensures state { self.new.state ≡ appending (item_as kind ∷ []) self.old.state }
        ensures room { self.old.stream_room ≤ 1 + self.new.stream_room }
    {
        match &mut self.connection {
            Some(connection) => connection.outbox.push(StreamItem { kind }),
            None => drop(kind),
        }
    }
}
