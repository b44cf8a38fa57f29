//! Taking a frame: the peer's hello, and then its acknowledgements.
ghost use Rattle.std.specs.Prelude.{◌≡◌, ◌||◌, Some, None};
ghost use Rattle.blocks.specs.declared.outcome.What.TheVariants as what;
ghost use Rattle.endpoint.specs.Meaning.{named, received};
ghost use Rattle.primary_core.specs.Take.{taken_as};
ghost use Rattle.primary_protocol.specs.Core.{EndState};
ghost use Rattle.primary_protocol.specs.Taking.{answered, confirmed, is_in_epoch, is_unsent, take_at, taking};
ghost use Rattle.primary_protocol.specs.Taking.{named as asked};

use crate::state::PrimaryCore;
use blocks::{Command, Done, Refusal, What};
use packets::{Acknowledgement, Packet};
use transferlog::{AckedWrite, PeerAck};

impl PrimaryCore {
    /// Takes a packet, or the fault that was read in its place.
    ///
    /// `NotConnected` (12) if the end is closed. Every other refusal closes it, with all effects of a close: the
    /// fault (20 to 23); `BadCommand` (21) for a packet that does not belong here; in the hello `OtherProtocol`
    /// (34), `OtherSize` (35), `UsedIdentifier` (33) and the refusals of the decision (30 to 32); after it
    /// `UnknownAck` (25) and `BadBarrierAck` (24). It takes no memory.
    pub fn take(&mut self, frame: Result<Packet, Refusal>) -> Result<Done, Refusal>
        ensures { (result, self.new.state) ≡ take_at (received frame) self.old.state }
    {
        let Some(connection) = &self.connection else {
            return Err(Refusal::NotConnected);
        };
        let loss = connection.loss;
        let taken = self.judge(frame);
        if taken.is_err() {
            self.close_open(loss);
        }
        taken
    }

    // Takes the frame. `take` closes the end if this refuses it.
    fn judge(&mut self, frame: Result<Packet, Refusal>) -> Result<Done, Refusal>
        ensures { (e : EndState) → self.old.state.end ≡ Some e → taken_as result self.new.state ≡ taking (received frame) e self.old.state }
    {
        let packet = frame?;
        if self.log.connection().is_none() {
            return self.take_hello(packet);
        }
        match packet {
            Packet::RecvAck(ack) => self.answer(Command::RecvAck, PeerAck::Received, ack),
            Packet::WriteAck(ack) => self.answer(Command::WriteAck, PeerAck::Written, ack),
            Packet::RsWriteAck(ack) => self.acknowledge_block(ack),
            Packet::BarrierAck { number, size } => self.confirm(number, size),
            _ => Err(Refusal::BadCommand),
        }
    }

    // Takes the peer's answer to a write.
    fn answer(
        &mut self,
        command: Command,
        kind: PeerAck,
        ack: Acknowledgement,
    ) -> Result<Done, Refusal>
        ensures { taken_as result self.new.state ≡ answered (what.Frame command None) kind (named ack) self.old.state }
    {
        let barrier = self.log.acked(kind, as_named(ack))?;
        Ok(self.finish_step(What::Frame(command, None), barrier))
    }

    // Takes the peer's acknowledgement of an epoch. Refuses that of an epoch whose barrier was not sent, or to
    // which the block under way belongs.
    fn confirm(&mut self, number: u32, size: u32) -> Result<Done, Refusal>
        ensures { (e : EndState) → self.old.state.end ≡ Some e → taken_as result self.new.state ≡ confirmed number size e self.old.state }
    {
        if self.is_going_on(number) {
            return Err(Refusal::BadBarrierAck);
        }
        self.log.barrier_acked(number, size)?;
        Ok(self.finish_step(What::Frame(Command::BarrierAck, None), None))
    }

    // Returns whether the epoch's barrier waits to be sent, or the block under way belongs to the epoch.
    fn is_going_on(&self, number: u32) -> bool
        ensures { (e : EndState) → self.now.state.end ≡ Some e → result ≡ (is_unsent number e.unsent || is_in_epoch number e.under_way) }
    {
        match &self.connection {
            Some(connection) => {
                connection.outbox.has_barrier(number) || connection.resync.is_in_epoch(number)
            }
            None => false,
        }
    }
}

// Returns what an acknowledgement names, as the log takes it.
fn as_named(ack: Acknowledgement) -> AckedWrite
    ensures { result ≡ asked (named ack) }
{
    AckedWrite {
        number: ack.number,
        place: ack.place,
        first: ack.first.0,
        count: u64::from(ack.count),
    }
}
