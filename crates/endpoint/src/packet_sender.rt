//! The sending side.
ghost use Rattle.std.specs.Prelude.{length, min, ◌≡◌, ◌≢◌, ◌<◌, ◌∷◌, [], true, None, OnOk, OnErr, IfErr, IfSome, IsErr};
ghost use Rattle.packets.specs.Spelling.{IsSpellable, spelling};
ghost use Rattle.packets.specs.Table.{has_blocks};
ghost use Rattle.endpoint.specs.Meaning.{meaning};
ghost use Rattle.endpoint.specs.PacketSender.{IsOutgoing, outgoing, with_pushed, pushing_anew};
ghost use Rattle.blocks.specs.declared.refusal.Refusal.TheVariants.{NoMemory, LinkFull};

use blocks::Refusal;
use link::FrameOut;
use packets::{Packet, encode};
use std::marker::Model;

/// Sends packets through an end of a link.
#[derive(Drop)]
pub struct PacketSender<O: FrameOut> {
    pub(crate) end: O,
    // How many packets were pushed on the current connection, as far as 64 bits count.
    pub(crate) count: u64,
}

impl<O: FrameOut> Model for PacketSender<O> {
    ghost use Rattle.endpoint.specs.PacketSender.{PacketSenderState, IsOutgoing, outgoing};

    ghost Value = { PacketSenderState };

    ghost view = { λ e. outgoing (O.state e.end) };

    ghost invariant = { λ e. IsOutgoing e.count (O.state e.end) };
}

impl<O: FrameOut> PacketSender<O> {
    /// Creates a sender over an end that has sent nothing yet.
    pub fn new(end: O) -> PacketSender<O>
        requires unused { (O.state end).sent ≡ [] }
        requires first { (O.state end).past ≡ [] }
        requires whole { (O.state end).partly ≡ None }
        ensures { result ≡ outgoing (O.state end) }
    {
        PacketSender { end, count: 0 }
    }

    /// Returns the end of the link, and how many packets were pushed on the current connection, as far as 64 bits
    /// count.
    pub fn into_end(self) -> (O, u64)
        ensures same { self ≡ outgoing (O.state result.0) }
        ensures spelled { IsOutgoing result.1 (O.state result.0) }
    {
        (self.end, self.count)
    }

    /// Creates a sender over an end through which encoded packets went, as `into_end` returns it.
    pub fn over(end: O, count: u64) -> PacketSender<O>
        requires spelled { IsOutgoing count (O.state end) }
        ensures { result ≡ outgoing (O.state end) }
    {
        PacketSender { end, count }
    }

    /// Sends a packet. `NoMemory` (7) if a packet with blocks finds no memory for its frame, else `LinkFull` (11)
    /// if the link is full. The part of it that was sent by then stays on its way, and the next push has to be of
    /// the same packet.
    pub fn push(&mut self, packet: Packet) -> Result<(), Refusal>
        requires spellable { IsSpellable packet }
        requires again { IfSome self.old.partly (λ begun. begun ≡ meaning packet ∷ []) }
        ensures pushed { OnOk result (self.new ≡ with_pushed (meaning packet) (spelling packet) self.old) }
        // If the link knows its room, it is full exactly if there is none.
        ensures exact { IfSome self.old.room (λ n. n ≡ 0 → IsErr result) }
        ensures full { IfErr result (λ e. e ≡ LinkFull → IfSome self.old.room (λ n. n ≡ 0)) }
        ensures refused { IfErr result (λ e. e ≢ LinkFull → (e ≡ NoMemory) × (has_blocks packet ≡ true)) }
        ensures unchanged { OnErr result (self.new ≡ record self.old { partly = self.new.partly }) }
        ensures in_part { OnErr result (IfSome self.new.partly (λ begun. begun ≡ meaning packet ∷ [])) }
    {
        let frame = encode(&packet)?;
        if let Err(offered) = self.end.offer(frame) {
            return Err(offered.refusal());
        }
        self.count = self.count.saturating_add(1);
        Ok(())
    }

    /// Begins connection `number`. Gives up a packet that was sent in part. It takes no memory.
    pub fn restart(&mut self, number: u32)
        requires { self.old.number < number }
        ensures { self.new ≡ record (pushing_anew number self.old) {
          room = self.new.room;
          waiting = self.new.waiting;
        } }
    {
        self.end.restart(number);
        self.count = 0;
    }

    /// Returns how many packets were pushed on the current connection: 18,446,744,073,709,551,615 if there were
    /// more.
    pub fn pushed(&self) -> u64
        ensures { result ≡ min (length self.now.pushed) 18446744073709551615 }
    {
        self.count
    }
}
