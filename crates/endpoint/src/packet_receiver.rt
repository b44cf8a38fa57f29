//! The receiving side.
ghost use Rattle.std.specs.Prelude.{◌≡◌, ◌<◌, ◌≤◌, ◌↔◌, [], true, false, min, length, IsErr, OnOk, OnErr, IfOk, IfErr, IfSome};
ghost use Rattle.packets.specs.Frames.{is_fault};
ghost use Rattle.packets.specs.Spelling.{IsSpellable};
ghost use Rattle.packets.specs.Table.{has_blocks};
ghost use Rattle.endpoint.specs.Meaning.{received};
ghost use Rattle.endpoint.specs.PacketReceiver.{incoming, with_received, taking_anew, SameRow};
ghost use Rattle.blocks.specs.declared.refusal.Refusal.TheVariants.{NoMemory, NothingThere};

use blocks::Refusal;
use handshakes::Hello;
use link::FrameIn;
use packets::{Packet, read};
use std::marker::Model;

/// Takes packets from an end of a link.
#[derive(Drop)]
pub struct PacketReceiver<I: FrameIn> {
    pub(crate) end: I,
    // How far the peer's hello has come on the current connection.
    hello: Hello,
}

impl<I: FrameIn> Model for PacketReceiver<I> {
    ghost use Rattle.std.specs.Prelude.{◌≡◌, min, length};
    ghost use Rattle.endpoint.specs.PacketReceiver.{PacketReceiverState, incoming};

    ghost Value = { PacketReceiverState };

    ghost view = { λ e. incoming (I.state e.end) };

    ghost invariant = { λ e. e.hello ≡ min (length (I.state e.end).taken) 3 };
}

impl<I: FrameIn> PacketReceiver<I> {
    /// Creates a receiver over an end that has taken nothing yet.
    pub fn new(end: I) -> PacketReceiver<I>
        requires { (I.state end).taken ≡ [] }
        ensures { result ≡ incoming (I.state end) }
    {
        PacketReceiver {
            end,
            hello: Hello::new(),
        }
    }

    /// Returns the end of the link, and how far the peer's hello has come on the current connection.
    pub fn into_end(self) -> (I, Hello)
        ensures same { self ≡ incoming (I.state result.0) }
        ensures hello { result.1 ≡ min (length (I.state result.0).taken) 3 }
    {
        (self.end, self.hello)
    }

    /// Creates a receiver over an end through which frames came, as `into_end` returns it.
    pub fn over(end: I, hello: Hello) -> PacketReceiver<I>
        requires hello { hello ≡ min (length (I.state end).taken) 3 }
        ensures { result ≡ incoming (I.state end) }
    {
        PacketReceiver { end, hello }
    }

    /// Makes room for the longest frame. `NoMemory` (7) if there is none.
    pub fn ready(&mut self) -> Result<(), Refusal>
        ensures ready { OnOk result (self.new ≡ record self.old { is_ready = true }) }
        ensures unchanged { OnErr result (self.new ≡ self.old) }
        ensures refused { IfErr result (λ e. e ≡ NoMemory) }
    {
        self.end.ready()
    }

    /// Takes the next frame, and returns its packet, or the fault that was read in its place (20 to 23). During the
    /// hello, a frame of another command than the hello's next one is 21 before its fields are judged.
    /// `NothingThere` (13) if there is no frame. A packet can be encoded, so its fields are as those of a frame
    /// have to be. It takes no memory.
    pub fn take(&mut self) -> Result<Result<Packet, Refusal>, Refusal>
        requires { self.old.is_ready ≡ true }
        ensures taken { IfOk result (λ read.
            self.new ≡ with_received (received read) self.new.frames self.new.is_ready self.old) }
        ensures spellable { IfOk result (λ read. IfOk read IsSpellable) }
        ensures faults { IfOk result (λ read. IfErr read (λ e. is_fault e ≡ true)) }
        // A packet without blocks leaves the room for a longer one.
        ensures still_ready { IfOk result (λ read. IfOk read (λ p. has_blocks p ≡ false → self.new.is_ready ≡ true)) }
        // If the link knows its queue, there is no frame exactly if the queue is empty.
        ensures exact { IfSome self.old.queued (λ frames. IsErr result ↔ (frames ≡ [])) }
        ensures row { SameRow self.old self.new }
        ensures refused { IfErr result (λ e. e ≡ NothingThere) }
        ensures unchanged { OnErr result (self.new ≡ self.old) }
    {
        let frame = self.end.take()?;
        let expected = self.hello.next();
        self.hello.advance();
        Ok(read(frame, expected))
    }

    /// Begins connection `number`. Drops what is on its way from earlier connections. It takes no memory.
    pub fn restart(&mut self, number: u32)
        requires { self.old.number < number }
        ensures { self.new ≡ record (taking_anew number self.old) {
          queued = self.new.queued;
          capacity = self.new.capacity;
        } }
    {
        self.end.restart(number);
        self.hello = Hello::new();
    }
}
