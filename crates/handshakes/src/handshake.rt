//! Both hellos of a connection, at one of its nodes.
ghost use Rattle.std.specs.Prelude.{◌≡◌, nat_le, slice_get};
ghost use Rattle.model.specs.Acknowledgements.{same_protocol};
ghost use Rattle.handshakes.specs.Handshake.{begun, judged, hello_frame};
ghost use Rattle.handshakes.specs.Hello.{advanced};

use crate::Hello;
use blocks::{Command, Protocol, Refusal, Settings, Tuple};
use packets::Packet;
use std::marker::Model;

/// The handshake of a connection, as one of its nodes sees it: the generation identifiers in its own hello, how far
/// that hello has come, and how far the peer's has. No call takes memory.
#[derive(Drop)]
pub struct Handshake {
    own: Tuple,
    hello_sent: Hello,
    hello_received: Hello,
}

impl Model for Handshake {
    ghost use Rattle.handshakes.specs.Handshake.{HandshakeState};

    ghost Value = { HandshakeState };

    ghost view = { λ h. record { own = h.own; hello_sent = h.hello_sent; hello_received = h.hello_received } };
}

impl Handshake {
    /// Creates a handshake with nothing sent and nothing received. This node's hello names these identifiers.
    pub fn new(own: Tuple) -> Handshake
        ensures { result ≡ begun own }
    {
        Handshake {
            own,
            hello_sent: Hello::new(),
            hello_received: Hello::new(),
        }
    }

    /// Returns the next frame of this node's hello: PROTOCOL, SIZES, UUIDS, and none after these.
    pub fn due(&self, settings: &Settings) -> Option<Packet>
        ensures { result ≡ hello_frame self.now.hello_sent settings.now self.now.own }
    {
        Some(match self.hello_sent.next()? {
            Command::Protocol => Packet::Protocol(settings.protocol),
            Command::Sizes => Packet::Sizes {
                blocks: u64::from(settings.blocks),
            },
            _ => Packet::Uuids(self.own),
        })
    }

    /// Counts the next frame of this node's hello as sent.
    pub fn frame_sent(&mut self)
        ensures { self.new ≡ record self.old { hello_sent = advanced self.old.hello_sent } }
    {
        self.hello_sent.advance();
    }

    /// Returns whether this node's hello is sent.
    pub fn is_sent(&self) -> bool
        ensures { result ≡ nat_le 3 self.now.hello_sent }
    {
        self.hello_sent.is_done()
    }

    /// Returns whether the peer's hello is received.
    pub fn is_received(&self) -> bool
        ensures { result ≡ nat_le 3 self.now.hello_received }
    {
        self.hello_received.is_done()
    }

    /// Checks that a packet is the next frame of the peer's hello, and returns its command. It does not check the
    /// identifiers of UUIDS.
    ///
    /// `OtherProtocol` (34) for another protocol than this node's, `OtherSize` (35) for another number of blocks;
    /// `BadCommand` (21) for every other packet.
    pub fn judge(&self, packet: &Packet, settings: &Settings) -> Result<Command, Refusal>
        ensures { result ≡ judged self.now.hello_received packet.now settings.now }
    {
        match (self.hello_received.frames(), packet) {
            (0, Packet::Protocol(asked)) => {
                if !is_same(*asked, settings.protocol) {
                    return Err(Refusal::OtherProtocol);
                }
                Ok(Command::Protocol)
            }
            (1, Packet::Sizes { blocks }) => {
                if *blocks != u64::from(settings.blocks) {
                    return Err(Refusal::OtherSize);
                }
                Ok(Command::Sizes)
            }
            (2.., Packet::Uuids(_)) => Ok(Command::Uuids),
            _ => Err(Refusal::BadCommand),
        }
    }

    /// Counts the next frame of the peer's hello as received.
    pub fn frame_received(&mut self)
        ensures { self.new ≡ record self.old { hello_received = advanced self.old.hello_received } }
    {
        self.hello_received.advance();
    }
}

// Returns whether both are the same protocol.
fn is_same(asked: Protocol, own: Protocol) -> bool
    ensures { result ≡ same_protocol asked own }
{
    match (asked, own) {
        (Protocol::A, Protocol::A) | (Protocol::B, Protocol::B) | (Protocol::C, Protocol::C) =>
            true,
        _ => false,
    }
}
