//! The acknowledgements that each replication protocol asks of the peer (DRBD User's Guide, "Replication modes").
ghost use Rattle.std.specs.Prelude.{◌≡◌};
ghost use Rattle.transferlog.specs.Log.{answers_sent, asks_answers, is_asked};

use crate::report::PeerAck;
use blocks::Protocol;

/// Returns whether the protocol asks for this kind of answer.
pub(crate) fn is_asked(protocol: Protocol, kind: PeerAck) -> bool
    ensures { result ≡ is_asked protocol kind }
{
    match (protocol, kind) {
        (Protocol::B, PeerAck::Received) | (Protocol::C, PeerAck::Written) => true,
        _ => false,
    }
}

/// Returns whether the protocol asks for answers at all.
pub(crate) fn asks_answers(protocol: Protocol) -> bool
    ensures { result ≡ asks_answers protocol }
{
    match protocol {
        Protocol::A => false,
        Protocol::B | Protocol::C => true,
    }
}

/// Returns whether a write is answered once its frame is in the link's queue.
pub(crate) fn answers_sent(protocol: Protocol) -> bool
    ensures { result ≡ answers_sent protocol }
{
    match protocol {
        Protocol::A => true,
        Protocol::B | Protocol::C => false,
    }
}
