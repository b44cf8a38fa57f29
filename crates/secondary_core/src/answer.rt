//! An acknowledgement to send.
ghost use Rattle.std.specs.Prelude.{◌≡◌, false};
ghost use Rattle.packets.specs.Spelling.{IsSpellable};
ghost use Rattle.packets.specs.Table.{has_blocks};
ghost use Rattle.endpoint.specs.Meaning.{meaning};
ghost use Rattle.secondary_core.specs.Answers.{packet_of};

use packets::{Acknowledgement, Packet};
use std::marker::Model;

/// What is acknowledged, and how.
#[derive(Clone, Copy)]
pub(crate) enum AckKind {
    /// A write is in memory: RECV_ACK.
    Received(Acknowledgement),
    /// A write is on the disk: WRITE_ACK.
    Written(Acknowledgement),
    /// A block of a resync is on the disk: RS_WRITE_ACK.
    Resynced(Acknowledgement),
    /// All items up to the end of an epoch are on the disk: BARRIER_ACK, with the number of its writes.
    Whole { epoch: u32, writes: u32 },
}

/// An acknowledgement that is due. Proofs see its packet, which can be encoded.
#[derive(Drop)]
pub(crate) struct DueAck {
    kind: AckKind,
}

impl Model for DueAck {
    ghost use Rattle.model.specs.Frames.{Packet as Denoted};

    ghost Value = { Denoted };

    ghost use Rattle.secondary_core.specs.Answers.{answer_of, IsAnswer};

    ghost view = { answer_of };

    ghost invariant = { IsAnswer };
}

impl DueAck {
    /// Creates the acknowledgement of this kind, whose packet can be encoded.
    pub(crate) fn new(kind: AckKind) -> DueAck
        requires { IsSpellable (packet_of kind) }
        ensures { result ≡ meaning (packet_of kind) }
    {
        DueAck { kind }
    }

    /// Returns its packet, which has no blocks.
    pub(crate) fn packet(&self) -> Packet
        ensures means { meaning result ≡ self.now }
        ensures spellable { IsSpellable result }
        ensures inline { has_blocks result ≡ false }
    {
        match self.kind {
            AckKind::Received(of) => Packet::RecvAck(of),
            AckKind::Written(of) => Packet::WriteAck(of),
            AckKind::Resynced(of) => Packet::RsWriteAck(of),
            AckKind::Whole { epoch, writes } => Packet::BarrierAck {
                number: epoch,
                size: writes,
            },
        }
    }
}
