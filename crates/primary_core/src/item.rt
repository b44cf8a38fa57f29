//! Unsent items of the stream.
ghost use Rattle.std.specs.Prelude.{ℕ, ◌≡◌, ◌∷◌, [], true, Some, None, if◌then◌else◌, IfOk, IfErr};
ghost use Rattle.blocks.specs.declared.refusal.Refusal.TheVariants.{NoMemory};
ghost use Rattle.endpoint.specs.Meaning.{meaning};
ghost use Rattle.model.specs.Frames.{command_of, frame_of};
ghost use Rattle.model.specs.Stream.{is_write, number_of};
ghost use Rattle.packets.specs.Spelling.{IsSpellable};
ghost use Rattle.primary_core.specs.Send.{carries_blocks};
ghost use Rattle.primary_protocol.specs.Taking.{is_unsent};
ghost use Rattle.primary_core.specs.Outbox.{barrier_of};

use blocks::{Block, Command, Refusal, Tuple};
use bytes::Bytes;
use packets::Packet;
use std::marker::Model;

/// The contents of an item of the stream.
#[derive(Drop)]
pub(crate) enum ItemKind {
    /// A write: its number, its first block and its bytes.
    Write(u64, Block, Bytes),
    /// A block of a resync, with its bytes.
    Resync(Block, Bytes),
    /// The end of an epoch, with its number.
    Barrier(u32),
    /// A resync begins, under this word.
    SyncUuid(u64),
    /// A resync is over, and its source has these identifiers.
    Uuids(Tuple),
}

/// An unsent item of the stream. Its bytes are shared, and its packet can be encoded.
#[derive(Drop)]
pub(crate) struct StreamItem {
    pub(crate) kind: ItemKind,
}

impl Model for StreamItem {
    ghost use Rattle.model.specs.Stream.{StreamItem as Denoted};

    ghost Value = { Denoted };

    ghost use Rattle.primary_core.specs.Items.{item_of, IsItem};

    ghost view = { item_of };

    ghost invariant = { IsItem };
}

impl StreamItem {
    /// Returns its packet for this place in the stream. `NoMemory` (7) if its bytes cannot be shared.
    pub(crate) fn packet(&self, place: u32) -> Result<Packet, Refusal>
        ensures packet { IfOk result (λ p. (meaning p ≡ frame_of place self.now) × IsSpellable p) }
        ensures refused { IfErr result (λ e. e ≡ NoMemory) }
        ensures out_of_memory { IfErr result (λ e. carries_blocks (frame_of place self.now) ≡ true) }
    {
        Ok(match &self.kind {
            ItemKind::Write(number, first, contents) => Packet::Data {
                first: *first,
                number: *number,
                place,
                contents: contents.clone()?,
            },
            ItemKind::Resync(block, contents) => Packet::RsDataReply {
                first: *block,
                place,
                contents: contents.clone()?,
            },
            ItemKind::Barrier(number) => Packet::Barrier { number: *number },
            ItemKind::SyncUuid(word) => Packet::SyncUuid { word: *word },
            ItemKind::Uuids(tuple) => Packet::Uuids(*tuple),
        })
    }

    /// Returns the command of its frame.
    pub(crate) fn command(&self) -> Command
        ensures { (place : ℕ) → result ≡ command_of (frame_of place self.now) }
    {
        match &self.kind {
            ItemKind::Write(..) => Command::Data,
            ItemKind::Resync(..) => Command::RsDataReply,
            ItemKind::Barrier(_) => Command::Barrier,
            ItemKind::SyncUuid(_) => Command::SyncUuid,
            ItemKind::Uuids(_) => Command::Uuids,
        }
    }

    /// Returns the number of the write, if it is one.
    pub(crate) fn write(&self) -> Option<u64>
        ensures { result ≡ (if is_write self.now then Some (number_of self.now) else None) }
    {
        match &self.kind {
            ItemKind::Write(number, ..) => Some(*number),
            _ => None,
        }
    }

    /// Returns the number of the barrier, if it is one.
    pub(crate) fn barrier(&self) -> Option<u32>
        ensures { result ≡ barrier_of self.now }
    {
        match &self.kind {
            ItemKind::Barrier(number) => Some(*number),
            _ => None,
        }
    }

    /// Returns whether it is the barrier of this epoch.
    pub(crate) fn ends(&self, epoch: u32) -> bool
        ensures { result ≡ is_unsent epoch (self.now ∷ []) }
    {
        match &self.kind {
            ItemKind::Barrier(number) => *number == epoch,
            _ => false,
        }
    }
}
