//! Items for the secondary's disk.
ghost use Rattle.std.specs.Prelude.{◌≡◌, ◌*◌, ◌/◌, ◌<◌, ◌≤◌, ◌^◌, length, option_to_list, true};
ghost use Rattle.blocks.specs.Contents.{blocks_of};
ghost use Rattle.model.specs.Stream.{WriteItem, ResyncItem, contents_of, first_of};
ghost use Rattle.model.specs.SecondarySteps.{applied_answer};
ghost use Rattle.endpoint.specs.Meaning.{named};
ghost use Rattle.secondary_core.specs.Answers.{receipt_of};
ghost use Rattle.secondary_core.specs.Items.{is_kind};

use crate::answer::{AckKind, DueAck};
use blocks::{BLOCK_BYTES, Protocol, Range};
use bytes::Bytes;
use packets::Acknowledgement;
use std::marker::Model;

/// Where an item comes from.
#[derive(Clone, Copy)]
pub(crate) enum ItemKind {
    /// A write, with its number, which is not 0.
    Write(u64),
    /// A block of a resync.
    Resync,
}

/// A write or a block of a resync that waits for the disk.
#[derive(Drop)]
pub struct PendingItem {
    kind: ItemKind,
    range: Range,
    contents: Bytes,
}

impl Model for PendingItem {
    ghost use Rattle.std.specs.Prelude.{◌≡◌, ◌*◌, length};
    ghost use Rattle.model.specs.Stream.{StreamItem as Denoted};

    ghost Value = { Denoted };

    ghost use Rattle.secondary_core.specs.Items.{item_of, IsItem};

    ghost view = { item_of };

    // Its contents are as many whole blocks as its range has, a write has a number, and a resync's item is
    // one block.
    ghost invariant = { IsItem };
}

impl PendingItem {
    /// Creates a write of these bytes.
    pub(crate) fn write(number: u64, range: Range, contents: Bytes) -> PendingItem
        requires numbered { 0 < number }
        requires small { 8 * range.first.0 < 2 ^ 64 }
        requires whole { length contents ≡ 4096 * range.count }
        ensures { result ≡ WriteItem (record { number = number; first = range.first.0; contents = blocks_of 4096 contents }) }
    {
        PendingItem {
            kind: ItemKind::Write(number),
            range,
            contents,
        }
    }

    /// Creates a block of a resync.
    pub(crate) fn resync(range: Range, contents: Bytes) -> PendingItem
        requires one { range.count ≡ 1 }
        requires small { 8 * range.first.0 < 2 ^ 64 }
        requires whole { length contents ≡ 4096 }
        ensures { result ≡ ResyncItem range.first.0 contents }
    {
        PendingItem {
            kind: ItemKind::Resync,
            range,
            contents,
        }
    }

    /// Returns where it comes from.
    pub(crate) fn kind(&self) -> ItemKind
        ensures { is_kind result self.now ≡ true }
    {
        self.kind
    }

    /// Returns the blocks that it covers.
    pub fn range(&self) -> Range
        ensures first { result.first.0 ≡ first_of self.now }
        ensures count { result.count ≡ length (contents_of self.now) }
    {
        self.range
    }

    /// Returns the bytes to write, whole blocks of 4,096 bytes.
    pub fn contents(&self) -> &Bytes
        ensures blocks { blocks_of 4096 result.now ≡ contents_of self.now }
        ensures whole { length result.now ≡ 4096 * length (contents_of self.now) }
    {
        &self.contents
    }

    /// Returns the acknowledgement that is due once it is taken: under protocol B a write's RECV_ACK.
    pub(crate) fn receipt(&self, protocol: Protocol, place: u32) -> Option<DueAck>
        ensures { option_to_list result ≡ receipt_of protocol place self.now }
    {
        match (self.kind, protocol) {
            (ItemKind::Write(number), Protocol::B) => {
                Some(DueAck::new(AckKind::Received(self.naming(number, place))))
            }
            _ => None,
        }
    }

    /// Returns the acknowledgement that is due once it is on the disk: a write's WRITE_ACK under protocol C, and a
    /// resync block's RS_WRITE_ACK under every protocol.
    pub(crate) fn answer(&self, protocol: Protocol, place: u32) -> Option<DueAck>
        ensures { option_to_list result ≡ applied_answer protocol place self.now }
    {
        match (self.kind, protocol) {
            (ItemKind::Write(number), Protocol::C) => {
                Some(DueAck::new(AckKind::Written(self.naming(number, place))))
            }
            (ItemKind::Write(_), _) => None,
            (ItemKind::Resync, _) => Some(DueAck::new(AckKind::Resynced(self.naming(0, place)))),
        }
    }

    // Returns its name in an acknowledgement.
    fn naming(&self, number: u64, place: u32) -> Acknowledgement
        ensures named { named result ≡ record { first = first_of self.now; number = number; count = length (contents_of self.now); place = place } }
        ensures small { 8 * result.first.0 < 2 ^ 64 }
        ensures some { 0 < result.count }
        ensures few { result.count ≤ 32 }
        ensures number { result.number ≡ number }
    {
        Acknowledgement {
            first: self.range.first,
            number,
            count: self.range.count as u32,
            place,
        }
    }
}

/// Returns how many whole blocks these bytes have.
pub(crate) fn whole_blocks(contents: &Bytes) -> u64
    ensures blocks { result ≡ length (blocks_of 4096 contents.now) }
    ensures bytes { result ≡ length contents.now / 4096 }
{
    (contents.len() / BLOCK_BYTES) as u64
}
