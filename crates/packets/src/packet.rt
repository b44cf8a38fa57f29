//! Packets, the meanings of frames.
ghost use Rattle.std.specs.Prelude.{◌≡◌};
ghost use Rattle.packets.specs.Table.{command_of};

use blocks::{Block, Command, Protocol, Tuple};
use bytes::Bytes;

/// The write, or the block of a resync, that an acknowledgement names.
#[derive(Clone, Copy, Debug, PartialEq, Eq)]
pub struct Acknowledgement {
    /// The first block that it covers.
    pub first: Block,
    /// The number of the write; 0 for a block of a resync.
    pub number: u64,
    /// How many blocks it covers: 1 to 32, and 1 for a block of a resync.
    pub count: u32,
    /// Its place in the stream.
    pub place: u32,
}

/// The meaning of a frame. The packets are DRBD's (`drbd_protocol.h`); those of a hello carry less here.
#[derive(Debug, PartialEq, Eq, Drop)]
pub enum Packet {
    /// The replication protocol of the sender, the first frame of a hello.
    Protocol(Protocol),
    /// The size of the sender's device, the second frame of a hello.
    Sizes {
        /// Blocks of the device.
        blocks: u64,
    },
    /// The generation identifiers of the sender's disk, the third frame of a hello.
    Uuids(Tuple),
    /// A write.
    Data {
        /// The first block that it covers.
        first: Block,
        /// The number of the write, not 0.
        number: u64,
        /// Its place in the stream.
        place: u32,
        /// The bytes that it writes, 1 to 32 whole blocks of 4,096 bytes.
        contents: Bytes,
    },
    /// A block of a resync.
    RsDataReply {
        /// The block.
        first: Block,
        /// Its place in the stream.
        place: u32,
        /// The block's bytes, 4,096 of them.
        contents: Bytes,
    },
    /// The end of an epoch.
    Barrier {
        /// The barrier's number.
        number: u32,
    },
    /// A resync begins, and the sender's disk has this generation identifier for it.
    SyncUuid {
        /// The identifier. A node takes no 0 here, but a frame may carry it.
        word: u64,
    },
    /// The peer has the write in memory.
    RecvAck(Acknowledgement),
    /// The write is on the peer's disk.
    WriteAck(Acknowledgement),
    /// The block of a resync is on the peer's disk.
    RsWriteAck(Acknowledgement),
    /// All writes of an epoch are on the peer's disk.
    BarrierAck {
        /// The number of the barrier that ended the epoch.
        number: u32,
        /// How many writes the epoch has.
        size: u32,
    },
}

impl Packet {
    /// Returns the command of its frame.
    pub fn command(&self) -> Command
        ensures { result ≡ command_of self.now }
    {
        match self {
            Packet::Protocol(_) => Command::Protocol,
            Packet::Sizes { .. } => Command::Sizes,
            Packet::Uuids(_) => Command::Uuids,
            Packet::Data { .. } => Command::Data,
            Packet::RsDataReply { .. } => Command::RsDataReply,
            Packet::Barrier { .. } => Command::Barrier,
            Packet::SyncUuid { .. } => Command::SyncUuid,
            Packet::RecvAck(_) => Command::RecvAck,
            Packet::WriteAck(_) => Command::WriteAck,
            Packet::RsWriteAck(_) => Command::RsWriteAck,
            Packet::BarrierAck { .. } => Command::BarrierAck,
        }
    }
}
