//! The frames of a link, by name.
use std::fmt;

/// The command of a frame. The names are those of DRBD's `drbd_protocol.h`, without their prefix `P_`.
#[derive(Clone, Copy, Debug, PartialEq, Eq)]
pub enum Command {
    /// A write.
    Data,
    /// A block of a resync.
    RsDataReply,
    /// The end of an epoch.
    Barrier,
    /// The replication protocol, the first frame of a hello.
    Protocol,
    /// The four generation identifiers, the third frame of a hello.
    Uuids,
    /// The size of the device, the second frame of a hello.
    Sizes,
    /// The start of a resync.
    SyncUuid,
    /// A write was received.
    RecvAck,
    /// A write is on the peer's disk.
    WriteAck,
    /// A block of a resync is on the peer's disk.
    RsWriteAck,
    /// All writes of an epoch are on the peer's disk.
    BarrierAck,
}

impl fmt::Display for Command {
    fn fmt<W: fmt::Write>(&self, f: &mut fmt::Formatter<W>) -> fmt::Result {
        f.write_str(match self {
            Command::Data => "DATA",
            Command::RsDataReply => "RS_DATA_REPLY",
            Command::Barrier => "BARRIER",
            Command::Protocol => "PROTOCOL",
            Command::Uuids => "UUIDS",
            Command::Sizes => "SIZES",
            Command::SyncUuid => "SYNC_UUID",
            Command::RecvAck => "RECV_ACK",
            Command::WriteAck => "WRITE_ACK",
            Command::RsWriteAck => "RS_WRITE_ACK",
            Command::BarrierAck => "BARRIER_ACK",
        })
    }
}
