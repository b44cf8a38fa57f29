//! Packets for tables.
ghost use Rattle.std.specs.Prelude.{IfOk};
ghost use Rattle.packets.specs.Spelling.{IsSpellable};

use blocks::{Block, Protocol, Refusal, Tuple};
use bytes::Bytes;
use packets::{Acknowledgement, Packet};
use std::alloc::Global;
use std::process::Abort;

/// A packet that has a spelling.
pub(crate) enum Sample {
    Protocol(Protocol),
    Sizes(u64),
    Uuids(Tuple),
    /// Write 1 at place 0, of block 2, filled with bytes AA.
    Write,
    /// The same of 32 blocks from block 2 on, filled with bytes 11.
    LargestWrite,
    /// Block 3 of a resync at place 1, filled with bytes AA.
    Resync,
    Barrier(u32),
    SyncUuid(u64),
    /// Of the write of one block.
    RecvAck,
    WriteAck,
    /// Of the resync's block.
    RsWriteAck,
    /// The number of the barrier, and its epoch's size.
    BarrierAck(u32, u32),
}

const WRITTEN: Acknowledgement = Acknowledgement {
    first: Block(2),
    number: 1,
    count: 1,
    place: 0,
};

const RESYNCED: Acknowledgement = Acknowledgement {
    first: Block(3),
    number: 0,
    count: 1,
    place: 1,
};

fn packet_of(alloc: Global, sample: &Sample) -> Result<Packet, Refusal>
    ensures { IfOk result IsSpellable }
{
    match sample {
        Sample::Protocol(protocol) => Ok(Packet::Protocol(*protocol)),
        Sample::Sizes(blocks) => Ok(Packet::Sizes { blocks: *blocks }),
        Sample::Uuids(tuple) => Ok(Packet::Uuids(*tuple)),
        Sample::Write => Ok(Packet::Data {
            first: Block(2),
            number: 1,
            place: 0,
            contents: Bytes::copy_from_slice(alloc, &[0xAA; 4096])?,
        }),
        Sample::LargestWrite => Ok(Packet::Data {
            first: Block(2),
            number: 1,
            place: 0,
            contents: Bytes::copy_from_slice(alloc, &[0x11; 131_072])?,
        }),
        Sample::Resync => Ok(Packet::RsDataReply {
            first: Block(3),
            place: 1,
            contents: Bytes::copy_from_slice(alloc, &[0xAA; 4096])?,
        }),
        Sample::Barrier(number) => Ok(Packet::Barrier { number: *number }),
        Sample::SyncUuid(word) => Ok(Packet::SyncUuid { word: *word }),
        Sample::RecvAck => Ok(Packet::RecvAck(WRITTEN)),
        Sample::WriteAck => Ok(Packet::WriteAck(WRITTEN)),
        Sample::RsWriteAck => Ok(Packet::RsWriteAck(RESYNCED)),
        Sample::BarrierAck(number, size) => Ok(Packet::BarrierAck {
            number: *number,
            size: *size,
        }),
    }
}

/// Makes the packet of a sample, if there is memory for it.
pub(crate) fn sampled(rt: &impl Abort, alloc: Global, sample: &Sample) -> Packet
    ensures { IsSpellable result }
{
    packet_of(alloc, sample).expect(rt, "memory")
}

/// Checks that a frame was read as a row of a table says.
pub(crate) fn check_read(
    rt: &impl Abort,
    alloc: Global,
    row: usize,
    read: &Result<Packet, Refusal>,
    wanted: Result<&'static Sample, Refusal>,
) {
    let wanted = match wanted {
        Ok(sample) => Ok(sampled(rt, alloc, sample)),
        Err(refusal) => Err(refusal),
    };
    assert!(rt; *read == wanted, "row {row}");
}
