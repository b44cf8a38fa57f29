//! Tests that each packet has one frame: encoding the packet gives the bytes, and reading the bytes gives the packet.
ghost use Rattle.packets.specs.Spelling.{IsSpellable};

use crate::frames::samples::{Sample, check_read, sampled};
use crate::frames::streams::check_one_frame;
use crate::vectors::{
    BARRIER, BARRIER_ACK, LARGEST_WRITE, PROTOCOL_C, RECV_ACK, RESYNC, RS_WRITE_ACK, SIZES,
    SYNC_UUID, TWO_WRITES_ACK, UUIDS, WRITE, WRITE_ACK, frame_of, has_bytes, with_blocks,
};
use blocks::{Protocol, Refusal, Tuple};
use packets::{Frame, Packet, decode, encode};
use std::alloc::Global;
use std::process::Abort;

/// A packet, and its frame.
struct SpelledPacket {
    sample: Sample,
    /// The bytes before the frame's blocks.
    front: &'static [u8],
    /// How many blocks follow them.
    blocks: u8,
    /// The byte that fills the blocks.
    byte: u8,
    /// How many bytes the frame has.
    length: usize,
}

static FRAMES: [SpelledPacket; 13] = [
    SpelledPacket {
        sample: Sample::Write,
        front: &WRITE,
        blocks: 1,
        byte: 0xAA,
        length: 4128,
    },
    SpelledPacket {
        sample: Sample::LargestWrite,
        front: &LARGEST_WRITE,
        blocks: 32,
        byte: 0x11,
        length: 131_104,
    },
    SpelledPacket {
        sample: Sample::Barrier(1),
        front: &BARRIER,
        blocks: 0,
        byte: 0,
        length: 16,
    },
    SpelledPacket {
        sample: Sample::RecvAck,
        front: &RECV_ACK,
        blocks: 0,
        byte: 0,
        length: 32,
    },
    SpelledPacket {
        sample: Sample::WriteAck,
        front: &WRITE_ACK,
        blocks: 0,
        byte: 0,
        length: 32,
    },
    SpelledPacket {
        sample: Sample::BarrierAck(1, 1),
        front: &BARRIER_ACK,
        blocks: 0,
        byte: 0,
        length: 16,
    },
    SpelledPacket {
        sample: Sample::BarrierAck(1, 2),
        front: &TWO_WRITES_ACK,
        blocks: 0,
        byte: 0,
        length: 16,
    },
    SpelledPacket {
        sample: Sample::Protocol(Protocol::C),
        front: &PROTOCOL_C,
        blocks: 0,
        byte: 0,
        length: 12,
    },
    SpelledPacket {
        sample: Sample::Sizes(8),
        front: &SIZES,
        blocks: 0,
        byte: 0,
        length: 16,
    },
    SpelledPacket {
        sample: Sample::Uuids(TUPLE),
        front: &UUIDS,
        blocks: 0,
        byte: 0,
        length: 40,
    },
    SpelledPacket {
        sample: Sample::SyncUuid(9),
        front: &SYNC_UUID,
        blocks: 0,
        byte: 0,
        length: 16,
    },
    SpelledPacket {
        sample: Sample::Resync,
        front: &RESYNC,
        blocks: 1,
        byte: 0xAA,
        length: 4128,
    },
    SpelledPacket {
        sample: Sample::RsWriteAck,
        front: &RS_WRITE_ACK,
        blocks: 0,
        byte: 0,
        length: 32,
    },
];

const TUPLE: Tuple = Tuple {
    current: 7,
    bitmap: 0,
    first_historical: 9,
    second_historical: 1,
};

// Checks that the bytes are the packet's frame. Returns what that frame is read as.
fn respelled(rt: &impl Abort, row: usize, packet: &Packet, bytes: &[u8]) -> Result<Packet, Refusal>
    requires { IsSpellable packet.now }
{
    let frame = encode(packet).expect(rt, "a frame");
    assert!(rt; has_bytes(&frame, bytes), "row {row}");
    decode(frame)
}

// Checks that the bytes are the packet's frame, and are read as the packet, as one frame and as a stream.
fn goes_both_ways(
    rt: &impl Abort,
    alloc: Global,
    row: usize,
    sample: &'static Sample,
    bytes: &[u8],
) {
    let packet = sampled(rt, alloc, sample);
    let read = respelled(rt, row, &packet, bytes);
    check_one_frame(rt, alloc, row, bytes, Ok(()), &[packet]);
    check_read(rt, alloc, row, &read, Ok(sample));
}

#[test]
fn each_packet_has_its_frame(rt: HostRuntime) {
    let alloc = rt.alloc();
    for (row, spelled) in FRAMES.iter().enumerate() {
        let bytes = with_blocks(&rt, alloc, spelled.front, spelled.blocks, spelled.byte);
        assert_eq!(rt; bytes.len(), spelled.length);
        goes_both_ways(&rt, alloc, row, &spelled.sample, &bytes);
    }
}

// Checks that a frame in one buffer has these bytes, and gives back those behind the first 32.
fn check_long(rt: &impl Abort, frame: Frame, bytes: &[u8]) {
    let (first, second) = frame.parts();
    assert!(rt; first == bytes && second.is_empty());
    assert!(rt; first.len() > 40);
    assert!(rt; frame.into_blocks().as_slice() == &bytes[32..]);
}

#[test]
fn a_short_frame_stands_inline(rt: HostRuntime) {
    let alloc = rt.alloc();
    let frame = Frame::inline(&BARRIER);
    let inline = (BARRIER.as_slice(), [].as_slice());
    assert!(rt; frame.parts() == inline);
    check_read(&rt, alloc, 0, &decode(frame), Ok(&Sample::Barrier(1)));
}

#[test]
fn a_long_frame_stands_in_one_buffer(rt: HostRuntime) {
    let long = with_blocks(&rt, rt.alloc(), &WRITE, 1, 0xAA);
    check_long(&rt, frame_of(&rt, rt.alloc(), &long), &long);
}

// Checks that the frame of a write has the packet's blocks as its second part, and gives them back.
fn check_fronted(rt: &impl Abort, packet: &Packet, blocks: &[u8])
    requires { IsSpellable packet.now }
{
    let frame = encode(packet).expect(rt, "a frame");
    let (front, own) = frame.parts();
    assert!(rt; front == WRITE.as_slice() && own == blocks);
    assert!(rt; own.len() > 40);
    assert!(rt; frame.into_blocks().as_slice() == blocks);
}

#[test]
fn the_frame_of_a_write_shares_its_blocks(rt: HostRuntime) {
    let packet = sampled(&rt, rt.alloc(), &Sample::Write);
    check_fronted(&rt, &packet, &[0xAA; 4096]);
}
