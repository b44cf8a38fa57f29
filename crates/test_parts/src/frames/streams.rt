//! Tests of a decoder over streams: pieces that end inside a frame, pieces of several frames, and a fault.
use crate::frames::samples::{Sample, sampled};
use crate::vectors::{BARRIER, BARRIER_ACK, OTHER_MAGIC, WRITE, with_blocks};
use blocks::Refusal;
use packets::{Decoder, Packet, decode_all};
use std::alloc::Global;
use std::process::Abort;

/// A piece of a stream, what the decoder returns for it, and how many packets it has given by then.
type Piece<'a> = (&'a [u8], Result<(), Refusal>, usize);

// Checks that the decoder returns this for the piece, and has then given this number of packets.
fn feed(
    rt: &impl Abort,
    row: usize,
    decoder: &mut Decoder,
    packets: &mut Vec<Packet>,
    piece: &[u8],
    (answer, count): (Result<(), Refusal>, usize),
) {
    let is_right = decoder.feed(piece, packets) == answer && packets.len() == count;
    assert!(rt; is_right, "row {row}");
}

// Checks that a new decoder returns this for each piece, and gives these packets. If it is fed byte by byte, a piece
// changes nothing before its last byte.
fn check_decoded(
    rt: &impl Abort,
    alloc: Global,
    row: usize,
    is_byte_by_byte: bool,
    pieces: &[Piece],
    wanted: &[Packet],
) {
    let mut decoder = Decoder::new(alloc);
    let mut packets = Vec::new(alloc);
    let mut before = (Ok(()), 0);
    for (bytes, answer, count) in pieces {
        let whole = if is_byte_by_byte {
            bytes.len().saturating_sub(1)
        } else {
            0
        };
        let (front, end) = bytes.split_at(whole);
        for byte in front {
            feed(rt, row, &mut decoder, &mut packets, &[*byte], before);
        }
        before = (*answer, *count);
        feed(rt, row, &mut decoder, &mut packets, end, before);
    }
    assert!(rt; packets.as_slice() == wanted, "row {row}");
}

/// Checks what the decoder returns for the stream of a table's row, and that it gives these packets, in one piece, and
/// byte by byte with its last byte.
pub(crate) fn check_one_frame(
    rt: &impl Abort,
    alloc: Global,
    row: usize,
    bytes: &[u8],
    answer: Result<(), Refusal>,
    wanted: &[Packet],
) {
    let pieces = [(bytes, answer, wanted.len())];
    check_decoded(rt, alloc, row, false, &pieces, wanted);
    check_decoded(rt, alloc, row, true, &pieces, wanted);
}

/// A barrier and its acknowledgement.
const BOTH: [u8; 32] = [
    0x83, 0x5A, 0, 3, 0, 0, 0, 8, 0, 0, 0, 1, 0, 0, 0, 0, 0x83, 0x5A, 0, 0x1C, 0, 0, 0, 8, 0, 0, 0,
    1, 0, 0, 0, 1,
];

/// A barrier, and then another magic number.
const FAULTY: [u8; 24] = [
    0x83, 0x5A, 0, 3, 0, 0, 0, 8, 0, 0, 0, 1, 0, 0, 0, 0, 0x83, 0x5B, 0, 3, 0, 0, 0, 8,
];

const FAULT: Result<(), Refusal> = Err(Refusal::BadMagic);

/// Whether the pieces are fed byte by byte, the pieces, and the packets.
type Stream = (bool, &'static [Piece<'static>], &'static [Sample]);

static STREAMS: [Stream; 5] = [
    // A frame in two pieces, after an empty one.
    (
        false,
        &[
            (&[], Ok(()), 0),
            (&[0x83, 0x5A, 0, 3, 0, 0, 0], Ok(()), 0),
            (&[8, 0, 0, 0, 1, 0, 0, 0, 0], Ok(()), 1),
        ],
        &[Sample::Barrier(1)],
    ),
    // Several frames.
    (
        false,
        &[(&BOTH, Ok(()), 2)],
        &[Sample::Barrier(1), Sample::BarrierAck(1, 1)],
    ),
    (
        true,
        &[(&BARRIER, Ok(()), 1), (&BARRIER_ACK, Ok(()), 2)],
        &[Sample::Barrier(1), Sample::BarrierAck(1, 1)],
    ),
    // A fault is returned again.
    (
        false,
        &[(&FAULTY, FAULT, 1), (&BARRIER, FAULT, 1)],
        &[Sample::Barrier(1)],
    ),
    (
        true,
        &[
            (&BARRIER, Ok(()), 1),
            (&OTHER_MAGIC, FAULT, 1),
            (&BARRIER, FAULT, 1),
        ],
        &[Sample::Barrier(1)],
    ),
];

// Makes the packets of these samples.
fn all_of(rt: &impl Abort, alloc: Global, samples: &[Sample]) -> Vec<Packet> {
    let mut packets = Vec::new(alloc);
    for sample in samples {
        packets
            .push(sampled(rt, alloc, sample))
            .expect(rt, "memory");
    }
    packets
}

#[test]
fn a_stream_comes_in_any_pieces(rt: HostRuntime) {
    let alloc = rt.alloc();
    for (row, (is_byte_by_byte, pieces, samples)) in STREAMS.iter().enumerate() {
        let wanted = all_of(&rt, alloc, samples);
        check_decoded(&rt, alloc, row, *is_byte_by_byte, pieces, &wanted);
    }
}

// Checks that the bytes are read as these packets in two pieces, cut here.
fn check_read_in_two(rt: &impl Abort, alloc: Global, bytes: &[u8], cut: usize, wanted: &[Packet]) {
    assert!(rt; cut <= bytes.len());
    let (front, end) = bytes.split_at(cut);
    let transcript = decode_all(alloc, &[front, end]).expect(rt, "memory");
    let is_read = transcript.packets.as_slice() == wanted && transcript.fault.is_none();
    assert!(rt; is_read, "cut at {cut}");
}

#[test]
fn a_write_comes_in_two_pieces(rt: HostRuntime) {
    let alloc = rt.alloc();
    let write = with_blocks(&rt, alloc, &WRITE, 1, 0xAA);
    let wanted = [sampled(&rt, alloc, &Sample::Write)];
    for cut in 0..=write.len() {
        check_read_in_two(&rt, alloc, &write, cut, &wanted);
    }
}
