//! Faulty frames: each is refused for its first fault, as one frame and as a stream.
use crate::frames::samples::{Sample, check_read};
use crate::frames::streams::check_one_frame;
use crate::vectors::{
    BARRIER, OTHER_MAGIC, PROTOCOL_C, RESYNC, RS_WRITE_ACK, SHORT_BARRIER, WRITE, WRITE_ACK,
    WRONG_BARRIER, frame_of, with_blocks,
};
use blocks::{Command, Protocol, Refusal};
use packets::{decode, read};
use std::alloc::Global;
use std::process::Abort;

/// A faulty frame and its fault: the front, how many blocks of bytes AA follow it, and which bytes then replace others.
type Row = (&'static [u8], u8, &'static [(usize, u8)], Refusal);

/// Headers are judged at their eighth byte, and fields last.
static FAULTS: [Row; 15] = [
    (&OTHER_MAGIC, 0, &[], Refusal::BadMagic),
    (&[0x83, 0x5A, 0, 7, 0, 0, 0, 0], 0, &[], Refusal::BadCommand),
    // A DATA frame of no blocks, and one of 33.
    (
        &[0x83, 0x5A, 0, 0, 0, 0, 0, 0x18],
        0,
        &[],
        Refusal::BadLength,
    ),
    (
        &[0x83, 0x5A, 0, 0, 0, 2, 0x10, 0x18],
        0,
        &[],
        Refusal::BadLength,
    ),
    (&[0x83, 0x5A, 0, 3, 0, 0, 0, 9], 0, &[], Refusal::BadLength),
    // The second word of a barrier.
    (&BARRIER, 0, &[(15, 1)], Refusal::BadField),
    // A fourth replication protocol.
    (&PROTOCOL_C, 0, &[(11, 4)], Refusal::BadField),
    // A write's flags, its sector, and its number.
    (&WRITE, 1, &[(31, 1)], Refusal::BadField),
    (&WRITE, 1, &[(15, 1)], Refusal::BadField),
    (&WRITE, 1, &[(23, 0)], Refusal::BadField),
    // The size that an acknowledgement gives, 0 and 33 blocks.
    (&WRITE_ACK, 0, &[(26, 0)], Refusal::BadField),
    (&WRITE_ACK, 0, &[(25, 2), (26, 0x10)], Refusal::BadField),
    // The number of a resync block, and its acknowledgement's, which are 0, and its size, one block.
    (&RESYNC, 1, &[(23, 1)], Refusal::BadField),
    (&RS_WRITE_ACK, 0, &[(23, 1)], Refusal::BadField),
    (&RS_WRITE_ACK, 0, &[(26, 0x20)], Refusal::BadField),
];

// Returns the bytes of a row.
fn bytes_of(rt: &impl Abort, alloc: Global, row: &Row) -> Vec<u8> {
    let (front, blocks, changes, _) = row;
    let mut bytes = with_blocks(rt, alloc, front, *blocks, 0xAA);
    for (at, byte) in *changes {
        assert!(rt; *at < bytes.len());
        bytes[*at] = *byte;
    }
    bytes
}

// Checks that the bytes are refused for this as one frame.
fn check_refused(rt: &impl Abort, alloc: Global, row: usize, bytes: &[u8], refusal: Refusal) {
    let read = decode(frame_of(rt, alloc, bytes));
    check_read(rt, alloc, row, &read, Err(refusal));
}

#[test]
fn a_fault_comes_with_its_last_byte(rt: HostRuntime) {
    let alloc = rt.alloc();
    for (i, row) in FAULTS.iter().enumerate() {
        let bytes = bytes_of(&rt, alloc, row);
        check_one_frame(&rt, alloc, i, &bytes, Err(row.3), &[]);
        check_refused(&rt, alloc, i, &bytes, row.3);
    }
}

/// Frames that are too short or too long. They are refused for that, whatever their fields say.
static BROKEN: [&[u8]; 6] = [
    &[0x83, 0x5A, 0, 3, 0, 0, 0],
    &SHORT_BARRIER,
    &[0x83, 0x5A, 0, 3, 0, 0, 0, 8, 0, 0, 0, 1, 0, 0, 0, 0, 0],
    // The second word is wrong.
    &[0x83, 0x5A, 0, 3, 0, 0, 0, 8, 0, 0, 0, 1, 0, 0, 1],
    &[0x83, 0x5A, 0, 3, 0, 0, 0, 8, 0, 0, 0, 1, 0, 0, 0, 1, 0],
    &[],
];

#[test]
fn a_frame_is_whole(rt: HostRuntime) {
    for (row, bytes) in BROKEN.iter().enumerate() {
        check_refused(&rt, rt.alloc(), row, bytes, Refusal::BadLength);
    }
}

/// A frame, the command that a hello expects, and what the frame is read as.
type Expected = (
    &'static [u8],
    Option<Command>,
    Result<&'static Sample, Refusal>,
);

const HELLO: Option<Command> = Some(Command::Protocol);

static HELLOS: [Expected; 6] = [
    // A frame of another command is refused as such, whatever its fields say.
    (&WRONG_BARRIER, HELLO, Err(Refusal::BadCommand)),
    (
        &WRONG_BARRIER,
        Some(Command::Barrier),
        Err(Refusal::BadField),
    ),
    (&WRONG_BARRIER, None, Err(Refusal::BadField)),
    (&PROTOCOL_C, HELLO, Ok(&Sample::Protocol(Protocol::C))),
    // A fault of the header, and a length other than it says, come before that.
    (&OTHER_MAGIC, HELLO, Err(Refusal::BadMagic)),
    (&SHORT_BARRIER, HELLO, Err(Refusal::BadLength)),
];

#[test]
fn a_hello_wants_its_next_frame(rt: HostRuntime) {
    let alloc = rt.alloc();
    for (row, (bytes, hello, wanted)) in HELLOS.iter().enumerate() {
        let packet = read(frame_of(&rt, alloc, bytes), *hello);
        check_read(&rt, alloc, row, &packet, *wanted);
    }
}
