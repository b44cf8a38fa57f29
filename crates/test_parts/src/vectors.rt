//! The frames of the packets, byte by byte, as in the format's vectors.
use blocks::BLOCK_BYTES;
use bytes::Bytes;
use packets::Frame;
use std::alloc::{AllocError, Global};
use std::process::Abort;

/// A header and the numbers of a DATA frame: block 2, write 1, place 0.
pub(crate) const WRITE: [u8; 32] = [
    0x83, 0x5A, 0, 0, 0, 0, 0x10, 0x18, 0, 0, 0, 0, 0, 0, 0, 0x10, 0, 0, 0, 0, 0, 0, 0, 1, 0, 0, 0,
    0, 0, 0, 0, 0,
];

/// The same of three blocks.
pub(crate) const WRITE_OF_THREE: [u8; 32] = [
    0x83, 0x5A, 0, 0, 0, 0, 0x30, 0x18, 0, 0, 0, 0, 0, 0, 0, 0x10, 0, 0, 0, 0, 0, 0, 0, 1, 0, 0, 0,
    0, 0, 0, 0, 0,
];

/// The same of 32 blocks.
pub(crate) const LARGEST_WRITE: [u8; 32] = [
    0x83, 0x5A, 0, 0, 0, 2, 0, 0x18, 0, 0, 0, 0, 0, 0, 0, 0x10, 0, 0, 0, 0, 0, 0, 0, 1, 0, 0, 0, 0,
    0, 0, 0, 0,
];

pub(crate) const BARRIER: [u8; 16] = [0x83, 0x5A, 0, 3, 0, 0, 0, 8, 0, 0, 0, 1, 0, 0, 0, 0];

/// A barrier whose second word is not zero.
pub(crate) const WRONG_BARRIER: [u8; 16] = [0x83, 0x5A, 0, 3, 0, 0, 0, 8, 0, 0, 0, 1, 0, 0, 0, 1];

/// A barrier without its last byte.
pub(crate) const SHORT_BARRIER: [u8; 15] = [0x83, 0x5A, 0, 3, 0, 0, 0, 8, 0, 0, 0, 1, 0, 0, 0];

pub(crate) const RECV_ACK: [u8; 32] = [
    0x83, 0x5A, 0, 0x15, 0, 0, 0, 0x18, 0, 0, 0, 0, 0, 0, 0, 0x10, 0, 0, 0, 0, 0, 0, 0, 1, 0, 0,
    0x10, 0, 0, 0, 0, 0,
];

pub(crate) const WRITE_ACK: [u8; 32] = [
    0x83, 0x5A, 0, 0x16, 0, 0, 0, 0x18, 0, 0, 0, 0, 0, 0, 0, 0x10, 0, 0, 0, 0, 0, 0, 0, 1, 0, 0,
    0x10, 0, 0, 0, 0, 0,
];

pub(crate) const BARRIER_ACK: [u8; 16] = [0x83, 0x5A, 0, 0x1C, 0, 0, 0, 8, 0, 0, 0, 1, 0, 0, 0, 1];

pub(crate) const TWO_WRITES_ACK: [u8; 16] = [
    0x83, 0x5A, 0, 0x1C, 0, 0, 0, 8, 0, 0, 0, 1, 0, 0, 0, 2,
];

pub(crate) const PROTOCOL_C: [u8; 12] = [0x83, 0x5A, 0, 0x0B, 0, 0, 0, 4, 0, 0, 0, 3];

pub(crate) const SIZES: [u8; 16] = [0x83, 0x5A, 0, 0x0D, 0, 0, 0, 8, 0, 0, 0, 0, 0, 0, 0, 8];

pub(crate) const UUIDS: [u8; 40] = [
    0x83, 0x5A, 0, 0x0C, 0, 0, 0, 0x20, 0, 0, 0, 0, 0, 0, 0, 7, 0, 0, 0, 0, 0, 0, 0, 0, 0, 0, 0, 0,
    0, 0, 0, 9, 0, 0, 0, 0, 0, 0, 0, 1,
];

pub(crate) const SYNC_UUID: [u8; 16] = [0x83, 0x5A, 0, 0x0F, 0, 0, 0, 8, 0, 0, 0, 0, 0, 0, 0, 9];

/// A header and the numbers of an RS_DATA_REPLY frame: block 3, place 1.
pub(crate) const RESYNC: [u8; 32] = [
    0x83, 0x5A, 0, 2, 0, 0, 0x10, 0x18, 0, 0, 0, 0, 0, 0, 0, 0x18, 0, 0, 0, 0, 0, 0, 0, 0, 0, 0, 0,
    1, 0, 0, 0, 0,
];

pub(crate) const RS_WRITE_ACK: [u8; 32] = [
    0x83, 0x5A, 0, 0x17, 0, 0, 0, 0x18, 0, 0, 0, 0, 0, 0, 0, 0x18, 0, 0, 0, 0, 0, 0, 0, 0, 0, 0,
    0x10, 0, 0, 0, 0, 1,
];

pub(crate) const OTHER_MAGIC: [u8; 8] = [0x83, 0x5B, 0, 3, 0, 0, 0, 8];

fn with_blocks_in(
    alloc: Global,
    front: &[u8],
    blocks: u8,
    byte: u8,
) -> Result<Vec<u8>, AllocError> {
    let mut frame = Vec::from_slice(alloc, front)?;
    frame.resize(front.len() + usize::from(blocks) * BLOCK_BYTES, byte)?;
    Ok(frame)
}

/// Returns the front of a frame, followed by `blocks` blocks filled with one byte.
pub(crate) fn with_blocks(
    rt: &impl Abort,
    alloc: Global,
    front: &[u8],
    blocks: u8,
    byte: u8,
) -> Vec<u8> {
    with_blocks_in(alloc, front, blocks, byte).expect(rt, "memory")
}

/// Returns whether a frame has these bytes: those of its second part follow those of its first.
pub(crate) fn has_bytes(frame: &Frame, bytes: &[u8]) -> bool {
    let (first, second) = frame.parts();
    first.len() <= bytes.len() && bytes.split_at(first.len()) == (first, second)
}

pub(crate) fn frame_of(rt: &impl Abort, alloc: Global, bytes: &[u8]) -> Frame {
    Frame::new(Bytes::copy_from_slice(alloc, bytes).expect(rt, "memory"))
}
