//! A frame of each kind, as bytes.
use crate::vectors::{
    BARRIER, BARRIER_ACK, PROTOCOL_C, RESYNC, RS_WRITE_ACK, SIZES, SYNC_UUID, TWO_WRITES_ACK,
    UUIDS, WRITE, WRITE_ACK, WRITE_OF_THREE, with_blocks,
};
use std::alloc::Global;
use std::process::Abort;

/// A frame of each kind: its bytes, or those before its blocks, and how many blocks of bytes AA it has.
const KINDS: [(&[u8], u8); 11] = [
    (&WRITE, 1),
    (&BARRIER, 0),
    (&WRITE_ACK, 0),
    (&BARRIER_ACK, 0),
    (&TWO_WRITES_ACK, 0),
    (&PROTOCOL_C, 0),
    (&SIZES, 0),
    (&UUIDS, 0),
    (&SYNC_UUID, 0),
    (&RESYNC, 1),
    (&RS_WRITE_ACK, 0),
];

/// Makes the DATA frame of blocks 2 to 4.
pub(crate) fn write(rt: &impl Abort, alloc: Global) -> Vec<u8> {
    with_blocks(rt, alloc, &WRITE_OF_THREE, 3, 0xAA)
}

/// Makes a frame of each kind.
pub(crate) fn frames(rt: &impl Abort, alloc: Global) -> Vec<Vec<u8>> {
    let mut frames = Vec::new(alloc);
    for (front, blocks) in KINDS {
        let frame = with_blocks(rt, alloc, front, blocks, 0xAA);
        frames.push(frame).expect(rt, "memory");
    }
    frames
}
