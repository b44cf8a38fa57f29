//! The frames of the tests, byte by byte.
use blocks::Refusal;
use bytes::Bytes;
use packets::Frame;
use std::alloc::Global;

/// The bytes of a frame of a link, for tables.
#[derive(Clone, Copy)]
pub(crate) enum Spelled {
    /// All of them.
    Short(&'static [u8]),
    /// The bytes before its blocks, and how many blocks there are, each filled with AA.
    Long(&'static [u8], u8),
}

impl Spelled {
    /// Makes the frame.
    pub(crate) fn frame(&self, alloc: Global) -> Result<Frame, Refusal> {
        let (front, blocks) = match self {
            Spelled::Short(bytes) => (*bytes, 0),
            Spelled::Long(front, blocks) => (*front, *blocks),
        };
        let mut bytes = Vec::from_slice(alloc, front)?;
        for _ in 0..blocks {
            bytes.extend_from_slice(&[0xAA; 4096])?;
        }
        Ok(Frame::new(Bytes::from_vec(bytes)?))
    }
}

/// Protocol A.
pub(crate) const PROTOCOL_A: Spelled = Spelled::Short(&[
    0x83, 0x5A, 0, 0x0B, 0, 0, 0, 4, 0, 0, 0, 1,
]);

/// Protocol C.
pub(crate) const PROTOCOL_C: Spelled = Spelled::Short(&[
    0x83, 0x5A, 0, 0x0B, 0, 0, 0, 4, 0, 0, 0, 3,
]);

/// A device of 8 blocks.
pub(crate) const SIZES_8: Spelled = Spelled::Short(&[
    0x83, 0x5A, 0, 0x0D, 0, 0, 0, 8, 0, 0, 0, 0, 0, 0, 0, 8,
]);

/// A device of 16 blocks.
pub(crate) const SIZES_16: Spelled = Spelled::Short(&[
    0x83, 0x5A, 0, 0x0D, 0, 0, 0, 8, 0, 0, 0, 0, 0, 0, 0, 0x10,
]);

/// The identifiers 1,0,0,0.
pub(crate) const UUIDS_1: Spelled = Spelled::Short(&[
    0x83, 0x5A, 0, 0x0C, 0, 0, 0, 0x20, 0, 0, 0, 0, 0, 0, 0, 1, 0, 0, 0, 0, 0, 0, 0, 0, 0, 0, 0, 0,
    0, 0, 0, 0, 0, 0, 0, 0, 0, 0, 0, 0,
]);

/// The identifiers 7,0,9,1.
pub(crate) const UUIDS_7_0_9_1: Spelled = Spelled::Short(&[
    0x83, 0x5A, 0, 0x0C, 0, 0, 0, 0x20, 0, 0, 0, 0, 0, 0, 0, 7, 0, 0, 0, 0, 0, 0, 0, 0, 0, 0, 0, 0,
    0, 0, 0, 9, 0, 0, 0, 0, 0, 0, 0, 1,
]);

/// Write 1 of block 2, at place 0.
pub(crate) const WRITE: Spelled = Spelled::Long(
    &[
        0x83, 0x5A, 0, 0, 0, 0, 0x10, 0x18, 0, 0, 0, 0, 0, 0, 0, 0x10, 0, 0, 0, 0, 0, 0, 0, 1, 0,
        0, 0, 0, 0, 0, 0, 0,
    ],
    1,
);

/// The peer's disk has that write.
pub(crate) const WRITE_ACK: Spelled = Spelled::Short(&[
    0x83, 0x5A, 0, 0x16, 0, 0, 0, 0x18, 0, 0, 0, 0, 0, 0, 0, 0x10, 0, 0, 0, 0, 0, 0, 0, 1, 0, 0,
    0x10, 0, 0, 0, 0, 0,
]);

/// The end of the first epoch.
pub(crate) const BARRIER_1: Spelled = Spelled::Short(&[
    0x83, 0x5A, 0, 3, 0, 0, 0, 8, 0, 0, 0, 1, 0, 0, 0, 0,
]);

/// The peer's disk has the first epoch, which is one write.
pub(crate) const BARRIER_ACK_1: Spelled = Spelled::Short(&[
    0x83, 0x5A, 0, 0x1C, 0, 0, 0, 8, 0, 0, 0, 1, 0, 0, 0, 1,
]);

/// Block 3 of a resync, at place 1.
pub(crate) const RESYNC: Spelled = Spelled::Long(
    &[
        0x83, 0x5A, 0, 2, 0, 0, 0x10, 0x18, 0, 0, 0, 0, 0, 0, 0, 0x18, 0, 0, 0, 0, 0, 0, 0, 0, 0,
        0, 0, 1, 0, 0, 0, 0,
    ],
    1,
);
