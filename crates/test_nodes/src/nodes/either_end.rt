//! Frames that either end refuses, in a hello or after it.
use crate::nodes::answers::Answer;
use crate::nodes::frames::{
    BARRIER_1, PROTOCOL_A, PROTOCOL_C, SIZES_8, SIZES_16, Spelled, UUIDS_1, WRITE, WRITE_ACK,
};
use blocks::Refusal;

/// A protocol with a number that none of the three has.
const FOURTH_PROTOCOL: Spelled = Spelled::Short(&[0x83, 0x5A, 0, 0x0B, 0, 0, 0, 4, 0, 0, 0, 4]);

/// A barrier whose second word is not zero.
const BARRIER_AND_A_WORD: Spelled = Spelled::Short(&[
    0x83, 0x5A, 0, 3, 0, 0, 0, 8, 0, 0, 0, 1, 0, 0, 0, 1,
]);

/// The header of a barrier, except for its magic number.
const OTHER_MAGIC: Spelled = Spelled::Short(&[0x83, 0x5B, 0, 3, 0, 0, 0, 8]);

/// Frames that replace the first one of a hello.
pub(crate) const FIRST: [(Spelled, Answer); 9] = [
    (PROTOCOL_A, Err(Refusal::OtherProtocol)),
    // Another command, whatever its fields say.
    (SIZES_8, Err(Refusal::BadCommand)),
    (WRITE, Err(Refusal::BadCommand)),
    (WRITE_ACK, Err(Refusal::BadCommand)),
    (BARRIER_1, Err(Refusal::BadCommand)),
    (BARRIER_AND_A_WORD, Err(Refusal::BadCommand)),
    // Bytes of no packet: another magic number, a frame that ends early, and a field.
    (OTHER_MAGIC, Err(Refusal::BadMagic)),
    (
        Spelled::Short(&[0x83, 0x5A, 0, 0x0B, 0, 0, 0, 4, 0, 0, 0]),
        Err(Refusal::BadLength),
    ),
    (FOURTH_PROTOCOL, Err(Refusal::BadField)),
];

/// Frames that replace the second one.
pub(crate) const SECOND: [(Spelled, Answer); 4] = [
    (SIZES_16, Err(Refusal::OtherSize)),
    (PROTOCOL_C, Err(Refusal::BadCommand)),
    (UUIDS_1, Err(Refusal::BadCommand)),
    (BARRIER_AND_A_WORD, Err(Refusal::BadCommand)),
];

/// Frames that replace the third one.
pub(crate) const THIRD: [(Spelled, Answer); 3] = [
    (PROTOCOL_C, Err(Refusal::BadCommand)),
    (WRITE, Err(Refusal::BadCommand)),
    (BARRIER_AND_A_WORD, Err(Refusal::BadCommand)),
];

/// Frames after the hello that are the bytes of no packet.
pub(crate) const UNREADABLE: [(Spelled, Answer); 18] = [
    (OTHER_MAGIC, Err(Refusal::BadMagic)),
    // A command that does not exist.
    (
        Spelled::Short(&[0x83, 0x5A, 0, 7, 0, 0, 0, 0]),
        Err(Refusal::BadCommand),
    ),
    // Lengths that the command does not have: writes of no blocks and of 33, and a barrier of 9 bytes.
    (
        Spelled::Short(&[0x83, 0x5A, 0, 0, 0, 0, 0, 0x18]),
        Err(Refusal::BadLength),
    ),
    (
        Spelled::Short(&[0x83, 0x5A, 0, 0, 0, 2, 0x10, 0x18]),
        Err(Refusal::BadLength),
    ),
    (
        Spelled::Short(&[0x83, 0x5A, 0, 3, 0, 0, 0, 9]),
        Err(Refusal::BadLength),
    ),
    // A barrier's frame that ends early, in its header and after it, and one that is too long, whatever its fields say.
    (Spelled::Short(&[]), Err(Refusal::BadLength)),
    (
        Spelled::Short(&[0x83, 0x5A, 0, 3, 0, 0, 0]),
        Err(Refusal::BadLength),
    ),
    (
        Spelled::Short(&[0x83, 0x5A, 0, 3, 0, 0, 0, 8, 0, 0, 0, 1]),
        Err(Refusal::BadLength),
    ),
    (
        Spelled::Short(&[0x83, 0x5A, 0, 3, 0, 0, 0, 8, 0, 0, 0, 1, 0, 0, 0, 0, 0]),
        Err(Refusal::BadLength),
    ),
    (
        Spelled::Short(&[0x83, 0x5A, 0, 3, 0, 0, 0, 8, 0, 0, 0, 1, 0, 0, 0, 1, 0]),
        Err(Refusal::BadLength),
    ),
    (BARRIER_AND_A_WORD, Err(Refusal::BadField)),
    (FOURTH_PROTOCOL, Err(Refusal::BadField)),
    // A write with flags, one at a sector that begins no block, and one without a number.
    (
        Spelled::Long(
            &[
                0x83, 0x5A, 0, 0, 0, 0, 0x10, 0x18, 0, 0, 0, 0, 0, 0, 0, 0x10, 0, 0, 0, 0, 0, 0, 0,
                1, 0, 0, 0, 0, 0, 0, 0, 1,
            ],
            1,
        ),
        Err(Refusal::BadField),
    ),
    (
        Spelled::Long(
            &[
                0x83, 0x5A, 0, 0, 0, 0, 0x10, 0x18, 0, 0, 0, 0, 0, 0, 0, 1, 0, 0, 0, 0, 0, 0, 0, 1,
                0, 0, 0, 0, 0, 0, 0, 0,
            ],
            1,
        ),
        Err(Refusal::BadField),
    ),
    (
        Spelled::Long(
            &[
                0x83, 0x5A, 0, 0, 0, 0, 0x10, 0x18, 0, 0, 0, 0, 0, 0, 0, 0x10, 0, 0, 0, 0, 0, 0, 0,
                0, 0, 0, 0, 0, 0, 0, 0, 0,
            ],
            1,
        ),
        Err(Refusal::BadField),
    ),
    // A block of a resync with a number.
    (
        Spelled::Long(
            &[
                0x83, 0x5A, 0, 2, 0, 0, 0x10, 0x18, 0, 0, 0, 0, 0, 0, 0, 0x18, 0, 0, 0, 0, 0, 0, 0,
                1, 0, 0, 0, 1, 0, 0, 0, 0,
            ],
            1,
        ),
        Err(Refusal::BadField),
    ),
    // An acknowledgement of no bytes, and of 33 blocks.
    (
        Spelled::Short(&[
            0x83, 0x5A, 0, 0x16, 0, 0, 0, 0x18, 0, 0, 0, 0, 0, 0, 0, 0x10, 0, 0, 0, 0, 0, 0, 0, 1,
            0, 0, 0, 0, 0, 0, 0, 0,
        ]),
        Err(Refusal::BadField),
    ),
    (
        Spelled::Short(&[
            0x83, 0x5A, 0, 0x16, 0, 0, 0, 0x18, 0, 0, 0, 0, 0, 0, 0, 0x10, 0, 0, 0, 0, 0, 0, 0, 1,
            0, 2, 0x10, 0, 0, 0, 0, 0,
        ]),
        Err(Refusal::BadField),
    ),
];
