//! Frames that no primary sends: each is refused, and closes the end.
use crate::cores::cases::{Foreign, check_each_foreign};
use crate::cores::secondary_calls::{
    DONE, Fact, Frame, GREETED, OPENED, Outcome, Part, Row, SETTINGS, Step,
};
use crate::tuples::{OWN, SYNCED};
use blocks::{Command, Protocol, Refusal, Settings};
use secondary_core::SecondaryCore;

/// Frames that come after write 1 of block 2, at place 0.
const FOREIGN: [(Frame, Refusal); 11] = [
    // Another place, a block of the same epoch, a number that does not rise, past the end of the device.
    (Frame::Data(3, 2, 2), Refusal::BadField),
    (Frame::Data(2, 2, 1), Refusal::BadField),
    (Frame::Data(3, 1, 1), Refusal::BadField),
    (Frame::TwoBlocks, Refusal::BadField),
    // Not the next barrier, and the frames of a resync while none runs.
    (Frame::Barrier(2), Refusal::BadField),
    (Frame::SyncUuid(9), Refusal::BadField),
    (Frame::Uuids(SYNCED), Refusal::BadField),
    (Frame::RsDataReply(3, 1), Refusal::BadField),
    // Frames that are no items.
    (Frame::Protocol(Protocol::C), Refusal::BadCommand),
    (Frame::WriteAck, Refusal::BadCommand),
    // A frame that is too short or too long.
    (Frame::Fault(Refusal::BadLength), Refusal::BadLength),
];

const WRITE: Row = (
    Step::Take(Frame::Data(2, 1, 0)),
    Ok(Outcome::Took(Command::Data, Some(0))),
);

/// The end is closed; the write stays pending, and is applied.
const APPLIED: [Row; 5] = [
    (Step::Take(Frame::Barrier(1)), Err(Refusal::NotConnected)),
    (Step::AckOut, Err(Refusal::NotConnected)),
    (Step::Close, Err(Refusal::NotConnected)),
    (Step::Peer(0), DONE),
    (Step::Peer(0), Err(Refusal::UnknownJob)),
];

/// Frames that replace the primary's first one.
const FIRST: [(Frame, Refusal); 4] = [
    (Frame::Sizes(8), Refusal::BadCommand),
    (Frame::Data(2, 1, 0), Refusal::BadCommand),
    (Frame::Protocol(Protocol::A), Refusal::OtherProtocol),
    (Frame::Fault(Refusal::BadMagic), Refusal::BadMagic),
];

/// Frames that replace its second one.
const SECOND: [(Frame, Refusal); 2] = [
    (Frame::Uuids(OWN), Refusal::BadCommand),
    (Frame::Sizes(16), Refusal::OtherSize),
];

const CLOSED: [Part; 1] = [Part::Holds(&[Fact::Open(false)])];

static FOREIGN_FRAMES: [Foreign<Settings, Part, Frame>; 3] = [
    Foreign {
        name: "foreign frames after the hello",
        start: &SETTINGS,
        before: &[OPENED, GREETED, Part::Rows(&[WRITE])],
        frames: &FOREIGN,
        after: &[Part::Rows(&APPLIED)],
    },
    Foreign {
        name: "foreign frames in the hello",
        start: &SETTINGS,
        before: &[Part::Rows(&[(Step::Open(1), DONE)])],
        frames: &FIRST,
        after: &CLOSED,
    },
    Foreign {
        name: "foreign frames in the hello",
        start: &SETTINGS,
        before: &[OPENED],
        frames: &SECOND,
        after: &CLOSED,
    },
];

#[test]
fn foreign_frames_close_the_end(rt: HostRuntime) {
    check_each_foreign::<SecondaryCore, _>(&rt, &FOREIGN_FRAMES);
}
