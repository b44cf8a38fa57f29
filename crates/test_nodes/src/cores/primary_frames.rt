//! Frames that no secondary sends: each is refused, and closes the end with all that a close does.
use crate::cores::cases::{Foreign, check_each_foreign};
use crate::cores::primary_tables::{
    ACCEPTED, ANSWERED, BARRIER, CONNECTED, DONE, Fact, Frame, OF_ONE, Outcome, PROTOCOL_WENT,
    Part, Row, SENT, SIZES_WENT, START, Start, Step,
};
use crate::tuples::{OWN, PARTED};
use blocks::{Protocol, Refusal, Tuple, What};
use primary_core::PrimaryCore;

/// Frames that come after write 1 was sent.
const FOREIGN: [(Frame, Refusal); 13] = [
    // Another write, another place, another size, another block.
    (Frame::WriteAck(2, 2, 0), Refusal::UnknownAck),
    (Frame::WriteAck(2, 1, 1), Refusal::UnknownAck),
    (Frame::WideAck(2, 1, 0), Refusal::UnknownAck),
    (Frame::WriteAck(3, 1, 0), Refusal::UnknownAck),
    // The acknowledgement of another protocol, and that of a resync while none runs.
    (Frame::RecvAck(2, 1, 0), Refusal::UnknownAck),
    (Frame::RsWriteAck(3, 1), Refusal::UnknownAck),
    // No barrier was sent.
    (Frame::BarrierAck(1, 1), Refusal::BadBarrierAck),
    // Frames that are no acknowledgements.
    (Frame::Data(2, 1, 0, 0xAA), Refusal::BadCommand),
    (Frame::Protocol(Protocol::C), Refusal::BadCommand),
    // Frames that could not be read.
    (Frame::Fault(Refusal::BadMagic), Refusal::BadMagic),
    (Frame::Fault(Refusal::BadCommand), Refusal::BadCommand),
    (Frame::Fault(Refusal::BadLength), Refusal::BadLength),
    (Frame::Fault(Refusal::BadField), Refusal::BadField),
];

/// Nothing is done over a closed end.
const CLOSED: [Row; 4] = [
    (
        Step::Take(Frame::WriteAck(2, 1, 0)),
        Err(Refusal::NotConnected),
    ),
    (Step::Send(Frame::Barrier(1)), Err(Refusal::NotConnected)),
    (Step::Resync(0xAA), Err(Refusal::NotConnected)),
    (Step::Close, Err(Refusal::NotConnected)),
];

/// The end is closed, and the disk goes on under the word for a loss.
const CUT_OFF: [Fact; 3] = [
    Fact::Open(false),
    Fact::Established(false),
    Fact::Tuple(PARTED),
];

/// The end is closed, block 2 is marked, and write 1 stays open.
const LEFT_OPEN: [Part; 4] = [
    Part::Rows(&CLOSED),
    Part::Holds(&CUT_OFF),
    Part::Marks(&[2]),
    Part::Holds(&[Fact::OpenWrites(1), Fact::Unanswered(0)]),
];

/// The epoch of one write has its barrier at once.
const ENDED: [Row; 2] = [
    (
        Step::Submit(2, 1, 0xAA),
        Ok(Outcome::More(What::Write(1), None, Some(1), false)),
    ),
    SENT,
];

const EARLY: [(Frame, Refusal); 1] = [(Frame::BarrierAck(1, 1), Refusal::BadBarrierAck)];

/// The end is closed, and block 2 is marked.
const PARTED_END: [Part; 3] = [
    Part::Rows(&CLOSED),
    Part::Holds(&CUT_OFF),
    Part::Marks(&[2]),
];

/// Frames that come after write 1 was answered and completed, and its barrier was sent.
const AGAIN: [(Frame, Refusal); 4] = [
    (Frame::BarrierAck(1, 2), Refusal::BadBarrierAck),
    // A size that is not the epoch's is refused at once: to look at that many writes would take minutes.
    (Frame::BarrierAck(1, u32::MAX), Refusal::BadBarrierAck),
    (Frame::BarrierAck(2, 1), Refusal::BadBarrierAck),
    (Frame::WriteAck(2, 1, 0), Refusal::UnknownAck),
];

/// Write 1 is completed, and its barrier was sent.
const COMPLETED: [Row; 5] = [ACCEPTED, SENT, (Step::Local(1), DONE), ANSWERED, BARRIER];

const FIRST: [(Frame, Refusal); 4] = [
    (Frame::Sizes(8), Refusal::BadCommand),
    (Frame::WriteAck(2, 1, 0), Refusal::BadCommand),
    (Frame::Protocol(Protocol::A), Refusal::OtherProtocol),
    (Frame::Fault(Refusal::BadMagic), Refusal::BadMagic),
];

const SECOND: [(Frame, Refusal); 2] = [
    (Frame::Uuids(OWN), Refusal::BadCommand),
    (Frame::Sizes(16), Refusal::OtherSize),
];

const THIRD: [(Frame, Refusal); 3] = [
    (Frame::Protocol(Protocol::C), Refusal::BadCommand),
    // The peer's identifiers contain a word of this connection.
    (Frame::Uuids(USED), Refusal::UsedIdentifier),
    (Frame::Uuids(STRANGE), Refusal::Unrelated),
];

const USED: Tuple = Tuple {
    current: 1,
    bitmap: 0,
    first_historical: 7,
    second_historical: 0,
};

const STRANGE: Tuple = Tuple {
    current: 20,
    bitmap: 21,
    first_historical: 22,
    second_historical: 23,
};

const OPEN: Row = (Step::Open(5, 7), Ok(Outcome::Nothing));

const PROTOCOL: Row = (Step::Take(Frame::Protocol(Protocol::C)), PROTOCOL_WENT);

const SIZES: Row = (Step::Take(Frame::Sizes(8)), SIZES_WENT);

/// The end is closed, and all else is as it was before the connection.
const UNCHANGED: [Part; 4] = [
    Part::Rows(&CLOSED),
    Part::Holds(&[Fact::Open(false)]),
    Part::Marks(&[]),
    Part::Holds(&[Fact::Tuple(OWN)]),
];

static FOREIGN_FRAMES: [Foreign<Start, Part, Frame>; 7] = [
    Foreign {
        name: "foreign frames after a write",
        start: &START,
        before: &[CONNECTED, Part::Rows(&[ACCEPTED, SENT])],
        frames: &FOREIGN,
        after: &LEFT_OPEN,
    },
    Foreign {
        name: "an unanswered epoch is not acknowledged",
        start: &OF_ONE,
        before: &[CONNECTED, Part::Rows(&ENDED)],
        frames: &EARLY,
        after: &PARTED_END,
    },
    Foreign {
        name: "an unanswered epoch is not acknowledged",
        start: &OF_ONE,
        before: &[CONNECTED, Part::Rows(&ENDED), Part::Rows(&[BARRIER])],
        frames: &EARLY,
        after: &PARTED_END,
    },
    Foreign {
        name: "a strange answer to a completed write",
        start: &START,
        before: &[CONNECTED, Part::Rows(&COMPLETED)],
        frames: &AGAIN,
        after: &[
            Part::Rows(&CLOSED),
            Part::Holds(&CUT_OFF),
            Part::Marks(&[2]),
            Part::Holds(&[Fact::OpenWrites(0)]),
        ],
    },
    Foreign {
        name: "a refused hello changes no identifier",
        start: &START,
        before: &[Part::Rows(&[OPEN])],
        frames: &FIRST,
        after: &UNCHANGED,
    },
    Foreign {
        name: "a refused hello changes no identifier",
        start: &START,
        before: &[Part::Rows(&[OPEN, PROTOCOL])],
        frames: &SECOND,
        after: &UNCHANGED,
    },
    Foreign {
        name: "a refused hello changes no identifier",
        start: &START,
        before: &[Part::Rows(&[OPEN, PROTOCOL, SIZES])],
        frames: &THIRD,
        after: &UNCHANGED,
    },
];

#[test]
fn foreign_frames_close_the_end(rt: HostRuntime) {
    check_each_foreign::<PrimaryCore, _>(&rt, &FOREIGN_FRAMES);
}
