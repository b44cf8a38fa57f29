//! The primary's half of the worked rows: writes, from their acceptance to their release.
use crate::cores::cases::{Case, passes};
use crate::cores::primary_tables::{
    ACCEPTED, ANSWERED, BARRIER, COMPLETES_1, CONNECTED, DONE, Fact, Frame, OF_ONE, Outcome, Part,
    RELEASED, Row, SENT, SETTINGS, START, Start, Step,
};
use crate::tuples::{OWN, PARTED};
use blocks::{Command, Protocol, Refusal, Settings, What};
use primary_core::PrimaryCore;

/// Under C a write is completed once both disks have it, and released by its epoch's acknowledgement.
const WRITTEN: [Row; 13] = [
    (Step::Next, Ok(Outcome::Next(None))),
    ACCEPTED,
    (Step::Next, Ok(Outcome::Next(Some(1)))),
    (Step::Local(1), DONE),
    (Step::Next, Ok(Outcome::Next(None))),
    (Step::Local(1), Err(Refusal::UnknownJob)),
    SENT,
    (Step::Receipt(1), Err(Refusal::NotCompleted)),
    ANSWERED,
    (
        Step::Receipt(1),
        Ok(Outcome::Receipt(2, 1, true, Some((1, 0)))),
    ),
    (Step::Receipt(1), Err(Refusal::UnknownJob)),
    (Step::Receipt(2), Err(Refusal::UnknownJob)),
    (Step::Receipt(0), Err(Refusal::UnknownJob)),
];

const FREED: [Row; 3] = [
    BARRIER,
    (Step::Send(Frame::Barrier(2)), Err(Refusal::NothingThere)),
    RELEASED,
];

const CLOSED: [Row; 1] = [(Step::Close, Ok(Outcome::Closed(0)))];

const COMPLETED: [Fact; 7] = [
    Fact::Tuple(OWN),
    Fact::Peer(Some(OWN)),
    Fact::Unanswered(0),
    Fact::OpenWrites(0),
    Fact::OpenEpochs(1),
    Fact::FirstUnreleased(Some(1)),
    Fact::Places(2),
];

const ALL_FREED: [Fact; 3] = [
    Fact::OpenEpochs(0),
    Fact::FirstUnreleased(None),
    Fact::Accepted(1),
];

/// Under A a write is completed once the local disk has it and it was sent.
const SENT_FIRST: [Row; 3] = [
    ACCEPTED,
    SENT,
    (
        Step::Local(1),
        Ok(Outcome::More(What::Nothing, Some(1), Some(1), false)),
    ),
];

const DONE_FIRST: [Row; 3] = [
    ACCEPTED,
    (Step::Local(1), DONE),
    (
        Step::Send(Frame::Data(2, 1, 0, 0xAA)),
        Ok(Outcome::More(What::Frame(Command::Data, Some(0)), Some(1), Some(1), false)),
    ),
];

const IN_A: Start = Start {
    settings: Settings {
        protocol: Protocol::A,
        ..SETTINGS
    },
    ..START
};

const COMPLETED_UNANSWERED: [Part; 3] = [
    Part::Rows(&[BARRIER]),
    Part::Holds(&[
        Fact::Unanswered(0),
        Fact::OpenWrites(0),
        Fact::FirstUnreleased(Some(1)),
    ]),
    Part::Marks(&[]),
];

/// Under B a write is completed once the local disk has it and the peer has received it.
const RECEIVED: [Row; 4] = [
    ACCEPTED,
    (Step::Local(1), DONE),
    SENT,
    (
        Step::Take(Frame::RecvAck(2, 1, 0)),
        Ok(Outcome::More(What::Frame(Command::RecvAck, None), Some(1), Some(1), false)),
    ),
];

const IN_B: Start = Start {
    settings: Settings {
        protocol: Protocol::B,
        ..SETTINGS
    },
    ..START
};

/// The completion ends the epoch: what comes then follows its barrier.
const FOLLOWED: [Row; 8] = [
    (Step::Submit(3, 2, 0x11), Ok(Outcome::Accepted(1))),
    (Step::Submit(4, 2, 0x22), Err(Refusal::Conflict(1))),
    (Step::Local(1), DONE),
    (
        Step::Send(Frame::TwoBlocks(3, 1, 0, 0x11)),
        Ok(Outcome::Went(Command::Data, Some(0))),
    ),
    (Step::Take(Frame::WideAck(3, 1, 0)), COMPLETES_1),
    (Step::Submit(4, 2, 0x22), Ok(Outcome::Accepted(2))),
    BARRIER,
    (
        Step::Send(Frame::TwoBlocks(4, 2, 2, 0x22)),
        Ok(Outcome::Went(Command::Data, Some(2))),
    ),
];

/// Two writes of one epoch, completed in reverse order, and one of the next epoch.
const EPOCHS: [Row; 14] = [
    (Step::Submit(0, 1, 0x01), Ok(Outcome::Accepted(1))),
    (Step::Submit(1, 1, 0x02), Ok(Outcome::Accepted(2))),
    (Step::Local(1), DONE),
    (Step::Local(2), DONE),
    (
        Step::Send(Frame::Data(0, 1, 0, 0x01)),
        Ok(Outcome::Went(Command::Data, Some(0))),
    ),
    (
        Step::Send(Frame::Data(1, 2, 1, 0x02)),
        Ok(Outcome::Went(Command::Data, Some(1))),
    ),
    (
        Step::Take(Frame::WriteAck(1, 2, 1)),
        Ok(Outcome::More(
            What::Frame(Command::WriteAck, None),
            Some(2),
            Some(1),
            false,
        )),
    ),
    (Step::Submit(2, 1, 0x03), Ok(Outcome::Accepted(3))),
    (
        Step::Send(Frame::Barrier(1)),
        Ok(Outcome::Went(Command::Barrier, Some(2))),
    ),
    (
        Step::Send(Frame::Data(2, 3, 3, 0x03)),
        Ok(Outcome::Went(Command::Data, Some(3))),
    ),
    (
        Step::Take(Frame::WriteAck(0, 1, 0)),
        Ok(Outcome::More(What::Frame(Command::WriteAck, None), Some(1), None, false)),
    ),
    (
        Step::Take(Frame::BarrierAck(1, 2)),
        Ok(Outcome::Went(Command::BarrierAck, None)),
    ),
    (
        Step::Take(Frame::WriteAck(2, 3, 3)),
        Ok(Outcome::Went(Command::WriteAck, None)),
    ),
    (
        Step::Local(3),
        Ok(Outcome::More(What::Nothing, Some(3), Some(2), false)),
    ),
];

/// An epoch that is full has its barrier at once, and may be acknowledged before the local disk is done.
const FULL: [Row; 6] = [
    (
        Step::Submit(2, 1, 0xAA),
        Ok(Outcome::More(What::Write(1), None, Some(1), false)),
    ),
    SENT,
    BARRIER,
    (
        Step::Take(Frame::WriteAck(2, 1, 0)),
        Ok(Outcome::Went(Command::WriteAck, None)),
    ),
    RELEASED,
    (Step::Receipt(1), Err(Refusal::NotCompleted)),
];

static WRITES: [Case<Start, Part>; 7] = [
    Case {
        name: "a write is completed once both disks have it",
        start: &START,
        before: &[CONNECTED],
        parts: &[
            Part::Rows(&WRITTEN),
            Part::Holds(&COMPLETED),
            Part::Rows(&FREED),
            Part::Holds(&ALL_FREED),
            Part::Rows(&CLOSED),
            Part::Marks(&[]),
            Part::Holds(&[Fact::Tuple(PARTED)]),
        ],
    },
    Case {
        name: "a sent write is completed without an answer",
        start: &IN_A,
        before: &[CONNECTED, Part::Rows(&SENT_FIRST)],
        parts: &COMPLETED_UNANSWERED,
    },
    Case {
        name: "a sent write is completed without an answer",
        start: &IN_A,
        before: &[CONNECTED, Part::Rows(&DONE_FIRST)],
        parts: &COMPLETED_UNANSWERED,
    },
    Case {
        name: "a completed write is marked where it was not acknowledged",
        start: &IN_B,
        before: &[CONNECTED],
        parts: &[
            Part::Rows(&RECEIVED),
            Part::Marks(&[]),
            Part::Rows(&CLOSED),
            Part::Marks(&[2]),
            Part::Holds(&[Fact::Tuple(PARTED)]),
        ],
    },
    Case {
        name: "a conflict ends with the completion",
        start: &START,
        before: &[CONNECTED],
        parts: &[
            Part::Rows(&FOLLOWED),
            Part::Holds(&[
                Fact::OpenWrites(1),
                Fact::Unanswered(1),
                Fact::OpenEpochs(2),
            ]),
        ],
    },
    Case {
        name: "the first completion ends an epoch",
        start: &START,
        before: &[CONNECTED],
        parts: &[
            Part::Rows(&EPOCHS),
            Part::Holds(&[Fact::FirstUnreleased(Some(3)), Fact::OpenEpochs(1)]),
        ],
    },
    Case {
        name: "a full epoch ends with a barrier",
        start: &OF_ONE,
        before: &[CONNECTED],
        parts: &[
            Part::Rows(&FULL),
            Part::Holds(&[
                Fact::Unanswered(0),
                Fact::OpenWrites(1),
                Fact::OpenEpochs(0),
            ]),
            Part::Marks(&[]),
            Part::Rows(&CLOSED),
            Part::Marks(&[2]),
        ],
    },
];

#[test]
fn writes_from_acceptance_to_release(rt: HostRuntime) {
    passes::<PrimaryCore, _>(&rt, &WRITES);
}
