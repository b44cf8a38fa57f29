//! The secondary's half of the worked rows.
use crate::cores::cases::{Case, passes};
use crate::cores::secondary_calls::{
    DONE, Fact, Frame, GREETED, OPENED, OPENED_IN_A, OPENED_IN_B, Outcome, Part, Row, SETTINGS,
    Step,
};
use crate::tuples::{SYNCED, TARGET};
use blocks::{Command, Protocol, Refusal, Settings};
use secondary_core::{SecondaryCore, Usage};

const UNOPENED: [Row; 4] = [
    (Step::Take(Frame::Sizes(8)), Err(Refusal::NotConnected)),
    (Step::AckOut, Err(Refusal::NotConnected)),
    (Step::Open(1), DONE),
    (Step::Open(2), Err(Refusal::NotDrained)),
];

/// An item of the second epoch waits for both of the first.
const EPOCHS: [Row; 14] = [
    (
        Step::Take(Frame::Data(0, 1, 0)),
        Ok(Outcome::Took(Command::Data, Some(0))),
    ),
    (
        Step::Take(Frame::Data(1, 2, 1)),
        Ok(Outcome::Took(Command::Data, Some(1))),
    ),
    (Step::Peer(1), DONE),
    (Step::AckOut, Ok(Outcome::Sent(Command::WriteAck, 2, 1))),
    (
        Step::Take(Frame::Barrier(1)),
        Ok(Outcome::Took(Command::Barrier, Some(2))),
    ),
    (
        Step::Take(Frame::Data(2, 3, 3)),
        Ok(Outcome::Took(Command::Data, Some(3))),
    ),
    (Step::AckOut, Err(Refusal::NothingThere)),
    (Step::Peer(3), Err(Refusal::EpochOpen)),
    (Step::Peer(0), DONE),
    (Step::Peer(3), DONE),
    (Step::Peer(3), Err(Refusal::UnknownJob)),
    (Step::AckOut, Ok(Outcome::Sent(Command::WriteAck, 1, 0))),
    (Step::AckOut, Ok(Outcome::Sent(Command::BarrierAck, 1, 2))),
    (Step::AckOut, Ok(Outcome::Sent(Command::WriteAck, 3, 3))),
];

const APPLIED: Usage = Usage {
    consistent: true,
    whole: 1,
    pending: 0,
};

/// Under A nothing is acknowledged.
const NEVER: [Row; 3] = [
    (
        Step::Take(Frame::Data(2, 1, 0)),
        Ok(Outcome::Took(Command::Data, Some(0))),
    ),
    (Step::Peer(0), DONE),
    (Step::AckOut, Err(Refusal::NothingThere)),
];

/// Under B a write is acknowledged before the disk fails it.
const RECEIVED: [Row; 4] = [
    (
        Step::Take(Frame::Data(2, 1, 0)),
        Ok(Outcome::Took(Command::Data, Some(0))),
    ),
    (Step::AckOut, Ok(Outcome::Sent(Command::RecvAck, 1, 0))),
    (Step::PeerFault(0), DONE),
    (Step::Peer(0), Err(Refusal::UnknownJob)),
];

/// A closed end takes nothing more, but what it took is applied, and then it opens again.
const REOPENED: [Row; 6] = [
    (
        Step::Take(Frame::Data(0, 1, 0)),
        Ok(Outcome::Took(Command::Data, Some(0))),
    ),
    (Step::Take(Frame::Data(1, 2, 1)), Err(Refusal::PendingFull)),
    (Step::Close, DONE),
    (Step::Open(2), Err(Refusal::NotDrained)),
    (Step::Peer(0), DONE),
    (Step::Open(2), DONE),
];

/// A resync of blocks 3 and 6, without its end.
const RESYNC: [Row; 9] = [
    (
        Step::Take(Frame::SyncUuid(9)),
        Ok(Outcome::Took(Command::SyncUuid, Some(0))),
    ),
    (
        Step::Take(Frame::RsDataReply(3, 1)),
        Ok(Outcome::Took(Command::RsDataReply, Some(1))),
    ),
    (Step::Peer(1), DONE),
    (Step::AckOut, Ok(Outcome::Sent(Command::RsWriteAck, 0, 1))),
    (
        Step::Take(Frame::Barrier(1)),
        Ok(Outcome::Took(Command::Barrier, Some(2))),
    ),
    (Step::AckOut, Ok(Outcome::Sent(Command::BarrierAck, 1, 0))),
    (
        Step::Take(Frame::RsDataReply(6, 3)),
        Ok(Outcome::Took(Command::RsDataReply, Some(3))),
    ),
    (Step::Peer(3), DONE),
    (
        Step::Take(Frame::Barrier(2)),
        Ok(Outcome::Took(Command::Barrier, Some(4))),
    ),
];

/// How far the data may be used after both blocks are copied.
const COPIED: Usage = Usage {
    consistent: false,
    whole: 2,
    pending: 0,
};

/// The same after the primary has sent the end of the resync.
const ENDED: Usage = Usage {
    consistent: true,
    ..COPIED
};

const END: Row = (
    Step::Take(Frame::Uuids(SYNCED)),
    Ok(Outcome::Took(Command::Uuids, Some(5))),
);

static STEPS: [Case<Settings, Part>; 7] = [
    Case {
        name: "an end opens once",
        start: &SETTINGS,
        before: &[],
        parts: &[
            Part::Rows(&UNOPENED),
            Part::Holds(&[Fact::Number(1), Fact::HelloDone(false)]),
        ],
    },
    Case {
        name: "an end opens once",
        start: &SETTINGS,
        before: &[OPENED, GREETED],
        parts: &[Part::Holds(&[Fact::HelloDone(true)])],
    },
    Case {
        name: "epochs are applied in order",
        start: &SETTINGS,
        before: &[OPENED, GREETED],
        parts: &[Part::Rows(&EPOCHS), Part::Holds(&[Fact::Usage(APPLIED)])],
    },
    Case {
        name: "each protocol acknowledges its way",
        start: &Settings {
            protocol: Protocol::A,
            ..SETTINGS
        },
        before: &[OPENED_IN_A, GREETED],
        parts: &[
            Part::Rows(&NEVER),
            Part::Holds(&[Fact::Open(true), Fact::Drained(true)]),
        ],
    },
    Case {
        name: "each protocol acknowledges its way",
        start: &Settings {
            protocol: Protocol::B,
            ..SETTINGS
        },
        before: &[OPENED_IN_B, GREETED],
        parts: &[
            Part::Rows(&RECEIVED),
            Part::Holds(&[Fact::Open(false), Fact::Drained(true)]),
        ],
    },
    Case {
        name: "a closed end keeps its items",
        start: &Settings {
            pending: 1,
            ..SETTINGS
        },
        before: &[OPENED, GREETED],
        parts: &[Part::Rows(&REOPENED), Part::Holds(&[Fact::ItemsTaken(0)])],
    },
    Case {
        name: "a resync makes it consistent again",
        start: &SETTINGS,
        before: &[OPENED, GREETED],
        parts: &[
            Part::Rows(&RESYNC),
            Part::Holds(&[Fact::Tuple(TARGET), Fact::Usage(COPIED)]),
            Part::Rows(&[END]),
            Part::Holds(&[
                Fact::Tuple(SYNCED),
                Fact::Consistent(true),
                Fact::Usage(ENDED),
            ]),
        ],
    },
];

#[test]
fn steps_of_a_secondary(rt: HostRuntime) {
    passes::<SecondaryCore, _>(&rt, &STEPS);
}
