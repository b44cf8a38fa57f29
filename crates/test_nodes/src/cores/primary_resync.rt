//! The primary's half of a resync: it reads and sends the marked blocks, and what the peer has is not marked.
use crate::cores::cases::{Case, passes};
use crate::cores::primary_tables::{
    CONNECTED, DONE, Fact, Frame, OF_ONE, Outcome, Part, RELEASED, Row, START, Start, Step,
};
use crate::tuples::{OWN, PARTED, RESYNCING, SYNCED, TARGET};
use blocks::{Block, Command, Decision, Refusal, Tuple, What};
use primary_core::PrimaryCore;

/// The link is lost; writes without it are completed by the local disk and marked.
const ALONE: [Row; 8] = [
    (Step::Close, Ok(Outcome::Closed(0))),
    (Step::Submit(3, 1, 0xAA), Ok(Outcome::Accepted(1))),
    (Step::Submit(6, 1, 0xBB), Ok(Outcome::Accepted(2))),
    (
        Step::Send(Frame::Data(3, 1, 0, 0xAA)),
        Err(Refusal::NotConnected),
    ),
    (
        Step::Local(1),
        Ok(Outcome::More(What::Nothing, Some(1), None, false)),
    ),
    (
        Step::Local(2),
        Ok(Outcome::More(What::Nothing, Some(2), None, false)),
    ),
    (Step::Receipt(1), Ok(Outcome::Receipt(3, 1, false, None))),
    (Step::Receipt(1), Err(Refusal::UnknownJob)),
];

/// Blocks 3 and 6 are marked, and a resync has begun.
const BEGUN: [Part; 5] = [
    CONNECTED,
    Part::Rows(&ALONE),
    Part::Marks(&[3, 6]),
    Part::Greeting((9, 11), (PARTED, OWN), Decision::BitmapSync),
    Part::Holds(&[
        Fact::Resync(true),
        Fact::Tuple(RESYNCING),
        Fact::FirstUnreleased(None),
    ]),
];

const SYNC_UUID: Row = (
    Step::Send(Frame::SyncUuid(9)),
    Ok(Outcome::Went(Command::SyncUuid, Some(0))),
);

const FIRST_BLOCK: Row = (
    Step::Resync(0xAA),
    Ok(Outcome::Did(What::Block(Block(3), 1))),
);

const FIRST_SENT: Row = (
    Step::Send(Frame::RsDataReply(3, 1, 0xAA)),
    Ok(Outcome::Went(Command::RsDataReply, Some(1))),
);

/// The acknowledgement of a block ends the epoch.
const FIRST_DONE: Row = (
    Step::Take(Frame::RsWriteAck(3, 1)),
    Ok(Outcome::More(What::Frame(Command::RsWriteAck, None), None, Some(1), false)),
);

const FIRST_COPIED: [Row; 3] = [SYNC_UUID, FIRST_BLOCK, FIRST_SENT];

const SECOND_COPIED: [Row; 5] = [
    (
        Step::Resync(0xBB),
        Ok(Outcome::Did(What::Block(Block(6), 3))),
    ),
    (
        Step::Send(Frame::Barrier(1)),
        Ok(Outcome::Went(Command::Barrier, Some(2))),
    ),
    (
        Step::Send(Frame::RsDataReply(6, 3, 0xBB)),
        Ok(Outcome::Went(Command::RsDataReply, Some(3))),
    ),
    (
        Step::Take(Frame::BarrierAck(1, 0)),
        Ok(Outcome::Went(Command::BarrierAck, None)),
    ),
    (
        Step::Take(Frame::RsWriteAck(6, 3)),
        Ok(Outcome::More(What::Frame(Command::RsWriteAck, None), None, Some(2), true)),
    ),
];

const CLOSING: [Row; 3] = [
    (
        Step::Send(Frame::Barrier(2)),
        Ok(Outcome::Went(Command::Barrier, Some(4))),
    ),
    (
        Step::Send(Frame::Uuids(SYNCED)),
        Ok(Outcome::Went(Command::Uuids, Some(5))),
    ),
    (Step::Resync(0xAA), Err(Refusal::NothingToDo)),
];

/// The disk's identifiers if the peer is lost before it takes the end of the resync.
const LOST: Tuple = Tuple {
    current: 11,
    bitmap: 7,
    first_historical: 9,
    second_historical: 1,
};

const FULL: Tuple = Tuple {
    current: 11,
    bitmap: 13,
    first_historical: 7,
    second_historical: 9,
};

/// The resync holds the block under way, and an open write holds the other one.
const SHARED: [Row; 8] = [
    FIRST_BLOCK,
    (Step::Submit(2, 2, 0xCC), Err(Refusal::Conflict(0))),
    (Step::Submit(6, 1, 0xDD), Ok(Outcome::Accepted(3))),
    SYNC_UUID,
    FIRST_SENT,
    (
        Step::Send(Frame::Data(6, 3, 2, 0xDD)),
        Ok(Outcome::Went(Command::Data, Some(2))),
    ),
    FIRST_DONE,
    (Step::Resync(0xDD), Err(Refusal::NothingToDo)),
];

/// The resync passes over a block that an open write holds.
const PASSED: [Row; 2] = [
    (Step::Submit(3, 1, 0xCC), Ok(Outcome::Accepted(3))),
    (
        Step::Resync(0xBB),
        Ok(Outcome::Did(What::Block(Block(6), 2))),
    ),
];

/// A connected write of a marked block goes through.
const WRITTEN: [Row; 7] = [
    (Step::Submit(3, 1, 0xCC), Ok(Outcome::Accepted(3))),
    (Step::Local(3), DONE),
    SYNC_UUID,
    (
        Step::Send(Frame::Data(3, 3, 1, 0xCC)),
        Ok(Outcome::Went(Command::Data, Some(1))),
    ),
    (
        Step::Take(Frame::WriteAck(3, 3, 1)),
        Ok(Outcome::More(
            What::Frame(Command::WriteAck, None),
            Some(3),
            Some(1),
            false,
        )),
    ),
    (
        Step::Send(Frame::Barrier(1)),
        Ok(Outcome::Went(Command::Barrier, Some(2))),
    ),
    (
        Step::Receipt(3),
        Ok(Outcome::Receipt(3, 1, true, Some((2, 1)))),
    ),
];

const SECOND_BLOCK: Row = (
    Step::Resync(0xBB),
    Ok(Outcome::Did(What::Block(Block(6), 3))),
);

/// Writes of both marked blocks, sent and answered.
const BOTH: [Row; 10] = [
    (Step::Submit(3, 1, 0xCC), Ok(Outcome::Accepted(3))),
    (Step::Submit(6, 1, 0xDD), Ok(Outcome::Accepted(4))),
    (Step::Local(3), DONE),
    (Step::Local(4), DONE),
    SYNC_UUID,
    (
        Step::Send(Frame::Data(3, 3, 1, 0xCC)),
        Ok(Outcome::Went(Command::Data, Some(1))),
    ),
    (
        Step::Send(Frame::Data(6, 4, 2, 0xDD)),
        Ok(Outcome::Went(Command::Data, Some(2))),
    ),
    (
        Step::Take(Frame::WriteAck(3, 3, 1)),
        Ok(Outcome::More(
            What::Frame(Command::WriteAck, None),
            Some(3),
            Some(1),
            false,
        )),
    ),
    (
        Step::Take(Frame::WriteAck(6, 4, 2)),
        Ok(Outcome::More(What::Frame(Command::WriteAck, None), Some(4), None, false)),
    ),
    (
        Step::Send(Frame::Barrier(1)),
        Ok(Outcome::Went(Command::Barrier, Some(3))),
    ),
];

const SYNCED_BY_WRITES: [Row; 2] = [
    (
        Step::Take(Frame::BarrierAck(1, 2)),
        Ok(Outcome::More(What::Frame(Command::BarrierAck, None), None, None, true)),
    ),
    (
        Step::Send(Frame::Uuids(SYNCED)),
        Ok(Outcome::Went(Command::Uuids, Some(4))),
    ),
];

/// An epoch of one write is acknowledged before the local disk has the write.
const ACKNOWLEDGED: [Row; 6] = [
    (
        Step::Submit(3, 1, 0xCC),
        Ok(Outcome::More(What::Write(3), None, Some(1), false)),
    ),
    SYNC_UUID,
    (
        Step::Send(Frame::Data(3, 3, 1, 0xCC)),
        Ok(Outcome::Went(Command::Data, Some(1))),
    ),
    (
        Step::Send(Frame::Barrier(1)),
        Ok(Outcome::Went(Command::Barrier, Some(2))),
    ),
    (
        Step::Take(Frame::WriteAck(3, 3, 1)),
        Ok(Outcome::Went(Command::WriteAck, None)),
    ),
    RELEASED,
];

const LOCAL: Row = (
    Step::Local(3),
    Ok(Outcome::More(What::Nothing, Some(3), None, false)),
);

static RESYNCS: [Case<Start, Part>; 7] = [
    Case {
        name: "a resync copies the marked blocks",
        start: &START,
        before: &BEGUN,
        parts: &[
            Part::Rows(&FIRST_COPIED),
            Part::Marks(&[3, 6]),
            Part::Rows(&[FIRST_DONE]),
            Part::Marks(&[6]),
            Part::Rows(&SECOND_COPIED),
            Part::Holds(&[Fact::Resync(false), Fact::Tuple(SYNCED)]),
            Part::Rows(&CLOSING),
            Part::Marks(&[]),
            Part::Holds(&[Fact::Places(6)]),
        ],
    },
    Case {
        name: "a target that was not told is copied whole",
        start: &START,
        before: &BEGUN,
        parts: &[
            Part::Rows(&FIRST_COPIED),
            Part::Rows(&[FIRST_DONE]),
            Part::Rows(&SECOND_COPIED),
            Part::Rows(&[(Step::Close, Ok(Outcome::Closed(0)))]),
            Part::Holds(&[Fact::Tuple(LOST)]),
            Part::Greeting((13, 15), (LOST, TARGET), Decision::FullSync),
            Part::Marks(&[0, 1, 2, 3, 4, 5, 6, 7]),
            Part::Holds(&[Fact::Tuple(FULL), Fact::Connections(3)]),
        ],
    },
    Case {
        name: "a resync and a write hold no block both",
        start: &START,
        before: &BEGUN,
        parts: &[Part::Rows(&SHARED), Part::Marks(&[6])],
    },
    Case {
        name: "a resync and a write hold no block both",
        start: &START,
        before: &BEGUN,
        parts: &[Part::Rows(&PASSED), Part::Marks(&[3, 6])],
    },
    Case {
        name: "a released write clears its mark",
        start: &START,
        before: &BEGUN,
        parts: &[
            Part::Rows(&WRITTEN),
            Part::Marks(&[3, 6]),
            Part::Rows(&[RELEASED]),
            Part::Marks(&[6]),
            Part::Rows(&[SECOND_BLOCK]),
        ],
    },
    Case {
        name: "writes alone may end a resync",
        start: &START,
        before: &BEGUN,
        parts: &[
            Part::Rows(&BOTH),
            Part::Marks(&[3, 6]),
            Part::Rows(&SYNCED_BY_WRITES),
            Part::Marks(&[]),
            Part::Holds(&[Fact::Tuple(SYNCED)]),
        ],
    },
    Case {
        name: "a mark waits for the local disk",
        start: &OF_ONE,
        before: &BEGUN,
        parts: &[
            Part::Rows(&ACKNOWLEDGED),
            Part::Marks(&[3, 6]),
            Part::Rows(&[LOCAL]),
            Part::Marks(&[6]),
        ],
    },
];

#[test]
fn resyncs_and_their_marks(rt: HostRuntime) {
    passes::<PrimaryCore, _>(&rt, &RESYNCS);
}
