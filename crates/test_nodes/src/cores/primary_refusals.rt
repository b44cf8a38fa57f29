//! Refusals of a primary in each state: of writes, connections and receipts.
use crate::cores::cases::{Case, passes};
use crate::cores::primary_tables::{
    BARRIER, COMPLETES_1, CONNECTED, DONE, Fact, Frame, Outcome, Part, RELEASED, Row, SETTINGS,
    START, Start, Step,
};
use crate::tuples::{OWN, PARTED, RESYNCING};
use bitmap::Bitmap;
use blocks::{Block, Command, Decision, MAX_DEVICE_BLOCKS, Refusal, Settings, What};
use primary_core::PrimaryCore;
use std::alloc::Global;

/// If the bitmap records no generation, a write requires an established connection.
const UNOPENED: [Row; 6] = [
    (Step::Submit(0, 1, 0xAA), Err(Refusal::NotConnected)),
    (Step::Open(0, 7), Err(Refusal::UsedIdentifier)),
    (Step::Open(5, 1), Err(Refusal::UsedIdentifier)),
    (Step::Open(5, 5), Err(Refusal::UsedIdentifier)),
    (Step::Close, Err(Refusal::NotConnected)),
    (Step::Resync(0xAA), Err(Refusal::NotConnected)),
];

const OPENED: [Row; 3] = [
    (Step::Open(9, 11), Err(Refusal::NotDrained)),
    (Step::Local(1), Err(Refusal::UnknownJob)),
    (Step::Resync(0xAA), Err(Refusal::NothingToDo)),
];

/// On a device of 2048 blocks, whose extents have 1024 each.
const RANGES: [Row; 7] = [
    (Step::Submit(2016, 32, 0xAA), Ok(Outcome::Accepted(1))),
    (Step::Submit(0, 33, 0xAA), Err(Refusal::BadRange)),
    (Step::Submit(0, 0, 0xAA), Err(Refusal::BadRange)),
    (Step::Submit(2048, 1, 0xAA), Err(Refusal::BadRange)),
    (Step::Submit(2047, 2, 0xAA), Err(Refusal::BadRange)),
    (Step::Submit(1023, 2, 0xAA), Err(Refusal::BadRange)),
    (Step::SubmitPart, Err(Refusal::BadRange)),
];

/// One extent may be active, and stays so until its writes are released.
const ONE_SLOT: [Row; 9] = [
    (Step::Submit(0, 1, 0xAA), Ok(Outcome::Accepted(1))),
    (Step::Submit(1024, 1, 0xBB), Err(Refusal::ActivityFull)),
    (Step::Local(1), DONE),
    (
        Step::Send(Frame::Data(0, 1, 0, 0xAA)),
        Ok(Outcome::Went(Command::Data, Some(0))),
    ),
    (Step::Take(Frame::WriteAck(0, 1, 0)), COMPLETES_1),
    (Step::Submit(1024, 1, 0xBB), Err(Refusal::ActivityFull)),
    BARRIER,
    RELEASED,
    (Step::Submit(1024, 1, 0xBB), Ok(Outcome::Accepted(2))),
];

/// A full log is reported before a conflict.
const ONE_WRITE: [Row; 3] = [
    (Step::Submit(0, 1, 0xAA), Ok(Outcome::Accepted(1))),
    (Step::Submit(1, 1, 0xBB), Err(Refusal::LogFull)),
    (Step::Submit(0, 1, 0xBB), Err(Refusal::LogFull)),
];

/// A write that the local disk failed holds no block any more, and is marked.
const FAILED: [Row; 6] = [
    (Step::Submit(2, 2, 0xAA), Ok(Outcome::Accepted(1))),
    (
        Step::LocalFail(1),
        Ok(Outcome::More(What::Nothing, None, Some(1), false)),
    ),
    (Step::Submit(3, 1, 0xBB), Ok(Outcome::Accepted(2))),
    (Step::Local(1), Err(Refusal::UnknownJob)),
    (Step::Receipt(1), Err(Refusal::LocalFault)),
    (Step::Receipt(1), Err(Refusal::UnknownJob)),
];

const GIVEN: [Row; 3] = [
    (Step::Submit(6, 2, 0x5A), Ok(Outcome::Accepted(1))),
    (Step::Given(1, 2, 0x5A), Ok(Outcome::Given(1, 6, 2, true))),
    (Step::Given(2, 2, 0x5A), Err(Refusal::UnknownJob)),
];

/// A closed end sends nothing, and every unreleased write is marked, sent or not.
const CUT: [Row; 8] = [
    (Step::Submit(0, 2, 0x11), Ok(Outcome::Accepted(1))),
    (Step::Submit(2, 2, 0x22), Ok(Outcome::Accepted(2))),
    (Step::Submit(5, 1, 0x33), Ok(Outcome::Accepted(3))),
    (
        Step::Send(Frame::TwoBlocks(0, 1, 0, 0x11)),
        Ok(Outcome::Went(Command::Data, Some(0))),
    ),
    (
        Step::Send(Frame::TwoBlocks(2, 2, 1, 0x22)),
        Ok(Outcome::Went(Command::Data, Some(1))),
    ),
    (Step::Close, Ok(Outcome::Closed(0))),
    (
        Step::Send(Frame::Data(5, 3, 2, 0x33)),
        Err(Refusal::NotConnected),
    ),
    (Step::Close, Err(Refusal::NotConnected)),
];

/// The resync waits for the open writes, and takes the blocks of those that are done.
const RESUMED: [Row; 4] = [
    (Step::Resync(0x11), Err(Refusal::NothingToDo)),
    (
        Step::Local(1),
        Ok(Outcome::More(What::Nothing, Some(1), None, false)),
    ),
    (
        Step::Resync(0x11),
        Ok(Outcome::Did(What::Block(Block(0), 1))),
    ),
    (Step::Resync(0x11), Err(Refusal::NothingToDo)),
];

static REFUSALS: [Case<Start, Part>; 8] = [
    Case {
        name: "a connection begins once",
        start: &START,
        before: &[],
        parts: &[
            Part::Rows(&UNOPENED),
            Part::Holds(&[Fact::Connections(0)]),
            CONNECTED,
            Part::Rows(&OPENED),
            Part::Holds(&[
                Fact::Connections(1),
                Fact::Established(true),
                Fact::Accepted(0),
            ]),
        ],
    },
    Case {
        name: "a primary has a mark for each block",
        start: &Start {
            marked: &[1, 7],
            ..START
        },
        before: &[],
        parts: &[Part::Marks(&[1, 7]), Part::Holds(&[Fact::Open(false)])],
    },
    Case {
        name: "ranges of writes",
        start: &Start {
            settings: Settings {
                blocks: 2048,
                ..SETTINGS
            },
            ..START
        },
        before: &[CONNECTED],
        parts: &[Part::Rows(&RANGES), Part::Holds(&[Fact::Accepted(1)])],
    },
    Case {
        name: "an extent is active until its writes are released",
        start: &Start {
            settings: Settings {
                blocks: 2048,
                slots: 1,
                ..SETTINGS
            },
            ..START
        },
        before: &[CONNECTED],
        parts: &[Part::Rows(&ONE_SLOT)],
    },
    Case {
        name: "the log is full of unreleased writes",
        start: &Start {
            settings: Settings {
                backlog: 1,
                ..SETTINGS
            },
            ..START
        },
        before: &[CONNECTED],
        parts: &[
            Part::Rows(&ONE_WRITE),
            Part::Holds(&[Fact::FirstUnreleased(Some(1))]),
        ],
    },
    Case {
        name: "a failed write is never completed",
        start: &START,
        before: &[CONNECTED],
        parts: &[
            Part::Rows(&FAILED),
            Part::Marks(&[2, 3]),
            Part::Holds(&[Fact::OpenWrites(1)]),
            Part::Rows(&[(Step::Next, Ok(Outcome::Next(Some(2))))]),
        ],
    },
    Case {
        name: "the local disk is given the bytes of a write",
        start: &START,
        before: &[CONNECTED],
        parts: &[Part::Rows(&GIVEN)],
    },
    Case {
        name: "a lost link marks what is unreleased",
        start: &START,
        before: &[CONNECTED],
        parts: &[
            Part::Rows(&CUT),
            Part::Marks(&[0, 1, 2, 3, 5]),
            Part::Holds(&[
                Fact::OpenWrites(3),
                Fact::Unanswered(0),
                Fact::OpenEpochs(0),
                Fact::Unsent(0),
                Fact::Tuple(PARTED),
            ]),
            Part::Greeting((9, 11), (PARTED, OWN), Decision::BitmapSync),
            Part::Holds(&[Fact::Tuple(RESYNCING)]),
            Part::Rows(&RESUMED),
        ],
    },
];

#[test]
fn steps_that_are_refused(rt: HostRuntime) {
    passes::<PrimaryCore, _>(&rt, &REFUSALS);
}

// Returns why there is no primary of 8 blocks with these marks.
fn refused(alloc: Global, marks: &[bool]) -> Option<Refusal> {
    if marks.len() > MAX_DEVICE_BLOCKS as usize {
        return None;
    }
    let marks = Bitmap::from_marks(alloc, marks).ok()?;
    PrimaryCore::new(alloc, SETTINGS, OWN, marks).err()
}

#[test]
fn seven_marks_are_too_few(rt: HostRuntime) {
    assert_eq!(rt; refused(rt.alloc(), &[false; 7]), Some(Refusal::BadSetting));
}
