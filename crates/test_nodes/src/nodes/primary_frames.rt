//! Frames that no secondary sends: each is refused, and closes the end with all that a close does.
use crate::nodes::answers::{
    Answer, BARRIER_ACK_WENT, BARRIER_WENT, CLOSED, DONE, NONE, NOTHING, PROTOCOL_WENT, SIZES_WENT,
    UUIDS_WENT, WRITE_ACK_WENT, WRITE_WENT,
};
use crate::nodes::cases;
use crate::nodes::cases::passes;
use crate::nodes::either_end::UNREADABLE;
use crate::nodes::frames::{
    BARRIER_ACK_1, PROTOCOL_C, SIZES_8, Spelled, UUIDS_1, WRITE, WRITE_ACK,
};
use crate::nodes::linked_primary::{After, Before, Case, LinkedPrimary, Row, State, Step};
use crate::tuples;
use crate::tuples::OWN;
use blocks::{Command, Decision, Done, Refusal, Settings, What};
use primary::CompletionKind;

/// Frames that come after write 1 was sent.
const FOREIGN: [(Spelled, Answer); 7] = [
    // The acknowledgement of write 2 in the place of write 1, that of write 1 at place 1, and that of 8192 bytes.
    (
        Spelled::Short(&[
            0x83, 0x5A, 0, 0x16, 0, 0, 0, 0x18, 0, 0, 0, 0, 0, 0, 0, 0x10, 0, 0, 0, 0, 0, 0, 0, 2,
            0, 0, 0x10, 0, 0, 0, 0, 0,
        ]),
        Err(Refusal::UnknownAck),
    ),
    (
        Spelled::Short(&[
            0x83, 0x5A, 0, 0x16, 0, 0, 0, 0x18, 0, 0, 0, 0, 0, 0, 0, 0x10, 0, 0, 0, 0, 0, 0, 0, 1,
            0, 0, 0x10, 0, 0, 0, 0, 1,
        ]),
        Err(Refusal::UnknownAck),
    ),
    (
        Spelled::Short(&[
            0x83, 0x5A, 0, 0x16, 0, 0, 0, 0x18, 0, 0, 0, 0, 0, 0, 0, 0x10, 0, 0, 0, 0, 0, 0, 0, 1,
            0, 0, 0x20, 0, 0, 0, 0, 0,
        ]),
        Err(Refusal::UnknownAck),
    ),
    // The acknowledgement of another protocol, and that of block 3 of a resync, at place 1, while no resync runs.
    (
        Spelled::Short(&[
            0x83, 0x5A, 0, 0x15, 0, 0, 0, 0x18, 0, 0, 0, 0, 0, 0, 0, 0x10, 0, 0, 0, 0, 0, 0, 0, 1,
            0, 0, 0x10, 0, 0, 0, 0, 0,
        ]),
        Err(Refusal::UnknownAck),
    ),
    (
        Spelled::Short(&[
            0x83, 0x5A, 0, 0x17, 0, 0, 0, 0x18, 0, 0, 0, 0, 0, 0, 0, 0x18, 0, 0, 0, 0, 0, 0, 0, 0,
            0, 0, 0x10, 0, 0, 0, 0, 1,
        ]),
        Err(Refusal::UnknownAck),
    ),
    // The acknowledgement of a barrier that was not sent.
    (BARRIER_ACK_1, Err(Refusal::BadBarrierAck)),
    // A frame that is no acknowledgement.
    (WRITE, Err(Refusal::BadCommand)),
];

/// The acknowledgements of barrier 1 with an epoch of two writes, and of barrier 2, and a second one of write 1. Each
/// comes after barrier 1 was sent and write 1 was answered.
const AGAIN: [(Spelled, Answer); 3] = [
    (
        Spelled::Short(&[0x83, 0x5A, 0, 0x1C, 0, 0, 0, 8, 0, 0, 0, 1, 0, 0, 0, 2]),
        Err(Refusal::BadBarrierAck),
    ),
    (
        Spelled::Short(&[0x83, 0x5A, 0, 0x1C, 0, 0, 0, 8, 0, 0, 0, 2, 0, 0, 0, 1]),
        Err(Refusal::BadBarrierAck),
    ),
    (WRITE_ACK, Err(Refusal::UnknownAck)),
];

/// The acknowledgement of barrier 1, before that of its write.
const EARLY: [(Spelled, Answer); 1] = [(BARRIER_ACK_1, Err(Refusal::BadBarrierAck))];

/// The peer's identifiers equal the disk's.
const DECIDED: Answer = Ok(Done {
    what: What::Decided(Decision::NoSync),
    ..NOTHING
});

/// All of a hello but its last frame.
pub(super) const HELLO: [Row; 5] = [
    (Step::Send, PROTOCOL_WENT),
    (Step::Send, SIZES_WENT),
    (Step::Send, UUIDS_WENT),
    (Step::AckIn, PROTOCOL_WENT),
    (Step::AckIn, SIZES_WENT),
];

/// Its last frame.
const GREETED: [Row; 1] = [(Step::AckIn, DECIDED)];

/// Write 1 of block 2 is sent, at place 0.
const SENT: [Row; 2] = [
    (
        Step::Submit(2),
        Ok(Done {
            what: What::Write(1),
            ..NOTHING
        }),
    ),
    (Step::Send, WRITE_WENT),
];

/// The same, if an epoch has one write.
const SENT_AS_EPOCH: [Row; 3] = [
    (
        Step::Submit(2),
        Ok(Done {
            what: What::Write(1),
            completed: None,
            barrier: Some(1),
            synced: false,
        }),
    ),
    (Step::Send, WRITE_WENT),
    (Step::Send, BARRIER_WENT),
];

/// The local disk has write 1.
const WRITTEN: [Row; 1] = [(Step::Local(1), DONE)];

/// That completes it.
const COMPLETED: Answer = Ok(Done {
    what: What::Nothing,
    completed: Some(1),
    ..NOTHING
});

/// That completes it, and ends its epoch.
const COMPLETED_AND_ENDED: Answer = Ok(Done {
    what: What::Nothing,
    completed: Some(1),
    barrier: Some(1),
    synced: false,
});

/// The peer's disk has it too, which completes it and ends its epoch.
const ACKNOWLEDGED: Answer = Ok(Done {
    what: What::Frame(Command::WriteAck, None),
    completed: Some(1),
    barrier: Some(1),
    synced: false,
});

const ANSWERED: [Row; 2] = [(Step::AckIn, ACKNOWLEDGED), (Step::Send, BARRIER_WENT)];

const WRITE_SENT: Before = Before {
    settings: Settings::STANDARD,
    received: &[PROTOCOL_C, SIZES_8, UUIDS_1],
    rows: &[&HELLO, &GREETED, &SENT],
};

const WRITE_SENT_AND_WRITTEN: Before = Before {
    settings: Settings::STANDARD,
    received: &[PROTOCOL_C, SIZES_8, UUIDS_1],
    rows: &[&HELLO, &GREETED, &SENT, &WRITTEN],
};

const EPOCH_SENT: Before = Before {
    settings: Settings {
        max_epoch: 1,
        ..Settings::STANDARD
    },
    received: &[PROTOCOL_C, SIZES_8, UUIDS_1],
    rows: &[&HELLO, &GREETED, &SENT_AS_EPOCH],
};

const EPOCH_ANSWERED: Before = Before {
    settings: Settings::STANDARD,
    received: &[PROTOCOL_C, SIZES_8, UUIDS_1, WRITE_ACK],
    rows: &[&HELLO, &GREETED, &SENT, &WRITTEN, &ANSWERED],
};

/// The end is closed, block 2 alone is marked, and the disk goes on under the word for a loss.
pub(crate) const PARTED: State = State {
    is_open: false,
    is_established: false,
    is_resync: false,
    tuple: tuples::PARTED,
    connections: 1,
    accepted: 1,
    incomplete: 0,
    unanswered: 0,
    open_epochs: 0,
    marks: 1,
    is_marked: true,
};

/// Write 1 is still open. Then the local disk has it, which completes it without the peer.
const PARTED_BEFORE_IT_IS_WRITTEN: After = After {
    behind: &[WRITE_ACK],
    state: State {
        incomplete: 1,
        ..PARTED
    },
    rows: &[
        (Step::Send, CLOSED),
        (Step::AckIn, CLOSED),
        (Step::Resync, CLOSED),
        (Step::Close, CLOSED),
        (Step::Local(1), COMPLETED),
    ],
    end: PARTED,
    left: Ok((CompletionKind::Alone, 2, 1, Some((1, 0)))),
};

/// Nothing is sent or taken over a closed end, although a frame waits that an open one would take.
pub(crate) const NO_MORE: [Row; 5] = [
    (Step::Send, CLOSED),
    (Step::AckIn, CLOSED),
    (Step::Resync, CLOSED),
    (Step::Close, CLOSED),
    (Step::Local(1), Err(Refusal::UnknownJob)),
];

/// The close completed write 1, which the local disk has, without the peer.
const PARTED_ALONE: After = After {
    behind: &[WRITE_ACK],
    state: PARTED,
    rows: &NO_MORE,
    end: PARTED,
    left: Ok((CompletionKind::Alone, 2, 1, Some((1, 0)))),
};

/// The peer's answer completed write 1 before.
const PARTED_LINKED: After = After {
    behind: &[BARRIER_ACK_1],
    state: PARTED,
    rows: &NO_MORE,
    end: PARTED,
    left: Ok((CompletionKind::Linked, 2, 1, Some((1, 0)))),
};

static FOREIGN_FRAMES: [Case; 5] = [
    cases::Case(&WRITE_SENT, &FOREIGN, &PARTED_BEFORE_IT_IS_WRITTEN),
    cases::Case(&WRITE_SENT_AND_WRITTEN, &FOREIGN, &PARTED_ALONE),
    cases::Case(&EPOCH_SENT, &EARLY, &PARTED_BEFORE_IT_IS_WRITTEN),
    cases::Case(&EPOCH_ANSWERED, &AGAIN, &PARTED_LINKED),
    cases::Case(&WRITE_SENT, &UNREADABLE, &PARTED_BEFORE_IT_IS_WRITTEN),
];

#[test]
fn foreign_frames_close_the_end(rt: HostRuntime) {
    passes::<LinkedPrimary, _>(&rt, &FOREIGN_FRAMES);
}

/// The end is open, and the connection is established. Write 1 is completed, and its epoch is not acknowledged.
const STANDING: State = State {
    is_open: true,
    is_established: true,
    open_epochs: 1,
    tuple: OWN,
    marks: 0,
    is_marked: false,
    ..PARTED
};

/// The peer's disk has write 1, and then the local disk has it.
const ANSWERED_BEFORE_IT_IS_WRITTEN: After = After {
    behind: &[],
    state: State {
        incomplete: 1,
        ..STANDING
    },
    rows: &[
        (Step::AckIn, NONE),
        (Step::Local(1), COMPLETED_AND_ENDED),
        (Step::Send, BARRIER_WENT),
        (Step::Send, NONE),
    ],
    end: STANDING,
    left: Ok((CompletionKind::Linked, 2, 1, Some((1, 0)))),
};

const ANSWERED_LAST: After = After {
    behind: &[],
    state: STANDING,
    rows: &[(Step::Send, BARRIER_WENT), (Step::Send, NONE)],
    end: STANDING,
    left: Ok((CompletionKind::Linked, 2, 1, Some((1, 0)))),
};

/// The peer acknowledges the epoch of write 1, and then the local disk has the write.
const EPOCH_ENDS: After = After {
    behind: &[BARRIER_ACK_1],
    state: State {
        incomplete: 1,
        ..STANDING
    },
    rows: &[(Step::AckIn, BARRIER_ACK_WENT), (Step::Local(1), COMPLETED)],
    end: State {
        open_epochs: 0,
        ..STANDING
    },
    left: Ok((CompletionKind::Linked, 2, 1, Some((1, 0)))),
};

const EPOCH_ENDED: After = After {
    behind: &[],
    state: State {
        open_epochs: 0,
        ..STANDING
    },
    rows: &[(Step::AckIn, NONE), (Step::Send, NONE)],
    end: State {
        open_epochs: 0,
        ..STANDING
    },
    left: Ok((CompletionKind::Linked, 2, 1, Some((1, 0)))),
};

static RIGHT_FRAMES: [Case; 4] = [
    cases::Case(
        &WRITE_SENT,
        &[(WRITE_ACK, WRITE_ACK_WENT)],
        &ANSWERED_BEFORE_IT_IS_WRITTEN,
    ),
    cases::Case(
        &WRITE_SENT_AND_WRITTEN,
        &[(WRITE_ACK, ACKNOWLEDGED)],
        &ANSWERED_LAST,
    ),
    cases::Case(&EPOCH_SENT, &[(WRITE_ACK, WRITE_ACK_WENT)], &EPOCH_ENDS),
    cases::Case(
        &EPOCH_ANSWERED,
        &[(BARRIER_ACK_1, BARRIER_ACK_WENT)],
        &EPOCH_ENDED,
    ),
];

#[test]
fn frames_in_their_turn_are_taken(rt: HostRuntime) {
    passes::<LinkedPrimary, _>(&rt, &RIGHT_FRAMES);
}
