//! Frames that no primary sends: each is refused, and closes the end; what was taken before stays, and is applied.
use crate::nodes::answers::{
    Answer, BARRIER_ACK_WENT, BARRIER_WENT, CLOSED, DONE, NONE, NOTHING, PROTOCOL_WENT, SIZES_WENT,
    UUIDS_WENT, WRITE_ACK_WENT, WRITE_WENT,
};
use crate::nodes::cases;
use crate::nodes::cases::passes;
use crate::nodes::either_end::{FIRST, SECOND, THIRD, UNREADABLE};
use crate::nodes::frames::{
    BARRIER_1, PROTOCOL_C, RESYNC, SIZES_8, Spelled, UUIDS_1, UUIDS_7_0_9_1, WRITE, WRITE_ACK,
};
use crate::nodes::linked_secondary::{After, Before, Case, LinkedSecondary, State, Step};
use crate::tuples::OWN;
use blocks::{Command, Done, Refusal, Settings, What};
use secondary_core::Usage;

/// Frames that come after write 1 of block 2, at place 0.
const FOREIGN: [(Spelled, Answer); 10] = [
    // Write 2 of block 3 at place 2, write 2 of block 2, again write 1, and write 2 of blocks 7 and 8, at place 1.
    (
        Spelled::Long(
            &[
                0x83, 0x5A, 0, 0, 0, 0, 0x10, 0x18, 0, 0, 0, 0, 0, 0, 0, 0x18, 0, 0, 0, 0, 0, 0, 0,
                2, 0, 0, 0, 2, 0, 0, 0, 0,
            ],
            1,
        ),
        Err(Refusal::BadField),
    ),
    (
        Spelled::Long(
            &[
                0x83, 0x5A, 0, 0, 0, 0, 0x10, 0x18, 0, 0, 0, 0, 0, 0, 0, 0x10, 0, 0, 0, 0, 0, 0, 0,
                2, 0, 0, 0, 1, 0, 0, 0, 0,
            ],
            1,
        ),
        Err(Refusal::BadField),
    ),
    (
        Spelled::Long(
            &[
                0x83, 0x5A, 0, 0, 0, 0, 0x10, 0x18, 0, 0, 0, 0, 0, 0, 0, 0x18, 0, 0, 0, 0, 0, 0, 0,
                1, 0, 0, 0, 1, 0, 0, 0, 0,
            ],
            1,
        ),
        Err(Refusal::BadField),
    ),
    (
        Spelled::Long(
            &[
                0x83, 0x5A, 0, 0, 0, 0, 0x20, 0x18, 0, 0, 0, 0, 0, 0, 0, 0x38, 0, 0, 0, 0, 0, 0, 0,
                2, 0, 0, 0, 1, 0, 0, 0, 0,
            ],
            2,
        ),
        Err(Refusal::BadField),
    ),
    // The barrier after the next, and the frames of a resync while none runs.
    (
        Spelled::Short(&[0x83, 0x5A, 0, 3, 0, 0, 0, 8, 0, 0, 0, 2, 0, 0, 0, 0]),
        Err(Refusal::BadField),
    ),
    (
        Spelled::Short(&[0x83, 0x5A, 0, 0x0F, 0, 0, 0, 8, 0, 0, 0, 0, 0, 0, 0, 9]),
        Err(Refusal::BadField),
    ),
    (UUIDS_7_0_9_1, Err(Refusal::BadField)),
    (RESYNC, Err(Refusal::BadField)),
    // Frames that are no items.
    (PROTOCOL_C, Err(Refusal::BadCommand)),
    (WRITE_ACK, Err(Refusal::BadCommand)),
];

const NOTHING_HEARD: Before = Before {
    settings: Settings::STANDARD,
    received: &[],
    rows: &[],
};

const ONE_HEARD: Before = Before {
    settings: Settings::STANDARD,
    received: &[PROTOCOL_C],
    rows: &[&[(Step::Receive, PROTOCOL_WENT)]],
};

const TWO_HEARD: Before = Before {
    settings: Settings::STANDARD,
    received: &[PROTOCOL_C, SIZES_8],
    rows: &[&[(Step::Receive, PROTOCOL_WENT), (Step::Receive, SIZES_WENT)]],
};

/// The hello is done, and write 1 was taken.
const WRITE_HEARD: Before = Before {
    settings: Settings::STANDARD,
    received: &[PROTOCOL_C, SIZES_8, UUIDS_1, WRITE],
    rows: &[&[
        (Step::Receive, PROTOCOL_WENT),
        (Step::Receive, SIZES_WENT),
        (Step::Receive, UUIDS_WENT),
        (Step::AckOut, PROTOCOL_WENT),
        (Step::AckOut, SIZES_WENT),
        (Step::AckOut, UUIDS_WENT),
        (Step::Receive, WRITE_WENT),
    ]],
};

/// The data may be used, and no epoch is whole.
const IDLE: Usage = Usage {
    consistent: true,
    whole: 0,
    pending: 0,
};

/// The end is closed, and nothing is pending.
const DRAINED: State = State {
    is_open: false,
    is_hello_done: false,
    is_drained: true,
    is_consistent: true,
    tuple: OWN,
    number: 1,
    usage: IDLE,
    next: Err(Refusal::NothingThere),
};

/// Write 1 is pending. It is applied, once, and is not acknowledged. Nothing is taken or sent over a closed end,
/// although a barrier waits that an open one would take.
const WRITE_STAYS: After = After {
    behind: &[BARRIER_1],
    state: State {
        is_drained: false,
        usage: Usage { pending: 1, ..IDLE },
        next: Ok(0),
        ..DRAINED
    },
    rows: &[
        (Step::Receive, CLOSED),
        (Step::AckOut, CLOSED),
        (Step::Close, CLOSED),
        (Step::Peer(0), DONE),
        (Step::Peer(0), Err(Refusal::UnknownJob)),
        (Step::AckOut, CLOSED),
        (Step::Receive, CLOSED),
    ],
    end: DRAINED,
    left: &[(1, 0), (2, 0xAA), (3, 0), (7, 0)],
};

/// The same with nothing taken.
const HELLO_REFUSED: After = After {
    behind: &[PROTOCOL_C, SIZES_8, UUIDS_1],
    state: DRAINED,
    rows: &[
        (Step::Receive, CLOSED),
        (Step::AckOut, CLOSED),
        (Step::Close, CLOSED),
        (Step::Peer(0), Err(Refusal::UnknownJob)),
    ],
    end: DRAINED,
    left: &[(2, 0)],
};

static FOREIGN_FRAMES: [Case; 2] = [
    cases::Case(&WRITE_HEARD, &FOREIGN, &WRITE_STAYS),
    cases::Case(&WRITE_HEARD, &UNREADABLE, &WRITE_STAYS),
];

#[test]
fn foreign_frames_close_the_end(rt: HostRuntime) {
    passes::<LinkedSecondary, _>(&rt, &FOREIGN_FRAMES);
}

static HELLOS: [Case; 3] = [
    cases::Case(&NOTHING_HEARD, &FIRST, &HELLO_REFUSED),
    cases::Case(&ONE_HEARD, &SECOND, &HELLO_REFUSED),
    cases::Case(&TWO_HEARD, &THIRD, &HELLO_REFUSED),
];

#[test]
fn a_refused_hello_closes_the_end(rt: HostRuntime) {
    passes::<LinkedSecondary, _>(&rt, &HELLOS);
}

/// The end is open, its hello is done, and nothing is pending.
const STANDING: State = State {
    is_open: true,
    is_hello_done: true,
    ..DRAINED
};

/// The hello is done after three frames were sent too.
const GREETS: After = After {
    behind: &[],
    state: State {
        is_hello_done: false,
        ..STANDING
    },
    rows: &[
        (Step::AckOut, PROTOCOL_WENT),
        (Step::AckOut, SIZES_WENT),
        (Step::AckOut, UUIDS_WENT),
        (Step::AckOut, NONE),
        (Step::Receive, NONE),
    ],
    end: STANDING,
    left: &[(2, 0)],
};

/// Both writes are applied, the second one first.
const TWO_APPLIED: After = After {
    behind: &[],
    state: State {
        is_drained: false,
        usage: Usage { pending: 2, ..IDLE },
        next: Ok(0),
        ..STANDING
    },
    rows: &[
        (Step::Receive, NONE),
        (Step::Peer(1), DONE),
        (Step::Peer(0), DONE),
        (Step::AckOut, WRITE_ACK_WENT),
        (Step::AckOut, WRITE_ACK_WENT),
        (Step::AckOut, NONE),
    ],
    end: STANDING,
    left: &[(1, 0), (2, 0xAA), (3, 0xAA), (7, 0)],
};

/// Write 1 is applied, and its epoch is whole.
const EPOCH_APPLIED: After = After {
    behind: &[],
    state: State {
        is_drained: false,
        usage: Usage { pending: 1, ..IDLE },
        next: Ok(0),
        ..STANDING
    },
    rows: &[
        (Step::AckOut, NONE),
        (Step::Peer(0), DONE),
        (Step::AckOut, WRITE_ACK_WENT),
        (Step::AckOut, BARRIER_ACK_WENT),
        (Step::AckOut, NONE),
    ],
    end: State {
        usage: Usage { whole: 1, ..IDLE },
        ..STANDING
    },
    left: &[(1, 0), (2, 0xAA), (3, 0), (7, 0)],
};

/// Write 2 went over the link.
const WRITE_2_WENT: Answer = Ok(Done {
    what: What::Frame(Command::Data, Some(1)),
    ..NOTHING
});

/// Write 2 of block 3, at place 1.
const WRITE_2: Spelled = Spelled::Long(
    &[
        0x83, 0x5A, 0, 0, 0, 0, 0x10, 0x18, 0, 0, 0, 0, 0, 0, 0, 0x18, 0, 0, 0, 0, 0, 0, 0, 2, 0,
        0, 0, 1, 0, 0, 0, 0,
    ],
    1,
);

static RIGHT_FRAMES: [Case; 3] = [
    cases::Case(&TWO_HEARD, &[(UUIDS_1, UUIDS_WENT)], &GREETS),
    cases::Case(&WRITE_HEARD, &[(WRITE_2, WRITE_2_WENT)], &TWO_APPLIED),
    cases::Case(&WRITE_HEARD, &[(BARRIER_1, BARRIER_WENT)], &EPOCH_APPLIED),
];

#[test]
fn frames_in_their_turn_are_taken(rt: HostRuntime) {
    passes::<LinkedSecondary, _>(&rt, &RIGHT_FRAMES);
}
