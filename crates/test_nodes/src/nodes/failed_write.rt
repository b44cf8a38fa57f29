//! A write that the local disk fails is marked, and its receipt says so once.
use crate::nodes::answers::NOTHING;
use crate::nodes::cases;
use crate::nodes::cases::passes;
use crate::nodes::frames::{PROTOCOL_C, SIZES_8, UUIDS_1};
use crate::nodes::linked_primary::{After, Before, Case, LinkedPrimary, State, Step};
use crate::nodes::primary_frames::HELLO;
use crate::tuples::OWN;
use blocks::{Decision, Done, Refusal, Settings, What};

/// All of a hello but its last frame.
const GREETING: Before = Before {
    settings: Settings::STANDARD,
    received: &[PROTOCOL_C, SIZES_8],
    rows: &[&HELLO],
};

/// The end is open, and the connection is established. Nothing was written.
const CONNECTED: State = State {
    is_open: true,
    is_established: true,
    is_resync: false,
    tuple: OWN,
    connections: 1,
    accepted: 0,
    incomplete: 0,
    unanswered: 0,
    open_epochs: 0,
    marks: 0,
    is_marked: false,
};

/// Write 1 failed, and ended its epoch. Write 2, of one of its blocks, is accepted beside it.
const FAILED: After = After {
    behind: &[],
    state: CONNECTED,
    rows: &[
        (
            Step::SubmitTwo(2),
            Ok(Done {
                what: What::Write(1),
                ..NOTHING
            }),
        ),
        (
            Step::LocalFault(1),
            Ok(Done {
                barrier: Some(1),
                ..NOTHING
            }),
        ),
        (
            Step::Submit(3),
            Ok(Done {
                what: What::Write(2),
                ..NOTHING
            }),
        ),
        (Step::Local(1), Err(Refusal::UnknownJob)),
        (Step::Receipt(1), Err(Refusal::LocalFault)),
    ],
    end: State {
        accepted: 2,
        incomplete: 1,
        open_epochs: 2,
        marks: 2,
        is_marked: true,
        ..CONNECTED
    },
    left: Err(Refusal::UnknownJob),
};

static CASES: [Case; 1] = [cases::Case(
    &GREETING,
    &[(
        UUIDS_1,
        Ok(Done {
            what: What::Decided(Decision::NoSync),
            ..NOTHING
        }),
    )],
    &FAILED,
)];

#[test]
fn a_failed_write_is_told_once(rt: HostRuntime) {
    passes::<LinkedPrimary, _>(&rt, &CASES);
}
