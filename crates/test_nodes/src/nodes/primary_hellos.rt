//! Hellos that no secondary sends: each is refused, and no identifier changes.
use crate::nodes::answers::{Answer, PROTOCOL_WENT, SIZES_WENT};
use crate::nodes::cases;
use crate::nodes::cases::passes;
use crate::nodes::either_end::{FIRST, SECOND, THIRD};
use crate::nodes::frames::{PROTOCOL_C, SIZES_8, Spelled, UUIDS_1};
use crate::nodes::linked_primary::{After, Before, Case, LinkedPrimary, State, Step};
use crate::nodes::primary_frames::{NO_MORE, PARTED};
use crate::tuples::OWN;
use blocks::{Refusal, Settings};

/// Identifiers of the peer: 1,0,7,0, where 7 is a word of this connection; 9,1,0,0, of a disk that is ahead; and
/// 20,21,22,23, of an unrelated disk.
const IDENTIFIERS: [(Spelled, Answer); 3] = [
    (
        Spelled::Short(&[
            0x83, 0x5A, 0, 0x0C, 0, 0, 0, 0x20, 0, 0, 0, 0, 0, 0, 0, 1, 0, 0, 0, 0, 0, 0, 0, 0, 0,
            0, 0, 0, 0, 0, 0, 7, 0, 0, 0, 0, 0, 0, 0, 0,
        ]),
        Err(Refusal::UsedIdentifier),
    ),
    (
        Spelled::Short(&[
            0x83, 0x5A, 0, 0x0C, 0, 0, 0, 0x20, 0, 0, 0, 0, 0, 0, 0, 9, 0, 0, 0, 0, 0, 0, 0, 1, 0,
            0, 0, 0, 0, 0, 0, 0, 0, 0, 0, 0, 0, 0, 0, 0,
        ]),
        Err(Refusal::PrimaryStale),
    ),
    (
        Spelled::Short(&[
            0x83, 0x5A, 0, 0x0C, 0, 0, 0, 0x20, 0, 0, 0, 0, 0, 0, 0, 20, 0, 0, 0, 0, 0, 0, 0, 21,
            0, 0, 0, 0, 0, 0, 0, 22, 0, 0, 0, 0, 0, 0, 0, 23,
        ]),
        Err(Refusal::Unrelated),
    ),
];

const NOTHING_HEARD: Before = Before {
    settings: Settings::STANDARD,
    received: &[],
    rows: &[],
};

const ONE_HEARD: Before = Before {
    settings: Settings::STANDARD,
    received: &[PROTOCOL_C],
    rows: &[&[(Step::AckIn, PROTOCOL_WENT)]],
};

const TWO_HEARD: Before = Before {
    settings: Settings::STANDARD,
    received: &[PROTOCOL_C, SIZES_8],
    rows: &[&[(Step::AckIn, PROTOCOL_WENT), (Step::AckIn, SIZES_WENT)]],
};

/// The end is closed, and all else is as it was before the connection.
const UNCHANGED: State = State {
    tuple: OWN,
    accepted: 0,
    marks: 0,
    is_marked: false,
    ..PARTED
};

const HELLO_REFUSED: After = After {
    behind: &[PROTOCOL_C, SIZES_8, UUIDS_1],
    state: UNCHANGED,
    rows: &NO_MORE,
    end: UNCHANGED,
    left: Err(Refusal::UnknownJob),
};

static HELLOS: [Case; 4] = [
    cases::Case(&NOTHING_HEARD, &FIRST, &HELLO_REFUSED),
    cases::Case(&ONE_HEARD, &SECOND, &HELLO_REFUSED),
    cases::Case(&TWO_HEARD, &THIRD, &HELLO_REFUSED),
    cases::Case(&TWO_HEARD, &IDENTIFIERS, &HELLO_REFUSED),
];

#[test]
fn a_refused_hello_changes_no_identifier(rt: HostRuntime) {
    passes::<LinkedPrimary, _>(&rt, &HELLOS);
}
