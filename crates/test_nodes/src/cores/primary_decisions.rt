//! Tests of the decisions of a primary that has the peer's identifiers.
use crate::cores::cases::{Way, goes};
use crate::cores::primary_tables::{
    Frame, Outcome, PROTOCOL_WENT, Part, SETTINGS, SIZES_WENT, Start, Step,
};
use blocks::{Decision, Protocol, Refusal, Tuple};
use primary_core::PrimaryCore;
use std::process::Abort;

/// The disk's four identifiers, the peer's, what is decided, and which blocks are then marked.
type Case = (
    [u64; 4],
    [u64; 4],
    Result<Decision, Refusal>,
    &'static [usize],
);

static CASES: [Case; 9] = [
    ([1, 0, 0, 0], [1, 0, 0, 0], Ok(Decision::NoSync), &[4]),
    ([7, 1, 0, 0], [1, 0, 0, 0], Ok(Decision::BitmapSync), &[4]),
    (
        [7, 1, 0, 0],
        [0, 0, 0, 0],
        Ok(Decision::FullSync),
        &[0, 1, 2, 3, 4, 5, 6, 7],
    ),
    (
        [11, 7, 9, 1],
        [9, 0, 0, 0],
        Ok(Decision::FullSync),
        &[0, 1, 2, 3, 4, 5, 6, 7],
    ),
    ([7, 1, 0, 0], [9, 7, 1, 0], Err(Refusal::PrimaryStale), &[4]),
    (
        [7, 0, 9, 1],
        [12, 0, 7, 0],
        Err(Refusal::PrimaryStale),
        &[4],
    ),
    ([7, 1, 0, 0], [8, 1, 0, 0], Err(Refusal::SplitBrain), &[4]),
    ([7, 0, 5, 0], [8, 5, 0, 0], Err(Refusal::SplitBrain), &[4]),
    (
        [7, 1, 0, 0],
        [20, 21, 22, 23],
        Err(Refusal::Unrelated),
        &[4],
    ),
];

const HEARD: [Part; 1] = [Part::Rows(&[
    (Step::Open(101, 103), Ok(Outcome::Nothing)),
    (Step::Take(Frame::Protocol(Protocol::C)), PROTOCOL_WENT),
    (Step::Take(Frame::Sizes(8)), SIZES_WENT),
])];

fn tuple_of(words: [u64; 4]) -> Tuple {
    let [current, bitmap, first, second] = words;
    Tuple::new(current, bitmap, first, second)
}

// Checks the decision of a primary whose block 4 was marked before.
fn decides(rt: &(impl Abort + AllocGlobal), case: &'static Case) {
    let (own, peer, decided, marked) = *case;
    let start = Start {
        settings: SETTINGS,
        own: tuple_of(own),
        marked: &[4],
    };
    let way = Way {
        before: &HEARD,
        made: Some(Part::Decides(tuple_of(peer), decided)),
        after: &[Part::Marks(marked)],
    };
    goes::<PrimaryCore, _>(rt, "identifiers", &start, &way);
}

#[test]
fn the_peers_identifiers_decide(rt: HostRuntime) {
    for case in &CASES {
        decides(&rt, case);
    }
}
