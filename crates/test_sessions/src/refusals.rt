//! Tests of the refusals of a session, at its start and while it runs.
use crate::callers::Work;
use crate::disks::{GatedDisk, SignallingDisk, Signals, memory};
use crate::outcome::Outcome;
use crate::session::{ALIKE, Case, run};
use blocks::{ConnectionWords, MemStore, Protocol, Refusal, Tuple};
use std::alloc::Global;
use std::process::Abort;
use std::sync::Arc;
use volume::Runtime;

const fn tuple(current: u64, bitmap: u64, first_historical: u64, second_historical: u64) -> Tuple {
    Tuple {
        current,
        bitmap,
        first_historical,
        second_historical,
    }
}

// Runs a session whose callers only ask for what it refuses. Returns its outcome or its refusal, and whether its disks
// are gone then. The peer's disk may be a block short.
fn answer<R: Abort + Runtime>(
    rt: R,
    alloc: Global,
    case: Case,
    is_short: bool,
) -> (Result<Outcome, Refusal>, bool) {
    let signals = Signals::shared(&rt, alloc);
    let blocks = if is_short { 7 } else { 8 };
    let zeroed = MemStore::zeroed(alloc, blocks).expect(&rt, "a disk");
    let local = SignallingDisk::new(&rt, memory(&rt, alloc, false), &signals, false);
    let peer = GatedDisk::new(&rt, zeroed, &signals, false);
    let answer = run(rt, alloc, case, (local, peer), &signals);
    (answer, Arc::into_inner(signals).is_some())
}

#[test]
fn a_refused_start_leaves_nothing(rt: HostRuntime) {
    let plain = Case::of(Protocol::C, Work::Refused);
    let with = |own: Tuple, peer: Tuple| Case { own, peer, ..plain };
    let words = |sync: u64, loss: u64| Case {
        words: ConnectionWords { sync, loss },
        ..plain
    };
    let cases = [
        (plain, true, 15),
        (with(tuple(0, 0, 0, 0), ALIKE), false, 15),
        (words(0, 3), false, 33),
        (words(5, 5), false, 33),
        (words(1, 3), false, 33),
        (with(ALIKE, tuple(4, 0, 2, 0)), false, 33),
        (with(tuple(7, 1, 0, 0), tuple(9, 7, 1, 0)), false, 30),
        (with(tuple(7, 1, 0, 0), tuple(8, 1, 0, 0)), false, 31),
        (with(tuple(7, 1, 0, 0), tuple(20, 21, 22, 23)), false, 32),
    ];
    for (case, is_short, number) in cases {
        let (answer, is_gone) = answer(rt, rt.alloc(), case, is_short);
        let found = match answer {
            Ok(_) => 0,
            Err(refusal) => refusal.number(),
        };
        assert_eq!(rt; (found, is_gone), (number, true), "{case:?}");
    }
}

#[test]
fn a_running_session_refuses_what_it_should(rt: HostRuntime) {
    let case = Case::of(Protocol::C, Work::Refused);
    let (answer, is_gone) = answer(rt, rt.alloc(), case, false);
    let outcome = answer.expect(&rt, "a session");
    assert_eq!(rt; (outcome.complaints, outcome.settled.unmarked), (0, 0));
    assert!(rt; is_gone);
}
