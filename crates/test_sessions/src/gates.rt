//! Tests that both disks work at the same time, and that a resync goes on by itself.
use crate::callers::Work;
use crate::disks::{GatedDisk, SignallingDisk, Signals, memory};
use crate::outcome::Outcome;
use crate::session::{Case, UNKNOWN, run};
use blocks::Protocol;
use std::alloc::Global;
use std::process::Abort;
use volume::Runtime;

// Runs a session over disks that signal what they do. The peer's disk waits if the work is a `Gate`.
fn over_watched<R: Abort + Runtime>(rt: R, alloc: Global, case: Case) -> Outcome {
    let signals = Signals::shared(&rt, alloc);
    let (waits, opens) = match case.work {
        Work::Gate { receipt_opens } => (true, !receipt_opens),
        _ => (false, false),
    };
    let is_resync = !waits;
    let local = SignallingDisk::new(&rt, memory(&rt, alloc, is_resync), &signals, opens);
    let peer = GatedDisk::new(&rt, memory(&rt, alloc, false), &signals, waits);
    run(rt, alloc, case, (local, peer), &signals).expect(&rt, "a session")
}

#[test]
fn a_write_ends_on_the_local_disk_while_the_peer_writes(rt: HostRuntime) {
    let under_c = Case::of(
        Protocol::C,
        Work::Gate {
            receipt_opens: false,
        },
    );
    let under_a = Case::of(
        Protocol::A,
        Work::Gate {
            receipt_opens: true,
        },
    );
    // Under A the second write ends while the peer's disk has its lock: the link then holds its frame, behind the barrier.
    let narrow_a = Case { link: 2, ..under_a };
    for case in [under_c, under_c.over_one_frame(), under_a, narrow_a] {
        let outcome = over_watched(rt, rt.alloc(), case);
        outcome.check_no_complaints(&rt, 2, &case);
        assert_eq!(rt; outcome.linked, 2, "{case:?}");
        outcome.check_settled(&rt, 2, &case);
    }
}

#[test]
fn every_block_of_an_unknown_peer_is_copied(rt: HostRuntime) {
    let wide = Case {
        peer: UNKNOWN,
        ..Case::of(Protocol::C, Work::Resync { writes: 8 })
    };
    for case in [wide, wide.over_one_frame()] {
        let outcome = over_watched(rt, rt.alloc(), case);
        assert_eq!(rt; outcome.complaints, 0, "{case:?}");
        assert_eq!(rt; outcome.peer_bytes, [1, 2, 3, 4, 5, 6, 7, 8], "{case:?}");
        assert!(rt; outcome.alike, "{case:?}");
        assert_eq!(rt; outcome.settled.unmarked, 0, "{case:?}");
    }
}

#[test]
fn nothing_is_sent_over_a_link_that_is_cut_from_the_start(rt: HostRuntime) {
    let case = Case::of(Protocol::C, Work::OneWrite).cut_from_the_start();
    for case in [case, case.over_one_frame()] {
        over_watched(rt, rt.alloc(), case).check_nothing_sent(&rt, &case);
    }
}
