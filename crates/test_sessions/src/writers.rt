//! Tests of four writers, over whole links and over links that are cut.
use crate::callers::Work;
use crate::disks::{Signals, memory};
use crate::outcome::Outcome;
use crate::session::{Case, run};
use blocks::Protocol;
use std::alloc::Global;
use std::process::Abort;
use volume::Runtime;

// Runs a session over plain disks.
fn over_memory<R: Abort + Runtime>(rt: R, alloc: Global, case: Case) -> Outcome {
    let signals = Signals::shared(&rt, alloc);
    let disks = (memory(&rt, alloc, false), memory(&rt, alloc, false));
    run(rt, alloc, case, disks, &signals).expect(&rt, "a session")
}

#[test]
fn each_write_of_four_writers_has_its_receipt(rt: HostRuntime) {
    for protocol in [Protocol::A, Protocol::B, Protocol::C] {
        let wide = Case::of(protocol, Work::Writers { cuts: 0 });
        for case in [wide, wide.over_one_frame()] {
            let outcome = over_memory(rt, rt.alloc(), case);
            outcome.check_no_complaints(&rt, 200, &case);
            assert_eq!(rt; outcome.linked, 200, "{case:?}");
            outcome.check_settled(&rt, 200, &case);
            // Under A and B the cut at the end may come before the peer's disk has done all.
            assert!(rt;
                protocol != Protocol::C || (outcome.settled.applied >= 200 && outcome.alike),
                "{case:?}"
            );
        }
    }
}

#[test]
fn writers_of_the_same_blocks_take_turns(rt: HostRuntime) {
    let wide = Case::of(Protocol::C, Work::SharedBlocks);
    for case in [wide, wide.over_one_frame()] {
        let outcome = over_memory(rt, rt.alloc(), case);
        outcome.check_no_complaints(&rt, 200, &case);
        outcome.check_settled(&rt, 200, &case);
        assert!(rt; outcome.alike, "{case:?}");
    }
}

#[test]
fn writers_go_on_while_the_link_is_cut(rt: HostRuntime) {
    for protocol in [Protocol::A, Protocol::B, Protocol::C] {
        let wide = Case::of(protocol, Work::Writers { cuts: 10 });
        for case in [wide, wide.over_one_frame()] {
            let outcome = over_memory(rt, rt.alloc(), case);
            outcome.check_no_complaints(&rt, 200, &case);
            outcome.check_settled(&rt, 200, &case);
        }
    }
}

#[test]
fn a_cut_after_every_tenth_write_loses_none(rt: HostRuntime) {
    for protocol in [Protocol::A, Protocol::B, Protocol::C] {
        let case = Case::of(protocol, Work::CutEveryTenth);
        let outcome = over_memory(rt, rt.alloc(), case);
        outcome.check_no_complaints(&rt, 1000, &case);
        outcome.check_settled(&rt, 1000, &case);
    }
}

#[test]
fn receipts_of_two_connections_are_confirmed(rt: HostRuntime) {
    let wide = Case::of(Protocol::C, Work::TwoConnections);
    for case in [wide, wide.over_one_frame()] {
        let outcome = over_memory(rt, rt.alloc(), case);
        assert_eq!(rt; (outcome.receipts, outcome.linked), (2, 2), "{case:?}");
        outcome.check_settled(&rt, 2, &case);
    }
}
