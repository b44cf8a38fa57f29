//! Tests of sessions in which a disk fails, once, in the call for which it was armed before the session's start.
use crate::callers::Work;
use crate::disks::{GatedDisk, Signals, memory};
use crate::outcome::Outcome;
use crate::session::{Case, UNKNOWN, run};
use blocks::{FaultStore, Protocol};
use std::alloc::Global;
use std::process::Abort;
use volume::Runtime;

/// Which disk fails a write.
#[derive(Clone, Copy, Debug, PartialEq, Eq)]
enum FaultyDisk {
    Local,
    Peer,
}

/// A write of two blocks that fails.
#[derive(Clone, Copy, Debug, PartialEq, Eq)]
struct DiskFault {
    side: FaultyDisk,
    /// How many writes to this disk pass before it.
    passes: u64,
    /// How many of its blocks are on the disk all the same.
    kept: u64,
}

// Runs a session of four writers over two disks of zeros. One of them fails once.
fn over_failing<R: Abort + Runtime>(
    rt: R,
    alloc: Global,
    protocol: Protocol,
    fault: DiskFault,
) -> Outcome {
    let signals = Signals::shared(&rt, alloc);
    let mut local = FaultStore::new(memory(&rt, alloc, false));
    let mut peer = FaultStore::new(memory(&rt, alloc, false));
    match fault.side {
        FaultyDisk::Local => local.arm_after(fault.passes, fault.kept),
        FaultyDisk::Peer => peer.arm_after(fault.passes, fault.kept),
    }
    let case = Case::of(protocol, Work::WideWriters);
    run(rt, alloc, case, (local, peer), &signals).expect(&rt, "a session")
}

// Runs a session without writes that copies all eight blocks to its peer, over a local disk that fails one read of
// them.
fn over_failing_reads<R: Abort + Runtime>(rt: R, alloc: Global, passes: u64) -> Outcome {
    let signals = Signals::shared(&rt, alloc);
    let mut local = FaultStore::new(memory(&rt, alloc, true));
    local.arm_read_after(passes);
    let peer = GatedDisk::new(&rt, memory(&rt, alloc, false), &signals, false);
    let case = Case {
        peer: UNKNOWN,
        ..Case::of(Protocol::C, Work::Resync { writes: 8 })
    };
    run(rt, alloc, case, (local, peer), &signals).expect(&rt, "a session")
}

// Runs a session for each of the first ten writes to this disk, and for none, one and both of its blocks kept. Checks
// that of the eighty writes `faults` fail, and each other one has its receipt. A test is one protocol with the peer's
// faults: thirty sessions that lose their link.
fn check_each_fault<R: Abort + Runtime + Copy>(
    rt: R,
    alloc: Global,
    protocol: Protocol,
    side: FaultyDisk,
    faults: u32,
) {
    let completed = 80u32.saturating_sub(faults);
    for passes in 0..10u64 {
        for kept in 0..=2u64 {
            let fault = DiskFault { side, passes, kept };
            let outcome = over_failing(rt, alloc, protocol, fault);
            let case = (protocol, fault);
            outcome.check_no_complaints(&rt, completed as usize, &case);
            assert_eq!(rt; outcome.local_faults, faults, "{case:?}");
            outcome.check_settled(&rt, u64::from(completed), &case);
            // Under C the peer answers no write that its disk fails, and the disk of the primary completes it alone.
            assert!(rt;
                side == FaultyDisk::Local || protocol != Protocol::C || outcome.linked < 80,
                "{case:?}"
            );
        }
    }
}

#[test]
fn a_local_fault_is_its_callers_alone(rt: HostRuntime) {
    for protocol in [Protocol::A, Protocol::B, Protocol::C] {
        check_each_fault(rt, rt.alloc(), protocol, FaultyDisk::Local, 1);
    }
}

#[test]
fn a_peer_fault_leaves_no_difference_unmarked_under_a(rt: HostRuntime) {
    check_each_fault(rt, rt.alloc(), Protocol::A, FaultyDisk::Peer, 0);
}

#[test]
fn a_peer_fault_leaves_no_difference_unmarked_under_b(rt: HostRuntime) {
    check_each_fault(rt, rt.alloc(), Protocol::B, FaultyDisk::Peer, 0);
}

#[test]
fn a_peer_fault_leaves_no_difference_unmarked_under_c(rt: HostRuntime) {
    check_each_fault(rt, rt.alloc(), Protocol::C, FaultyDisk::Peer, 0);
}

#[test]
fn a_failed_read_of_a_resync_is_tried_again(rt: HostRuntime) {
    // The resync reads each of the eight blocks once.
    for passes in 0..8u64 {
        let outcome = over_failing_reads(rt, rt.alloc(), passes);
        assert_eq!(rt; (outcome.complaints, outcome.alike), (0, true), "{passes}");
        assert_eq!(rt; outcome.peer_bytes, [1, 2, 3, 4, 5, 6, 7, 8], "{passes}");
        assert_eq!(rt; outcome.settled.unmarked, 0, "{passes}");
    }
}
