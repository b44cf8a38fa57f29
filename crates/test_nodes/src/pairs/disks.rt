//! Worked examples in which a disk fails one of its calls. At the end of each, every block on which the disks
//! differ is marked.
use crate::pairs::events::{Given, Line, Outcome};
use crate::pairs::resyncs::RESYNC;
use crate::pairs::rows::{BLOCKS, EPOCHS, Part};
use crate::pairs::seen::let_go;
use blocks::{Block, Refusal, Reply, Settings};
use pair::{Event, Pair, run};
use std::process::Abort;

/// How many blocks each write and each item of these rows has.
const COUNT: u64 = 1;

/// A fault that replaces a row's call of a disk, and the blocks on which the disks differ at the end.
type Trial = (Given, &'static [u64]);

/// A block that the primary's disk failed to write differs once the secondary has it. After a fault of the secondary's
/// disk its end is closed, so items of later epochs do not arrive.
static EPOCH_FAULTS: [Trial; 12] = [
    (Given::LocalFault(1, 0), &[0]),
    (Given::LocalFault(1, 1), &[]),
    (Given::LocalFault(2, 0), &[1]),
    (Given::LocalFault(2, 1), &[]),
    (Given::PeerFault(1, 0), &[1, 2]),
    (Given::PeerFault(1, 1), &[2]),
    (Given::PeerFault(0, 0), &[0, 2]),
    (Given::PeerFault(0, 1), &[2]),
    (Given::PeerFault(3, 0), &[2]),
    (Given::PeerFault(3, 1), &[]),
    (Given::LocalFault(3, 0), &[2]),
    (Given::LocalFault(3, 1), &[]),
];

/// A write that failed before the resync is copied as the primary's disk has it. A block that could not be read
/// stays marked, and after a fault of the secondary's disk the rest of the resync does not arrive.
static RESYNC_FAULTS: [Trial; 10] = [
    (Given::LocalFault(1, 0), &[]),
    (Given::LocalFault(1, 1), &[]),
    (Given::LocalFault(2, 0), &[]),
    (Given::LocalFault(2, 1), &[]),
    (Given::ResyncFault, &[6]),
    (Given::PeerFault(1, 0), &[3, 6]),
    (Given::PeerFault(1, 1), &[6]),
    (Given::ResyncFault, &[6]),
    (Given::PeerFault(3, 0), &[6]),
    (Given::PeerFault(3, 1), &[]),
];

/// Fails each call of a disk in turn, after each number of blocks, and checks that the trials name all of them in
/// order.
fn fails_each(rt: &(impl Abort + AllocGlobal), row: &'static [Part], trials: &'static [Trial]) {
    let lines = lines_of(rt, row);
    let faults = faults_of(rt, &lines);
    assert_eq!(rt; faults.len(), trials.len());
    for (fault, trial) in faults.iter().zip(trials) {
        assert_eq!(rt; fault.1, trial.0);
        fails(rt, &lines, *fault, trial.1);
    }
}

/// Returns all lines of a row.
fn lines_of(rt: &(impl Abort + AllocGlobal), row: &[Part]) -> Vec<Line> {
    let mut lines = Vec::new(rt.alloc());
    for part in row {
        lines.extend_from_slice(part.lines).expect(rt, "memory");
    }
    lines
}

/// Returns the faults of a row, each with the index of the line that it replaces.
fn faults_of(rt: &(impl Abort + AllocGlobal), lines: &[Line]) -> Vec<(usize, Given)> {
    let mut faults = Vec::new(rt.alloc());
    for (index, line) in lines.iter().enumerate() {
        for kept in 0..=COUNT {
            if let Some(fault) = fault_of(*line, kept) {
                faults.push((index, fault)).expect(rt, "memory");
            }
        }
    }
    faults
}

/// Returns the fault that replaces a line, if the line has a disk do something. A failed read leaves no block.
fn fault_of(line: Line, kept: u64) -> Option<Given> {
    match line {
        (_, Outcome::Refused(_)) => None,
        (Given::Local(number), _) => Some(Given::LocalFault(number, kept)),
        (Given::Peer(place), _) => Some(Given::PeerFault(place, kept)),
        (Given::Resync, _) if kept == 0 => Some(Given::ResyncFault),
        _ => None,
    }
}

/// Returns the events of a row with a fault at one line.
fn events_of(
    rt: &(impl Abort + AllocGlobal),
    lines: &[Line],
    (at, fault): (usize, Given),
) -> Vec<Event> {
    let mut events = Vec::new(rt.alloc());
    for (index, (given, _)) in lines.iter().enumerate() {
        let given = if index == at { fault } else { *given };
        let event = given.event(rt.alloc()).expect(rt, "memory");
        events.push(event).expect(rt, "memory");
    }
    events
}

/// Fails one call of a disk in a new pair, and checks the replies.
fn fails(
    rt: &(impl Abort + AllocGlobal),
    lines: &[Line],
    fault: (usize, Given),
    differing: &'static [u64],
) {
    let events = events_of(rt, lines, fault);
    let pair = Pair::fresh(rt.alloc(), Settings::STANDARD).expect(rt, "a pair");
    let replies = replies_of(rt, pair, &events, fault.1, differing).expect(rt, "replies");
    replies_are_due(rt, &replies, lines, fault);
}

/// Takes a pair through events to its end, and checks its disks and marks. Returns the replies.
fn replies_of(
    rt: &(impl Abort + AllocGlobal),
    pair: Pair,
    events: &[Event],
    fault: Given,
    differing: &'static [u64],
) -> Result<Vec<Reply>, Refusal> {
    match run(rt.alloc(), pair, events) {
        Ok((mut pair, replies)) => {
            ends(rt, &mut pair);
            differs_on(rt, &mut pair, fault, differing);
            let_go(pair);
            Ok(replies)
        }
        Err((pair, refusal)) => {
            let_go(pair);
            Err(refusal)
        }
    }
}

/// Checks that each event has a reply. Up to the fault the replies are the row's, and the disk fails. The replies after
/// it are not checked.
fn replies_are_due(
    rt: &impl Abort,
    replies: &[Reply],
    lines: &[Line],
    (at, fault): (usize, Given),
) {
    assert_eq!(rt; replies.len(), lines.len());
    for (index, (reply, (given, outcome))) in replies.iter().zip(lines).enumerate() {
        let is_due = if index == at {
            is_met(fault, *reply)
        } else {
            at < index || *reply == outcome.reply()
        };
        assert!(rt; is_due, "{fault:?} at {at}: {given:?} is replied {reply:?}");
    }
}

/// Returns whether the disk failed: a failed write is reported as done, and the read of a resync is refused.
fn is_met(fault: Given, reply: Reply) -> bool {
    match fault {
        Given::ResyncFault => reply == Reply::Refused(Refusal::ReadFault),
        _ => matches!(reply, Reply::Ok(_)),
    }
}

/// Closes both ends, if they are open, and has the disks do what they have yet to do.
fn ends(rt: &impl Abort, pair: &mut Pair) {
    may_do(pair, Event::ClosePrimary);
    may_do(pair, Event::CloseSecondary);
    for _ in 0..pair.primary().accepted() {
        if let Some(number) = pair.primary().next_local() {
            does(rt, pair, Event::Local(number));
        }
    }
    for _ in 0..pair.secondary().usage().pending {
        if let Ok(place) = pair.secondary().next() {
            does(rt, pair, Event::Peer(place));
        }
    }
    check_ended(rt, pair);
}

/// Gives a pair an event, which it may refuse.
fn may_do(pair: &mut Pair, event: Event) {
    let _ = pair.step(&event);
}

/// Gives a pair an event that a disk does, and checks that it is not refused.
fn does(rt: &impl Abort, pair: &mut Pair, event: Event) {
    let reply = pair.step(&event);
    assert!(rt;
        matches!(reply, Reply::Ok(_)),
        "{event:?} is replied {reply:?}"
    );
}

/// Checks that neither end is open, and that no disk has anything more to do.
fn check_ended(rt: &impl Abort, pair: &Pair) {
    let (primary, secondary) = (pair.primary(), pair.secondary());
    assert_eq!(rt; (primary.is_open(), primary.next_local()), (false, None));
    assert_eq!(rt;
        (secondary.is_open(), secondary.is_drained()),
        (false, true)
    );
}

/// Checks that the disks differ on these blocks alone, and that each of them is marked.
fn differs_on(rt: &impl Abort, pair: &mut Pair, fault: Given, differing: &'static [u64]) {
    for number in 0..BLOCKS as u64 {
        let differs = pair.differs(Block(number));
        let is_covered = !differs || pair.is_marked(Block(number));
        assert_eq!(rt;
            (differs, is_covered),
            (differing.contains(&number), true),
            "{fault:?}, block {number}"
        );
    }
}

#[test]
fn a_write_that_a_disk_fails_leaves_its_marks(rt: HostRuntime) {
    fails_each(&rt, &EPOCHS, &EPOCH_FAULTS);
}

#[test]
fn a_resync_that_a_disk_fails_leaves_its_marks(rt: HostRuntime) {
    fails_each(&rt, &RESYNC, &RESYNC_FAULTS);
}
