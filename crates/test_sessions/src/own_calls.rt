//! The calls of a session beside its mirror, and a test that they do what the mirror's do.
use crate::callers::{Work, note, nothing};
use crate::disks::{Signals, memory};
use crate::outcome::Answers;
use crate::session::{Case, run};
use blocks::{BLOCK_BYTES, Protocol, Refusal, Store};
use bytes::Bytes;
use std::alloc::Global;
use std::process::Abort;
use std::thread;
use told::Caller;
use volume::{Began, Linked, Runtime, Session};

/// Writes a block, cuts the link, writes the next block, opens the link again, and reads both blocks, all by the
/// session's own calls. Complains if the new connection is not the second one, or if other bytes are read.
pub(crate) fn own_calls<R: Abort + Runtime, L: Linked, S: Store + Drop, T: Store + Drop>(
    rt: &R,
    alloc: Global,
    session: &Session<R, L, S, T>,
) -> Answers {
    let mut answers = nothing(alloc);
    let block = Bytes::copy_from_slice(alloc, &[0xAA; BLOCK_BYTES]).expect(rt, "memory");
    let mut me = session.caller();
    note(rt, &mut answers, session.write(&mut me, 2, &block));
    session.cut();
    note(rt, &mut answers, session.write(&mut me, 3, &block));
    if reconnected(rt, session) != Ok(2) || !are_read(session, &mut me) {
        answers.complaints = answers.complaints.saturating_add(1);
    }
    answers
}

// Opens the link again once the secondary's disk has done its items. Returns the connection's number.
fn reconnected<R: Abort + Runtime, L: Linked, S: Store + Drop, T: Store + Drop>(
    rt: &R,
    session: &Session<R, L, S, T>,
) -> Result<u32, Refusal> {
    for _ in rt.forever() {
        match session.reconnect(4, 5) {
            Err(Refusal::NotDrained) => thread::yield_now(),
            answer => return answer,
        }
    }
    Err(Refusal::NotDrained)
}

// Returns whether both blocks are read as they were written.
fn are_read<R: Abort + Runtime, L: Linked, S: Store + Drop, T: Store + Drop>(
    session: &Session<R, L, S, T>,
    me: &mut Caller<Began<L>>,
) -> bool {
    match session.read(me, 2, 2) {
        Ok(bytes) => bytes.as_slice() == [0xAA; 2 * BLOCK_BYTES].as_slice(),
        Err(_) => false,
    }
}

#[test]
fn a_session_has_the_calls_of_its_mirror(rt: HostRuntime) {
    let alloc = rt.alloc();
    let signals = Signals::shared(&rt, alloc);
    let disks = (memory(&rt, alloc, false), memory(&rt, alloc, false));
    let case = Case::of(Protocol::C, Work::OwnCalls);
    let outcome = run(rt, alloc, case, disks, &signals).expect(&rt, "a session");
    outcome.check_no_complaints(&rt, 2, &case);
    // The peer answers the first write, and the second one is made without the link.
    assert_eq!(rt; outcome.linked, 1);
    outcome.check_settled(&rt, 2, &case);
}
