//! Calls that a session refuses.
use crate::callers::{nothing, write};
use crate::outcome::Answers;
use blocks::{ConnectionWords, Refusal};
use bytes::Bytes;
use std::alloc::Global;
use std::process::Abort;
use told::Caller;
use volume::Device;

/// Checks that a second connection is refused with 12, whatever the words, before and after a cut.
pub(crate) fn one_connection(alloc: Global, mirror: &impl Device) -> Answers {
    let before = reconnected(mirror, 90, 91);
    mirror.cut();
    let after = reconnected(mirror, 0, 0);
    let mut answers = nothing(alloc);
    answers.complaints = u32::from(before != 12 || after != 12);
    answers
}

/// Checks that a session refuses what it should.
pub(crate) fn refused<D: Device>(
    rt: &impl Abort,
    alloc: Global,
    mirror: &D,
    me: &mut Caller<D::Name>,
) -> Answers {
    let mut answers = nothing(alloc);
    let part = Bytes::copy_from_slice(alloc, &[0u8; 100]).expect(rt, "memory");
    complain(&mut answers, &refused_while_open(alloc, mirror, me, &part));
    mirror.cut();
    complain(&mut answers, &refused_after_a_cut(mirror));
    answers
}

// Writes and reads past the device, writes part of a block, and reconnects over an open link. Returns the number of
// each refusal, and the wanted one.
fn refused_while_open<D: Device>(
    alloc: Global,
    mirror: &D,
    me: &mut Caller<D::Name>,
    part: &Bytes,
) -> [(u8, u8); 5] {
    [
        (number(write(alloc, mirror, me, 8, 0)), 1),
        (number(mirror.write(me, 0, part)), 1),
        (number(mirror.read(me, 8, 1)), 1),
        (number(mirror.read(me, 0, 0)), 1),
        (reconnected(mirror, 90, 91), 36),
    ]
}

// Reconnects with words that are used, and once with fresh ones. Returns the same.
fn refused_after_a_cut(mirror: &impl Device) -> [(u8, u8); 4] {
    [
        (reconnected(mirror, 90, 90), 33),
        (reconnected(mirror, 1, 91), 33),
        (reconnected(mirror, 0, 91), 33),
        (reconnected(mirror, 90, 91), 0),
    ]
}

// Complains of each refusal whose number is not the wanted one.
fn complain(answers: &mut Answers, refusals: &[(u8, u8)]) {
    for (found, wanted) in refusals {
        answers.complaints = answers
            .complaints
            .saturating_add(u32::from(found != wanted));
    }
}

// Reconnects under these words. Returns the refusal's number, or 0.
fn reconnected(mirror: &impl Device, sync: u64, loss: u64) -> u8 {
    number(mirror.reconnect(ConnectionWords { sync, loss }))
}

// Returns the number of a refusal, 0 if there is none.
fn number<X: Drop>(answer: Result<X, Refusal>) -> u8 {
    match answer {
        Ok(_) => 0,
        Err(refusal) => refusal.number(),
    }
}
