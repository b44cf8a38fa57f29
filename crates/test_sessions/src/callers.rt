//! Callers of a session.
use crate::disks::Signals;
use crate::outcome::Answers;
use crate::refused_calls::{one_connection, refused};
use blocks::{BLOCK_BYTES, ConnectionWords, Refusal};
use bytes::Bytes;
use ghost_log::LogName;
use primary::{CompletionKind, Receipt};
use std::alloc::Global;
use std::process::Abort;
use std::sync::Wait;
use std::sync::atomic::Ordering;
use std::thread;
use std::time::Clock;
use told::{Caller, Callers};
use volume::{Device, Runtime};

/// How many writers a session has, and how many writes each makes.
pub(crate) const WRITERS: usize = 4;

pub(crate) const WRITES: u64 = 50;

/// How many writes a writer of two blocks at a time makes. No disk is armed to fail the last one of a writer.
pub(crate) const WIDE_WRITES: u64 = 20;

/// How often a caller that waits looks again.
const LOOKS: u32 = 1_000_000;

/// What the callers of a session do.
#[derive(Clone, Copy, Debug, PartialEq, Eq)]
pub(crate) enum Work {
    /// Four writers write fifty times each, to two blocks of their own, while the link is cut and reconnected `cuts`
    /// times.
    Writers { cuts: u32 },
    /// Four writers write twenty times each, both of their two blocks at a time.
    WideWriters,
    /// Four writers all write to the same two blocks.
    SharedBlocks,
    /// One caller writes a thousand times, and cuts and reconnects the link after every tenth write.
    CutEveryTenth,
    /// One caller writes block 0; once the peer's disk has begun that, another caller writes block 1. If
    /// `receipt_opens`, the receipt of the second write lets the first one end, and only then are both released.
    Gate { receipt_opens: bool },
    /// Nothing is written until the peer's disk has done `writes` writes.
    Resync { writes: u64 },
    /// One caller writes until the link has answered, on a first connection and on a second.
    TwoConnections,
    /// One caller writes once.
    OneWrite,
    /// One caller asks for a second connection, which is refused before and after a cut.
    OneConnection,
    /// One caller asks for what a session refuses, and complains of any other reply.
    Refused,
    /// The thread that has the session makes the session's own calls.
    OwnCalls,
}

/// Does the work. Returns what the callers have then.
pub(crate) fn carry_out<R: Abort + Runtime, N: LogName + Send + Sync, D: Device<Name = N> + Sync>(
    rt: &R,
    alloc: Global,
    mirror: &D,
    callers: &Callers<N>,
    signals: &Signals,
    work: Work,
) -> Answers {
    match work {
        Work::Writers { cuts } => all_writers(rt, alloc, mirror, callers, cuts, false),
        Work::WideWriters => wide_writers(rt, alloc, mirror, callers),
        Work::SharedBlocks => all_writers(rt, alloc, mirror, callers, 0, true),
        Work::CutEveryTenth => cut_every_tenth(rt, alloc, mirror, &mut callers.caller()),
        Work::Gate { receipt_opens } => gate(rt, alloc, mirror, callers, signals, receipt_opens),
        Work::Resync { writes } => resync(alloc, signals, writes),
        Work::TwoConnections => two_connections(rt, alloc, mirror, &mut callers.caller()),
        Work::OneWrite => one_write(rt, alloc, mirror, &mut callers.caller()),
        Work::OneConnection => one_connection(alloc, mirror),
        Work::Refused => refused(rt, alloc, mirror, &mut callers.caller()),
        // These are no calls of the mirror.
        Work::OwnCalls => nothing(alloc),
    }
}

/// Returns no answers.
pub(crate) fn nothing(alloc: Global) -> Answers {
    Answers {
        receipts: Vec::new(alloc),
        local_faults: 0,
        complaints: 0,
    }
}

/// Records the answer to a write.
pub(crate) fn note(rt: &impl Abort, answers: &mut Answers, answer: Result<Receipt, Refusal>) {
    match answer {
        Ok(receipt) => answers.receipts.push(receipt).expect(rt, "memory"),
        Err(Refusal::LocalFault) => {
            answers.local_faults = answers.local_faults.saturating_add(1);
        }
        Err(_) => answers.complaints = answers.complaints.saturating_add(1),
    }
}

// Adds the answers of one caller to those of all.
fn add(rt: &impl Abort, all: &mut Answers, answers: &mut Answers) {
    all.receipts
        .append(&mut answers.receipts)
        .expect(rt, "memory");
    all.local_faults = all.local_faults.saturating_add(answers.local_faults);
    all.complaints = all.complaints.saturating_add(answers.complaints);
}

/// Writes a block filled with a byte.
pub(crate) fn write<D: Device>(
    alloc: Global,
    mirror: &D,
    me: &mut Caller<D::Name>,
    block: u64,
    byte: u8,
) -> Result<Receipt, Refusal> {
    let bytes = Bytes::copy_from_slice(alloc, &[byte; BLOCK_BYTES])?;
    mirror.write(me, block, &bytes)
}

// Runs all writers, each in a thread of its own, and the one that cuts.
fn all_writers<R: Abort + Runtime, N: LogName + Send + Sync, D: Device<Name = N> + Sync>(
    rt: &R,
    alloc: Global,
    mirror: &D,
    callers: &Callers<N>,
    cuts: u32,
    shared: bool,
) -> Answers {
    let each = thread::map_indices(
        rt,
        alloc,
        WRITERS + 1,
        &|thread| {
            if thread < WRITERS {
                write_some(
                    rt,
                    alloc,
                    mirror,
                    &mut callers.caller(),
                    thread as u64,
                    shared,
                )
            } else {
                cut_some(rt, mirror, cuts);
                nothing(alloc)
            }
        },
    )
    .expect(rt, "memory");
    all_of(rt, alloc, each)
}

// Runs four writers of two blocks at a time, each in a thread of its own.
fn wide_writers<R: Abort + Runtime, N: LogName + Send + Sync, D: Device<Name = N> + Sync>(
    rt: &R,
    alloc: Global,
    mirror: &D,
    callers: &Callers<N>,
) -> Answers {
    let each = thread::map_indices(
        rt,
        alloc,
        WRITERS,
        &|writer| write_both(rt, alloc, mirror, &mut callers.caller(), writer as u64),
    )
    .expect(rt, "memory");
    all_of(rt, alloc, each)
}

// Returns the answers of all callers.
fn all_of(rt: &impl Abort, alloc: Global, each: Vec<Answers>) -> Answers {
    let mut all = nothing(alloc);
    for mut answers in each {
        add(rt, &mut all, &mut answers);
    }
    all
}

// Makes the writes of one writer, each of both of its blocks, and reads back the last of them.
fn write_both<D: Device>(
    rt: &impl Abort,
    alloc: Global,
    mirror: &D,
    me: &mut Caller<D::Name>,
    writer: u64,
) -> Answers {
    let mut answers = nothing(alloc);
    let (first, base) = (writer % 4 * 2, writer % 4 * 50);
    for turn in 1..=WIDE_WRITES {
        let answer = write_two(alloc, mirror, me, first, (base + turn) as u8);
        note(rt, &mut answers, answer);
    }
    let last = (base + WIDE_WRITES) as u8;
    if !holds(mirror, me, first, last) || !holds(mirror, me, first + 1, last) {
        answers.complaints = answers.complaints.saturating_add(1);
    }
    answers
}

// Writes two blocks filled with a byte.
fn write_two<D: Device>(
    alloc: Global,
    mirror: &D,
    me: &mut Caller<D::Name>,
    first: u64,
    byte: u8,
) -> Result<Receipt, Refusal> {
    let bytes = Bytes::copy_from_slice(alloc, &[byte; 2 * BLOCK_BYTES])?;
    mirror.write(me, first, &bytes)
}

// Makes the writes of one writer, and reads back the last of them if its blocks are its own.
fn write_some<D: Device>(
    rt: &impl Abort,
    alloc: Global,
    mirror: &D,
    me: &mut Caller<D::Name>,
    writer: u64,
    shared: bool,
) -> Answers {
    let mut answers = nothing(alloc);
    let first = if shared { 0 } else { writer % 4 * 2 };
    for turn in 0..WRITES {
        let byte = (writer % 4 * 50 + turn) as u8;
        let answer = write(alloc, mirror, me, first + turn % 2, byte);
        note(rt, &mut answers, answer);
    }
    let last = (writer % 4 * 50 + 49) as u8;
    if !shared && !holds(mirror, me, first + 1, last) {
        answers.complaints = answers.complaints.saturating_add(1);
    }
    answers
}

// Returns whether a block is read that is filled with this byte.
fn holds<D: Device>(mirror: &D, me: &mut Caller<D::Name>, block: u64, byte: u8) -> bool {
    match mirror.read(me, block, 1) {
        Ok(bytes) => bytes.as_slice() == [byte; BLOCK_BYTES].as_slice(),
        Err(_) => false,
    }
}

// Cuts the link and reconnects it, `cuts` times.
fn cut_some<R: Abort + Wait + Clock>(rt: &R, mirror: &impl Device, cuts: u32) {
    for round in 1..=cuts {
        mirror.cut();
        reconnect(rt, mirror, round);
    }
}

// Reconnects under the words of this round, after the secondary's disk has done its items.
fn reconnect<R: Abort + Wait + Clock>(rt: &R, mirror: &impl Device, round: u32) {
    let sync = 2 * u64::from(round) + 2;
    let words = ConnectionWords {
        sync,
        loss: sync + 1,
    };
    for _ in rt.forever() {
        match mirror.reconnect(words) {
            Err(Refusal::NotDrained) => thread::yield_now(),
            answer => {
                answer.expect(rt, "a connection");
                break;
            }
        }
    }
}

// Makes a thousand writes of one caller, with a cut after every tenth.
fn cut_every_tenth<R: Abort + Wait + Clock, D: Device>(
    rt: &R,
    alloc: Global,
    mirror: &D,
    me: &mut Caller<D::Name>,
) -> Answers {
    let mut answers = nothing(alloc);
    for round in 1..=100u32 {
        for turn in 0..10u32 {
            let answer = write(alloc, mirror, me, u64::from(turn % 8), (round + turn) as u8);
            note(rt, &mut answers, answer);
        }
        mirror.cut();
        reconnect(rt, mirror, round);
    }
    answers
}

// Runs two callers whose writes are under way at the same time.
fn gate<R: Abort + Runtime, N: LogName + Send + Sync, D: Device<Name = N> + Sync>(
    rt: &R,
    alloc: Global,
    mirror: &D,
    callers: &Callers<N>,
    signals: &Signals,
    receipt_opens: bool,
) -> Answers {
    let both = thread::map_indices(
        rt,
        alloc,
        2,
        &|caller| {
            let mut me = callers.caller();
            if caller == 0 {
                return write(alloc, mirror, &mut me, 0, 0xAA);
            }
            wait_until_begun(signals);
            let receipt = write(alloc, mirror, &mut me, 1, 0xBB);
            if receipt_opens && receipt.is_ok() && !is_released_by_the_peer(mirror, signals) {
                return Err(Refusal::NotCompleted);
            }
            receipt
        },
    )
    .expect(rt, "memory");
    let mut answers = nothing(alloc);
    for answer in both {
        note(rt, &mut answers, answer);
    }
    if signals.gave_up.load(Ordering::SeqCst) {
        answers.complaints = answers.complaints.saturating_add(1);
    }
    answers
}

// Lets the peer's disk end the first write. Returns whether the device has released neither write before that, and both
// after it, although both have their receipts. It asks of the primary alone: the peer's disk has its node's lock while it writes.
fn is_released_by_the_peer(mirror: &impl Device, signals: &Signals) -> bool {
    let before = mirror.primary_progress();
    let is_held = before.accepted == 2 && before.released == 0;
    signals.may_end.store(true, Ordering::SeqCst);
    for _ in 0..LOOKS {
        if mirror.primary_progress().released == 2 {
            return is_held;
        }
        thread::yield_now();
    }
    false
}

// Looks until the peer's disk has begun the write of block 0, or gives up.
fn wait_until_begun(signals: &Signals) {
    for _ in 0..LOOKS {
        if signals.began.load(Ordering::SeqCst) {
            break;
        }
        thread::yield_now();
    }
}

// Returns whether the peer's disk does this many writes while the caller looks.
fn is_copied(signals: &Signals, writes: u64) -> bool {
    for _ in 0..LOOKS {
        if signals.peer_writes.load(Ordering::SeqCst) >= writes {
            return true;
        }
        thread::yield_now();
    }
    false
}

// Waits until the peer's disk has done this many writes.
fn resync(alloc: Global, signals: &Signals, writes: u64) -> Answers {
    let mut answers = nothing(alloc);
    if !is_copied(signals, writes) {
        answers.complaints = 1;
    }
    answers
}

// Writes until the link has answered one, on each of two connections.
fn two_connections<R: Abort + Wait + Clock, D: Device>(
    rt: &R,
    alloc: Global,
    mirror: &D,
    me: &mut Caller<D::Name>,
) -> Answers {
    let mut answers = nothing(alloc);
    note(rt, &mut answers, linked(alloc, mirror, me, 1));
    mirror.cut();
    reconnect(rt, mirror, 1);
    note(rt, &mut answers, linked(alloc, mirror, me, 2));
    answers
}

// Returns the first linked receipt of this connection.
fn linked<D: Device>(
    alloc: Global,
    mirror: &D,
    me: &mut Caller<D::Name>,
    connection: u32,
) -> Result<Receipt, Refusal> {
    for _ in 0..100_000u32 {
        let receipt = write(alloc, mirror, me, 0, 0xAA)?;
        if let (CompletionKind::Linked, Some(home)) = (receipt.kind(), receipt.home())
            && home.connection() == connection
        {
            return Ok(receipt);
        }
    }
    Err(Refusal::NotCompleted)
}

// Writes block 2 once.
fn one_write<D: Device>(
    rt: &impl Abort,
    alloc: Global,
    mirror: &D,
    me: &mut Caller<D::Name>,
) -> Answers {
    let mut answers = nothing(alloc);
    note(rt, &mut answers, write(alloc, mirror, me, 2, 0xAA));
    answers
}
