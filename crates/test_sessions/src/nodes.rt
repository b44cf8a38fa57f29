//! Two nodes over a link between threads, and functions by which one thread drives them.
use crate::disks::memory;
use crate::session::ALIKE;
use blocks::{ConnectionWords, FaultStore, Settings};
use bytes::Bytes;
use primary::{Primary, Receipt};
use secondary::Secondary;
use std::alloc::Global;
use std::process::Abort;
use std::sync::Wait;
use thread_link::{RuledIn, RuledLink, RuledOut, ruled};

/// A primary over a link between threads.
pub(crate) type RowPrimary<R> = Primary<RuledOut<R>, RuledIn<R>, FaultStore>;

/// A secondary over one.
pub(crate) type RowSecondary<R> = Secondary<RuledOut<R>, RuledIn<R>, FaultStore>;

/// How many turns it takes at most until both nodes are idle.
const TURNS: u32 = 100;

/// Makes a zero-filled disk of 8 blocks.
pub(crate) fn disk(out: &impl Abort, alloc: Global) -> FaultStore {
    FaultStore::new(memory(out, alloc, false))
}

/// Makes a primary of 8 blocks, whose first block is marked or not.
pub(crate) fn new_primary<R: Wait + Drop>(
    out: &impl Abort,
    alloc: Global,
    disk: FaultStore,
    is_marked: bool,
) -> RowPrimary<R> {
    let mut marks = Vec::from_elem(alloc, false, 8).expect(out, "memory");
    marks[0] = is_marked;
    Primary::new(alloc, Settings::STANDARD, disk, ALIKE, marks).expect(out, "a primary")
}

/// Makes a secondary of this many blocks.
pub(crate) fn new_secondary<R: Wait + Drop>(
    out: &impl Abort,
    alloc: Global,
    disk: FaultStore,
    blocks: u32,
) -> RowSecondary<R> {
    let settings = Settings {
        blocks,
        ..Settings::STANDARD
    };
    Secondary::new(alloc, settings, disk, ALIKE).expect(out, "a secondary")
}

/// Opens both nodes over a new link, with two fresh words, and has them do what there is to do.
pub(crate) fn connect<R: Wait + Copy + Drop>(
    (rt, out, alloc): (R, &impl Abort, Global),
    primary: &mut RowPrimary<R>,
    secondary: &mut RowSecondary<R>,
    words: ConnectionWords,
) {
    assert!(out; secondary.connection_number() < u32::MAX);
    let RuledLink {
        there: (there, at_secondary),
        back: (back, at_primary),
    } = RuledLink::new(rt, alloc, 4).expect(out, "a link");
    let opened = primary.open(there, at_primary, words.sync, words.loss);
    opened.expect(out, "an open primary");
    secondary
        .open(back, at_secondary)
        .expect(out, "an open secondary");
    work(primary, secondary);
}

/// Opens the primary alone, over a new link.
pub(crate) fn open_alone<R: Wait + Copy + Drop>(
    (rt, out, alloc): (R, &impl Abort, Global),
    primary: &mut RowPrimary<R>,
    words: ConnectionWords,
) {
    let (there, _) = ruled(rt, alloc, 4).expect(out, "a link");
    let (_, at_primary) = ruled(rt, alloc, 4).expect(out, "a link");
    let opened = primary.open(there, at_primary, words.sync, words.loss);
    opened.expect(out, "an open primary");
}

/// Has both nodes and their disks do each of their steps once. A step that is refused has nothing to do now, and changes
/// nothing.
pub(crate) fn turn<R: Wait + Drop>(primary: &mut RowPrimary<R>, secondary: &mut RowSecondary<R>) {
    if let Some(number) = primary.next_local() {
        let _ = primary.local(number);
    }
    let _ = primary.send();
    let _ = secondary.receive();
    if let Ok(place) = secondary.next() {
        let _ = secondary.peer(place);
    }
    let _ = secondary.ack_out();
    let _ = primary.ack_in();
    let _ = primary.resync_next();
}

/// Has both nodes and their disks do what they can.
fn work<R: Wait + Drop>(primary: &mut RowPrimary<R>, secondary: &mut RowSecondary<R>) {
    for _ in 0..TURNS {
        turn(primary, secondary);
    }
}

/// Submits a write of this block, filled with AA. Returns its number.
pub(crate) fn submit<R: Wait + Drop>(
    out: &impl Abort,
    alloc: Global,
    primary: &mut RowPrimary<R>,
    block: u64,
) -> u64 {
    let bytes = Bytes::copy_from_slice(alloc, &[0xAA; 4096]).expect(out, "memory");
    primary.submit(block, &bytes).expect(out, "a write").0
}

/// Submits the same, has both nodes do what they can, and appends its receipt to the others.
pub(crate) fn write<R: Wait + Drop>(
    out: &impl Abort,
    alloc: Global,
    primary: &mut RowPrimary<R>,
    secondary: &mut RowSecondary<R>,
    block: u64,
    receipts: &mut Vec<Receipt>,
) {
    let number = submit(out, alloc, primary, block);
    work(primary, secondary);
    let receipt = primary.take_completed(number).expect(out, "a receipt");
    receipts.push(receipt).expect(out, "memory");
}

/// Closes both ends.
pub(crate) fn close<R: Wait + Drop>(
    out: &impl Abort,
    primary: &mut RowPrimary<R>,
    secondary: &mut RowSecondary<R>,
) {
    primary.close().expect(out, "a primary that was open");
    secondary.close().expect(out, "a secondary that was open");
}
