//! Cases of two nodes before they settle.

use crate::nodes::{RowPrimary, RowSecondary, close, connect, open_alone, submit, write};
use blocks::{ConnectionWords, Refusal};
use primary::Receipt;
use settlement::{Settled, settle};
use std::alloc::Global;
use std::process::Abort;
use std::sync::Wait;

/// What the nodes do.
#[derive(Clone, Copy, Debug)]
pub(crate) enum Case {
    /// They are never opened, and settle to this.
    Unopened(u32),
    /// They are never opened, and a disk fails a read of the first settlement only.
    Failing,
    /// One write of this block.
    Write(u64),
    /// Four writes, one after the other.
    Writes,
    /// Two writes; the link is lost after the peer has taken one of them.
    Unfinished,
    /// A write on each of two connections.
    Connections,
    /// A write of block 2, and a receipt that is not of another write of these nodes.
    Strange,
}

/// Nothing was sent.
const NOTHING: Settled = Settled {
    sent: 0,
    taken: 0,
    applied: 0,
    confirmed: 0,
    unmarked: 0,
};

fn check_settlement<R: Wait + Drop>(
    rt: &impl Abort,
    primary: &mut RowPrimary<R>,
    secondary: &mut RowSecondary<R>,
    receipts: &[Receipt],
    wanted: Result<Settled, Refusal>,
) {
    assert_eq!(rt; settle(primary, secondary, receipts), wanted);
}

/// Checks that the nodes settle to this, and again: a settlement changes nothing.
fn check_settles_twice<R: Wait + Drop>(
    rt: &impl Abort,
    primary: &mut RowPrimary<R>,
    secondary: &mut RowSecondary<R>,
    receipts: &[Receipt],
    wanted: Settled,
) {
    check_settlement(rt, primary, secondary, receipts, Ok(wanted));
    check_settlement(rt, primary, secondary, receipts, Ok(wanted));
}

/// Settles four writes. Each write is an item of the stream, and ends its epoch with a barrier.
fn writes<R: Wait + Drop>(
    rt: &impl Abort,
    alloc: Global,
    primary: &mut RowPrimary<R>,
    secondary: &mut RowSecondary<R>,
    receipts: &mut Vec<Receipt>,
) {
    for block in 0..4 {
        write(rt, alloc, primary, secondary, block, receipts);
    }
    check_settlement(rt, primary, secondary, receipts, Err(Refusal::NotDrained));
    close(rt, primary, secondary);
    let wanted = Settled {
        sent: 8,
        taken: 8,
        applied: 4,
        confirmed: 4,
        unmarked: 0,
    };
    check_settles_twice(rt, primary, secondary, receipts, wanted);
}

/// Sends two writes, and has the peer take one of them.
fn takes_one<R: Wait + Drop>(
    rt: &impl Abort,
    alloc: Global,
    primary: &mut RowPrimary<R>,
    secondary: &mut RowSecondary<R>,
) {
    for block in 0..2 {
        submit(rt, alloc, primary, block);
        primary.send().expect(rt, "a frame");
    }
    secondary.receive().expect(rt, "a frame");
}

/// Checks that something is in the way of a settlement.
fn check_not_drained<R: Wait + Drop>(
    rt: &impl Abort,
    primary: &mut RowPrimary<R>,
    secondary: &mut RowSecondary<R>,
) {
    check_settlement(rt, primary, secondary, &[], Err(Refusal::NotDrained));
}

/// Checks that each of the items is in the way until it is done. What the peer did not take is marked.
fn unfinished<R: Wait + Drop>(
    rt: &impl Abort,
    alloc: Global,
    primary: &mut RowPrimary<R>,
    secondary: &mut RowSecondary<R>,
) {
    takes_one(rt, alloc, primary, secondary);
    primary.close().expect(rt, "a primary that was open");
    check_not_drained(rt, primary, secondary);
    secondary.close().expect(rt, "a secondary that was open");
    check_not_drained(rt, primary, secondary);
    secondary.peer(0).expect(rt, "an item");
    for number in 1..3 {
        check_not_drained(rt, primary, secondary);
        primary.local(number).expect(rt, "a write");
    }
    let wanted = Settled {
        sent: 2,
        taken: 1,
        applied: 1,
        ..NOTHING
    };
    check_settles_twice(rt, primary, secondary, &[], wanted);
}

/// Settles after each of two connections. The second one begins with a resync of nothing, which is two items.
fn connections<R: Wait + Copy + Drop>(
    (rt, out, alloc): (R, &impl Abort, Global),
    primary: &mut RowPrimary<R>,
    secondary: &mut RowSecondary<R>,
    receipts: &mut Vec<Receipt>,
) {
    write(out, alloc, primary, secondary, 2, receipts);
    close(out, primary, secondary);
    connect(
        (rt, out, alloc),
        primary,
        secondary,
        ConnectionWords { sync: 4, loss: 5 },
    );
    write(out, alloc, primary, secondary, 3, receipts);
    close(out, primary, secondary);
    let wanted = Settled {
        sent: 4,
        taken: 4,
        applied: 1,
        confirmed: 2,
        unmarked: 0,
    };
    check_settles_twice(out, primary, secondary, receipts, wanted);
    open_alone(
        (rt, out, alloc),
        primary,
        ConnectionWords { sync: 6, loss: 7 },
    );
    primary.close().expect(out, "a primary that was open");
    // Nothing went over a third connection, which the secondary did not open.
    let wanted = Settled {
        confirmed: 2,
        ..NOTHING
    };
    check_settles_twice(out, primary, secondary, receipts, wanted);
}

/// Checks that receipts of other nodes are refused after a write.
fn strange<R: Wait + Drop>(
    rt: &impl Abort,
    alloc: Global,
    primary: &mut RowPrimary<R>,
    secondary: &mut RowSecondary<R>,
    receipts: &mut Vec<Receipt>,
) {
    write(rt, alloc, primary, secondary, 2, receipts);
    close(rt, primary, secondary);
    check_settlement(
        rt,
        primary,
        secondary,
        receipts,
        Err(Refusal::StrangeReceipt),
    );
}

/// Connects the nodes, and has them settle.
fn goes_connected<R: Wait + Copy + Drop>(
    (rt, out, alloc): (R, &impl Abort, Global),
    primary: &mut RowPrimary<R>,
    secondary: &mut RowSecondary<R>,
    receipts: &mut Vec<Receipt>,
    case: Case,
) {
    connect(
        (rt, out, alloc),
        primary,
        secondary,
        ConnectionWords { sync: 2, loss: 3 },
    );
    match case {
        Case::Write(block) => write(out, alloc, primary, secondary, block, receipts),
        Case::Writes => writes(out, alloc, primary, secondary, receipts),
        Case::Unfinished => unfinished(out, alloc, primary, secondary),
        Case::Connections => connections((rt, out, alloc), primary, secondary, receipts),
        _ => strange(out, alloc, primary, secondary, receipts),
    }
}

/// Has the nodes settle. Appends the receipts of their writes to `receipts`.
pub(crate) fn goes<R: Wait + Copy + Drop>(
    (rt, out, alloc): (R, &impl Abort, Global),
    primary: &mut RowPrimary<R>,
    secondary: &mut RowSecondary<R>,
    receipts: &mut Vec<Receipt>,
    case: Case,
) {
    match case {
        Case::Unopened(unmarked) => {
            let wanted = Settled {
                unmarked,
                ..NOTHING
            };
            check_settles_twice(out, primary, secondary, receipts, wanted);
        }
        Case::Failing => {
            check_settlement(out, primary, secondary, receipts, Err(Refusal::ReadFault));
            check_settlement(out, primary, secondary, receipts, Ok(NOTHING));
        }
        _ => goes_connected((rt, out, alloc), primary, secondary, receipts, case),
    }
}
