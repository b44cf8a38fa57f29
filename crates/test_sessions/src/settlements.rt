//! Tests that two nodes settle to what was sent, taken, applied and confirmed, or are refused.

mod cases;

use crate::nodes::{RowPrimary, disk, new_primary, new_secondary};
use blocks::{FaultStore, MemStore};
use cases::{Case, goes};
use primary::Receipt;
use std::alloc::Global;
use std::process::Abort;
use std::sync::Wait;

/// Takes a primary, and a secondary that it makes, through a case.
fn goes_beside<R: Wait + Copy + Drop>(
    (rt, out, alloc): (R, &impl Abort, Global),
    primary: &mut RowPrimary<R>,
    (disk, blocks): (FaultStore, u32),
    receipts: &mut Vec<Receipt>,
    case: Case,
) {
    let mut secondary = new_secondary(out, alloc, disk, blocks);
    goes((rt, out, alloc), primary, &mut secondary, receipts, case);
}

/// Takes two nodes with these disks through a case; the primary's first block is marked or not.
fn settles<R: Wait + Copy + Drop>(
    (rt, out, alloc): (R, &impl Abort, Global),
    (here, is_marked): (FaultStore, bool),
    there: (FaultStore, u32),
    receipts: &mut Vec<Receipt>,
    case: Case,
) {
    let mut primary = new_primary(out, alloc, here, is_marked);
    goes_beside((rt, out, alloc), &mut primary, there, receipts, case);
}

/// Takes two nodes with zero-filled disks through a case.
fn alike<R: Wait + Copy + Drop>(
    (rt, out, alloc): (R, &impl Abort, Global),
    receipts: &mut Vec<Receipt>,
    case: Case,
) {
    let here = (disk(out, alloc), false);
    let there = (disk(out, alloc), 8);
    settles((rt, out, alloc), here, there, receipts, case);
}

#[test]
fn nodes_settle(rt: HostRuntime) {
    let alloc = rt.alloc();
    for case in [Case::Writes, Case::Unfinished, Case::Connections] {
        alike((&rt, &rt, alloc), &mut Vec::new(alloc), case);
    }
}

/// Makes a disk of 10 blocks, filled with 01.
fn larger_disk(out: &impl Abort, alloc: Global) -> FaultStore {
    let image = Vec::from_elem(alloc, 1u8, 40960).expect(out, "memory");
    FaultStore::new(MemStore::from_image(image).expect(out, "a disk"))
}

/// The disks differ in each of 8 blocks, and the secondary has two more. A marked block does not count.
#[test]
fn unmarked_blocks_are_counted(rt: HostRuntime) {
    let alloc = rt.alloc();
    for (is_marked, unmarked) in [(false, 10), (true, 9)] {
        let here = (disk(&rt, alloc), is_marked);
        let there = (larger_disk(&rt, alloc), 10);
        let case = Case::Unopened(unmarked);
        settles((&rt, &rt, alloc), here, there, &mut Vec::new(alloc), case);
    }
}

/// A receipt of other nodes is refused, and so is one that is given twice because nodes that did the same have it too.
#[test]
fn strange_receipts_are_refused(rt: HostRuntime) {
    for block in [3, 2] {
        let mut receipts = Vec::new(rt.alloc());
        for case in [Case::Write(block), Case::Strange] {
            alike((&rt, &rt, rt.alloc()), &mut receipts, case);
        }
    }
}

/// Makes a zero-filled disk that fails its fourth read, or none.
fn failing(out: &impl Abort, alloc: Global, fails: bool) -> FaultStore {
    let mut disk = disk(out, alloc);
    if fails {
        disk.arm_read_after(3);
    }
    disk
}

/// A settlement is refused if the disk of either node fails a read, and the next one is not.
#[test]
fn failing_disks_are_refused(rt: HostRuntime) {
    let alloc = rt.alloc();
    for is_local in [true, false] {
        let here = (failing(&rt, alloc, is_local), false);
        let there = (failing(&rt, alloc, !is_local), 8);
        let case = Case::Failing;
        settles((&rt, &rt, alloc), here, there, &mut Vec::new(alloc), case);
    }
}
