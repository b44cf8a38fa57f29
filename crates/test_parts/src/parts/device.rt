//! Tests of the bitmap at full size, of the blocks that are held, and of the block that a resync copies.
use bitmap::Bitmap;
use blocks::{Block, Extent, Range, Refusal};
use overlap::Held;
use resync::{Resync, UnderWay, next};
use std::alloc::Global;
use std::process::Abort;

/// A bitmap of the largest device, in which no block is marked.
fn largest(alloc: Global) -> Result<Bitmap, Refusal> {
    Bitmap::unmarked(alloc, 262_144)
}

/// Marks the last 32 blocks of the largest device.
fn mark_last(rt: &impl Abort, bitmap: &mut Bitmap) {
    let range = Range::new(262_112, 32, 262_144).expect(rt, "a range");
    assert_eq!(rt; bitmap.len(), 262_144);
    bitmap.mark(range);
}

/// Checks that this many blocks are marked, and that this is the first.
fn check_marks(rt: &impl Abort, bitmap: &Bitmap, count: u32, first: u64) {
    let found = (bitmap.count(), bitmap.first_from(Block(0)));
    assert_eq!(rt; found, (count, Some(Block(first))));
}

/// Checks that the last 32 blocks of the last extent are marked.
fn check_last_32(rt: &impl Abort, bitmap: &Bitmap) {
    check_marks(rt, bitmap, 32, 262_112);
    let found = (bitmap.count_in(Extent(255)), bitmap.count_in(Extent(254)));
    assert_eq!(rt; found, (32, 0));
}

/// Checks that the last word of the bitmap says so.
fn check_last_word(rt: &impl Abort, bitmap: &Bitmap) {
    let word = bitmap.words().get(4095).copied();
    assert_eq!(rt; word, Some(0xFFFF_FFFF_0000_0000));
}

/// Clears the first of them, and checks that the others stay marked.
fn clears_one(rt: &impl Abort, bitmap: &mut Bitmap) {
    assert_eq!(rt; bitmap.len(), 262_144);
    bitmap.clear(Block(262_112));
    check_marks(rt, bitmap, 31, 262_113);
    assert!(rt; !bitmap.is_marked(Block(262_112)));
    assert!(rt; bitmap.is_marked(Block(262_113)));
}

#[test]
fn the_last_32_blocks_of_the_largest_device(rt: HostRuntime) {
    let mut bitmap = largest(rt.alloc()).expect(&rt, "memory");
    mark_last(&rt, &mut bitmap);
    mark_last(&rt, &mut bitmap);
    check_last_32(&rt, &bitmap);
    check_last_word(&rt, &bitmap);
    clears_one(&rt, &mut bitmap);
    bitmap.mark_all();
    assert_eq!(rt; bitmap.count(), 262_144);
}

/// Checks the lowest number that holds a block of this range, on a device of 2,048 blocks.
fn conflicts(rt: &impl Abort, held: &Held, (first, count): (u64, u64), wanted: Option<u64>) {
    let range = Range::new(first, count, 2048).expect(rt, "a range");
    assert_eq!(rt; held.conflict(range), wanted, "{first} {count}");
}

/// Has a number hold a range that no other number touches.
fn holds(rt: &impl Abort, held: &mut Held, number: u64, range: Range) {
    assert_eq!(rt; held.conflict(range), None);
    assert!(rt; !held.is_held(number));
    held.hold(number, range).expect(rt, "memory");
}

/// A range, and the lowest number that holds one of its blocks.
const CONFLICTS: [(u64, u64, Option<u64>); 4] = [
    (31, 1, Some(7)),
    (31, 32, Some(7)),
    (40, 32, Some(3)),
    (32, 32, None),
];

#[test]
fn the_lowest_holder_of_a_block(rt: HostRuntime) {
    let mut held = Held::new(rt.alloc());
    let low = Range::new(0, 32, 2048).expect(&rt, "a range");
    let high = Range::new(64, 1, 2048).expect(&rt, "a range");
    holds(&rt, &mut held, 7, low);
    holds(&rt, &mut held, 3, high);
    for (first, count, wanted) in CONFLICTS {
        conflicts(&rt, &held, (first, count), wanted);
    }
    held.release(7);
    assert_eq!(rt; held.conflict(low), None);
    held.clear();
    assert_eq!(rt; held.conflict(high), None);
}

/// Checks that a resync copies block 2 until that is acknowledged.
fn copies_block_2(rt: &impl Abort) {
    let mut resync = Resync::new();
    resync.begin();
    resync.copy(UnderWay {
        block: Block(2),
        place: 1,
        epoch: 1,
    });
    assert!(rt; !resync.is_under_way(Block(1), 1));
    assert!(rt; !resync.is_under_way(Block(2), 0));
    assert!(rt; !resync.is_in_epoch(2));
    assert!(rt; resync.is_under_way(Block(2), 1) && !resync.is_waiting());
    resync.acknowledged();
    assert_eq!(rt; resync.under_way(), None);
    assert!(rt; resync.is_waiting());
    resync.end();
    assert!(rt; !resync.goes_on());
}

#[test]
fn a_resync_takes_the_lowest_marked_block_that_nobody_holds(rt: HostRuntime) {
    let marks = [false, true, true, false];
    let bitmap = Bitmap::from_marks(rt.alloc(), &marks).expect(&rt, "memory");
    let mut held = Held::new(rt.alloc());
    assert_eq!(rt; next(&bitmap, &held), Some(Block(1)));
    let range = Range::new(0, 2, 4).expect(&rt, "a range");
    holds(&rt, &mut held, 1, range);
    assert_eq!(rt; next(&bitmap, &held), Some(Block(2)));
    copies_block_2(&rt);
}
