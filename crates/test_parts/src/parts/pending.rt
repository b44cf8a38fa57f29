//! Tests of the items that a disk has pending.
use blocks::Refusal;
use peerdisk::PeerDisk;
use std::process::Abort;

/// Checks that this item can start now, or that this refusal comes at this place.
fn starts(rt: &impl Abort, disk: &PeerDisk<char>, place: u32, wanted: Result<char, Refusal>) {
    assert_eq!(rt; disk.start(place).copied(), wanted, "place {place}");
}

#[test]
fn items_start_epoch_by_epoch(rt: HostRuntime) {
    let mut disk = PeerDisk::new(rt.alloc(), 3).expect(&rt, "memory");
    assert!(rt; disk.is_empty());
    disk.put(0, 1, 'a').expect(&rt, "an item");
    disk.put(1, 1, 'b').expect(&rt, "an item");
    disk.reserve(3).expect(&rt, "memory");
    disk.put(3, 2, 'c').expect(&rt, "an item");
    assert_eq!(rt; disk.put(4, 2, 'd'), Err(Refusal::PendingFull));
    assert_eq!(rt; disk.next(), Ok(0));
    assert_eq!(rt; disk.first_epoch(), Some(1));
    starts(&rt, &disk, 1, Ok('b'));
    starts(&rt, &disk, 2, Err(Refusal::UnknownJob));
    assert_eq!(rt; disk.done(0), 'a');
    starts(&rt, &disk, 3, Err(Refusal::EpochOpen));
    assert_eq!(rt; disk.fault(1), 1);
    assert_eq!(rt; disk.len(), 0);
    assert_eq!(rt; disk.next(), Err(Refusal::NothingThere));
}
