//! Tests of the activity log.
use activitylog::ActivityLog;
use blocks::{Extent, Refusal};

#[test]
fn the_oldest_idle_extent_makes_room(rt: HostRuntime) {
    let mut log = ActivityLog::new(rt.alloc(), 2).expect(&rt, "memory");
    log.begin(Extent(0)).expect(&rt, "a write");
    log.begin(Extent(1)).expect(&rt, "a write");
    assert!(rt; !log.can_begin(Extent(2)));
    assert_eq!(rt; log.begin(Extent(2)), Err(Refusal::ActivityFull));
    log.end(Extent(1));
    log.begin(Extent(2)).expect(&rt, "a write");
    assert!(rt; !log.can_begin(Extent(1)));
    assert!(rt; log.can_begin(Extent(0)));
    assert_eq!(rt; log.active(), 2);
}
