//! Tests of when the threads that wait on a bell go on. Each sleep ends by itself, so a test that only waits for its end
//! says nothing of the rings: these tests take the time.
use session_api::Bell;
use std::process::Abort;
use std::sync::Wait;
use std::sync::atomic::{AtomicU64, Ordering};
use std::thread;
use std::thread::Threads;
use std::time::{Clock, Duration, Instant};

/// Looks after which a wait is the longest sleep, of 16 milliseconds.
const LOOKS: u32 = 24;

/// A wait that took less, in milliseconds, did not end by itself. A ring ends a sleep of these tests after about one.
const SHORT_MS: u64 = 10;

/// How often a thread waits in a test.
const WAITS: u64 = 100;

/// How many of the waits have to be short, at the least, if each should be, and long if none should. A busy machine may hold up
/// most of them; of a bell that wakes nobody none is short.
const LEAST: u64 = 10;

/// Waits on the bell. Returns whether the wait was short.
fn is_short<R: Wait + Clock + Abort>(rt: &R, bell: &Bell, rings: u64) -> bool {
    let start = Instant::now(rt).expect(rt, "the time");
    bell.wait(rt, rings, LOOKS);
    start.elapsed(rt).expect(rt, "the time") < Duration::from_millis(SHORT_MS)
}

/// Sleeps on the bell as a watcher, again and again, and counts each sleep in `sleeps` before it begins. Returns how many
/// were short.
fn sleep_on<R: Wait + Clock + Abort>(rt: &R, bell: &Bell, sleeps: &AtomicU64) -> u64 {
    bell.watch();
    let mut short = 0u64;
    for _ in 0..WAITS {
        let rings = bell.rings();
        sleeps.fetch_add(1, Ordering::SeqCst);
        if is_short(rt, bell, rings) {
            short = short.saturating_add(1);
        }
    }
    short
}

/// Looks each millisecond until this many sleeps have begun. So it mostly returns when the last has gone on for about as
/// long, and a ring that comes now has to wake its thread.
fn wait_for_sleeps<R: Wait + Clock>(rt: &R, sleeps: &AtomicU64, count: u64) {
    for _ in rt.forever() {
        thread::sleep(rt, Duration::from_millis(1));
        if sleeps.load(Ordering::SeqCst) >= count {
            break;
        }
    }
}

/// Rings for each sleep of one thread.
fn ring_one<R: Wait + Clock>(rt: &R, bell: &Bell, sleeps: &AtomicU64) {
    for before in 0..WAITS {
        wait_for_sleeps(rt, sleeps, before.saturating_add(1));
        bell.ring_one(rt);
    }
}

/// Rings each time that both of two threads sleep.
fn ring_all<R: Wait + Clock>(rt: &R, bell: &Bell, sleeps: &AtomicU64) {
    let mut count = 0u64;
    for _ in 0..WAITS {
        count = count.saturating_add(2);
        wait_for_sleeps(rt, sleeps, count);
        bell.ring_all(rt);
    }
}

fn one_sleeps<R: Threads + Wait + Clock + Abort + Sync>(rt: &R) {
    let bell = Bell::new();
    let begun = AtomicU64::new(0);
    let (shared, sleeps) = (&bell, &begun);
    let (short, _) = thread::join(
        rt,
        || sleep_on(rt, shared, sleeps),
        || ring_one(rt, shared, sleeps),
    );
    assert!(rt; short >= LEAST, "{short} sleeps end with a ring");
}

#[test]
fn a_ring_wakes_the_thread_that_sleeps(rt: HostRuntime) {
    one_sleeps(&rt);
}

fn both_sleep_on<R: Threads + Wait + Clock + Abort + Sync>(
    rt: &R,
    bell: &Bell,
    sleeps: &AtomicU64,
) -> (u64, u64) {
    thread::join(
        rt,
        || sleep_on(rt, bell, sleeps),
        || sleep_on(rt, bell, sleeps),
    )
}

fn two_sleep<R: Threads + Wait + Clock + Abort + Sync>(rt: &R) {
    let bell = Bell::new();
    let begun = AtomicU64::new(0);
    let (shared, sleeps) = (&bell, &begun);
    let ((first, second), _) = thread::join(
        rt,
        || both_sleep_on(rt, shared, sleeps),
        || ring_all(rt, shared, sleeps),
    );
    assert!(rt;
        first >= LEAST,
        "{first} sleeps of the first end with a ring"
    );
    assert!(rt;
        second >= LEAST,
        "{second} sleeps of the second end with a ring"
    );
}

#[test]
fn a_ring_for_all_wakes_both_threads_that_sleep(rt: HostRuntime) {
    two_sleep(&rt);
}

#[test]
fn a_thread_sleeps_unless_the_bell_has_rung(rt: HostRuntime) {
    let bell = Bell::new();
    let before = bell.rings();
    bell.ring_one(&rt);
    let (mut after_ring, mut without) = (0u64, 0u64);
    for _ in 0..WAITS {
        if is_short(&rt, &bell, before) {
            after_ring = after_ring.saturating_add(1);
        }
        if is_short(&rt, &bell, bell.rings()) {
            without = without.saturating_add(1);
        }
    }
    assert!(rt;
        after_ring >= LEAST,
        "{after_ring} waits end at once after a ring"
    );
    assert!(rt;
        without <= WAITS - LEAST,
        "{without} sleeps end without a ring"
    );
}
