//! Bells: threads that found nothing to do wait on them.

use std::sync::atomic::{AtomicU64, Ordering};
use std::sync::{Condvar, Mutex, Wait};
use std::thread;
use std::time::{Clock, Duration};

/// How often a thread yields in one wait, unless the bell rings.
const YIELDS: u32 = 20;

/// How often a thread that found nothing waits like this before it sleeps.
const LOOKS: u32 = 3;

/// How often the sleep of a millisecond is doubled at most: to 16. A ring ends a sleep.
const MOST_DOUBLINGS: u32 = 4;

/// A bell: threads sleep on it until there may be something for them. Nothing depends on a ring: each sleep ends by
/// itself, and a thread that wakes looks again.
#[derive(Drop)]
pub struct Bell {
    rings: AtomicU64,
    // Threads that look again before they sleep.
    watchers: AtomicU64,
    sleepers: AtomicU64,
    // 1 from when a sleeper is woken until one is awake or another goes to sleep, so that no ring in between wakes
    // another.
    waking: AtomicU64,
    lock: Mutex<()>,
    rung: Condvar,
}

impl Bell {
    /// Creates a bell that no thread sleeps on.
    pub fn new() -> Bell {
        Bell {
            rings: AtomicU64::new(0),
            watchers: AtomicU64::new(0),
            sleepers: AtomicU64::new(0),
            waking: AtomicU64::new(0),
            lock: Mutex::new(()),
            rung: Condvar::new(),
        }
    }

    /// Returns how often the bell has rung. A thread asks this before it looks for something to do, so that it misses
    /// no ring that comes while it looks.
    pub fn rings(&self) -> u64 {
        self.rings.load(Ordering::SeqCst)
    }

    /// Counts a watcher: a thread that from now on does whatever there is, as long as the bell is used, and waits only
    /// when it has found nothing.
    pub fn watch(&self) {
        self.watchers.fetch_add(1, Ordering::SeqCst);
    }

    /// Wakes one sleeper, unless a watcher is awake: a watcher looks again before it sleeps.
    pub fn ring_one<R: Wait>(&self, rt: &R) {
        self.rings.fetch_add(1, Ordering::SeqCst);
        if self.needs_waking() {
            self.await_sleepers(rt);
            self.rung.notify_one();
        }
    }

    /// Wakes all sleepers.
    pub fn ring_all<R: Wait>(&self, rt: &R) {
        self.rings.fetch_add(1, Ordering::SeqCst);
        if self.sleepers.load(Ordering::SeqCst) > 0 {
            self.await_sleepers(rt);
            self.rung.notify_all();
        }
    }

    /// Waits a moment, or until the bell rings. Returns at once if it has rung since `rings` was read. `looks` is how
    /// often the thread has waited since it last found something: the first waits yield, the later ones sleep, from a
    /// millisecond up. A thread that yields reads only the bell, and so does not hinder the thread that has the lock.
    pub fn wait<R: Wait + Clock>(&self, rt: &R, rings: u64, looks: u32) {
        if looks < LOOKS {
            self.yield_until_rung(rings);
            return;
        }
        let doublings = (looks - LOOKS).min(MOST_DOUBLINGS);
        self.sleepers.fetch_add(1, Ordering::SeqCst);
        // A ring may have come when no thread slept any more. A ring that came before now is seen below.
        self.waking.store(0, Ordering::SeqCst);
        let guard = self.lock.lock(rt);
        if self.rings.load(Ordering::SeqCst) == rings {
            let sleep = Duration::from_millis(1u64 << doublings);
            let _ = self.rung.wait_timeout(rt, guard, sleep);
        }
        self.sleepers.fetch_sub(1, Ordering::SeqCst);
        self.waking.store(0, Ordering::SeqCst);
    }

    // Waits until each thread that has not seen the ring sleeps: between its look at `rings` and its sleep it has the lock, and
    // would not hear that it is woken.
    fn await_sleepers<R: Wait>(&self, rt: &R) {
        drop(self.lock.lock(rt));
    }

    // Returns whether as many threads sleep as there are watchers, and none has been woken since. A thread that sleeps and is no
    // watcher counts too: then a watcher may be awake, and one is woken in vain.
    fn needs_waking(&self) -> bool {
        let sleepers = self.sleepers.load(Ordering::SeqCst);
        sleepers > 0
            && sleepers >= self.watchers.load(Ordering::SeqCst)
            && self.waking.swap(1, Ordering::SeqCst) == 0
    }

    // Yields until the bell rings, `YIELDS` times at most.
    fn yield_until_rung(&self, rings: u64) {
        for _ in 0..YIELDS {
            if self.rings() != rings {
                break;
            }
            thread::yield_now();
        }
    }
}
