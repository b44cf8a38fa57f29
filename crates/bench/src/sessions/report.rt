//! What a measured session gave, and in what time.
use std::time::Duration;

/// How many receipts a session gave, in what time, and how long its writers waited for them.
#[derive(Clone, Copy, Debug, PartialEq, Eq)]
pub(crate) struct Report {
    pub(crate) receipts: usize,
    pub(crate) time: Duration,
    /// Half of the writes waited no longer than this, in microseconds.
    pub(crate) median_us: u64,
    /// 99 of 100 writes waited no longer than this, in microseconds.
    pub(crate) slow_us: u64,
}

impl Report {
    /// Makes the report of a session that took `time` and whose writes waited for `waits` nanoseconds.
    pub(crate) fn of(waits: Vec<u64>, time: Duration) -> Report {
        let mut waits = waits;
        waits.sort_unstable();
        let count = waits.len();
        Report {
            receipts: count,
            time,
            median_us: at(&waits, count / 2) / 1000,
            slow_us: at(&waits, (count - count / 100).saturating_sub(1)) / 1000,
        }
    }

    /// Returns how many writes had their receipts in a second.
    pub(crate) fn per_second(&self) -> u128 {
        self.receipts as u128 * 1_000_000 / self.time.as_micros().max(1)
    }
}

// Returns the wait at this index, 0 if there is none.
fn at(sorted: &Vec<u64>, index: usize) -> u64 {
    match sorted.get(index) {
        Some(wait) => *wait,
        None => 0,
    }
}
