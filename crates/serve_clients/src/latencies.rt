//! How long the requests of clients took, as the threads that do them count it.
use nbd::NbdCommand;
use serve_page::{BOUNDS, CommandLatency, Latencies, bucket_of};
use std::sync::atomic::{AtomicU64, Ordering};
use std::time::{Clock, Instant};

/// How long the requests of each command took since the server began.
#[derive(Drop)]
pub(crate) struct CountedLatencies {
    read: CountedLatency,
    write: CountedLatency,
    flush: CountedLatency,
    write_zeroes: CountedLatency,
}

impl CountedLatencies {
    /// Creates the latencies before the first request.
    pub(crate) fn new() -> CountedLatencies {
        CountedLatencies {
            read: CountedLatency::new(),
            write: CountedLatency::new(),
            flush: CountedLatency::new(),
            write_zeroes: CountedLatency::new(),
        }
    }

    /// Counts a request that is answered now. A thread took it at the moment `begun`; without a clock it is not counted.
    pub(crate) fn note<R: Clock>(&self, rt: &R, command: NbdCommand, begun: Option<Instant>) {
        let Some(begun) = begun else {
            return;
        };
        let Ok(elapsed) = begun.elapsed(rt) else {
            return;
        };
        let microseconds = u64::try_from(elapsed.as_micros()).unwrap_or(u64::MAX);
        match command {
            NbdCommand::Read => self.read.note(microseconds),
            NbdCommand::Write => self.write.note(microseconds),
            NbdCommand::Flush => self.flush.note(microseconds),
            // A TRIM writes zeros, too.
            NbdCommand::Trim | NbdCommand::WriteZeroes => self.write_zeroes.note(microseconds),
            // A DISC has no reply, and a BLOCK_STATUS touches no data.
            NbdCommand::Disconnect | NbdCommand::BlockStatus => {}
        }
    }

    /// Returns how long the requests took until now.
    pub(crate) fn latencies(&self) -> Latencies {
        Latencies {
            read: self.read.latency(),
            write: self.write.latency(),
            flush: self.flush.latency(),
            write_zeroes: self.write_zeroes.latency(),
        }
    }
}

/// How long the requests of one command took.
#[derive(Drop)]
struct CountedLatency {
    // For each bound the requests that took no longer, and longer than the bound before it; at the end those that took longer than all.
    requests: [AtomicU64; BOUNDS + 1],
    microseconds: AtomicU64,
}

impl CountedLatency {
    fn new() -> CountedLatency {
        CountedLatency {
            requests: [
                AtomicU64::new(0),
                AtomicU64::new(0),
                AtomicU64::new(0),
                AtomicU64::new(0),
                AtomicU64::new(0),
                AtomicU64::new(0),
                AtomicU64::new(0),
                AtomicU64::new(0),
                AtomicU64::new(0),
                AtomicU64::new(0),
                AtomicU64::new(0),
                AtomicU64::new(0),
                AtomicU64::new(0),
                AtomicU64::new(0),
                AtomicU64::new(0),
            ],
            microseconds: AtomicU64::new(0),
        }
    }

    // Counts a request that took so long.
    fn note(&self, microseconds: u64) {
        if let Some(requests) = self.requests.get(bucket_of(microseconds)) {
            requests.fetch_add(1, Ordering::SeqCst);
        }
        self.microseconds.fetch_add(microseconds, Ordering::SeqCst);
    }

    // Returns how long the requests took until now. The counts of all bounds are of one reading, and so never fall from one to the next.
    fn latency(&self) -> CommandLatency {
        let mut latency = CommandLatency::NONE;
        for (index, requests) in self.requests.iter().enumerate() {
            let count = latency
                .count
                .saturating_add(requests.load(Ordering::SeqCst));
            latency.count = count;
            if let Some(within) = latency.within.get_mut(index) {
                *within = count;
            }
        }
        latency.microseconds = self.microseconds.load(Ordering::SeqCst);
        latency
    }
}
