//! A node's process, as its disk and its metadata file see it: it may stop in the middle of a call, and calls may fail.
use std::cell::Cell;

/// How a call of a disk or of a file ends.
#[derive(Clone, Copy, PartialEq, Eq)]
pub(crate) enum Ending {
    /// As it was asked for.
    Done,
    /// It fails.
    Fails,
    /// The process stops in it: a part of it may be done.
    Stops,
    /// The process had stopped before: nothing is done.
    Gone,
}

/// The calls that fail: those with these numbers.
#[derive(Clone, Copy)]
struct Failing {
    first: u64,
    count: u64,
}

impl Failing {
    const NONE: Failing = Failing { first: 0, count: 0 };

    fn has(&self, call: u64) -> bool {
        call >= self.first && call.saturating_sub(self.first) < self.count
    }
}

/// A node's process. Its calls are counted from 1, those of its disk and of its file together.
#[derive(Drop)]
pub(crate) struct Process {
    calls: Cell<u64>,
    is_stopped: Cell<bool>,
    // The call in which it stops; 0 if in none.
    stops_in: Cell<u64>,
    disk_failing: Cell<Failing>,
    file_failing: Cell<Failing>,
    // By which a call that fails or stops does a part.
    part: Cell<u64>,
}

impl Process {
    /// Returns a process that runs, and whose calls do not fail.
    pub(crate) fn new() -> Process {
        Process {
            calls: Cell::new(0),
            is_stopped: Cell::new(false),
            stops_in: Cell::new(0),
            disk_failing: Cell::new(Failing::NONE),
            file_failing: Cell::new(Failing::NONE),
            part: Cell::new(0),
        }
    }

    /// Returns whether it has stopped.
    pub(crate) fn is_stopped(&self) -> bool {
        self.is_stopped.get()
    }

    /// Returns how many calls it has made.
    pub(crate) fn calls(&self) -> u64 {
        self.calls.get()
    }

    /// Stops it between two calls.
    pub(crate) fn stop(&self) {
        self.is_stopped.set(true);
    }

    /// Starts it anew: no call fails, and it stops in none.
    pub(crate) fn restart(&self) {
        self.is_stopped.set(false);
        self.disarm();
    }

    /// Has it stop in a later call: the next one if `after` is 0.
    pub(crate) fn stop_after(&self, after: u64, part: u64) {
        self.stops_in.set(self.next_call(after));
        self.part.set(part);
    }

    /// Has `count` calls of its disk fail, from a later call on.
    pub(crate) fn fail_disk_after(&self, after: u64, count: u64, part: u64) {
        let first = self.next_call(after);
        self.disk_failing.set(Failing { first, count });
        self.part.set(part);
    }

    /// Has a later call of its file fail, and those of the file that come soon after.
    pub(crate) fn fail_file_after(&self, after: u64, count: u64, part: u64) {
        let first = self.next_call(after);
        self.file_failing.set(Failing { first, count });
        self.part.set(part);
    }

    /// Has no call fail any more, and the process not stop.
    pub(crate) fn disarm(&self) {
        self.stops_in.set(0);
        self.disk_failing.set(Failing::NONE);
        self.file_failing.set(Failing::NONE);
    }

    /// Returns the number by which a call that fails or stops does a part.
    pub(crate) fn part(&self) -> u64 {
        self.part.get()
    }

    /// Counts a call of the disk, and returns how it ends.
    pub(crate) fn disk_call(&self) -> Ending {
        self.call(self.disk_failing.get())
    }

    /// Counts a call of the file, and returns how it ends.
    pub(crate) fn file_call(&self) -> Ending {
        self.call(self.file_failing.get())
    }

    fn next_call(&self, after: u64) -> u64 {
        self.calls.get().saturating_add(after).saturating_add(1)
    }

    fn call(&self, failing: Failing) -> Ending {
        if self.is_stopped.get() {
            return Ending::Gone;
        }
        let call = self.next_call(0);
        self.calls.set(call);
        if call == self.stops_in.get() {
            self.is_stopped.set(true);
            return Ending::Stops;
        }
        if failing.has(call) {
            Ending::Fails
        } else {
            Ending::Done
        }
    }
}
