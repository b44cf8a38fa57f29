//! The requests that wait for stable storage.
use crate::client::Client;
use serve_requests::Ended;
use std::alloc::Global;
use std::mem;
use std::sync::{Arc, Condvar, Mutex, Wait};
use std::time::{Clock, Duration, Instant};

/// How long the thread that syncs waits for a request before it looks whether the session ends, in milliseconds.
const LOOK_MS: u64 = 50;

/// A request whose reads and writes are done and whose sync is not, and the client that waits for its reply.
#[derive(Drop)]
pub(crate) struct Unsynced {
    pub(crate) ended: Ended,
    pub(crate) client: Arc<Client, Global>,
    /// When a thread took it, if there is a clock.
    pub(crate) begun: Option<Instant>,
}

/// The requests of all clients that wait for stable storage. One thread of a session takes them and syncs: a sync may take long, and a
/// client's thread that waited for it would answer nothing that the client sends after it.
#[derive(Drop)]
pub(crate) struct SyncQueue {
    alloc: Global,
    state: Mutex<State>,
    came: Condvar,
}

#[derive(Drop)]
struct State {
    waiting: Vec<Unsynced>,
    // Whether a thread takes them.
    is_attended: bool,
}

impl SyncQueue {
    /// Creates the queue with no request. Takes no memory yet.
    pub(crate) fn new(alloc: Global) -> SyncQueue {
        let state = State {
            waiting: Vec::new(alloc),
            is_attended: false,
        };
        SyncQueue {
            alloc,
            state: Mutex::new(state),
            came: Condvar::new(),
        }
    }

    /// Adds these requests if a thread takes them. Returns whether it added them: else the caller finishes them.
    pub(crate) fn put<R: Wait>(&self, rt: &R, unsynced: &mut Vec<Unsynced>) -> bool {
        let mut state = self.state.lock(rt);
        let is_added = state.is_attended && state.waiting.append(unsynced).is_ok();
        drop(state);
        if is_added {
            self.came.notify_one();
        }
        is_added
    }

    /// Says that a thread takes requests from now on: the caller.
    pub(crate) fn attend<R: Wait>(&self, rt: &R) {
        self.state.lock(rt).is_attended = true;
    }

    /// Takes all requests that wait, as soon as there are some. Returns none if none comes in a moment.
    pub(crate) fn take<R: Wait + Clock>(&self, rt: &R) -> Vec<Unsynced> {
        let mut state = self.state.lock(rt);
        if state.waiting.is_empty() {
            let look = Duration::from_millis(LOOK_MS);
            state = self.came.wait_timeout(rt, state, look).0;
        }
        mem::replace(&mut state.waiting, Vec::new(self.alloc))
    }

    /// Says that no thread takes requests any more, unless some wait. Returns whether it did.
    pub(crate) fn retire<R: Wait>(&self, rt: &R) -> bool {
        let mut state = self.state.lock(rt);
        state.is_attended = !state.waiting.is_empty();
        !state.is_attended
    }
}
