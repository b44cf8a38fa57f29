//! What waits to be written to a client, and whose turn it is to write it.
use client_socket::{QueueFault, ReplyQueue};
use nbd::Sayings;
use serve_requests::Answer;
use std::alloc::Global;
use std::mem;

/// Whose turn it is to write to a client. A turn begins and ends under the lock of what waits, and whoever has it writes
/// without the lock what it took. So all that waits is written, or dropped with the connection:
///
/// - What is held in nobody's turn is sent by the thread that held it, which calls `send_held` then, unless another turn
///   took it before.
/// - A thread that calls `send_held` in another one's turn asks that one to send, under the lock under which its turn ends: it
///   goes on. What is held by threads that have not called `send_held` yet may stay there when the turn ends.
/// - If a thread of a session leaves the turn, since the client is slow, what it has not written goes before what came meanwhile.
///   The client's own thread of the session sees that before its next read, and hands the client on to a thread that writes late.
/// - That thread writes until nothing waits, and only then lets the others write again.
/// - A thread frees places before its last look, and a short READ has none. So before a client goes, a thread waits until nothing waits and
///   nobody has the turn.
/// - When the connection fails, whoever has the turn drops what it took. What is held later is dropped by the next turn, or
///   with the client.
#[derive(Clone, Copy, Debug, PartialEq, Eq)]
pub(crate) enum Writer {
    /// No thread writes, and any may begin.
    Anyone,
    /// A thread of a session.
    InSession,
    /// A thread that writes late, or the next one that does.
    Late,
}

/// What waits to be written to a client, and whose turn it is to write it.
#[derive(Drop)]
pub(crate) struct Waiting {
    // Whole replies, and at the end portions of one that is not told to its end. What was left of one that is written in part stands at
    // the front.
    outbox: ReplyQueue,
    // Replies and sayings that came since such a reply began: they go behind it.
    behind: ReplyQueue,
    // Whether there is such a reply.
    is_within: bool,
    writer: Writer,
    // Whether another thread asked the one that writes to send what came since its last look.
    is_asked: bool,
}

impl Waiting {
    /// Creates one in which nothing waits, for the client with the number `of`. Takes no memory yet.
    pub(crate) fn new(alloc: Global, of: u64) -> Waiting {
        Waiting {
            outbox: ReplyQueue::new(alloc, of),
            behind: ReplyQueue::new(alloc, of),
            is_within: false,
            writer: Writer::Anyone,
            is_asked: false,
        }
    }

    /// Appends an answer, as `ReplyQueue::put` does. One that begins a reply goes behind the one that is told in portions, if there is one.
    pub(crate) fn put(&mut self, answer: Answer, places: u32) -> Result<(), QueueFault> {
        if self.is_within && answer.begins() {
            return self.behind.put(answer, places);
        }
        self.is_within = !answer.ends();
        self.outbox.put(answer, places)?;
        if self.is_within || self.behind.is_empty() {
            return Ok(());
        }
        let behind = self.behind.take();
        self.outbox.append(behind)
    }

    /// Appends what the connection says, as `ReplyQueue::say` does, behind a reply that is told in portions.
    pub(crate) fn say(&mut self, sayings: Sayings) -> Result<(), QueueFault> {
        if self.is_within {
            self.behind.say(sayings)
        } else {
            self.outbox.say(sayings)
        }
    }

    /// Returns whether so much waits that it is sent at once.
    pub(crate) fn is_full(&self) -> bool {
        self.outbox.is_full()
    }

    /// Begins the turn of a session's thread, and takes all that waits. Returns `None` if nothing waits, or if another thread has the
    /// turn: that one sends it.
    pub(crate) fn begin(&mut self) -> Option<ReplyQueue> {
        if self.outbox.is_empty() {
            return None;
        }
        if self.writer != Writer::Anyone {
            self.is_asked = true;
            return None;
        }
        self.writer = Writer::InSession;
        self.is_asked = false;
        Some(self.outbox.take())
    }

    /// Goes on with a turn after a write: takes what waits if another thread asked for that since the last look. If none did, ends it. The
    /// room of `written`, which is empty, is used again.
    pub(crate) fn go_on(&mut self, written: ReplyQueue) -> Option<ReplyQueue> {
        if self.is_asked {
            self.is_asked = false;
            return Some(mem::replace(&mut self.outbox, written));
        }
        self.writer = Writer::Anyone;
        if self.outbox.is_empty() {
            self.outbox = written;
        }
        None
    }

    /// Leaves the turn to a thread that writes late: what was taken and not written goes before what came meanwhile. If there is no
    /// memory for that, bytes are missing and only the places count, so the caller closes the connection.
    pub(crate) fn leave(&mut self, left: ReplyQueue) -> Result<(), QueueFault> {
        self.writer = Writer::Late;
        let newer = mem::replace(&mut self.outbox, left);
        self.outbox.append(newer)
    }

    /// Ends a turn, and drops all that waits. Returns the places of the requests.
    pub(crate) fn give_up(&mut self) -> u32 {
        self.writer = Writer::Anyone;
        self.is_within = false;
        self.outbox.clear().saturating_add(self.behind.clear())
    }

    /// Returns whether nothing waits, and no thread writes.
    pub(crate) fn is_at_rest(&self) -> bool {
        self.writer == Writer::Anyone && self.outbox.is_empty()
    }

    /// Returns whether the turn was left to a thread that writes late.
    pub(crate) fn is_left(&self) -> bool {
        self.writer == Writer::Late
    }

    /// Takes all that waits for a thread that writes late. If nothing does, ends the turn. Returns `None` also if the turn was not left.
    pub(crate) fn take_late(&mut self) -> Option<ReplyQueue> {
        if self.writer != Writer::Late {
            return None;
        }
        if self.outbox.is_empty() {
            self.writer = Writer::Anyone;
            return None;
        }
        Some(self.outbox.take())
    }
}
