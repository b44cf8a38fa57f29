//! A client's connection, shared by the threads that answer its requests.
ghost use Rattle.std.specs.Io.{ReadsAtMost};

use crate::request_budget::{PLACES, RequestBudget};
use crate::waiting::Waiting;
use client_socket::{ClientStream, Outcome, ReplyQueue, is_passing};
use nbd::Sayings;
use serve_requests::Answer;
use std::alloc::Global;
use std::net::Shutdown;
use std::sync::atomic::{AtomicBool, Ordering};
use std::sync::{Mutex, Wait};
use std::time::{Clock, Duration, Instant};
use std::{io, thread};

/// How long a client has for each MiB of replies that it begins, in milliseconds. If it is slower, its connection is
/// closed.
const PATIENCE_MS: u16 = 10_000;

/// How long it has while a thread of a session writes to it. If it is slower, a thread outside of the session goes on.
const SHORT_PATIENCE_MS: u16 = 20;

/// How long a read waits before its thread looks whether the session or the server ends, in milliseconds: a session ends for all clients
/// only once each thread has looked.
const LOOK_MS: u64 = 100;

/// How long a thread waits before it looks again whether another one still writes, in milliseconds.
const WRITER_LOOK_MS: u64 = 1;

/// How long a client has to end its side once all replies are written, in seconds: as long as for a MiB of them, since the system may
/// hold that much, which the client has not read.
const LINGER_S: u64 = 10;

/// The most bytes that are discarded at once.
const DISCARDED_BYTES: usize = 4096;

/// A client's connection. The threads of a session write to it only while it takes bytes at once, so that neither a session nor another
/// client waits for it. If it does not, a thread outside of the session writes, and the others leave their replies to that. One thread
/// writes at a time, without the lock, so that no other one waits for it.
#[derive(Drop)]
pub(crate) struct Client {
    // Its connection's number, which no other client has.
    number: u64,
    stream: ClientStream,
    // No thread writes to the socket, or frees places, while it holds this lock.
    waiting: Mutex<Waiting>,
    // Whether the connection failed. Then nothing more is written.
    is_closed: AtomicBool,
    places: RequestBudget,
}

impl Client {
    /// Creates the client at the other end of a socket, with this number, which no other client has.
    pub(crate) fn new(alloc: Global, number: u64, stream: ClientStream) -> Client {
        Client {
            number,
            stream,
            waiting: Mutex::new(Waiting::new(alloc, number)),
            is_closed: AtomicBool::new(false),
            places: RequestBudget::new(PLACES),
        }
    }

    /// Returns its number, for its connection.
    pub(crate) fn number(&self) -> u64 {
        self.number
    }

    /// Makes the socket send without delay, and limits how long a read waits.
    pub(crate) fn prepare(&self) -> io::Result<()> {
        self.stream.send_without_delay()?;
        self.stream.limit_reads(Duration::from_millis(LOOK_MS))
    }

    /// Holds an answer until the next `send_held`; its request has `places` places. Closes the connection if its reply lacks bytes, if there
    /// is no memory to hold it, or if it is for another client: no clause can say whose answer comes here, over the locks between the
    /// threads, so the queue compares the numbers. It closes under the lock, so that no thread writes what stands behind missing bytes.
    pub(crate) fn reply<R: Wait>(&self, rt: &R, answer: Answer, places: u32) {
        let is_broken = answer.is_broken();
        let mut waiting = self.waiting.lock(rt);
        let is_put = waiting.put(answer, places).is_ok();
        if is_broken || !is_put {
            self.close();
        }
    }

    /// Returns whether many bytes are held.
    pub(crate) fn is_full<R: Wait>(&self, rt: &R) -> bool {
        self.waiting.lock(rt).is_full()
    }

    /// Sends the replies that are held, and those that other threads are to send meanwhile, and frees the places of their
    /// requests. If the client does not take them at once, leaves the rest to a thread that writes late. If the connection fails,
    /// closes it and drops them. Returns at once if another thread writes: that one sends them.
    pub(crate) fn send_held<R: Wait + Clock>(&self, rt: &R) {
        let Some(mut taken) = self.begin(rt) else {
            return;
        };
        for _ in rt.forever() {
            match self.write(rt, &mut taken, SHORT_PATIENCE_MS) {
                Outcome::Done => {}
                Outcome::Late => return self.leave(rt, taken),
                Outcome::Failed => return self.give_up(rt, taken),
            }
            self.places.free(rt, taken.clear());
            taken = match self.go_on(rt, taken) {
                Some(next) => next,
                None => return,
            };
        }
    }

    // Begins a turn of writing, unless another thread has it or nothing waits.
    fn begin<R: Wait>(&self, rt: &R) -> Option<ReplyQueue> {
        self.waiting.lock(rt).begin()
    }

    // Takes what other threads were to send meanwhile. If there is nothing, ends the turn.
    fn go_on<R: Wait>(&self, rt: &R, written: ReplyQueue) -> Option<ReplyQueue> {
        self.waiting.lock(rt).go_on(written)
    }

    // Leaves the turn, and what is left, to a thread that writes late. If there is no memory for that, closes the connection: under the
    // lock, so that no thread writes what stands behind missing bytes.
    fn leave<R: Wait>(&self, rt: &R, left: ReplyQueue) {
        let mut waiting = self.waiting.lock(rt);
        if waiting.leave(left).is_err() {
            self.close();
        }
    }

    // Ends the turn on a connection that failed: closes it, and drops what was taken and all that waits.
    fn give_up<R: Wait>(&self, rt: &R, taken: ReplyQueue) {
        self.close();
        let mut taken = taken;
        let dropped = self.waiting.lock(rt).give_up();
        self.places.free(rt, taken.clear().saturating_add(dropped));
    }

    /// Writes what its connection says to the client, after the replies that wait.
    pub(crate) fn say<R: Wait + Clock>(&self, rt: &R, sayings: Sayings) {
        let mut waiting = self.waiting.lock(rt);
        if waiting.say(sayings).is_err() {
            self.close();
        }
        drop(waiting);
        self.send_held(rt);
    }

    /// Returns whether replies were left to a thread that writes late.
    pub(crate) fn is_left<R: Wait>(&self, rt: &R) -> bool {
        self.waiting.lock(rt).is_left()
    }

    /// Writes the replies that were left to a thread that writes late, which calls this, until there are none, and frees the places of
    /// their requests. If the client is too slow or the connection fails, closes it and drops them.
    pub(crate) fn send_late<R: Wait + Clock>(&self, rt: &R) {
        for _ in rt.forever() {
            let Some(mut taken) = self.take_late(rt) else {
                break;
            };
            if self.write(rt, &mut taken, PATIENCE_MS) != Outcome::Done {
                self.close();
            }
            self.places.free(rt, taken.clear());
        }
    }

    // Takes all that was left. If nothing waits, lets any thread write again.
    fn take_late<R: Wait>(&self, rt: &R) -> Option<ReplyQueue> {
        self.waiting.lock(rt).take_late()
    }

    // Writes what waits, unless the connection is closed.
    fn write<R: Wait + Clock>(&self, rt: &R, outbox: &mut ReplyQueue, ms_per_mib: u16) -> Outcome {
        if self.is_closed() {
            return Outcome::Failed;
        }
        outbox.write(rt, &self.stream, ms_per_mib)
    }

    /// Takes `count` places for a request whose reply may wait. Returns whether they were free, or became so in a moment if `waits`.
    pub(crate) fn take_places<R: Wait + Clock>(&self, rt: &R, count: u32, waits: bool) -> bool {
        if waits {
            self.places.take(rt, count)
        } else {
            self.places.take_now(rt, count)
        }
    }

    /// Waits until no request is under way. Meanwhile writes what was left to a thread that writes late, which calls this.
    pub(crate) fn wait_for_requests<R: Wait + Clock>(&self, rt: &R) {
        for _ in rt.forever() {
            if self.places.take(rt, PLACES) {
                break;
            }
            self.send_late(rt);
        }
    }

    /// Waits until all replies are written or the connection is closed: a thread of the session may still be writing the last ones.
    /// Meanwhile writes what was left to a thread that writes late, which calls this.
    pub(crate) fn wait_for_replies<R: Wait + Clock>(&self, rt: &R) {
        for _ in rt.forever() {
            self.send_held(rt);
            self.send_late(rt);
            if self.is_closed() || self.is_at_rest(rt) {
                break;
            }
            thread::sleep(rt, Duration::from_millis(WRITER_LOOK_MS));
        }
    }

    /// Sends what is held. Returns whether all replies are written then: if another thread still writes some, waits a moment for it.
    pub(crate) fn has_sent_all<R: Wait + Clock>(&self, rt: &R) -> bool {
        self.send_held(rt);
        let is_at_rest = self.is_at_rest(rt);
        if !is_at_rest {
            thread::sleep(rt, Duration::from_millis(WRITER_LOOK_MS));
        }
        is_at_rest
    }

    // Returns whether nothing waits to be written, and no thread writes.
    fn is_at_rest<R: Wait>(&self, rt: &R) -> bool {
        self.waiting.lock(rt).is_at_rest()
    }

    /// Returns whether the connection is closed, so that no reply is written.
    pub(crate) fn is_closed(&self) -> bool {
        self.is_closed.load(Ordering::SeqCst)
    }

    /// Reads what the client has sent.
    pub(crate) fn read(&self, buffer: &mut [u8]) -> io::Result<usize>
        ensures bound { ReadsAtMost result buffer.new }
    {
        self.stream.read_some(buffer)
    }

    /// Ends the connection once all replies are written. For a thread that writes late.
    pub(crate) fn end<R: Wait + Clock>(&self, rt: &R) {
        if !self.is_closed() {
            let _ = self.linger(rt);
        }
        self.close();
    }

    // Says that no further reply comes, and discards what the client still sends, until it ends its side or has had its time.
    // The system resets a socket that is closed with unread input, and drops the replies that the client has not read.
    fn linger<R: Wait + Clock>(&self, rt: &R) -> io::Result<()> {
        self.stream.shutdown(Shutdown::Write)?;
        let start = Instant::now(rt)?;
        let mut buffer = [0u8; DISCARDED_BYTES];
        for _ in rt.forever() {
            match self.read(&mut buffer) {
                Ok(0) => break,
                Ok(_) => {}
                Err(error) if is_passing(error.kind()) => {}
                Err(error) => return Err(error),
            }
            if start.elapsed(rt)? >= Duration::from_secs(LINGER_S) {
                break;
            }
        }
        Ok(())
    }

    /// Closes the connection, both ways.
    pub(crate) fn close(&self) {
        self.is_closed.store(true, Ordering::SeqCst);
        let _ = self.stream.shutdown(Shutdown::Both);
    }
}
