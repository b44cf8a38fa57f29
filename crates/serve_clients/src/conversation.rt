//! A client, with its connection and the requests that wait for a session.
use crate::client::Client;
use crate::long_read::LongRead;
use crate::payload_room::PayloadRoom;
use crate::request_budget::blocks_of;
use crate::service::Service;
use blocks::Refusal;
use nbd::{Connection, Errno, Export, NbdCommand, Request};
use std::alloc::Global;
use std::sync::{Arc, Wait};
use std::time::{Clock, Duration, Instant};

/// How long a client has for its handshake, in seconds: as long as QEMU's server gives it. Without a limit 256 connections that
/// ask for nothing would keep all other clients out.
const HANDSHAKE_S: u64 = 10;

/// A client, with its connection and the requests that it has sent and that no thread has begun. One thread has it at a time: one of a
/// session, or one that writes to it what it takes slowly. Between the two it waits in a channel, so that it outlasts the sessions.
#[derive(Drop)]
pub(crate) struct Conversation {
    pub(crate) client: Arc<Client, Global>,
    connection: Connection,
    // The last one first.
    requests: Vec<Request>,
    // The READs that the bytes that came last held.
    reads: usize,
    // A READ whose reply is told in portions, between two of them.
    long_read: Option<LongRead>,
    // The room that it has for the payload of a long WRITE.
    room: PayloadRoom,
    // Whether the server has greeted it, and when, if there is a clock: then its time for the handshake begins.
    is_greeted: bool,
    greeted: Option<Instant>,
}

impl Conversation {
    /// Creates a client of this device, which the server has not greeted.
    pub(crate) fn new(service: &Service, client: Arc<Client, Global>) -> Conversation {
        let alloc = service.alloc;
        let export = Export::new(String::new(alloc), service.blocks);
        let connection = Connection::new(alloc, export, client.number());
        Conversation {
            client,
            connection,
            requests: Vec::new(alloc),
            reads: 0,
            long_read: None,
            room: PayloadRoom::none(),
            is_greeted: false,
            greeted: None,
        }
    }

    /// Greets it, once.
    pub(crate) fn greet<R: Wait + Clock>(&mut self, rt: &R) -> Result<(), Refusal> {
        if !self.is_greeted {
            self.is_greeted = true;
            self.greeted = Instant::now(rt).ok();
            self.client.say(rt, self.connection.greet()?);
        }
        Ok(())
    }

    /// Returns whether its time is up: for the handshake, or for the payload that it has room for.
    pub(crate) fn is_late<R: Clock>(&self, rt: &R) -> bool {
        if self.room.is_overdue(rt) {
            return true;
        }
        let Some(Ok(elapsed)) = self.greeted.map(|greeted| greeted.elapsed(rt)) else {
            return false;
        };
        self.connection.is_negotiating() && elapsed >= Duration::from_secs(HANDSHAKE_S)
    }

    /// Takes bytes that it has sent, and writes to it what its connection says. There is no request left that came before.
    pub(crate) fn take<R: Wait + Clock>(&mut self, rt: &R, bytes: &[u8]) -> Result<(), Refusal> {
        self.room.note_bytes(rt);
        let (sayings, requests) = self.connection.feed(bytes)?.into_parts();
        if !sayings.as_slice().is_empty() {
            self.client.say(rt, sayings);
        }
        self.reads = requests
            .iter()
            .filter(|request| request.command() == NbdCommand::Read)
            .count();
        self.requests = requests;
        self.requests.reverse();
        Ok(())
    }

    /// Returns how many READs the bytes held that came last.
    pub(crate) fn reads(&self) -> usize {
        self.reads
    }

    /// Returns the blocks of the next request that no thread has begun.
    pub(crate) fn next_blocks(&self) -> Option<u32> {
        self.requests.last().map(|request| blocks_of(request))
    }

    /// Returns whether there is no request to do: none that no thread has begun, and no READ that is told in part.
    pub(crate) fn is_idle(&self) -> bool {
        self.requests.is_empty() && self.long_read.is_none()
    }

    /// Returns whether there is a READ that is told in part.
    pub(crate) fn is_telling(&self) -> bool {
        self.long_read.is_some()
    }

    /// Begins to tell the next request in portions, if it is a READ that may be told so. Returns whether it did.
    pub(crate) fn begin_long_read<R: Clock>(&mut self, rt: &R) -> Result<bool, Refusal> {
        let Some(request) = self.requests.pop() else {
            return Ok(false);
        };
        match LongRead::begin(rt, request) {
            Ok(long_read) => {
                self.long_read = Some(long_read);
                Ok(true)
            }
            Err(request) => {
                self.requests.push(request)?;
                Ok(false)
            }
        }
    }

    /// Takes the READ that is told in portions, if there is one.
    pub(crate) fn take_long_read(&mut self) -> Option<LongRead> {
        self.long_read.take()
    }

    /// Keeps what is left of a READ that is told in portions.
    pub(crate) fn keep_long_read(&mut self, rest: Option<LongRead>) {
        self.long_read = rest;
    }

    /// Returns whether there is room for what the client sends next: it waits for room a moment if that is the payload of a long WRITE.
    pub(crate) fn has_room<R: Wait + Clock>(&mut self, rt: &R, service: &Service) -> bool {
        self.room
            .take(rt, &service.payload_room, self.connection.payload_bytes())
    }

    /// Frees the room for a payload once its request is done.
    pub(crate) fn free_room<R: Wait>(&mut self, rt: &R, service: &Service) {
        self.room.free(rt, &service.payload_room);
    }

    /// Returns whether the client has room for a payload, and has sent nothing for so long that others may have it.
    pub(crate) fn has_stalled<R: Clock>(&self, rt: &R) -> bool {
        self.room.has_stalled(rt)
    }

    /// Returns the next request that no thread has begun.
    pub(crate) fn next(&self) -> Option<&Request> {
        self.requests.last()
    }

    /// Takes the next request.
    pub(crate) fn take_next(&mut self) -> Option<Request> {
        self.requests.pop()
    }

    /// Returns whether it sends no further request: it said so, or its bytes make no sense.
    pub(crate) fn has_ended(&self) -> bool {
        self.connection.is_closed() || self.client.is_closed()
    }

    /// Refuses all requests that no thread has begun, and ends the reply to a READ that is told in part, since the server ends (ESHUTDOWN).
    pub(crate) fn refuse_all<R: Wait + Clock>(&mut self, rt: &R, service: &Service) {
        if let Some(long_read) = self.long_read.take() {
            let answer = long_read.break_off(service, Errno::Shutdown);
            self.client.reply(rt, answer, 0);
        }
        for _ in 0..self.requests.len() {
            let Some(request) = self.requests.pop() else {
                break;
            };
            let refusal = service.requests.refuse(request, Errno::Shutdown);
            self.client.reply(rt, refusal, 0);
        }
        self.client.send_held(rt);
    }
}
