//! The bytes that wait to be written to a client.
ghost use Rattle.std.specs.Prelude.{◌≡◌, ◌++◌, [], IfOk, OnOk};

use crate::piece::Piece;
use crate::timed_writer::TimedWriter;
use crate::{ClientStream, Outcome};
use nbd::Sayings;
use serve_requests::Answer;
use std::alloc::{AllocError, Global};
use std::marker::Model;
use std::mem;
use std::sync::Wait;
use std::time::Clock;

/// The most bytes of replies that wait for others, so that they are sent together.
const MOST_HELD: usize = 64 * 1024;

/// Why nothing was appended.
#[derive(Clone, Copy, Debug, PartialEq, Eq)]
pub enum QueueFault {
    /// There was no memory.
    NoMemory,
    /// It is for another client.
    OfAnother,
}

impl From<AllocError> for QueueFault {
    fn from(_: AllocError) -> QueueFault {
        QueueFault::NoMemory
    }
}

/// The bytes that wait to be written to a client, in their order, and the places of the requests that they answer. They come from
/// answers and from sayings of the client's own connection, and from nothing else.
#[derive(Drop)]
pub struct ReplyQueue {
    alloc: Global,
    // The client's number.
    of: u64,
    pieces: Vec<Piece>,
    bytes: usize,
    places: u32,
}

impl Model for ReplyQueue {
    ghost use Rattle.std.specs.Prelude.{ℕ, List, flat_map};

    ghost Value = { List ℕ };

    // The bytes that wait, one after another.
    ghost view = { λ q. flat_map (λ piece. piece) q.pieces.items };
}

impl ReplyQueue {
    /// Creates an empty outbox of the client with the number `of`. Takes no memory yet.
    pub fn new(alloc: Global, of: u64) -> ReplyQueue
        ensures { result ≡ [] }
    {
        ReplyQueue {
            alloc,
            of,
            pieces: Vec::new(alloc),
            bytes: 0,
            places: 0,
        }
    }

    /// Returns whether nothing waits.
    pub fn is_empty(&self) -> bool {
        self.bytes == 0 && self.places == 0
    }

    /// Returns whether more bytes wait than are held back, so that they are sent at once.
    pub fn is_full(&self) -> bool {
        self.bytes > MOST_HELD
    }

    /// Appends an answer, whose request has `places` places. Long data are not copied. `NoMemory` if there is no memory: bytes are
    /// missing then. `OfAnother` if the answer is for another client: nothing of it is there. In both cases the places count.
    pub fn put(&mut self, answer: Answer, places: u32) -> Result<(), QueueFault>
        ensures { OnOk result (self.new ≡ self.old ++ answer.spelled) }
    {
        self.places = self.places.saturating_add(places);
        if answer.of() != self.of {
            return Err(QueueFault::OfAnother);
        }
        let (head, data) = answer.into_parts();
        self.put_bytes(head.as_slice())?;
        self.put_data(data)?;
        Ok(())
    }

    /// Appends what the client's connection says. `NoMemory` and `OfAnother` as for `put`.
    pub fn say(&mut self, sayings: Sayings) -> Result<(), QueueFault>
        ensures { OnOk result (self.new ≡ self.old ++ sayings.bytes) }
    {
        if sayings.of() != self.of {
            return Err(QueueFault::OfAnother);
        }
        self.put_bytes(sayings.as_slice())?;
        Ok(())
    }

    /// Takes all that waits, and leaves nothing.
    pub fn take(&mut self) -> ReplyQueue
        ensures taken { result ≡ self.old }
        ensures none { self.new ≡ [] }
    {
        mem::replace(self, ReplyQueue::new(self.alloc, self.of))
    }

    /// Appends what waits in a newer outbox. If there is no memory, or that is another client's, its bytes are dropped, and only their
    /// number and the places count.
    pub fn append(&mut self, newer: ReplyQueue) -> Result<(), QueueFault>
        ensures { OnOk result (self.new ≡ self.old ++ newer) }
    {
        let ReplyQueue {
            of,
            pieces,
            bytes,
            places,
            ..
        } = newer;
        let mut pieces = pieces;
        self.bytes = self.bytes.saturating_add(bytes);
        self.places = self.places.saturating_add(places);
        if of != self.of {
            return Err(QueueFault::OfAnother);
        }
        self.pieces.append(&mut pieces)?;
        Ok(())
    }

    // Appends data. Those that are long are not copied.
    fn put_data(&mut self, data: Vec<u8>) -> Result<(), AllocError>
        ensures { OnOk result (self.new ≡ self.old ++ data.items) }
    {
        if data.len() <= MOST_HELD {
            return self.put_bytes(data.as_slice());
        }
        self.bytes = self.bytes.saturating_add(data.len());
        self.pieces.push(Piece::new(data))?;
        Ok(())
    }

    // Appends bytes to the last piece. If that is long, begins another.
    fn put_bytes(&mut self, bytes: &[u8]) -> Result<(), AllocError>
        ensures { OnOk result (self.new ≡ self.old ++ bytes.now) }
    {
        self.bytes = self.bytes.saturating_add(bytes.len());
        let mut last = self.take_last()?;
        last.append(bytes)?;
        self.pieces.push(last)?;
        Ok(())
    }

    // Takes the last piece out, if it is short, or returns an empty one.
    fn take_last(&mut self) -> Result<Piece, AllocError>
        ensures { IfOk result (λ last. self.old ≡ self.new ++ last) }
    {
        match self.pieces.pop() {
            Some(last) if last.len() <= MOST_HELD => Ok(last),
            Some(last) => {
                self.pieces.push(last)?;
                Ok(Piece::new(Vec::new(self.alloc)))
            }
            None => Ok(Piece::new(Vec::new(self.alloc))),
        }
    }

    /// Writes what waits to a client that has these milliseconds for each MiB that it begins.
    pub fn write<R: Wait + Clock>(
        &mut self,
        rt: &R,
        stream: &ClientStream,
        ms_per_mib: u16,
    ) -> Outcome {
        let Ok(mut writer) = TimedWriter::new(rt, stream, ms_per_mib) else {
            return Outcome::Failed;
        };
        for piece in self.pieces.iter_mut() {
            let outcome = writer.write(rt, piece);
            if outcome != Outcome::Done {
                return outcome;
            }
        }
        Outcome::Done
    }

    /// Drops all that waits, and keeps the room of the first piece, which is short. Returns the places of the requests.
    pub fn clear(&mut self) -> u32 {
        self.pieces.truncate(1);
        if let Some(first) = self.pieces.last_mut() {
            first.clear();
        }
        self.bytes = 0;
        mem::replace(&mut self.places, 0)
    }
}
