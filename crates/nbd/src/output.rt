//! The output of a connection.
ghost use Rattle.std.specs.Prelude.{◌≡◌, ◌++◌, [], IfErr, OnErr, OnOk};
ghost use Rattle.blocks.specs.declared.refusal.Refusal.TheVariants.{NoMemory};
ghost use Rattle.nbd.specs.Steps.{made_bytes, made_requests};

use crate::chunk::spelled_failure;
use crate::step::Made;
use crate::{Request, Sayings};
use blocks::Refusal;
use std::alloc::Global;
use std::marker::Model;

/// The output of a connection: the bytes to send back, and the requests to serve, each in their order. The
/// order between the two is free, since replies may come in any order (NBD protocol, "Ordering of messages
/// and writes"). [`Connection::feed`](crate::Connection::feed) alone makes one.
#[derive(Drop)]
pub struct Output {
    of: u64,
    bytes: Vec<u8>,
    requests: Vec<Request>,
}

impl Model for Output {
    ghost use Rattle.nbd.specs.Outputs.{OutputState};

    ghost Value = { OutputState };

    ghost view = { λ o. record { of = o.of; bytes = o.bytes.items; requests = o.requests.items } };
}

impl Output {
    /// Creates an empty output of the connection with the number `of`. Takes no memory yet.
    pub(crate) fn new(alloc: Global, of: u64) -> Output
        ensures { result ≡ record { of = of; bytes = []; requests = [] } }
    {
        Output {
            of,
            bytes: Vec::new(alloc),
            requests: Vec::new(alloc),
        }
    }

    /// Returns what to send back to the client, and the requests to serve.
    pub fn into_parts(self) -> (Sayings, Vec<Request>)
        ensures of { result.0.of ≡ self.of }
        ensures bytes { result.0.bytes ≡ self.bytes }
        ensures requests { result.1.items ≡ self.requests }
    {
        let Output {
            of,
            bytes,
            requests,
        } = self;
        (Sayings::new(of, bytes), requests)
    }

    /// Appends the output of a step. `NoMemory` (7), the only refusal, leaves all as it was.
    pub(crate) fn put(&mut self, made: Made) -> Result<(), Refusal>
        ensures of { self.new.of ≡ self.old.of }
        ensures bytes { OnOk result (self.new.bytes ≡ self.old.bytes ++ made_bytes made) }
        ensures requests { OnOk result (self.new.requests ≡ self.old.requests ++ made_requests made) }
        ensures same_bytes { OnErr result (self.new.bytes ≡ self.old.bytes) }
        ensures same_requests { OnErr result (self.new.requests ≡ self.old.requests) }
        ensures refused { IfErr result (λ e. e ≡ NoMemory) }
    {
        match made {
            Made::Nothing => {}
            Made::Bytes(bytes) => self.bytes.extend_from_slice(bytes.as_slice())?,
            Made::Reply(reply) => self.bytes.extend_from_slice(reply.encode().as_slice())?,
            Made::Failure(cookie, errno) => self
                .bytes
                .extend_from_slice(spelled_failure(cookie, errno).as_slice())?,
            Made::Request(request) => self.requests.push(request)?,
        }
        Ok(())
    }
}
