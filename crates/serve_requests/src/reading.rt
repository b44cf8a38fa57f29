//! A READ whose reply is told in portions.
ghost use Rattle.std.specs.Prelude.{◌≡◌, ◌+◌, ◌<◌, ◌≤◌, false, IfErr, IfOk, is_ok, true};
ghost use Rattle.nbd.specs.Requested.{is_unfragmented};
ghost use Rattle.nbd.specs.declared.command.NbdCommand.TheVariants as command;
ghost use Rattle.serve_requests.specs.Reading.{after, begins_reply, ends_reply, is_beyond_error, is_last, portion};

use crate::perform::MAX_READ_BYTES;
use nbd::{NbdCommand, Request};
use std::marker::Model;

/// A portion ends at a multiple of these bytes of the device, or with its READ: 1 MiB.
const PORTION_BYTES: u64 = 1_048_576;

/// A READ whose reply is told in portions, and how many of its bytes are told. [`Reading::begin`] alone makes one, from the request, and
/// `Requests::read_on` consumes it, so each byte is told once. Invariant: some of its bytes are not told yet, if it asks for any, and it asks
/// for at most 32 MiB.
#[derive(Debug, Drop)]
pub struct Reading {
    request: Request,
    told: u32,
}

impl Model for Reading {
    ghost use Rattle.std.specs.Prelude.{◌≡◌, ◌+◌, ◌<◌, ◌≤◌, ◌^◌};
    ghost use Rattle.nbd.specs.declared.command.NbdCommand.TheVariants as command;
    ghost use Rattle.serve_requests.specs.Reading.{ReadingState};

    ghost Value = { ReadingState };

    ghost view = { λ r. record { request = r.request; told = r.told } };

    ghost invariant = { λ r. (r.request.command ≡ command.Read) × (r.told ≤ r.request.length) × (0 < r.request.length → r.told < r.request.length)
        × (r.request.length ≤ 33554432) × (r.request.offset + r.request.length < 2 ^ 64) };
}

impl Reading {
    /// Begins to tell a READ in portions. Gives back any other request, and a READ that asks for its data in one chunk (DF) or for more than
    /// 32 MiB.
    pub fn begin(request: Request) -> Result<Reading, Request>
        ensures begun { IfOk result (λ reading. reading ≡ record { request = request; told = 0 }) }
        ensures back { IfErr result (λ back. back ≡ request) }
        ensures which { request.command ≡ command.Read → is_unfragmented request ≡ false → request.length ≤ 33554432 → is_ok result ≡ true }
        ensures whole { request.command ≡ command.Read → is_unfragmented request ≡ true → is_ok result ≡ false }
    {
        let is_told = request.command() == NbdCommand::Read
            && !request.is_unfragmented()
            && request.length() <= MAX_READ_BYTES;
        if is_told {
            Ok(Reading { request, told: 0 })
        } else {
            Err(request)
        }
    }

    /// Returns the request.
    pub fn request(&self) -> &Request
        ensures { result.now ≡ self.now.request }
    {
        &self.request
    }

    /// Ends the telling, and returns the request.
    pub(crate) fn into_request(self) -> Request
        ensures request { result ≡ self.request }
        ensures read { result.command ≡ command.Read }
    {
        let Reading { request, .. } = self;
        request
    }

    /// Returns the byte of the device with which the next portion begins.
    pub(crate) fn at(&self) -> u64
        ensures { result ≡ self.now.request.offset + self.now.told }
    {
        self.request.offset() + u64::from(self.told)
    }

    /// Returns how many bytes the next portion has: at most those that are left, and one at least if any are.
    pub(crate) fn portion(&self) -> u32
        ensures portion { result ≡ portion self.now }
        ensures left { self.now.told + result ≤ self.now.request.length }
        ensures few { result ≤ 1048576 }
    {
        let left = u64::from(self.request.length() - self.told);
        left.min(PORTION_BYTES - self.at() % PORTION_BYTES) as u32
    }

    /// Returns whether the next portion is the last one.
    pub(crate) fn is_last(&self) -> bool
        ensures { result ≡ is_last self.now }
    {
        self.told + self.portion() == self.request.length()
    }

    /// Returns the same READ once its next portion is told.
    pub(crate) fn after(self) -> Reading
        requires { is_last self ≡ false }
        ensures { result ≡ after self }
    {
        let told = self.told + self.portion();
        let Reading { request, .. } = self;
        Reading { request, told }
    }

    /// Returns whether each portion is a chunk. Else they follow one another behind the header of the reply.
    pub(crate) fn is_in_chunks(&self) -> bool
        ensures { result ≡ self.now.request.terms.structured }
    {
        self.request.terms().structured
    }

    /// Returns whether the next portion begins the reply, or is a chunk of it.
    pub(crate) fn begins_reply(&self) -> bool
        ensures { result ≡ begins_reply self.now }
    {
        self.is_in_chunks() || self.told == 0
    }

    /// Returns whether the next portion ends the reply, or is a chunk of it.
    pub(crate) fn ends_reply(&self) -> bool
        ensures { result ≡ ends_reply self.now }
    {
        self.is_in_chunks() || self.is_last()
    }

    /// Returns whether no error can be told any more: the header said that there is none, and the bytes behind it are in no chunk.
    pub(crate) fn is_beyond_error(&self) -> bool
        ensures { result ≡ is_beyond_error self.now }
    {
        !self.is_in_chunks() && self.told != 0
    }
}
