//! Accepted requests.
ghost use Rattle.std.specs.Prelude.{◌≡◌, ◌+◌, ◌<◌, ◌^◌, false, true, length, IfErr, IfOk};
ghost use Rattle.nbd.specs.declared.command.NbdCommand.TheVariants.{Write};
ghost use Rattle.nbd.specs.declared.errno.Errno.TheVariants as errno;
ghost use Rattle.nbd.specs.Requested.{has_fua, is_no_hole, is_unfragmented, wants_one};
ghost use Rattle.nbd.specs.Spans.{covering, places};
ghost use Rattle.nbd.specs.Steps.{request_with};

use crate::command::{FLAG_DF, FLAG_NO_HOLE, FLAG_REQ_ONE};
use crate::{Errno, NbdCommand, Pieces, Ranges, Reply, RequestHeader, Terms};
use bytes::Bytes;
use std::alloc::Global;
use std::marker::Model;

/// A request that the export accepted. [`Connection::feed`](crate::Connection::feed) alone makes one. It cannot be copied, and
/// [`Request::reply`] consumes it, so it gets at most one reply. Invariant: its range ends below 2^64, and a WRITE has as many bytes as it
/// is for, until they were taken.
#[derive(Debug, Drop)]
pub struct Request {
    of: u64,
    terms: Terms,
    command: NbdCommand,
    flags: u16,
    cookie: u64,
    offset: u64,
    count: u32,
    payload: Bytes,
    is_divided: bool,
}

impl Model for Request {
    ghost use Rattle.std.specs.Prelude.{◌≡◌, ◌+◌, ◌<◌, ◌^◌, length};
    ghost use Rattle.nbd.specs.Requested.{Requested};
    ghost use Rattle.nbd.specs.declared.command.NbdCommand.TheVariants.{Write};

    ghost Value = { Requested };

    ghost view = { λ r. record {
      of = r.of;
      terms = r.terms;
      command = r.command;
      flags = r.flags;
      cookie = r.cookie;
      offset = r.offset;
      length = r.count;
      payload = r.payload;
      is_divided = r.is_divided;
    } };

    ghost invariant = { λ r. (r.offset + r.count < 2 ^ 64)
        × (r.command ≡ Write → length r.payload ≡ r.count) };
}

impl Request {
    /// Creates the request of a header and its payload, on the connection with the number `of` and on these terms.
    pub(crate) fn with(
        of: u64,
        terms: Terms,
        command: NbdCommand,
        header: &RequestHeader,
        payload: Bytes,
    ) -> Request
        requires inside { header.now.offset + header.now.length < 2 ^ 64 }
        requires whole { command ≡ Write → length payload ≡ header.now.length }
        ensures { result ≡ request_with of terms command header.now payload }
    {
        Request {
            of,
            terms,
            command,
            flags: header.flags,
            cookie: header.cookie,
            offset: header.offset,
            count: header.length,
            payload,
            is_divided: false,
        }
    }

    /// Returns the number of the connection that it came over.
    pub fn of(&self) -> u64
        ensures { result ≡ self.now.of }
    {
        self.of
    }

    /// Returns what the handshake of its connection agreed.
    pub fn terms(&self) -> Terms
        ensures { result ≡ self.now.terms }
    {
        self.terms
    }

    /// Returns its command, never `Disconnect`.
    pub fn command(&self) -> NbdCommand
        ensures { result ≡ self.now.command }
    {
        self.command
    }

    /// Returns whether the client set FUA: the reply to a WRITE, TRIM or WRITE_ZEROES then waits until its data are on stable storage.
    /// With another command it means nothing.
    pub fn has_fua(&self) -> bool
        ensures { result ≡ has_fua self.now }
    {
        self.flags % 2 == 1
    }

    /// Returns whether the client set NO_HOLE: the zeros of a WRITE_ZEROES are to have room.
    pub fn is_no_hole(&self) -> bool
        ensures { result ≡ is_no_hole self.now }
    {
        self.flags & FLAG_NO_HOLE == FLAG_NO_HOLE
    }

    /// Returns whether the client set DF: the data of a READ are to come in one chunk.
    pub fn is_unfragmented(&self) -> bool
        ensures { result ≡ is_unfragmented self.now }
    {
        self.flags & FLAG_DF == FLAG_DF
    }

    /// Returns whether the client set REQ_ONE: a BLOCK_STATUS is to tell one extent.
    pub fn wants_one(&self) -> bool
        ensures { result ≡ wants_one self.now }
    {
        self.flags & FLAG_REQ_ONE == FLAG_REQ_ONE
    }

    /// Returns the client's name for it; its reply repeats it.
    pub fn cookie(&self) -> u64
        ensures { result ≡ self.now.cookie }
    {
        self.cookie
    }

    /// Returns the first byte of its range; 0 for a FLUSH.
    pub fn offset(&self) -> u64
        ensures { result ≡ self.now.offset }
    {
        self.offset
    }

    /// Returns the bytes of its range; 0 for a FLUSH.
    pub fn length(&self) -> u32
        ensures { result ≡ self.now.length }
    {
        self.count
    }

    /// Returns the data of a WRITE, one byte for each of its range; empty for any other command.
    pub fn payload(&self) -> &Bytes
        ensures { result.now ≡ self.now.payload }
    {
        &self.payload
    }

    /// Returns whether it was divided: whoever did it has its pieces.
    pub fn is_divided(&self) -> bool
        ensures { result ≡ self.now.is_divided }
    {
        self.is_divided
    }

    /// Divides what it writes into pieces: of a WRITE its payload, of a WRITE_ZEROES or of the whole blocks of a TRIM zeros, and of any
    /// other command none. A request has its pieces once. `NoMemory` is the only error.
    pub fn pieces(&mut self, alloc: Global) -> Result<Pieces, Errno>
        requires undivided { self.old.is_divided ≡ false }
        ensures pieces { IfOk result (λ left. left ≡ places self.old) }
        ensures divided { self.new ≡ record self.old { is_divided = true } }
        ensures refused { IfErr result (λ e. e ≡ errno.NoMemory) }
    {
        self.is_divided = true;
        match self.command {
            NbdCommand::Write => {
                let payload = self.payload.clone().map_err(|_| Errno::NoMemory)?;
                Ok(Pieces::of_payload(self.offset, self.count, payload))
            }
            NbdCommand::WriteZeroes => Pieces::of_zeros(alloc, self.offset, u64::from(self.count)),
            NbdCommand::Trim => Pieces::of_blocks_inside(alloc, self.offset, self.count),
            NbdCommand::Read
            | NbdCommand::Disconnect
            | NbdCommand::Flush
            | NbdCommand::BlockStatus => Ok(Pieces::none()),
        }
    }

    /// Returns the ranges of the blocks that have its bytes, in their order.
    pub fn ranges(&self) -> Ranges
        requires inside { self.now.offset + self.now.length < 2 ^ 64 }
        ensures { result ≡ covering self.now.offset self.now.length }
    {
        Ranges::covering(self.offset, self.count)
    }

    /// Returns the header of its reply. If a READ succeeded, its data follow.
    pub fn reply(self, error: Option<Errno>) -> Reply
        ensures cookie { result.cookie ≡ self.cookie }
        ensures error { result.error ≡ error }
    {
        Reply {
            cookie: self.cookie,
            error,
        }
    }
}
