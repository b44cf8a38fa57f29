//! The bytes of a reply.
ghost use Rattle.std.specs.Prelude.{◌≡◌, ◌≤◌, ◌++◌, [], if◌then◌else◌, true, length, replicate, vec_len, IfErr, IfOk};
ghost use Rattle.nbd.specs.Chunks.{chunk_spelling, rest_bytes};
ghost use Rattle.nbd.specs.Replies.{reply_spelling};
ghost use Rattle.nbd.specs.declared.errno.Errno.TheVariants as errno;
ghost use Rattle.serve_requests.specs.Extents.{AreExtents};
ghost use Rattle.serve_requests.specs.Reading.{IsPortionSpelled, begins_reply, portion};
ghost use Rattle.serve_requests.specs.Told.{IsDataTold, IsStatusTold, failure_spelling, is_in_chunk, success_spelling};

use crate::reading::Reading;
use blocks::are_zeros;
use nbd::{Body, Chunk, Errno, Extent, FixedPart, NbdCommand, Reply, Request, spelled_failure};
use std::alloc::Global;
use std::marker::Model;

/// The bytes of a reply: those before its data, and the data, which are not copied.
#[derive(Debug, Drop)]
pub(crate) struct ReplyBytes {
    head: FixedPart,
    data: Vec<u8>,
}

impl Model for ReplyBytes {
    ghost use Rattle.std.specs.Prelude.{ℕ, List, ◌++◌};

    ghost Value = { List ℕ };

    ghost view = { λ r. r.head ++ r.data.items };
}

impl ReplyBytes {
    /// Spells the reply to a request that is done and has no data.
    pub(crate) fn without_data(alloc: Global, request: &Request) -> ReplyBytes
        ensures { result ≡ success_spelling request.now }
    {
        ReplyBytes {
            head: header(request, None),
            data: Vec::new(alloc),
        }
    }

    /// Spells the reply to a READ that is done, with its data: after a header, or where replies are structured in one chunk. Zeros are
    /// told there, and not sent. `NoMemory` is the only error.
    #[tactic(auto, unfolding(nbd::specs::Chunks::rest_bytes))]
    pub(crate) fn of_data(
        alloc: Global,
        request: &Request,
        found: Vec<u8>,
    ) -> Result<ReplyBytes, Errno>
        requires whole { vec_len found ≡ request.now.length }
        requires few { request.now.length ≤ 33554432 }
        ensures told { IfOk result (λ reply. IsDataTold request.now.terms.structured request.now found.items reply) }
        ensures refused { IfErr result (λ e. e ≡ errno.NoMemory) }
    {
        if !request.terms().structured {
            return Ok(ReplyBytes {
                head: header(request, None),
                data: found,
            });
        }
        if are_zeros(found.as_slice()) {
            let hole = Body::Hole(request.offset(), request.length());
            return ReplyBytes::of_chunk(alloc, request.cookie(), true, hole);
        }
        let data = Body::Data(request.offset(), found);
        ReplyBytes::of_chunk(alloc, request.cookie(), true, data)
    }

    /// Spells no bytes.
    pub(crate) fn nothing(alloc: Global) -> ReplyBytes
        ensures { result ≡ [] }
    {
        ReplyBytes {
            head: FixedPart::new(),
            data: Vec::new(alloc),
        }
    }

    /// Spells the next portion of a READ, with these bytes of the device. `NoMemory` is the only error.
    #[tactic(auto, unfolding(nbd::specs::Chunks::rest_bytes))]
    pub(crate) fn of_portion(
        alloc: Global,
        reading: &Reading,
        found: Vec<u8>,
    ) -> Result<ReplyBytes, Errno>
        requires whole { vec_len found ≡ portion reading.now }
        ensures told { IfOk result (λ reply. IsPortionSpelled reading.now.request.terms.structured reading.now found.items reply) }
        ensures refused { IfErr result (λ e. e ≡ errno.NoMemory) }
    {
        if !reading.is_in_chunks() {
            return Ok(ReplyBytes {
                head: head_of(reading),
                data: found,
            });
        }
        let cookie = reading.request().cookie();
        let is_last = reading.is_last();
        if are_zeros(found.as_slice()) {
            let hole = Body::Hole(reading.at(), reading.portion());
            return ReplyBytes::of_chunk(alloc, cookie, is_last, hole);
        }
        let data = Body::Data(reading.at(), found);
        ReplyBytes::of_chunk(alloc, cookie, is_last, data)
    }

    /// Spells the reply to a BLOCK_STATUS that is done. `NoMemory` is the only error.
    #[tactic(auto, using(nbd::proofs::Spelling::extents_length), unfolding(nbd::specs::Chunks::rest_bytes))]
    pub(crate) fn of_extents(
        alloc: Global,
        request: &Request,
        extents: Vec<Extent>,
    ) -> Result<ReplyBytes, Errno>
        requires are { AreExtents request.now extents.items }
        requires few { vec_len extents ≤ 1024 }
        ensures told { IfOk result (IsStatusTold request.now) }
        ensures refused { IfErr result (λ e. e ≡ errno.NoMemory) }
    {
        ReplyBytes::of_chunk(alloc, request.cookie(), true, Body::Extents(extents))
    }

    // Spells a chunk of a reply.
    fn of_chunk(alloc: Global, cookie: u64, is_last: bool, body: Body) -> Result<ReplyBytes, Errno>
        requires { length (rest_bytes body) ≤ 33554432 }
        ensures chunk { IfOk result (λ reply. reply
            ≡ chunk_spelling (record { cookie = cookie; is_last = is_last; body = body })) }
        ensures refused { IfErr result (λ e. e ≡ errno.NoMemory) }
    {
        let chunk = Chunk {
            cookie,
            is_last,
            body,
        };
        match chunk.into_parts(alloc) {
            Ok((head, data)) => Ok(ReplyBytes { head, data }),
            Err(_) => Err(Errno::NoMemory),
        }
    }

    /// Spells the reply to a request that failed.
    pub(crate) fn of_failure(alloc: Global, request: &Request, errno: Errno) -> ReplyBytes
        ensures { result ≡ failure_spelling request.now errno }
    {
        let head = if is_in_chunk(request) {
            spelled_failure(request.cookie(), errno)
        } else {
            header(request, Some(errno))
        };
        ReplyBytes {
            head,
            data: Vec::new(alloc),
        }
    }

    /// Returns the bytes before the data, and the data.
    pub(crate) fn into_parts(self) -> (FixedPart, Vec<u8>)
        ensures { result.0 ++ result.1.items ≡ self }
    {
        let ReplyBytes { head, data } = self;
        (head, data)
    }
}

// Returns what stands before the bytes of a portion that is in no chunk: the header of the reply, if the portion begins it.
fn head_of(reading: &Reading) -> FixedPart
    ensures { result ≡ (if begins_reply reading.now then success_spelling reading.now.request else []) }
{
    if reading.begins_reply() {
        header(reading.request(), None)
    } else {
        FixedPart::new()
    }
}

// Returns the header of a simple reply.
fn header(request: &Request, error: Option<Errno>) -> FixedPart
    ensures { result ≡ reply_spelling (record { cookie = request.now.cookie; error = error }) }
{
    let reply = Reply {
        cookie: request.cookie(),
        error,
    };
    reply.encode()
}

// Returns whether the reply to a request comes in a chunk.
fn is_in_chunk(request: &Request) -> bool
    ensures { result ≡ is_in_chunk request.now }
{
    match request.command() {
        NbdCommand::Read => request.terms().structured,
        NbdCommand::BlockStatus => true,
        NbdCommand::Write
        | NbdCommand::Disconnect
        | NbdCommand::Flush
        | NbdCommand::Trim
        | NbdCommand::WriteZeroes => false,
    }
}
