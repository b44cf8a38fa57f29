//! Chunks of a structured reply.
ghost use Rattle.std.specs.Prelude.{◌≡◌, ◌≤◌, ◌++◌, [], flat_map, length, IfErr, IfOk, OnOk};
ghost use Rattle.blocks.specs.declared.refusal.Refusal.TheVariants.{NoMemory};
ghost use Rattle.nbd.specs.Chunks.{chunk_spelling, extent_bytes, failed_chunk, header_spelling, rest_bytes};

use crate::Errno;
use blocks::Refusal;
use packets::{FixedPart, put_u16, put_u32, put_u64};
use std::alloc::Global;

/// NBD_STRUCTURED_REPLY_MAGIC, which begins each chunk.
const CHUNK_MAGIC: u32 = 0x668E_33EF;

/// NBD_REPLY_FLAG_DONE: the reply has no further chunk.
const FLAG_DONE: u16 = 1;

/// The types of the chunks.
const NONE: u16 = 0;

const OFFSET_DATA: u16 = 1;

const OFFSET_HOLE: u16 = 2;

const BLOCK_STATUS: u16 = 5;

const ERROR: u16 = 0x8001;

/// The identifier of the context `base:allocation`.
const ALLOCATION_ID: u32 = 1;

/// So many bytes of a device that have these flags of `base:allocation`.
#[derive(Clone, Copy, Debug, PartialEq, Eq)]
pub struct Extent {
    /// How many bytes.
    pub length: u32,
    /// NBD_STATE_HOLE (1) and NBD_STATE_ZERO (2).
    pub flags: u32,
}

/// What a chunk tells.
#[derive(Debug, Drop)]
pub enum Body {
    /// Nothing more.
    Nothing,
    /// These bytes of the device, from this byte on.
    Data(u64, Vec<u8>),
    /// So many zeros of the device, from this byte on.
    Hole(u64, u32),
    /// What the range of a BLOCK_STATUS is, from its front on.
    Extents(Vec<Extent>),
    /// The error of the request.
    Failed(Errno),
}

/// A chunk of a structured reply (NBD protocol, "Structured reply message").
#[derive(Debug, Drop)]
pub struct Chunk {
    /// The cookie of the request.
    pub cookie: u64,
    /// Whether it ends the reply.
    pub is_last: bool,
    /// What it tells.
    pub body: Body,
}

impl Chunk {
    /// Appends the bytes that spell the chunk. `NoMemory` (7), the only refusal, may leave a front of them.
    #[tactic(auto, unfolding(crate::specs::Chunks::rest_bytes))]
    pub fn put(&self, out: &mut Vec<u8>) -> Result<(), Refusal>
        requires { length (rest_bytes self.now.body) ≤ 33554432 }
        ensures put { OnOk result (out.new.items ≡ out.old.items ++ chunk_spelling self.now) }
        ensures refused { IfErr result (λ e. e ≡ NoMemory) }
    {
        out.extend_from_slice(self.head().as_slice())?;
        match &self.body {
            Body::Data(_, bytes) => out.extend_from_slice(bytes.as_slice())?,
            Body::Extents(extents) => put_extents(out, extents.as_slice())?,
            Body::Nothing | Body::Hole(..) | Body::Failed(_) => {}
        }
        Ok(())
    }

    /// Returns the bytes that spell the chunk, in two parts: those before its data or its extents, and these. Data are moved and not
    /// copied. `NoMemory` (7) is the only refusal.
    pub fn into_parts(self, alloc: Global) -> Result<(FixedPart, Vec<u8>), Refusal>
        requires { length (rest_bytes self.body) ≤ 33554432 }
        ensures parts { IfOk result (λ parts. parts.0 ++ parts.1.items ≡ chunk_spelling self) }
        ensures refused { IfErr result (λ e. e ≡ NoMemory) }
    {
        let head = self.head();
        let Chunk { body, .. } = self;
        let rest = rest_of(alloc, body)?;
        Ok((head, rest))
    }

    /// Returns the bytes of the chunk before its data or its extents, which follow them. A caller that has the data writes both, and
    /// copies none.
    #[tactic(auto, using(crate::proofs::Spelling::extents_length), unfolding(crate::specs::Chunks::chunk_spelling, crate::specs::Chunks::body_bytes, crate::specs::Chunks::rest_bytes))]
    pub fn head(&self) -> FixedPart
        requires { length (rest_bytes self.now.body) ≤ 33554432 }
        ensures { result ++ rest_bytes self.now.body ≡ chunk_spelling self.now }
    {
        let mut out = FixedPart::new();
        match &self.body {
            Body::Nothing => self.put_header(&mut out, NONE, 0),
            Body::Data(offset, bytes) => {
                self.put_header(&mut out, OFFSET_DATA, 8 + bytes.len() as u32);
                put_u64(&mut out, *offset);
            }
            Body::Hole(offset, length) => {
                self.put_header(&mut out, OFFSET_HOLE, 12);
                put_u64(&mut out, *offset);
                put_u32(&mut out, *length);
            }
            Body::Extents(extents) => {
                self.put_header(&mut out, BLOCK_STATUS, 4 + 8 * extents.len() as u32);
                put_u32(&mut out, ALLOCATION_ID);
            }
            Body::Failed(errno) => {
                self.put_header(&mut out, ERROR, 6);
                put_u32(&mut out, errno.number());
                put_u16(&mut out, 0);
            }
        }
        out
    }

    // Appends the header of a chunk of this type, which this many bytes follow.
    fn put_header(&self, out: &mut FixedPart, kind: u16, following: u32)
        requires { out.old ≡ [] }
        ensures spelled { out.new ≡ header_spelling self.now.cookie self.now.is_last kind following }
        ensures long { length out.new ≡ 20 }
    {
        put_u32(out, CHUNK_MAGIC);
        put_u16(out, if self.is_last { FLAG_DONE } else { 0 });
        put_u16(out, kind);
        put_u64(out, self.cookie);
        put_u32(out, following);
    }
}

// Returns the data or the extents of a chunk, as they are spelled.
#[tactic(auto, unfolding(crate::specs::Chunks::rest_bytes))]
fn rest_of(alloc: Global, body: Body) -> Result<Vec<u8>, Refusal>
    ensures rest { IfOk result (λ rest. rest.items ≡ rest_bytes body) }
    ensures refused { IfErr result (λ e. e ≡ NoMemory) }
{
    match body {
        Body::Data(_, bytes) => Ok(bytes),
        Body::Extents(extents) => {
            let mut rest = Vec::new(alloc);
            put_extents(&mut rest, extents.as_slice())?;
            Ok(rest)
        }
        Body::Nothing | Body::Hole(..) | Body::Failed(_) => Ok(Vec::new(alloc)),
    }
}

// Appends extents.
fn put_extents(out: &mut Vec<u8>, extents: &[Extent]) -> Result<(), Refusal>
    ensures put { OnOk result (out.new.items ≡ out.old.items ++ flat_map extent_bytes extents.now) }
    ensures refused { IfErr result (λ e. e ≡ NoMemory) }
{
    for extent in extents {
        let mut bytes = FixedPart::new();
        put_u32(&mut bytes, extent.length);
        put_u32(&mut bytes, extent.flags);
        out.extend_from_slice(bytes.as_slice())?;
    }
    Ok(())
}

/// Returns the bytes of the chunk that tells the error of a request with this cookie, and ends its reply.
#[tactic(auto, unfolding(crate::specs::Chunks::rest_bytes))]
pub fn spelled_failure(cookie: u64, errno: Errno) -> FixedPart
    ensures { result ≡ chunk_spelling (failed_chunk cookie errno) }
{
    let chunk = Chunk {
        cookie,
        is_last: true,
        body: Body::Failed(errno),
    };
    chunk.head()
}
