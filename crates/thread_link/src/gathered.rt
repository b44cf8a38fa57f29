//! The buffer that gathers the bytes of a frame.
ghost use Rattle.std.specs.Prelude.{◌≡◌, ◌+◌, ◌<◌, ◌≤◌, ◌++◌, ◌↔◌, [], length, take, drop, true, IfOk, IfErr, OnOk, OnErr, MatchOption};
ghost use Rattle.packets.specs.Cutting.{IsCut};
ghost use Rattle.packets.specs.declared.cutting.TheConstants.{MAX_FRAME_BYTES};
ghost use Rattle.packets.specs.declared.fixed_part.TheConstants.{FIXED_BYTES};
ghost use Rattle.thread_link.specs.Carried.{BeginsNoCut};
ghost use Rattle.blocks.specs.declared.refusal.Refusal.TheVariants.{NoMemory};

use blocks::Refusal;
use bytes::{Bytes, BytesMut};
use packets::{FIXED_BYTES, Frame, MAX_FRAME_BYTES, cut_length};
use std::alloc::Global;
use std::marker::Model;
use std::sync::Wait;
use std::{mem, thread};

/// Bytes of a chunk: 1 MiB plus the longest frame, so that each frame that begins in the first MiB has room.
const CHUNK_BYTES: usize = 1_048_576 + MAX_FRAME_BYTES;

/// Bytes of a header.
const HEADER_BYTES: usize = 8;

/// The bytes of the next frame that arrived so far, in a chunk that frames are cut off.
#[derive(Drop)]
pub(crate) struct Gathered {
    alloc: Global,
    buffer: BytesMut,
    // The previous chunk. Its room can be used again once its frames are dropped.
    before: BytesMut,
    // Whether the chunk has room for the longest frame: a long frame that was cut off keeps its part of the chunk.
    is_ready: bool,
    // The frame's length in bytes once its header is there; before that, the length of a header.
    whole: usize,
}

impl Model for Gathered {
    ghost use Rattle.std.specs.Prelude.{◌≡◌, []};
    ghost use Rattle.thread_link.specs.Inward.{GatheredState, IsGathered};

    ghost Value = { GatheredState };

    ghost view = { λ g. record { bytes = g.buffer.items; is_ready = g.is_ready } };

    ghost invariant = { λ g. IsGathered g.buffer.items g.buffer.spare g.is_ready g.whole × (g.before.items ≡ []) };
}

impl Gathered {
    /// Creates an empty buffer with a chunk. `NoMemory` (7) if there is no memory for it.
    pub(crate) fn new(alloc: Global) -> Result<Gathered, Refusal>
        ensures empty { IfOk result (λ g. g ≡ record { bytes = []; is_ready = true }) }
        ensures refused { IfErr result (λ e. e ≡ NoMemory) }
    {
        let mut buffer = BytesMut::new(alloc);
        renew(&mut buffer, alloc)?;
        Ok(Gathered {
            alloc,
            buffer,
            before: BytesMut::new(alloc),
            is_ready: true,
            whole: HEADER_BYTES,
        })
    }

    /// Makes sure of room for the longest frame: if the chunk has none, goes on in the previous chunk or in a new one.
    /// `NoMemory` (7) if there is no memory for that.
    pub(crate) fn ready(&mut self) -> Result<(), Refusal>
        ensures ready { OnOk result (self.new ≡ record self.old { is_ready = true }) }
        ensures unchanged { OnErr result (self.new ≡ self.old) }
        ensures refused { IfErr result (λ e. e ≡ NoMemory) }
    {
        if !self.is_ready {
            renew(&mut self.before, self.alloc)?;
            mem::swap(&mut self.buffer, &mut self.before);
            self.is_ready = true;
        }
        Ok(())
    }

    /// Returns whether no bytes are in hand.
    #[inline]
    pub(crate) fn is_empty(&self) -> bool
        ensures { result ≡ true ↔ self.now.bytes ≡ [] }
    {
        self.buffer.is_empty()
    }

    /// Drops the bytes. Takes no memory.
    pub(crate) fn clear(&mut self)
        ensures { self.new ≡ record self.old { bytes = [] } }
    {
        self.buffer.clear();
        self.whole = HEADER_BYTES;
    }

    /// Appends as many of these bytes as the frame lacks, and returns how many. Takes no memory.
    pub(crate) fn put(&mut self, bytes: &[u8]) -> usize
        requires ready { self.old.is_ready ≡ true }
        ensures within { result ≤ length bytes.now }
        ensures put { self.new ≡ record self.old { bytes = self.old.bytes ++ take result bytes.now } }
        // Some bytes remain only if the frame is whole.
        ensures all { BeginsNoCut self.new.bytes → result ≡ length bytes.now }
    {
        let head = self.put_header(bytes);
        if self.buffer.len() < HEADER_BYTES {
            return head;
        }
        head + self.put_payload(&bytes[head..])
    }

    /// Appends as many of the bytes in two parts as the frame lacks, and returns how many. Takes no memory.
    pub(crate) fn put_parts(&mut self, first: &[u8], second: &[u8]) -> usize
        requires ready { self.old.is_ready ≡ true }
        ensures within { result ≤ length (first.now ++ second.now) }
        ensures put { self.new ≡ record self.old { bytes = self.old.bytes ++ take result (first.now ++ second.now) } }
        // Some bytes remain only if the frame is whole.
        ensures all { BeginsNoCut self.new.bytes → result ≡ length (first.now ++ second.now) }
    {
        let used = self.put(first);
        if used < first.len() {
            return used;
        }
        used + self.put(second)
    }

    /// Appends the bytes that the header lacks, and returns how many.
    fn put_header(&mut self, bytes: &[u8]) -> usize
        requires ready { self.old.is_ready ≡ true }
        ensures within { result ≤ length bytes.now }
        ensures put { self.new ≡ record self.old { bytes = self.old.bytes ++ take result bytes.now } }
        ensures all { length self.new.bytes < 8 → result ≡ length bytes.now }
    {
        let missing = HEADER_BYTES.saturating_sub(self.buffer.len());
        if missing == 0 {
            return 0;
        }
        let taken = missing.min(bytes.len());
        self.buffer.extend_reserved(&bytes[..taken]);
        if taken == missing {
            self.whole = cut_length(self.buffer.as_slice());
        }
        taken
    }

    /// Appends the bytes that the payload lacks, and returns how many.
    fn put_payload(&mut self, bytes: &[u8]) -> usize
        requires ready { self.old.is_ready ≡ true }
        requires headed { 8 ≤ length self.old.bytes }
        ensures within { result ≤ length bytes.now }
        ensures put { self.new ≡ record self.old { bytes = self.old.bytes ++ take result bytes.now } }
        ensures all { BeginsNoCut self.new.bytes → result ≡ length bytes.now }
    {
        let taken = (self.whole - self.buffer.len()).min(bytes.len());
        self.buffer.extend_reserved(&bytes[..taken]);
        taken
    }

    /// Cuts the frame off the bytes if it is whole. A long frame shares the chunk. Takes no memory.
    pub(crate) fn cut<R: Wait>(&mut self, rt: &R) -> Option<Frame>
        ensures { MatchOption result ((self.new ≡ self.old) × BeginsNoCut self.old.bytes)
            (λ frame. IsCut frame × (frame ≡ self.old.bytes) × (self.new.bytes ≡ [])
            × (length frame ≤ FIXED_BYTES → self.new.is_ready ≡ self.old.is_ready)) }
    {
        if self.buffer.len() < self.whole {
            return None;
        }
        self.whole = HEADER_BYTES;
        if self.buffer.len() <= FIXED_BYTES {
            let frame = Frame::inline(self.buffer.as_slice());
            self.buffer.clear();
            return Some(frame);
        }
        let bytes = frozen(rt, &mut self.buffer);
        self.is_ready = MAX_FRAME_BYTES <= self.buffer.capacity();
        Some(Frame::new(bytes))
    }
}

/// Gives an empty chunk room for the longest frame, and for more. `NoMemory` (7) if there is no memory for it.
fn renew(chunk: &mut BytesMut, alloc: Global) -> Result<(), Refusal>
    requires { chunk.old.items ≡ [] }
    ensures empty { chunk.new.items ≡ [] }
    ensures room { OnOk result (MAX_FRAME_BYTES ≤ chunk.new.spare) }
    ensures refused { IfErr result (λ e. e ≡ NoMemory) }
{
    widen(chunk, alloc)?;
    count_owners(chunk)
}

/// Gives an empty chunk the room of its whole block if no frame shares the block any more, or else that of a new block.
fn widen(chunk: &mut BytesMut, alloc: Global) -> Result<(), Refusal>
    requires { chunk.old.items ≡ [] }
    ensures empty { chunk.new.items ≡ [] }
    ensures room { OnOk result (MAX_FRAME_BYTES < chunk.new.spare) }
    ensures refused { IfErr result (λ e. e ≡ NoMemory) }
{
    if chunk.try_reclaim(CHUNK_BYTES + 1) {
        return Ok(());
    }
    *chunk = BytesMut::with_capacity(alloc, CHUNK_BYTES + 1)?;
    Ok(())
}

/// Makes the block of an empty chunk count its owners, so that frames can be cut off it later without memory. Does so
/// by a split of one byte.
fn count_owners(chunk: &mut BytesMut) -> Result<(), Refusal>
    requires empty { chunk.old.items ≡ [] }
    requires room { 0 < chunk.old.spare }
    ensures empty { chunk.new.items ≡ [] }
    ensures room { OnOk result (chunk.new.spare + 1 ≡ chunk.old.spare) }
    ensures refused { IfErr result (λ e. e ≡ NoMemory) }
{
    chunk.advance_mut(1);
    if let Err(error) = chunk.split_to(1) {
        chunk.clear();
        return Err(error.into());
    }
    Ok(())
}

/// Cuts all bytes off a chunk whose block counts its owners. That needs no memory, but no contract of the chunk says
/// so: hence the call tries again if it is refused.
fn frozen<R: Wait>(rt: &R, chunk: &mut BytesMut) -> Bytes
    ensures bytes { result ≡ chunk.old.items }
    ensures rest { chunk.new.items ≡ [] }
{
    for _ in rt.forever() {
        if let Ok(bytes) = chunk.freeze_to(chunk.len()) {
            return bytes;
        }
        thread::yield_now();
    }
    unreachable!()
}
