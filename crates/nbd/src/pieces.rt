//! Dividing what a request writes.
ghost use Rattle.std.specs.Prelude.{◌≡◌, ◌+◌, ◌-◌, ◌<◌, ◌≤◌, ◌^◌, ◌∷◌, [], length, replicate, take, drop, Ok, None, IfErr, IfOk, IfSome, OnErr, OnOk};
ghost use Rattle.nbd.specs.Contents.{HasContents, bytes_left};
ghost use Rattle.nbd.specs.declared.errno.Errno.TheVariants as errno;
ghost use Rattle.nbd.specs.Spans.{bytes_in, places_of, span_length, spans, trimmed};

use crate::{Errno, Piece};
use blocks::{BLOCK_BYTES, EXTENT_BLOCKS, MAX_RANGE};
use bytes::Bytes;
use std::alloc::Global;
use std::marker::Model;

/// The bytes of a block.
const BLOCK: u64 = BLOCK_BYTES as u64;

/// What is left of the pieces of a request, in the order of their places: at most one within a block at each end, and between them ranges of
/// whole blocks that the device takes at once. [`Request::pieces`](crate::Request::pieces) alone makes it.
#[derive(Debug, Drop)]
pub struct Pieces {
    // The next byte of the device, and how many are left.
    at: u64,
    left: u64,
    contents: Contents,
}

/// The bytes of pieces. Pieces share the memory of either.
#[derive(Debug, Drop)]
enum Contents {
    /// All that are left.
    Payload(Bytes),
    /// Zeros, as many as the longest piece has.
    Zeros(Bytes),
}

impl Model for Pieces {
    ghost use Rattle.std.specs.Prelude.{List, ◌+◌, ◌<◌, ◌^◌};
    ghost use Rattle.device_parts.specs.Places.{Place};
    ghost use Rattle.nbd.specs.Contents.{HasContents, bytes_left};
    ghost use Rattle.nbd.specs.Spans.{places_of, spans};

    ghost Value = { List Place };

    ghost view = { λ p. places_of (spans p.at p.left) (bytes_left p.contents p.left) };

    ghost invariant = { λ p. (p.at + p.left < 2 ^ 64) × HasContents p.contents p.left };
}

impl Pieces {
    /// Returns no pieces.
    pub(crate) fn none() -> Pieces
        ensures { result ≡ [] }
    {
        Pieces {
            at: 0,
            left: 0,
            contents: Contents::Payload(Bytes::new()),
        }
    }

    /// Divides a payload of `count` bytes for the place that begins with the byte `offset` of the device.
    pub(crate) fn of_payload(offset: u64, count: u32, payload: Bytes) -> Pieces
        requires inside { offset + count < 2 ^ 64 }
        requires whole { length payload ≡ count }
        ensures { result ≡ places_of (spans offset count) payload }
    {
        Pieces {
            at: offset,
            left: u64::from(count),
            contents: Contents::Payload(payload),
        }
    }

    /// Divides `count` zeros for the place that begins with the byte `offset` of the device. `NoMemory` is the only error.
    pub(crate) fn of_zeros(alloc: Global, offset: u64, count: u64) -> Result<Pieces, Errno>
        requires { offset + count < 2 ^ 64 }
        ensures pieces { IfOk result (λ p. p ≡ places_of (spans offset count) (replicate count 0)) }
        ensures refused { IfErr result (λ e. e ≡ errno.NoMemory) }
    {
        let most = count.min(MAX_RANGE * BLOCK) as usize;
        let Ok(zeros) = Vec::from_elem(alloc, 0u8, most) else {
            return Err(Errno::NoMemory);
        };
        match Bytes::from_vec(zeros) {
            Ok(zeros) => Ok(Pieces {
                at: offset,
                left: count,
                contents: Contents::Zeros(zeros),
            }),
            Err(_) => Err(Errno::NoMemory),
        }
    }

    /// Divides zeros for the whole blocks inside these bytes. `NoMemory` is the only error.
    pub(crate) fn of_blocks_inside(alloc: Global, offset: u64, count: u32) -> Result<Pieces, Errno>
        requires { offset + count < 2 ^ 64 }
        ensures pieces { IfOk result (λ p. p
            ≡ places_of (trimmed offset count) (replicate (bytes_in (trimmed offset count)) 0)) }
        ensures refused { IfErr result (λ e. e ≡ errno.NoMemory) }
    {
        let first = offset.div_ceil(BLOCK);
        let end = (offset + u64::from(count)) / BLOCK;
        if end <= first {
            return Ok(Pieces::none());
        }
        Pieces::of_zeros(alloc, first * BLOCK, (end - first) * BLOCK)
    }

    /// Returns the next piece, `None` after the last. `NoMemory`, the only error, leaves all as it was.
    pub fn next(&mut self) -> Result<Option<Piece>, Errno>
        ensures front { IfOk result (λ piece. IfSome piece (λ p. self.old ≡ p ∷ self.new)) }
        ensures end { result ≡ Ok None → self.old ≡ [] }
        ensures kept { OnErr result (self.new ≡ self.old) }
        ensures refused { IfErr result (λ e. e ≡ errno.NoMemory) }
    {
        if self.left == 0 {
            return Ok(None);
        }
        let count = span_length(self.at, self.left);
        let bytes = self.contents.front(count, self.left)?;
        let piece = Piece::new(self.at / BLOCK, (self.at % BLOCK) as u32, bytes);
        self.at += count;
        self.left -= count;
        Ok(Some(piece))
    }
}

impl Contents {
    // Takes the next `count` bytes, of `left` that are left.
    fn front(&mut self, count: u64, left: u64) -> Result<Bytes, Errno>
        requires few { (count ≤ 131072) × (count ≤ left) }
        requires has { HasContents self.old left }
        ensures taken { IfOk result (λ bytes. bytes ≡ take count (bytes_left self.old left)) }
        ensures rest { OnOk result (bytes_left self.new (left - count) ≡ drop count (bytes_left self.old left)) }
        ensures still { OnOk result (HasContents self.new (left - count)) }
        ensures kept { OnErr result (self.new ≡ self.old) }
        ensures refused { IfErr result (λ e. e ≡ errno.NoMemory) }
    {
        // The number is there for the contract alone.
        let _ = left;
        let taken = match self {
            Contents::Payload(payload) => payload.split_to(count as usize),
            Contents::Zeros(zeros) => zeros.slice(..count as usize),
        };
        taken.map_err(|_| Errno::NoMemory)
    }
}

// Returns how many bytes the next of these pieces has, which have `left` together from the byte `at` of the device on: up to the end of
// its block, or a range of whole blocks.
fn span_length(at: u64, left: u64) -> u64
    requires { 0 < left }
    ensures is { result ≡ span_length at left }
    ensures some { 0 < result }
    ensures within { result ≤ left }
    ensures few { result ≤ 131072 }
{
    let from = at % BLOCK;
    if from != 0 || left < BLOCK {
        return left.min(BLOCK - from);
    }
    let block = at / BLOCK;
    let in_extent = EXTENT_BLOCKS - block % EXTENT_BLOCKS;
    (left / BLOCK).min(MAX_RANGE.min(in_extent)) * BLOCK
}
