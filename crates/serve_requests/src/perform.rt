//! Reading the bytes of a request from a device, and beginning to write its pieces, one after another.
ghost use Rattle.std.specs.Prelude.{◌≡◌, ◌==◌, ◌&&◌, ◌%◌, ◌+◌, ◌*◌, ◌<◌, ◌≤◌, ◌^◌, ◌∷◌, ◌++◌, List, ℕ, [], drop, length, take, vec_len, IfOk, OnErr, OnOk};
ghost use mathlib.Core.List.{IsPrefix};
ghost use Rattle.blocks.specs.declared.refusal.Refusal.TheVariants.{BadRange, NoMemory};
ghost use Rattle.nbd.specs.declared.errno.Errno.TheVariants as errno;
ghost use Rattle.device_parts.specs.Places.{laid_over};
ghost use Rattle.serve_requests.specs.Places.{AllPairs, AreOwn, BeginsOne, IsBegunFor, IsFrontBy};
ghost use Rattle.serve_requests.specs.Reads.{AreHeld, AreRead};
ghost use Rattle.told.specs.Log.{SaysHeldSince, WasTold};
ghost use Rattle.told.specs.declared.entry.Told.TheVariants.{Accepted, Patched};

use crate::requests::Requests;
use blocks::{BLOCK_BYTES, Range, Refusal};
use bytes::Bytes;
use device_parts::Part;
use nbd::{Errno, Piece, Pieces, Ranges, Request};
use session_api::{Begun, Device};
use std::alloc::Global;
use told::Caller;

/// The most bytes that a READ may ask for: 32 MiB.
pub(crate) const MAX_READ_BYTES: u32 = 33_554_432;

/// Reads the bytes of a request, as `read_at` does. `Invalid` also if it is longer than a READ may be.
pub(crate) fn read<D: Device>(
    alloc: Global,
    device: &D,
    me: &mut Caller<D::Name>,
    request: &Request,
) -> Result<Vec<u8>, Errno>
    ensures length { IfOk result (λ read. vec_len read ≡ request.now.length) }
    ensures few { OnOk result (request.now.length ≤ 33554432) }
    ensures read { IfOk result (λ read. AreRead (SaysHeldSince me.old.log me.new.log) request.now.offset request.now.length read.items) }
    ensures goes_on { IsPrefix me.old.log me.new.log }
    ensures mine { me.new.own ≡ me.old.own }
{
    if request.length() > MAX_READ_BYTES {
        return Err(Errno::Invalid);
    }
    read_at(alloc, device, me, request.offset(), request.length())
}

/// Reads `count` bytes from the byte `offset` of the device on: all blocks that have any, and of these what is asked for. `Invalid` if they
/// end past 2^64, and `NoMemory` if there is no memory for all of them.
pub(crate) fn read_at<D: Device>(
    alloc: Global,
    device: &D,
    me: &mut Caller<D::Name>,
    offset: u64,
    count: u32,
) -> Result<Vec<u8>, Errno>
    requires few { count ≤ 33554432 }
    ensures length { IfOk result (λ read. vec_len read ≡ count) }
    ensures read { IfOk result (λ read. AreRead (SaysHeldSince me.old.log me.new.log) offset count read.items) }
    ensures goes_on { IsPrefix me.old.log me.new.log }
    ensures mine { me.new.own ≡ me.old.own }
{
    if offset.checked_add(u64::from(count)).is_none() {
        return Err(Errno::Invalid);
    }
    let from = (offset % BLOCK_BYTES as u64) as usize;
    let ranges = Ranges::covering(offset, count);
    let data = read_blocks(alloc, device, me, ranges, from + count as usize)?;
    Ok(cut(data, from, count as usize))
}

// Reads these ranges, which have at least `least` bytes together.
fn read_blocks<D: Device>(
    alloc: Global,
    device: &D,
    me: &mut Caller<D::Name>,
    ranges: Ranges,
    least: usize,
) -> Result<Vec<u8>, Errno>
    requires { least < 2 ^ 32 }
    ensures length { IfOk result (λ read. least ≤ vec_len read) }
    ensures held { IfOk result (λ read. AreHeld (SaysHeldSince me.old.log me.new.log) ranges read.items) }
    ensures goes_on { IsPrefix me.old.log me.new.log }
    ensures mine { me.new.own ≡ me.old.own }
{
    let mut data = Vec::new(alloc);
    for range in ranges {
        let bytes = read_range(device, me, range)?;
        append_range(&mut data, bytes, least)?;
    }
    // A reply with fewer bytes would spoil all that follow it.
    if data.len() < least {
        return Err(Errno::InputOutput);
    }
    Ok(data)
}

// Reads one range.
fn read_range<D: Device>(
    device: &D,
    me: &mut Caller<D::Name>,
    range: Range,
) -> Result<Vec<u8>, Errno>
    ensures held { IfOk result (λ read. SaysHeldSince me.old.log me.new.log range.first.0 range.count read.items) }
    ensures goes_on { IsPrefix me.old.log me.new.log }
    ensures mine { me.new.own ≡ me.old.own }
{
    match device.read(me, range.first.0, range.count) {
        Ok(bytes) => Ok(bytes),
        Err(refusal) => Err(errno_of(refusal)),
    }
}

// Appends the bytes of the next range to those of the ranges before, where all have `least` bytes together. If it has as many, it is the
// only one, and its bytes are handed on as they are.
fn append_range(data: &mut Vec<u8>, bytes: Vec<u8>, least: usize) -> Result<(), Errno>
    requires { least < 2 ^ 32 }
    ensures { OnOk result (data.new.items ≡ data.old.items ++ bytes.items) }
{
    if data.is_empty() && bytes.len() >= least {
        *data = bytes;
        return Ok(());
    }
    // The first of several makes room for all of them.
    let room = least.next_multiple_of(BLOCK_BYTES);
    if data.try_reserve(room.saturating_sub(data.len())).is_err() {
        return Err(Errno::NoMemory);
    }
    let mut bytes = bytes;
    match data.append(&mut bytes) {
        Ok(()) => Ok(()),
        Err(_) => Err(Errno::NoMemory),
    }
}

// Cuts `count` bytes out of these, from the byte `from` on, where they lie.
fn cut(found: Vec<u8>, from: usize, count: usize) -> Vec<u8>
    requires { from + count ≤ vec_len found }
    ensures cut { result.items ≡ take count (drop from found.items) }
    ensures length { vec_len result ≡ count }
{
    let mut bytes = found;
    if from > 0 {
        bytes.copy_within(from..from + count, 0);
    }
    bytes.truncate(count);
    bytes
}

/// Begins to write these pieces as this caller, one after another, until one is refused.
pub(crate) fn begin_pieces<D: Device>(
    requests: &Requests,
    device: &D,
    me: &mut Caller<D::Name>,
    pieces: Pieces,
    begun: &mut Vec<Begun>,
) -> Result<(), Errno>
    requires { begun.old.items ≡ [] }
    ensures all { OnOk result (AllPairs (IsBegunFor (WasTold me.new.log)) pieces begun.new.items) }
    ensures front { IsFrontBy (IsBegunFor (WasTold me.new.log)) pieces begun.new.items }
    ensures goes_on { IsPrefix me.old.log me.new.log }
    ensures mine { AreOwn begun.old.items begun.new.items me.old.own me.new.own }
{
    let mut pieces = pieces;
    while let Some(piece) = pieces.next()? {
        begin_piece(requests, device, me, piece, begun)?;
    }
    Ok(())
}

// Begins to write a piece.
fn begin_piece<D: Device>(
    requests: &Requests,
    device: &D,
    me: &mut Caller<D::Name>,
    piece: Piece,
    begun: &mut Vec<Begun>,
) -> Result<(), Errno>
    ensures one { OnOk result (BeginsOne (IsBegunFor (WasTold me.new.log)) piece begun.old.items begun.new.items) }
    ensures unchanged { OnErr result (begun.new.items ≡ begun.old.items) }
    ensures goes_on { IsPrefix me.old.log me.new.log }
    ensures mine { AreOwn begun.old.items begun.new.items me.old.own me.new.own }
{
    requests.count_write();
    if begun.try_reserve(1).is_err() {
        return Err(Errno::NoMemory);
    }
    let write = begin_at(device, me, piece)?;
    begun.push_reserved(write);
    Ok(())
}

// Begins to write a piece at its place: whole blocks as they are, and bytes within a block over what that has. `Invalid` for bytes that
// are neither, as no piece of a request is.
fn begin_at<D: Device>(device: &D, me: &mut Caller<D::Name>, piece: Piece) -> Result<Begun, Errno>
    ensures begun { IfOk result (IsBegunFor (WasTold me.new.log) piece) }
    ensures goes_on { IsPrefix me.old.log me.new.log }
    ensures mine { IfOk result (λ begun. me.new.own ≡ me.old.own ++ begun.number ∷ []) }
    ensures not_mine { OnErr result (me.new.own ≡ me.old.own) }
{
    let block = piece.block();
    let from = piece.from();
    let bytes = piece.into_bytes();
    if are_whole(from, &bytes) {
        begin_blocks(device, me, block, bytes)
    } else if bytes.is_empty() || bytes.len() > BLOCK_BYTES.saturating_sub(from as usize) {
        Err(Errno::Invalid)
    } else {
        begin_within(device, me, block, from, &bytes)
    }
}

// Returns whether bytes from this byte of a block on are whole blocks.
fn are_whole(from: u32, bytes: &Bytes) -> bool
    ensures { result ≡ ((from == 0) && (length bytes.now % 4096 == 0)) }
{
    from == 0 && bytes.len() % BLOCK_BYTES == 0
}

// Begins to write whole blocks.
fn begin_blocks<D: Device>(
    device: &D,
    me: &mut Caller<D::Name>,
    first: u64,
    bytes: Bytes,
) -> Result<Begun, Errno>
    ensures range { IfOk result (λ begun. (begun.first ≡ first) × (begun.count * 4096 ≡ length bytes)) }
    ensures contents { IfOk result (λ begun. begun.contents ≡ bytes) }
    ensures told { IfOk result (λ begun. WasTold me.new.log (Accepted begun.number first bytes)) }
    ensures goes_on { IsPrefix me.old.log me.new.log }
    ensures mine { IfOk result (λ begun. me.new.own ≡ me.old.own ++ begun.number ∷ []) }
    ensures not_mine { OnErr result (me.new.own ≡ me.old.own) }
{
    match device.begin(me, first, bytes) {
        Ok(begun) => Ok(begun),
        Err(refusal) => Err(errno_of(refusal)),
    }
}

// Begins to write bytes within a block, over what that has.
fn begin_within<D: Device>(
    device: &D,
    me: &mut Caller<D::Name>,
    block: u64,
    from: u32,
    bytes: &Bytes,
) -> Result<Begun, Errno>
    requires some { 0 < length bytes.now }
    requires within { from + length bytes.now ≤ 4096 }
    ensures block { IfOk result (λ begun. (begun.first ≡ block) × (begun.count ≡ 1)) }
    ensures laid { IfOk result (λ begun. (old : List ℕ) × (begun.contents ≡ laid_over from bytes.now old)) }
    ensures told { IfOk result (λ begun. WasTold me.new.log (Patched begun.number block from bytes.now)) }
    ensures goes_on { IsPrefix me.old.log me.new.log }
    ensures mine { IfOk result (λ begun. me.new.own ≡ me.old.own ++ begun.number ∷ []) }
    ensures not_mine { OnErr result (me.new.own ≡ me.old.own) }
{
    match device.begin_within(me, block, from, bytes) {
        Ok(begun) => Ok(begun),
        Err(refusal) => Err(errno_of(refusal)),
    }
}

/// Returns the error that a client gets for a refusal.
pub(crate) fn errno_of(refusal: Refusal) -> Errno
    ensures memory { refusal ≡ NoMemory → result ≡ errno.NoMemory }
    ensures range { refusal ≡ BadRange → result ≡ errno.Invalid }
    ensures other { (refusal ≡ NoMemory → ⊥) → (refusal ≡ BadRange → ⊥) → result ≡ errno.InputOutput }
{
    match refusal {
        Refusal::NoMemory => Errno::NoMemory,
        Refusal::BadRange => Errno::Invalid,
        _ => Errno::InputOutput,
    }
}
