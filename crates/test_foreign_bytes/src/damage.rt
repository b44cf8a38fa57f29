//! Damage to a stream of bytes.
ghost use Rattle.std.specs.Prelude.{◌≡◌, ◌<◌, ◌≤◌, vec_len, length};

use packets::cut_length;
use rand_core::Rng;
use std::alloc::{AllocError, Global};

/// The most places at which a stream is damaged.
const PLACES: usize = 3;

/// Bytes of a header and the fields behind it, which are damaged more often than a block's contents.
const FIELDS: usize = 32;

/// Returns the stream; if it `is_to_be` damaged, with bytes changed, cut, doubled or swapped at one to three places.
pub(crate) fn damaged<G: Rng>(
    alloc: Global,
    stream: &Vec<u8>,
    random: &mut G,
    is_to_be: bool,
) -> Result<Vec<u8>, AllocError> {
    let mut bytes = stream.clone()?;
    if !is_to_be {
        return Ok(bytes);
    }
    for _ in 0..below(random, PLACES) + 1 {
        let at = place(alloc, &bytes, random)?;
        let count = below(random, 64) + 1;
        bytes = match below(random, 4) {
            0 => changed(bytes, at, random),
            1 => without(alloc, &bytes, at, count)?,
            2 => doubled(alloc, &bytes, at, count)?,
            _ => swapped(bytes, at, below(random, FIELDS)),
        };
    }
    Ok(bytes)
}

// Returns a random number below `limit`; 0 if that is 0.
fn below<G: Rng>(random: &mut G, limit: usize) -> usize
    ensures { 0 < limit → result < limit }
{
    if limit == 0 {
        return 0;
    }
    (random.next_u64() % limit as u64) as usize
}

// Picks a place in the stream: half of the time one near the front of a frame.
fn place<G: Rng>(alloc: Global, bytes: &Vec<u8>, random: &mut G) -> Result<usize, AllocError> {
    if below(random, 2) == 0 {
        return Ok(below(random, bytes.len()));
    }
    let fronts = fronts(alloc, bytes)?;
    let front = match fronts.get(below(random, fronts.len())) {
        Some(front) => *front,
        None => 0,
    };
    Ok(front.saturating_add(below(random, FIELDS)))
}

// Returns the places where frames begin.
fn fronts(alloc: Global, bytes: &Vec<u8>) -> Result<Vec<usize>, AllocError> {
    let mut fronts = Vec::new(alloc);
    let mut at = 0usize;
    for _ in 0..bytes.len() {
        match bytes.get(at..at.saturating_add(8)) {
            Some(header) => {
                fronts.push(at)?;
                at = at.saturating_add(cut_length(header));
            }
            None => break,
        }
    }
    Ok(fronts)
}

// Flips a bit of the byte at this place.
fn changed<G: Rng>(mut bytes: Vec<u8>, at: usize, random: &mut G) -> Vec<u8> {
    if let Some(byte) = bytes.get_mut(at) {
        *byte ^= 1u8 << (random.next_u64() % 8);
    }
    bytes
}

// Returns the bytes without those of a range.
fn without(alloc: Global, bytes: &Vec<u8>, at: usize, count: usize) -> Result<Vec<u8>, AllocError> {
    let (front, end) = ends(bytes, at, count);
    let mut rest = Vec::with_capacity(alloc, bytes.len())?;
    rest.extend_from_slice(&bytes[..front])?;
    rest.extend_from_slice(&bytes[end..])?;
    Ok(rest)
}

// Returns the bytes with those of a range twice.
fn doubled(alloc: Global, bytes: &Vec<u8>, at: usize, count: usize) -> Result<Vec<u8>, AllocError> {
    let (front, end) = ends(bytes, at, count);
    let mut more = Vec::with_capacity(alloc, bytes.len())?;
    more.extend_from_slice(&bytes[..end])?;
    more.extend_from_slice(&bytes[front..])?;
    Ok(more)
}

// Swaps two bytes, if both are inside.
fn swapped(mut bytes: Vec<u8>, at: usize, distance: usize) -> Vec<u8> {
    let other = at.saturating_add(distance);
    if at < bytes.len() && other < bytes.len() {
        bytes.swap(at, other);
    }
    bytes
}

// Returns the range, as far as it is inside.
fn ends(bytes: &Vec<u8>, at: usize, count: usize) -> (usize, usize)
    ensures { (result.0 ≤ result.1) × (result.1 ≤ vec_len bytes.now) }
{
    let front = at.min(bytes.len());
    let end = front.saturating_add(count).min(bytes.len());
    (front, end)
}
