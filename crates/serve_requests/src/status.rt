//! What a BLOCK_STATUS tells: where the images have data.
ghost use Rattle.std.specs.Prelude.{◌+◌, ◌-◌, ◌<◌, ◌≤◌, ◌^◌, vec_len, IfOk};
ghost use Rattle.serve_requests.specs.Extents.{AreExtents, IsExtent};

use image_store::{PerDisk, SyncHandle};
use nbd::{Errno, Extent, Request};
use recorded_file::Stretch;
use std::alloc::Global;
use std::fs::File;

/// The most extents of a reply. A client asks on from where the last one ends.
pub(crate) const MOST_EXTENTS: usize = 1024;

/// How often the images are asked for an extent, at most. Another one of the same kind may follow it.
const LOOKS: u32 = 64;

/// NBD_STATE_ZERO of `base:allocation`: the bytes are zeros. Data have no flag.
const ZERO: u32 = 2;

/// Returns what the range of a BLOCK_STATUS is, from its front on: zeros where neither image has data, and else data. Where that ends
/// the client asks again, and so it does after the first extent if it asked for one. `NoMemory` if there is no memory, and `Invalid`
/// for a range past 2^63 or of no byte, which no device has.
pub(crate) fn extents_of(
    alloc: Global,
    images: &PerDisk<SyncHandle<File>>,
    request: &Request,
) -> Result<Vec<Extent>, Errno>
    ensures are { IfOk result (λ extents. AreExtents request.now extents.items) }
    ensures few { IfOk result (λ extents. vec_len extents ≤ 1024) }
{
    if request.length() == 0 || request.offset() >= 1 << 63 {
        return Err(Errno::Invalid);
    }
    let most = if request.wants_one() { 1 } else { MOST_EXTENTS };
    let mut at = request.offset();
    let mut left = request.length();
    let mut extents = Vec::new(alloc);
    while left > 0 && extents.len() < most {
        let extent = next_extent(images, at, left);
        at += u64::from(extent.length);
        left -= extent.length;
        if extents.push(extent).is_err() {
            return Err(Errno::NoMemory);
        }
    }
    Ok(extents)
}

// Returns the next extent: as many of the `left` bytes from `at` on as are alike.
fn next_extent(images: &PerDisk<SyncHandle<File>>, at: u64, left: u32) -> Extent
    requires some { 0 < left }
    requires small { at + left < 2 ^ 64 - 1 }
    ensures extent { IsExtent result }
    ensures most { result.length ≤ left }
{
    let last = at + u64::from(left);
    let first = stretch_at(images, at);
    let mut end = first.end.min(last);
    for _ in 0..LOOKS {
        if end >= last {
            break;
        }
        let next = stretch_at(images, end);
        if next.is_data != first.is_data {
            break;
        }
        end = next.end.min(last);
    }
    Extent {
        length: (end - at) as u32,
        flags: if first.is_data { 0 } else { ZERO },
    }
}

// Returns where either image has data, from a byte on, or neither.
fn stretch_at(images: &PerDisk<SyncHandle<File>>, at: u64) -> Stretch
    requires { at < 2 ^ 64 - 1 }
    ensures { at < result.end }
{
    let local = images.local.stretch_at(at);
    let peer = images.peer.stretch_at(at);
    let end = match (local.is_data, peer.is_data) {
        (true, true) => local.end.max(peer.end),
        (true, false) => local.end,
        (false, true) => peer.end,
        (false, false) => local.end.min(peer.end),
    };
    Stretch {
        is_data: local.is_data || peer.is_data,
        end,
    }
}
