//! The loop that copies what a mirror must, in one thread.
use crate::sessions::run::BLOCKS;
use blocks::BLOCK_BYTES;
use std::time::Instant;

/// Copies the bytes of this many writes as often as a mirror must, into a frame, to the local disk and to the peer's,
/// in one thread.
pub(crate) fn copied(host: &HostRuntime, writes: u32) -> anyhow::Result<()> {
    let alloc = host.alloc();
    let block = [0x5Au8; BLOCK_BYTES];
    let mut disks = Vec::from_elem(alloc, 0u8, 3 * BLOCKS as usize * BLOCK_BYTES)?;
    let start = Instant::now(host)?;
    let mut copies = 0u64;
    for _ in 0..writes / BLOCKS + 1 {
        for place in disks.chunks_exact_mut(BLOCK_BYTES) {
            place.copy_from_slice(&block);
            copies = copies.saturating_add(1);
        }
    }
    let time = start.elapsed(host)?;
    let rate = u128::from(copies / 3) * 1_000_000 / time.as_micros().max(1);
    eprintln!(host; "copied in one thread: {rate} writes/s")?;
    Ok(())
}
