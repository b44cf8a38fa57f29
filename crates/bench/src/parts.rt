//! The cost of one write's way through the parts of a primary, beside a plain copy of one block that is not in the
//! cache.
ghost use Rattle.std.specs.Prelude.{◌≡◌, ◌<◌, ◌≤◌, ◌*◌, length};

mod resyncs;
mod way;

use blocks::{BLOCK_BYTES, MAX_BLOCKS};
use std::time::{Duration, Instant};
use way::Way;

/// Blocks of the buffer that copies are taken from: 256 MiB, several times what a processor's cache holds.
const SOURCE_BLOCKS: usize = 65_536;

/// The distance from one copied block to the next: odd, so that each block has its turn, and far, so that none is
/// fetched ahead.
const STRIDE: usize = 20_011;

/// Blocks that a resync takes.
const RESYNC_BLOCKS: u32 = 131_072;

/// Blocks of a device of 1 TiB.
const TEBIBYTE_BLOCKS: u32 = 268_435_456;

/// Copies `count` blocks, each from another part of the buffer. Returns the sum of a byte of each.
fn copy_blocks(source: &[u8], block: &mut [u8], count: u32) -> u64
    requires source { length source.now ≡ 65536 * 4096 }
    requires block { length block.old ≡ 4096 }
{
    let mut sum: u64 = 0;
    for turn in 0..count as usize {
        let at = turn * STRIDE % SOURCE_BLOCKS * BLOCK_BYTES;
        block.copy_from_slice(&source[at..at + BLOCK_BYTES]);
        sum = sum.wrapping_add(u64::from(block[turn % BLOCK_BYTES]));
    }
    sum
}

/// Returns the nanoseconds of each one if `count` took this time; 0 if `count` is 0.
fn each(time: Duration, count: u32) -> u128 {
    match count {
        0 => 0,
        count => time.as_nanos() / u128::from(count),
    }
}

/// Copies `count` blocks. Returns the sum of a byte of each, and how long that took.
fn copied(rt: &HostRuntime, source: &[u8], count: u32) -> anyhow::Result<(u64, Duration)>
    requires { length source.now ≡ 65536 * 4096 }
{
    let mut block = Vec::from_elem(rt.alloc(), 0u8, BLOCK_BYTES)?;
    let start = Instant::now(rt)?;
    let sum = copy_blocks(source, &mut block, count);
    Ok((sum, start.elapsed(rt)?))
}

/// Takes `writes` writes through the parts. Returns how long that took.
fn written(rt: &HostRuntime, way: &mut Way, writes: u32) -> anyhow::Result<Duration> {
    let start = Instant::now(rt)?;
    for _ in 0..writes {
        way.write()?;
    }
    Ok(start.elapsed(rt)?)
}

/// Takes writes through the parts, and prints what that cost beside `copied`, the copies of as many blocks.
fn compare(
    rt: &HostRuntime,
    way: &mut Way,
    writes: u32,
    (in_flight, blocks): (u32, u32),
    (sum, copied): (u64, Duration),
) -> anyhow::Result<()> {
    let written = written(rt, way, writes)?;
    let counts = way.counts();
    println!(rt;
        "in flight: {in_flight}, blocks: {blocks}, completed: {}, epochs: {}, released: {}, cleared: {}, sum: {sum}",
        counts.completed, counts.epochs, counts.released, counts.cleared
    )?;
    eprintln!(rt;
        "in flight: {in_flight}, blocks: {blocks}, a write: {} ns, a copy: {} ns",
        each(written, writes),
        each(copied, writes)
    )?;
    Ok(())
}

/// Takes `writes` writes through the parts, with `in_flight` of them in flight, and prints what that cost.
fn measure(
    rt: &HostRuntime,
    source: &[u8],
    writes: u32,
    in_flight: u32,
    blocks: u32,
) -> anyhow::Result<()>
    requires source { length source.now ≡ 65536 * 4096 }
    requires some_in_flight { 0 < in_flight }
    requires few_blocks { blocks ≤ 262144 }
{
    let copied = copied(rt, source, writes)?;
    let mut way = Way::new(rt.alloc(), in_flight, blocks)?;
    compare(rt, &mut way, writes, (in_flight, blocks), copied)
}

/// Takes `writes` writes through the parts of a small device and of one of 1 GiB, with few in flight and with many, and blocks
/// through a resync of one of 1 GiB and of one of 1 TiB.
pub(crate) fn measure_all(rt: &HostRuntime, writes: u32) -> anyhow::Result<()> {
    let source = Vec::from_elem(rt.alloc(), 0x5Au8, SOURCE_BLOCKS * BLOCK_BYTES)?;
    measure(rt, &source, writes, 16, 1024)?;
    measure(rt, &source, writes, 16, 262_144)?;
    measure(rt, &source, writes, 4096, 1024)?;
    measure(rt, &source, writes, 4096, 262_144)?;
    drop(source);
    resyncs::measure(rt, MAX_BLOCKS, RESYNC_BLOCKS)?;
    resyncs::measure(rt, TEBIBYTE_BLOCKS, RESYNC_BLOCKS)
}
