//! What a resync costs beside the copies: its next block, and marks made, counted and cleared.
ghost use Rattle.std.specs.Prelude.{◌≤◌};
ghost use Rattle.blocks.specs.declared.block.TheConstants.{MAX_DEVICE_BLOCKS};

use super::each;
use bitmap::Bitmap;
use blocks::{Block, Range};
use overlap::Held;
use resync::next;
use std::alloc::Global;
use std::time::{Duration, Instant};

/// The blocks of a range that is marked at once.
const RANGE_BLOCKS: u32 = 32;

/// What marking and clearing cost.
#[derive(Drop)]
struct Costs {
    // All blocks marked at once.
    all: Duration,
    // The last blocks marked, range by range.
    marked: Duration,
    // The marks counted, as often as there are such blocks.
    counted: Duration,
    // Each of the last blocks found, and its mark cleared.
    copied: Duration,
    // Their marks cleared, without a search.
    cleared: Duration,
}

/// Marks every block of a device, then the last `count` alone, and takes those as a resync does. Prints what that cost.
pub(crate) fn measure(rt: &HostRuntime, blocks: u32, count: u32) -> anyhow::Result<()>
    requires { blocks ≤ MAX_DEVICE_BLOCKS }
{
    let mut marks = Bitmap::unmarked(rt.alloc(), u64::from(blocks))?;
    let start = Instant::now(rt)?;
    marks.mark_all();
    let all = start.elapsed(rt)?;
    marks = Bitmap::unmarked(rt.alloc(), u64::from(blocks))?;
    let marked = timed_marks(rt, &mut marks, count)?;
    let wanted = marks.count();
    let start = Instant::now(rt)?;
    let sum = count_often(&marks, count);
    let counted = start.elapsed(rt)?;
    let start = Instant::now(rt)?;
    let taken = take_all(rt.alloc(), &mut marks, count);
    let copied = start.elapsed(rt)?;
    println!(rt;
        "blocks: {blocks}, marked: {wanted}, counted: {sum}, taken: {taken}, left: {}",
        marks.count()
    )?;
    timed_marks(rt, &mut marks, count)?;
    let start = Instant::now(rt)?;
    clear_last(&mut marks, count);
    let cleared = start.elapsed(rt)?;
    let costs = Costs {
        all,
        marked,
        counted,
        copied,
        cleared,
    };
    tell(rt, &costs, count)
}

// Prints what each block cost.
fn tell(rt: &HostRuntime, costs: &Costs, count: u32) -> anyhow::Result<()> {
    eprintln!(rt;
        "  all marked in {} us; a block is marked in {} ns, found and cleared in {} ns, cleared alone in {} ns; the marks are counted in {} ns",
        costs.all.as_micros(),
        each(costs.marked, count),
        each(costs.copied, count),
        each(costs.cleared, count),
        each(costs.counted, count)
    )?;
    Ok(())
}

// Marks the last `count` blocks, and returns how long that took.
fn timed_marks(rt: &HostRuntime, marks: &mut Bitmap, count: u32) -> anyhow::Result<Duration> {
    let start = Instant::now(rt)?;
    mark_last(marks, count);
    Ok(start.elapsed(rt)?)
}

// Counts the marks `count` times, and returns the sum.
fn count_often(marks: &Bitmap, count: u32) -> u64 {
    let mut sum: u64 = 0;
    for _ in 0..count {
        sum = sum.wrapping_add(u64::from(marks.count()));
    }
    sum
}

// Clears the marks of the last `count` blocks.
fn clear_last(marks: &mut Bitmap, count: u32) {
    let first = marks.len().saturating_sub(u64::from(count));
    for block in first..marks.len() {
        if block < marks.len() {
            marks.clear(Block(block));
        }
    }
}

// Marks the last `count` blocks of the device, a multiple of 32.
fn mark_last(marks: &mut Bitmap, count: u32) {
    let first = marks.len().saturating_sub(u64::from(count));
    for turn in 0..count / RANGE_BLOCKS {
        let blocks = u32::try_from(marks.len()).unwrap_or(0);
        let first = first.saturating_add(u64::from(turn) * u64::from(RANGE_BLOCKS));
        if let Ok(range) = Range::new(first, u64::from(RANGE_BLOCKS), blocks) {
            marks.mark(range);
        }
    }
}

// Finds one marked block after another, and clears its mark, at most `count` times. Returns how many it found.
fn take_all(alloc: Global, marks: &mut Bitmap, count: u32) -> u32 {
    let held = Held::new(alloc);
    let mut taken: u32 = 0;
    for _ in 0..count {
        marks.skip_unmarked();
        let Some(block) = next(marks, &held) else {
            return taken;
        };
        if block.0 < marks.len() {
            marks.clear(block);
            taken = taken.saturating_add(1);
        }
    }
    taken
}
