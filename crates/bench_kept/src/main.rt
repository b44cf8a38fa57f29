//! The rate of writes of a primary whose link is down: without metadata, and with metadata in memory or in a file, in order and at random.
//! The counts go to standard output, the rates to standard error.
//!
//! `bench_kept [BLOCKS [FILE]]` measures a device of BLOCKS blocks (4,096). A write to an extent that is not entered enters it; a second
//! round over the same blocks finds all of them entered. If FILE is given, metadata is kept there, too: it is made, and removed at the end.
//! `rt run` builds it to be timed; what `rt try` runs is not optimized, and times nothing.
#![tactic(auto)]

mod files;
mod measured;
mod opening;
mod rounds;

ghost use Rattle.std.specs.Prelude.{◌<◌, ◌≤◌};

use anyhow::bail;
use kept_nodes::NoFile;
use measured::MeasuredPrimary;
use metadata::{Metadata, StableFile};
use opening::opened;
use rounds::{Order, Rounds};
use std::sync::Wait;
use std::{env, fs};

/// Blocks of the device, if no number is given.
const BLOCKS: u32 = 4_096;

/// Blocks of the device at most: 1 GiB.
const MOST_BLOCKS: u32 = 262_144;

fn main(rt: HostRuntime) -> anyhow::Result<()> {
    let words = env::args(&rt)?.collect::<Vec<String>>(rt.alloc())?;
    let blocks = match words.get(1) {
        Some(word) => word.as_str().parse::<u32>()?,
        None => BLOCKS,
    };
    let path = words.get(2).map(|word| word.as_str());
    if blocks == 0 || blocks > MOST_BLOCKS {
        bail!("a device of 1 to {MOST_BLOCKS} blocks is measured");
    }
    for order in [Order::InTurn, Order::AtRandom] {
        measure(&rt, rt, Rounds { blocks, order }, path)?;
    }
    Ok(())
}

// Measures primaries in an order, whose metadata is in memory and, if one is named, in a new file, which is removed after it.
fn measure<R: Wait + Copy + Drop>(
    host: &HostRuntime,
    rt: R,
    rounds: Rounds,
    path: Option<&str>,
) -> anyhow::Result<()>
    requires some { 0 < rounds.blocks }
    requires few { rounds.blocks ≤ 262144 }
{
    let alloc = host.alloc();
    measure_over::<R, NoFile>(host, rt, rounds, "no metadata", None)?;
    let metadata = files::in_memory(alloc, rounds.blocks)?;
    measure_over(host, rt, rounds, "metadata in memory", Some(metadata))?;
    if let Some(path) = path {
        let metadata = files::on_disk(host, path, rounds.blocks)?;
        measure_over(host, rt, rounds, "metadata in a file", Some(metadata))?;
        fs::remove_file(host, path)?;
    }
    Ok(())
}

// Measures a primary with this metadata, if there is some.
fn measure_over<R: Wait + Copy + Drop, F: StableFile>(
    host: &HostRuntime,
    rt: R,
    rounds: Rounds,
    name: &str,
    metadata: Option<Metadata<F>>,
) -> anyhow::Result<()>
    requires some { 0 < rounds.blocks }
    requires few { rounds.blocks ≤ 262144 }
{
    match opened(rt, host.alloc(), rounds.blocks, metadata) {
        Ok(mut primary) => {
            let measured = rounds.measure(host, name, &mut primary);
            primary.end();
            measured
        }
        Err(refusal) => Err(refusal.into()),
    }
}
