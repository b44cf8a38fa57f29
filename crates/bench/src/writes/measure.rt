//! One measurement.
ghost use Rattle.std.specs.Prelude.{◌≡◌, ◌<◌, ◌≤◌};

use crate::writes::copies::Copies;
use crate::writes::rounds::{Counts, Rounds};
use crate::writes::workload::Workload;
use blocks::{BLOCK_BYTES, Protocol, Refusal};
use std::alloc::Global;
use std::fmt;
use std::time::{Duration, Instant};

/// What is measured.
#[derive(Clone, Copy)]
pub(crate) struct Plan {
    pub(crate) protocol: Protocol,
    /// Blocks of the device.
    pub(crate) blocks: u32,
    /// Writes that are in flight at a time.
    pub(crate) in_flight: u32,
    /// How many writes.
    pub(crate) writes: u32,
}

impl fmt::Display for Plan {
    fn fmt<W: fmt::Write>(&self, f: &mut fmt::Formatter<W>) -> fmt::Result {
        let Plan {
            protocol,
            blocks,
            in_flight,
            ..
        } = *self;
        write!(
            f,
            "protocol: {protocol}, blocks: {blocks}, in flight: {in_flight}"
        )
    }
}

/// Returns how many there are in a second if `count` took this time; 0 if the clock shows no time.
fn frequency(count: u32, time: Duration) -> u128 {
    match time.as_micros() {
        0 => 0,
        micros => u128::from(count) * 1_000_000 / micros,
    }
}

/// Returns `part` in hundredths of `whole`; 0 if the clock shows no time.
fn percent(part: Duration, whole: Duration) -> u128 {
    match whole.as_micros() {
        0 => 0,
        micros => part.as_micros().saturating_mul(100) / micros,
    }
}

/// Returns how many blocks of the pair's disks differ from the loop's.
fn differences(alloc: Global, rounds: &mut Rounds, copies: &Copies) -> Result<u32, Refusal> {
    let mut local = Vec::from_elem(alloc, 0u8, BLOCK_BYTES)?;
    let mut peer = Vec::from_elem(alloc, 0u8, BLOCK_BYTES)?;
    let mut count: u32 = 0;
    for block in 0..copies.blocks() {
        rounds.read(block, &mut local, &mut peer)?;
        let (own, other) = copies.block(block);
        if local.as_slice() != own || peer.as_slice() != other {
            count = count.saturating_add(1);
        }
    }
    Ok(count)
}

/// Copies the bytes of the plan's writes in a loop. Returns how long that took.
fn copy(rt: &HostRuntime, workload: &Workload, plan: Plan) -> anyhow::Result<(Duration, Copies)>
    requires some { 0 < plan.blocks }
    requires flying { 0 < plan.in_flight }
{
    let mut copies = Copies::new(rt.alloc(), plan.blocks, plan.in_flight)?;
    let start = Instant::now(rt)?;
    copies.copy(workload, plan.writes);
    Ok((start.elapsed(rt)?, copies))
}

/// Takes the plan's writes through the pair. Returns how long that took, up to the last completion.
fn take(
    rt: &HostRuntime,
    workload: &Workload,
    plan: Plan,
    rounds: &mut Rounds,
) -> anyhow::Result<Duration> {
    let start = Instant::now(rt)?;
    rounds.write(workload, plan.writes)?;
    Ok(start.elapsed(rt)?)
}

/// Prints the counts of the writes.
fn print_counts(rt: &HostRuntime, plan: Plan, counts: Counts, differ: u32) -> anyhow::Result<()> {
    println!(rt;
        "{plan}, accepted: {}, completed: {}, released: {}, applied: {}, blocks that differ: {differ}",
        counts.accepted, counts.completed, counts.released, counts.applied
    )?;
    Ok(())
}

/// Prints the rate of the pair, that of the loop, and their ratio.
fn print_rates(
    rt: &HostRuntime,
    plan: Plan,
    copied: Duration,
    mirrored: Duration,
) -> anyhow::Result<()> {
    eprintln!(rt;
        "{plan}, mirrored: {} a second, copied: {} a second, ratio: {} %",
        frequency(plan.writes, mirrored),
        frequency(plan.writes, copied),
        percent(copied, mirrored)
    )?;
    Ok(())
}

/// Finishes what is still in flight, compares the pair's disks with the loop's, and prints the counts.
fn finish(
    rt: &HostRuntime,
    plan: Plan,
    rounds: &mut Rounds,
    copies: &Copies,
) -> anyhow::Result<()> {
    rounds.exchange()?;
    let differ = differences(rt.alloc(), rounds, copies)?;
    print_counts(rt, plan, rounds.counts(), differ)
}

/// Takes the plan's writes through the pair, and prints what that took beside the loop.
fn compare(
    rt: &HostRuntime,
    workload: &Workload,
    plan: Plan,
    (copied, copies): (Duration, &Copies),
    rounds: &mut Rounds,
) -> anyhow::Result<()> {
    rounds.greet()?;
    let mirrored = take(rt, workload, plan, rounds)?;
    finish(rt, plan, rounds, copies)?;
    print_rates(rt, plan, copied, mirrored)
}

/// Copies the bytes of the plan's writes in a loop, takes the writes through the pair, and prints what that took.
pub(crate) fn measure(rt: &HostRuntime, workload: &Workload, plan: Plan) -> anyhow::Result<()>
    requires some { 0 < plan.blocks }
    requires flying { 0 < plan.in_flight }
{
    let (copied, copies) = copy(rt, workload, plan)?;
    let mut rounds = Rounds::new(rt.alloc(), plan.protocol, plan.blocks, plan.in_flight)?;
    compare(rt, workload, plan, (copied, &copies), &mut rounds)
}
