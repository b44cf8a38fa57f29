//! The writers of a measured session.
use crate::sessions::run::Plan;
use blocks::{BLOCK_BYTES, Refusal};
use bytes::Bytes;
use ghost_log::LogName;
use std::alloc::Global;
use std::sync::Wait;
use std::thread;
use std::time::{Clock, Instant};
use told::{Caller, Callers};
use volume::{Device, Runtime};

/// Blocks that each writer writes in turn.
const BLOCKS_OF_A_WRITER: u64 = 512;

/// Lets each writer make its writes in a thread of its own. Returns how long each write waited, in nanoseconds.
pub(crate) fn write_all<R: Runtime, N: LogName + Send + Sync, D: Device<Name = N> + Sync>(
    rt: &R,
    alloc: Global,
    mirror: &D,
    callers: &Callers<N>,
    plan: Plan,
) -> Result<Vec<u64>, Refusal> {
    let bytes = Bytes::copy_from_slice(alloc, &[0x5A; BLOCK_BYTES])?;
    let each = thread::map_indices(
        rt,
        alloc,
        plan.writers as usize,
        &|writer| {
            let mut me = callers.caller();
            write_some(
                rt,
                alloc,
                mirror,
                &mut me,
                plan.writes,
                writer as u64,
                &bytes,
            )
        },
    )?;
    let mut all = Vec::new(alloc);
    for waits in each {
        all.append(&mut waits?)?;
    }
    Ok(all)
}

// Makes the writes of one writer. Returns how long each write waited, in nanoseconds.
fn write_some<R: Wait + Clock, D: Device>(
    rt: &R,
    alloc: Global,
    mirror: &D,
    me: &mut Caller<D::Name>,
    writes: u32,
    writer: u64,
    bytes: &Bytes,
) -> Result<Vec<u64>, Refusal> {
    let mut waits = Vec::with_capacity(alloc, writes as usize)?;
    for turn in 0..writes {
        let block = writer % 16 * BLOCKS_OF_A_WRITER + u64::from(turn) % BLOCKS_OF_A_WRITER;
        let start = Instant::now(rt);
        mirror.write(me, block, bytes)?;
        waits.push(nanos_since(rt, start))?;
    }
    Ok(waits)
}

// Returns how long ago that was, in nanoseconds; 0 if the clock cannot be read.
fn nanos_since<R: Clock>(rt: &R, start: std::io::Result<Instant>) -> u64 {
    let Ok(start) = start else {
        return 0;
    };
    match start.elapsed(rt) {
        Ok(time) => time.as_micros().min(1_000_000_000) as u64 * 1000
            + u64::from(time.subsec_nanos() % 1000),
        Err(_) => 0,
    }
}
