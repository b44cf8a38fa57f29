//! The rate of frames of one block, and of acknowledgements, through a link between two threads, and through one in one
//! thread, beside a plain copy of the bytes of a frame of one block.

mod frames;
mod measure;

use crate::links::frames::Sample;
use std::sync::Wait;
use std::thread::Threads;

/// Measures each way of a frame with this number of frames.
pub(crate) fn measure_all(
    rt: &HostRuntime,
    threads: &(impl Threads + Wait + Sync),
    count: u32,
) -> anyhow::Result<()> {
    let alloc = rt.alloc();
    let write = Sample::write(alloc)?;
    let ack = Sample::Acknowledgement;
    measure::copied(rt, alloc, count)?;
    measure::buffers(rt, alloc, count)?;
    measure::encoded(rt, "encoded", &write, count)?;
    measure::one_thread(threads, rt, alloc, "one thread", &write, count)?;
    measure::two_threads(threads, rt, alloc, "two threads", write, count)?;
    measure::encoded(rt, "acknowledgement encoded", &ack, count)?;
    measure::one_thread(
        threads,
        rt,
        alloc,
        "acknowledgement, one thread",
        &ack,
        count,
    )?;
    measure::two_threads(
        threads,
        rt,
        alloc,
        "acknowledgement, two threads",
        ack,
        count,
    )
}
