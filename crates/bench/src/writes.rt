//! The rate of writes through the events of a pair, in one thread, beside a loop that copies the same bytes as often as
//! the pair must.

mod copies;
mod image;
mod measure;
mod rounds;
mod workload;

use blocks::Protocol;
use measure::{Plan, measure};
use workload::Workload;

/// Blocks of a device that is in a processor's cache in part: 32 MiB.
const FEW_BLOCKS: u32 = 8_192;

/// Blocks of a device that is not: 256 MiB.
const MANY_BLOCKS: u32 = 65_536;

/// Writes in flight at a time.
const FEW_WRITES: u32 = 16;

/// Writes in flight at a time that fill the link.
const MANY_WRITES: u32 = 1_024;

/// Measures a protocol on both devices, with few writes in flight and with many.
fn measure_protocol(
    rt: &HostRuntime,
    workload: &Workload,
    protocol: Protocol,
    writes: u32,
) -> anyhow::Result<()> {
    let plan = Plan {
        protocol,
        blocks: FEW_BLOCKS,
        in_flight: FEW_WRITES,
        writes,
    };
    let larger = Plan {
        blocks: MANY_BLOCKS,
        ..plan
    };
    measure(rt, workload, plan)?;
    measure(rt, workload, larger)?;
    measure(
        rt,
        workload,
        Plan {
            in_flight: MANY_WRITES,
            ..plan
        },
    )?;
    measure(
        rt,
        workload,
        Plan {
            in_flight: MANY_WRITES,
            ..larger
        },
    )
}

/// Takes `writes` writes through both nodes under each protocol.
pub(crate) fn measure_all(rt: &HostRuntime, writes: u32) -> anyhow::Result<()> {
    let workload = Workload::new(rt.alloc())?;
    measure_protocol(rt, &workload, Protocol::A, writes)?;
    measure_protocol(rt, &workload, Protocol::B, writes)?;
    measure_protocol(rt, &workload, Protocol::C, writes)
}
