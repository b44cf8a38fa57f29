//! The rate of writes through a session between threads, and the time that a writer waits for its receipt, over a link
//! and over sockets, under each protocol, with few writers and with many, beside a loop in one thread that copies the
//! same bytes.

mod copies;
mod report;
mod run;
mod writers;

use blocks::Protocol;
use report::Report;
use run::{Path, Plan};
use std::net::{Net, TcpListener, TcpStream};
use std::time::Duration;
use volume::Runtime;

/// How many writers there are at a time.
const WRITERS: [u32; 3] = [1, 4, 16];

const PROTOCOLS: [Protocol; 3] = [Protocol::A, Protocol::B, Protocol::C];

/// Measures sessions with this many writes for each writer, over a link and over sockets.
pub(crate) fn measure_all<R: Runtime + Net<Listener = TcpListener, Stream = TcpStream>>(
    host: &HostRuntime,
    rt: R,
    writes: u32,
) -> anyhow::Result<()> {
    copies::copied(host, writes)?;
    for path in [Path::Link, Path::Sockets] {
        for protocol in PROTOCOLS {
            for writers in WRITERS {
                let plan = Plan {
                    path,
                    protocol,
                    writers,
                    writes,
                    rest: Duration::from_secs(0),
                };
                let report = run::run(rt, host.alloc(), plan)?;
                print_report(host, plan, &report)?;
            }
        }
    }
    Ok(())
}

/// Starts a session, leaves it alone for this many seconds, and ends it: its cost then is seen from outside.
pub(crate) fn idle<R: Runtime + Net<Listener = TcpListener, Stream = TcpStream>>(
    host: &HostRuntime,
    rt: R,
    seconds: u32,
) -> anyhow::Result<()> {
    let plan = Plan {
        path: Path::Link,
        protocol: Protocol::C,
        writers: 0,
        writes: 0,
        rest: Duration::from_secs(u64::from(seconds)),
    };
    run::run(rt, host.alloc(), plan)?;
    println!(host; "idle: {seconds} s")?;
    Ok(())
}

// Prints what was done in one line, and how fast it was in another.
fn print_report(host: &HostRuntime, plan: Plan, report: &Report) -> anyhow::Result<()> {
    println!(host;
        "session over {}, protocol {:?}, {} writers: {} receipts",
        plan.path, plan.protocol, plan.writers, report.receipts
    )?;
    eprintln!(host;
        "session over {}, protocol {:?}, {} writers: {} writes/s, {} us half of the time, {} us 99 times of 100",
        plan.path,
        plan.protocol,
        plan.writers,
        report.per_second(),
        report.median_us,
        report.slow_us
    )?;
    Ok(())
}
