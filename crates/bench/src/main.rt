//! The rate of writes through the parts, through both nodes and through a session between threads, and of frames through
//! the packets and a link, each beside a plain copy of the same bytes. The counts go to standard output, the rates to
//! standard error.
//!
//! `bench [parts|frames|links|writes|session [COUNT]]`: without words, it measures a little of each. `bench idle
//! [SECONDS]` leaves a session alone for so long. `rt run` builds it to be timed; what `rt try` runs is not optimized,
//! and times nothing.
#![tactic(auto)]

mod frames;
mod links;
mod parts;
mod sessions;
mod writes;

use std::env;
use std::net::{Net, TcpListener, TcpStream};
use volume::Runtime;

/// Writes through the parts, if no COUNT is given.
const PART_WRITES: u32 = 20_000;

/// Acknowledgements that are encoded and decoded.
const ACKNOWLEDGEMENTS: u32 = 1_000_000;

/// Frames through a link.
const FRAMES: u32 = 500;

/// Writes through both nodes.
const WRITES: u32 = 200;

/// Writes of each writer of a session.
const SESSION_WRITES: u32 = 100;

/// How long a session is left alone, in seconds.
const IDLE_S: u32 = 1;

fn main(rt: HostRuntime) -> anyhow::Result<()> {
    let words = env::args(&rt)?.collect::<Vec<String>>(rt.alloc())?;
    let count = match words.get(2) {
        Some(word) => Some(word.as_str().parse::<u32>()?),
        None => None,
    };
    match words.get(1).map(|word| word.as_str()) {
        Some("parts") => parts::measure_all(&rt, count.unwrap_or(PART_WRITES)),
        Some("frames") => frames::measure_all(&rt, count.unwrap_or(ACKNOWLEDGEMENTS)),
        Some("links") => links::measure_all(&rt, &rt, count.unwrap_or(FRAMES)),
        Some("writes") => writes::measure_all(&rt, count.unwrap_or(WRITES)),
        Some("session") => sessions::measure_all(&rt, rt, count.unwrap_or(SESSION_WRITES)),
        Some("idle") => sessions::idle(&rt, rt, count.unwrap_or(IDLE_S)),
        Some(word) => {
            anyhow::bail!(
                "{word} is not measured: name parts, frames, links, writes, session or idle"
            )
        }
        None => measure_each(&rt, rt),
    }
}

/// Measures a little of each.
fn measure_each<R: Runtime + Net<Listener = TcpListener, Stream = TcpStream>>(
    host: &HostRuntime,
    rt: R,
) -> anyhow::Result<()> {
    parts::measure_all(host, PART_WRITES)?;
    frames::measure_all(host, ACKNOWLEDGEMENTS)?;
    links::measure_all(host, &rt, FRAMES)?;
    writes::measure_all(host, WRITES)?;
    sessions::measure_all(host, rt, SESSION_WRITES)
}
