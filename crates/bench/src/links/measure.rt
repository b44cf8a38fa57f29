//! Measurements of a link.
ghost use Rattle.std.specs.Prelude.{◌≡◌, None};

use crate::links::frames::{Sample, length, receive, send};
use blocks::Refusal;
use bytes::BytesMut;
use link::{FrameIn, FrameOut};
use std::alloc::Global;
use std::sync::Wait;
use std::thread;
use std::thread::Threads;
use std::time::{Duration, Instant};
use thread_link::{RuledOut, ruled};

/// Bytes of the frame of a write of one block.
const FRAME_BYTES: usize = 4128;

/// How many frames the row holds, as by default.
const LINK: u32 = 64;

/// Writes the number of frames and their rate; each has this many bytes.
fn report(
    rt: &HostRuntime,
    what: &str,
    count: u32,
    bytes: usize,
    time: Duration,
) -> anyhow::Result<()> {
    println!(rt; "{what}: {count}")?;
    let micros = time.as_micros().max(1);
    eprintln!(rt;
        "{what}: {} ns each, {} MB/s",
        micros * 1000 / u128::from(count.max(1)),
        u128::from(count) * bytes as u128 / micros
    )?;
    Ok(())
}

/// Measures a plain copy of the bytes of `count` frames.
pub(crate) fn copied(rt: &HostRuntime, alloc: Global, count: u32) -> anyhow::Result<()> {
    let frame = Vec::from_elem(alloc, 0x5Au8, FRAME_BYTES)?;
    let mut buffer = Vec::with_capacity(alloc, FRAME_BYTES)?;
    let start = Instant::now(rt)?;
    for _ in 0..count {
        buffer.clear();
        buffer.extend_from_slice(&frame)?;
    }
    report(rt, "copied", count, FRAME_BYTES, start.elapsed(rt)?)
}

/// Measures the buffers that are made for `count` frames, each for the longest frame.
pub(crate) fn buffers(rt: &HostRuntime, alloc: Global, count: u32) -> anyhow::Result<()> {
    let start = Instant::now(rt)?;
    for _ in 0..count {
        let _ = BytesMut::with_capacity(alloc, 131_105)?;
    }
    report(rt, "buffers", count, FRAME_BYTES, start.elapsed(rt)?)
}

/// Measures `count` frames, encoded and dropped.
pub(crate) fn encoded(
    rt: &HostRuntime,
    what: &str,
    sample: &Sample,
    count: u32,
) -> anyhow::Result<()> {
    let start = Instant::now(rt)?;
    for _ in 0..count {
        let _ = sample.frame()?;
    }
    report(rt, what, count, sample.bytes(), start.elapsed(rt)?)
}

/// Sends a frame and takes it, `count` times. Returns how many had the sample's length.
fn both<R: Wait, O: FrameOut, I: FrameIn>(
    rt: &R,
    sample: &Sample,
    outward: &mut O,
    inward: &mut I,
    count: u32,
) -> Result<u32, Refusal>
    requires { (O.state outward.old).partly ≡ None }
{
    let mut taken: u32 = 0;
    for _ in 0..count {
        send(rt, outward, sample.frame()?);
        if length(&receive(rt, inward)?) == sample.bytes() {
            taken = taken.saturating_add(1);
        }
    }
    Ok(taken)
}

/// Measures `count` frames, encoded, sent and taken in one thread.
pub(crate) fn one_thread<R: Wait>(
    rt: &R,
    host: &HostRuntime,
    alloc: Global,
    what: &str,
    sample: &Sample,
    count: u32,
) -> anyhow::Result<()> {
    let (mut outward, mut inward) = ruled(rt, alloc, LINK)?;
    let start = Instant::now(host)?;
    let taken = both(rt, sample, &mut outward, &mut inward, count)?;
    report(host, what, taken, sample.bytes(), start.elapsed(host)?)
}

fn send_all<R: Wait, O: FrameOut>(
    rt: &R,
    sample: &Sample,
    end: &mut O,
    count: u32,
) -> Result<(), Refusal>
    requires { (O.state end.old).partly ≡ None }
{
    for _ in 0..count {
        send(rt, end, sample.frame()?);
    }
    Ok(())
}

/// Takes this many frames, and returns how many of them have this length.
fn receive_all<R: Wait, I: FrameIn>(
    rt: &R,
    bytes: usize,
    end: &mut I,
    count: u32,
) -> Result<u32, Refusal> {
    let mut taken: u32 = 0;
    for _ in 0..count {
        if length(&receive(rt, end)?) == bytes {
            taken = taken.saturating_add(1);
        }
    }
    Ok(taken)
}

/// Measures `count` frames, encoded and sent in one thread and taken in another.
pub(crate) fn two_threads<R: Threads + Wait + Sync>(
    rt: &R,
    host: &HostRuntime,
    alloc: Global,
    what: &str,
    sample: Sample,
    count: u32,
) -> anyhow::Result<()> {
    let bytes = sample.bytes();
    let (mut outward, mut inward) = ruled(rt, alloc, LINK)?;
    let start = Instant::now(host)?;
    let ((outward, sent), (inward, taken)) = thread::join(
        rt,
        move || -> (RuledOut<&R>, Result<(), Refusal>)
            requires { outward.partly ≡ None }
        {
            let sent = send_all(rt, &sample, &mut outward, count);
            (outward, sent)
        },
        move || {
            let taken = receive_all(rt, bytes, &mut inward, count);
            (inward, taken)
        },
    );
    sent?;
    report(host, what, taken?, bytes, start.elapsed(host)?)?;
    let _ = (outward, inward);
    Ok(())
}
