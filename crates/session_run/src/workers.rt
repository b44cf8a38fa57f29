//! The threads of a run: those that write, the one that cuts the link, and the one that reports.
ghost use Rattle.std.specs.Prelude.{◌≡◌, ◌<◌, ◌^◌, vec_len, IfOk};
ghost use Rattle.std.specs.Thread.{IsSend, IsSync};
ghost use Rattle.session_run.specs.Plan.{AreWriters, IsWriter};

use crate::progress::{Progress, report};
use crate::written::Written;
use blocks::{BLOCK_BYTES, ConnectionWords, Refusal};
use bytes::Bytes;
use ghost_log::LogName;
use program_values::{RunOptions, byte_of_turn, reconnect_words};
use session_api::{Device, Runtime};
use std::alloc::Global;
use std::io::Write;
use std::sync::Wait;
use std::thread;
use std::time::{Clock, Duration};
use told::{Caller, Callers};

/// How long a thread waits between two cuts, and before it asks the session again, in milliseconds.
const PAUSE_MS: u64 = 1;

/// Makes all writes of a run over a device while its link is cut, each writer as a caller of its own, reports on `err` what the options
/// ask for, and returns what each writer has done once the disks are alike or the link is down. If writers are refused, returns the
/// refusal of the first of them; every other writer still makes its writes. The device must have blocks.
pub(crate) fn work<
    R: Runtime,
    N: LogName + Send + Sync,
    D: Device<Name = N> + Sync,
    E: Write + Send,
>(
    rt: &R,
    alloc: Global,
    device: &D,
    callers: &Callers<N>,
    options: &RunOptions,
    err: &mut E,
) -> Result<Vec<Written<N>>, Refusal>
    requires { 0 < options.now.blocks }
    ensures count { IfOk result (λ written. vec_len written ≡ options.now.writers) }
    ensures writers { IfOk result (λ written. AreWriters options.now written.items) }
{
    let progress = Progress::new();
    if !options.live.status && !options.live.progress {
        return write_and_cut(rt, alloc, device, callers, options, &progress);
    }
    let (_, worked) = thread::join(
        rt,
        || { report(rt, device, options, &progress, err) },
        || -> Result<Vec<Written<N>>, Refusal>
            requires { IsSend R.row × IsSync R.row × IsSync D.row × (0 < options.now.blocks) }
        {
            let worked = write_and_cut(rt, alloc, device, callers, options, &progress);
            progress.end(rt);
            worked
        },
    );
    worked
}

// Makes all writes while the link is cut, and then waits until the disks are alike, if the link is up.
fn write_and_cut<R: Runtime, N: LogName + Send + Sync, D: Device<Name = N> + Sync>(
    rt: &R,
    alloc: Global,
    device: &D,
    callers: &Callers<N>,
    options: &RunOptions,
    progress: &Progress,
) -> Result<Vec<Written<N>>, Refusal>
    requires { 0 < options.now.blocks }
    ensures count { IfOk result (λ written. vec_len written ≡ options.now.writers) }
    ensures writers { IfOk result (λ written. AreWriters options.now written.items) }
{
    let (cut, written) = thread::join(
        rt,
        || -> Result<(), Refusal> { cut_all(rt, device, options.cuts) },
        || -> Result<Vec<Written<N>>, Refusal>
            requires { IsSend R.row × IsSync R.row × IsSync D.row × (0 < options.now.blocks) }
        { write_all(rt, alloc, device, callers, options, progress) },
    );
    rest(rt, device);
    let written = written?;
    cut?;
    Ok(written)
}

// Waits until the link has nothing more to do.
fn rest<R: Wait + Clock>(rt: &R, device: &impl Device) {
    for _ in rt.forever() {
        if device.progress().is_quiet() {
            break;
        }
        thread::sleep(rt, Duration::from_millis(PAUSE_MS));
    }
}

// Makes the writes of each writer in a thread of its own, as a new caller. Returns what each has done, one writer after another.
fn write_all<R: Runtime, N: LogName + Send + Sync, D: Device<Name = N> + Sync>(
    rt: &R,
    alloc: Global,
    device: &D,
    callers: &Callers<N>,
    options: &RunOptions,
    progress: &Progress,
) -> Result<Vec<Written<N>>, Refusal>
    requires { 0 < options.now.blocks }
    ensures count { IfOk result (λ written. vec_len written ≡ options.now.writers) }
    ensures writers { IfOk result (λ written. AreWriters options.now written.items) }
{
    let results = thread::map_indices(
        rt,
        alloc,
        options.writers as usize,
        &|writer| -> Result<Written<N>, Refusal>
            requires { (0 < options.now.blocks) × (writer < 2 ^ 32) }
            ensures { IfOk result (IsWriter options.entry.now writer) }
        {
            write_turns(
                alloc,
                device,
                callers.caller(),
                options,
                writer as u32,
                progress,
            )
        },
    )?;
    let mut all = Vec::with_capacity(alloc, results.len())?;
    for written in results {
        all.push(written?)?;
    }
    Ok(all)
}

// Makes the writes of one writer, one after another, as this caller. Returns their receipts in this order, and the caller.
fn write_turns<D: Device>(
    alloc: Global,
    device: &D,
    caller: Caller<D::Name>,
    options: &RunOptions,
    writer: u32,
    progress: &Progress,
) -> Result<Written<D::Name>, Refusal>
    requires { 0 < options.now.blocks }
    ensures { IfOk result (IsWriter options.now writer) }
{
    let mut me = caller;
    let mut receipts = Vec::with_capacity(alloc, options.writes as usize)?;
    for turn in 0..options.writes {
        let bytes = Bytes::copy_from_slice(alloc, &[byte_of_turn(writer, turn); BLOCK_BYTES])?;
        receipts.push(device.write(&mut me, options.block(writer, turn), &bytes)?)?;
        progress.count();
    }
    Ok(Written { receipts, me })
}

// Cuts the link and reconnects it, `cuts` times.
fn cut_all<R: Wait + Clock>(rt: &R, device: &impl Device, cuts: u32) -> Result<(), Refusal> {
    for round in 1..=cuts {
        device.cut();
        reconnect(rt, device, round)?;
        thread::sleep(rt, Duration::from_millis(PAUSE_MS));
    }
    Ok(())
}

// Reconnects once the secondary's disk has done its items.
fn reconnect<R: Wait + Clock>(rt: &R, device: &impl Device, round: u32) -> Result<(), Refusal> {
    let words = reconnect_words(round);
    for _ in rt.forever() {
        match device.reconnect(words) {
            Err(Refusal::NotDrained) => thread::sleep(rt, Duration::from_millis(PAUSE_MS)),
            Err(refusal) => return Err(refusal),
            Ok(_) => return Ok(()),
        }
    }
    unreachable!()
}
