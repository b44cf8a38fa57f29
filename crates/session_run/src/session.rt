//! A session over a link in this process, from its start to its settlement.
ghost use Rattle.session_run.specs.Plan.{AreWriters};
ghost use Rattle.std.specs.Prelude.{◌≡◌, ◌*◌, ◌<◌, slice_get, vec_len, IfOk};
ghost use Rattle.thread_link.specs.Names as names;
ghost use Rattle.session_run.specs.Outcome.{IsLinked, IsRun};
ghost use Rattle.settlement.specs.Settled.{WasHonest};
ghost use Rattle.volume.specs.Links.{AreEndsOf};
ghost use Rattle.volume.specs.Opening.{opening_of};

use crate::parts::{Disks, parts};
use crate::report::{RunReport, conclude};
use crate::workers::work;
use crate::written::{Written, gather};
use blocks::{MemStore, Refusal};
use ghost_log::Blank;
use image_store::PerDisk;
use metadata::StableFile;
use program_values::RunOptions;
use std::alloc::Global;
use std::io::Write;
use std::marker::Brand;
use thread_link::{RuledIn, RuledOut, ruled};
use told::Callers;
use volume::{Began, Linked, Runtime, Session, SessionStart, SharedLinkSession};

/// Runs a session over the images of two disks: starts it, makes all writes while the link is cut, ends it, and
/// settles. Reports on `err` what the options ask for.
///
/// `BadSetting` (15) if a setting is out of its range or an image does not have its blocks; else the refusals of
/// `Session::start`, of `Device::write` and `reconnect`, of `Session::finish` and of `settle`, in this order.
pub(crate) fn run_session<R: Runtime, E: Write + Send>(
    rt: R,
    alloc: Global,
    options: &RunOptions,
    images: PerDisk<Vec<u8>>,
    err: &mut E,
) -> Result<RunReport, Refusal>
    ensures completed { IfOk result (λ report. report.completed ≡ options.now.writers * options.now.writes) }
    ensures outcome { IfOk result (IsRun options.now images.local.items images.peer.items) }
{
    let (parts, disks) = parts(alloc, options, images)?;
    let there = ruled(rt, alloc, parts.settings.link)?;
    let back = ruled(rt, alloc, parts.settings.link)?;
    let blank = Blank::new();
    run_named::<Brand, R, E>(rt, alloc, options, there, back, disks, parts, blank, err)
}

// Uses the session, from its start to its end, in one function over its name, which the caller picks.
fn run_named<L: Linked + Send + Sync + 'static, R: Runtime, E: Write + Send>(
    rt: R,
    alloc: Global,
    options: &RunOptions,
    there: (RuledOut<R>, RuledIn<R>),
    back: (RuledOut<R>, RuledIn<R>),
    disks: Disks,
    parts: SessionStart,
    blank: Blank,
    err: &mut E,
) -> Result<RunReport, Refusal>
    requires blocks { 0 < options.now.blocks }
    requires there { AreEndsOf L.link names.There there }
    requires back { AreEndsOf L.link names.Back back }
    requires opening { L.opening ≡ opening_of parts (slice_get disks.local) (slice_get disks.peer) }
    requires log { blank.name ≡ L.log }
    requires honest { WasHonest L.opening }
    requires unparted { L.opening.own.bitmap ≡ 0 }
    ensures completed { IfOk result (λ report. report.completed ≡ options.now.writers * options.now.writes) }
    ensures outcome { IfOk result (IsLinked options.now L.opening) }
{
    let PerDisk { local, peer } = disks;
    match Session::<R, L, MemStore, MemStore>::start(
        rt, alloc, there, back, local, peer, parts, blank,
    ) {
        Ok(session) => {
            let callers = session.callers();
            let worked = work_over(&rt, alloc, session.mirror(), callers, options, err);
            match session.finish() {
                Ok((primary, secondary, log)) => {
                    let receipts = gather(alloc, options, log, worked);
                    conclude(options, receipts, primary, secondary)
                }
                Err(refusal) => Err(worked.err().unwrap_or(refusal)),
            }
        }
        Err(refusal) => Err(refusal),
    }
}

// Has the writers write to the mirror, whatever the type of its metadata's files.
fn work_over<
    L: Linked + Send + Sync + 'static,
    R: Runtime,
    F: StableFile + Send + 'static,
    G: StableFile + Send + 'static,
    E: Write + Send,
>(
    rt: &R,
    alloc: Global,
    mirror: &SharedLinkSession<R, L, MemStore, MemStore, F, G>,
    callers: &Callers<Began<L>>,
    options: &RunOptions,
    err: &mut E,
) -> Result<Vec<Written<Began<L>>>, Refusal>
    requires { 0 < options.now.blocks }
    ensures count { IfOk result (λ written. vec_len written ≡ options.now.writers) }
    ensures writers { IfOk result (λ written. AreWriters options.now written.items) }
{
    work(rt, alloc, mirror, callers, options, err)
}
