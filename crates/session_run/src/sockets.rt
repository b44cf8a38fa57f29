//! A session over two sockets of this machine, from its start to its settlement.
ghost use Rattle.session_run.specs.Plan.{AreWriters};
ghost use Rattle.std.specs.Prelude.{◌≡◌, ◌*◌, ◌<◌, Some, slice_get, vec_len, IfOk};
ghost use Rattle.program_values.specs.declared.run_options.Path.TheVariants as path;
ghost use Rattle.session_run.specs.Outcome.{IsOutcome, IsRun};
ghost use Rattle.settlement.specs.Settled.{WasHonest};
ghost use Rattle.volume.specs.Opening.{opening_of};

use crate::parts::{Disks, parts};
use crate::report::{RunReport, conclude};
use crate::workers::work;
use crate::written::{Written, gather};
use blocks::{MemStore, Refusal};
use ghost_log::Blank;
use image_store::PerDisk;
use locked_halves::{LockedPrimary, LockedSecondary};
use metadata::StableFile;
use program_values::RunOptions;
use session_threads::SharedSession;
use std::alloc::Global;
use std::io::Write;
use std::marker::Brand;
use stream_session::{Beginning, Socket, StreamSession, Ways};
use thread_link::{RuledIn, RuledOut};
use told::Callers;
use volume::{Runtime, SessionStart};

/// Runs a session over the images of two disks and these sockets: starts it, makes all writes, ends it, and settles.
/// Reports on `err` what the options ask for.
///
/// `BadSetting` (15) if a setting is out of its range or an image does not have its blocks; else the refusals of
/// `StreamSession::start_over`, of `Device::write`, of `StreamSession::finish` and of `settle`, in this order.
pub(crate) fn run_over<R: Runtime, E: Write + Send>(
    rt: R,
    alloc: Global,
    options: &RunOptions,
    images: PerDisk<Vec<u8>>,
    ways: Ways<Socket, Socket>,
    err: &mut E,
) -> Result<RunReport, Refusal>
    requires { options.now.path ≡ path.Sockets }
    ensures completed { IfOk result (λ report. report.completed ≡ options.now.writers * options.now.writes) }
    ensures outcome { IfOk result (IsRun options.now images.local.items images.peer.items) }
{
    let (parts, disks) = parts(alloc, options, images)?;
    let blank = Blank::new();
    run_begun::<Brand, R, E>(rt, alloc, options, ways, disks, parts, blank, err)
}

// Uses the session, from its start to its end, in one function over its beginning, which the caller picks.
fn run_begun<B: Beginning + Send + Sync + 'static, R: Runtime, E: Write + Send>(
    rt: R,
    alloc: Global,
    options: &RunOptions,
    ways: Ways<Socket, Socket>,
    disks: Disks,
    parts: SessionStart,
    blank: Blank,
    err: &mut E,
) -> Result<RunReport, Refusal>
    requires blocks { 0 < options.now.blocks }
    requires opening { B.opening ≡ Some (opening_of parts (slice_get disks.local) (slice_get disks.peer)) }
    requires log { blank.name ≡ B.name }
    requires honest { WasHonest (opening_of parts (slice_get disks.local) (slice_get disks.peer)) }
    requires unparted { parts.own.bitmap ≡ 0 }
    ensures completed { IfOk result (λ report. report.completed ≡ options.now.writers * options.now.writes) }
    ensures outcome { IfOk result (IsOutcome options.now (opening_of parts (slice_get disks.local) (slice_get disks.peer))) }
{
    let PerDisk { local, peer } = disks;
    match StreamSession::<R, B, MemStore, MemStore>::start_over(
        rt, alloc, local, peer, parts, ways, blank,
    ) {
        Ok(session) => {
            let callers = session.callers();
            let worked = work_over(&rt, alloc, session.mirror(), callers, options, err);
            match session.finish() {
                Ok((primary, secondary, log)) => {
                    let receipts = gather(alloc, options, log, worked);
                    conclude(options, receipts, primary, secondary)
                }
                Err(refusal) => Err(worked.err().unwrap_or(refusal)),
            }
        }
        Err(refusal) => Err(refusal),
    }
}

// The mirror of a session over streams with metadata files of these types.
type FiledSession<R, B, F, G> = SharedSession<
    R,
    LockedPrimary<R, B, RuledOut<R>, RuledIn<R>, MemStore, F>,
    LockedSecondary<R, B, RuledOut<R>, RuledIn<R>, MemStore, G>,
>;

// Has the writers write to the mirror, whatever the type of its metadata's files.
fn work_over<
    B: Beginning + Send + Sync + 'static,
    R: Runtime,
    F: StableFile + Send + 'static,
    G: StableFile + Send + 'static,
    E: Write + Send,
>(
    rt: &R,
    alloc: Global,
    mirror: &FiledSession<R, B, F, G>,
    callers: &Callers<B>,
    options: &RunOptions,
    err: &mut E,
) -> Result<Vec<Written<B>>, Refusal>
    requires { 0 < options.now.blocks }
    ensures count { IfOk result (λ written. vec_len written ≡ options.now.writers) }
    ensures writers { IfOk result (λ written. AreWriters options.now written.items) }
{
    work(rt, alloc, mirror, callers, options, err)
}
