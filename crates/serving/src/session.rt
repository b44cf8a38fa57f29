//! One session of a server, from its start to its settlement.
ghost use Rattle.thread_link.specs.Names as names;
ghost use Rattle.serving.specs.Links.{IsNewDirection};
ghost use Rattle.served_images.specs.Sessions.{IsSession, opening};
ghost use Rattle.model.specs.Headline.{IsJoined};
ghost use Rattle.model.specs.Primary.{PrimaryHistory};
ghost use Rattle.model.specs.Secondary.{SecondaryHistory};
ghost use Rattle.serve_requests.specs.Answered.{AreAnswered};
ghost use Rattle.session_nodes.specs.Primaries.{PrimaryHas};
ghost use Rattle.session_nodes.specs.Secondaries.{SecondaryHas, SecondaryIsHad};
ghost use Rattle.std.specs.Prelude.{◌≡◌, ◌≤◌, Some, slice_get, IfOk};
ghost use Rattle.told.specs.Log.{WasTold};
ghost use Rattle.told_nodes.specs.Told.{IsTold};
ghost use Rattle.volume.specs.Links.{AreEndsOf};
ghost use Rattle.volume.specs.Opening.{opening_of};

use blocks::{Refusal, Settings, Store};
use disk_pair::Disks;
use ghost_log::{Blank, LogName};
use image_metadata::{ImageFile, OpeningBytes};
use metadata::StableFile;
use primary::Receipt;
use serve_clients::{Service, work};
use serve_requests::Answered;
use served_images::{ImagesMetadata, SessionEnd, Totals, settle_session};
use std::alloc::Global;
use std::io::Write;
use std::marker::Brand;
use std::sync::Wait;
use thread_link::{RuledIn, RuledOut, ruled};
use told::ToldLog;
use volume::{Began, Finished, KeptSession, Linked, PairMetadata, Runtime, SessionStart};

/// Both ends of a direction of a link.
type Direction<R> = (RuledOut<R>, RuledIn<R>);

/// What a session leaves, and what came of its clients' requests.
type FinishedAndWorked<R, L, D, F, G> = (
    Finished<R, L, D, D, F, G>,
    Result<Answered<Began<L>>, Refusal>,
);

/// Runs a session over these disks, does the requests of clients over it, and returns what it leaves. The refusals are
/// `BadSetting` (15), `NoMemory` (7), and those of `Session::start`, `serve_clients::work`, `Session::finish`, `confirm_all` and
/// `parts_after`. If a sync of the peer's image has failed, nothing is sent to it: the link is cut after the hello. The log goes to `err`.
pub(crate) fn run_session<
    R: Runtime,
    D: Store + Drop + Send + 'static,
    M: OpeningBytes + Send + 'static,
    N: OpeningBytes + Send + 'static,
    E: Write + Send,
>(
    rt: R,
    service: &Service,
    cut_every: Option<u32>,
    start: SessionEnd<D, M, N>,
    err: &mut E,
) -> Result<SessionEnd<D, M, N>, Refusal>
    ensures session { IfOk result (λ next. IsSession (opening start) start.totals next) }
{
    let SessionEnd {
        disks,
        parts,
        totals,
        metadata,
    } = start;
    let parts = SessionStart {
        is_cut: service.requests.is_peer_failed(),
        ..parts
    };
    match link(rt, service.alloc, parts.settings) {
        Ok((there, back)) => {
            let blank = Blank::new();
            run_named::<Brand, R, D, M, N, E>(
                rt, service, cut_every, there, back, disks, parts, totals, metadata, blank, err,
            )
        }
        Err(refusal) => Err(refusal),
    }
}

// Creates both directions of a session's link. `BadSetting` (15) if a setting is out of its range, else `NoMemory` (7)
// if there is no memory for them.
fn link<R: Wait + Copy>(
    rt: R,
    alloc: Global,
    settings: Settings,
) -> Result<(Direction<R>, Direction<R>), Refusal>
    ensures there { IfOk result (λ link. IsNewDirection link.0) }
    ensures back { IfOk result (λ link. IsNewDirection link.1) }
{
    settings.check()?;
    let there = ruled(rt, alloc, settings.link)?;
    let back = ruled(rt, alloc, settings.link)?;
    Ok((there, back))
}

// Uses the session, from its start to its end, in one function over its name, which the caller picks.
fn run_named<
    L: Linked + Send + Sync + 'static,
    R: Runtime,
    D: Store + Drop + Send + 'static,
    M: OpeningBytes + Send + 'static,
    N: OpeningBytes + Send + 'static,
    E: Write + Send,
>(
    rt: R,
    service: &Service,
    cut_every: Option<u32>,
    there: Direction<R>,
    back: Direction<R>,
    disks: Disks<D>,
    parts: SessionStart,
    totals: Totals,
    metadata: ImagesMetadata<M, N>,
    blank: Blank,
    err: &mut E,
) -> Result<SessionEnd<D, M, N>, Refusal>
    requires there { AreEndsOf L.link names.There there }
    requires back { AreEndsOf L.link names.Back back }
    requires opening { L.opening ≡ opening_of parts (slice_get disks.local) (slice_get disks.peer) }
    requires log { blank.name ≡ L.log }
    ensures session { IfOk result (λ next. IsSession L.opening totals next) }
{
    match run_filed::<L, R, D, ImageFile<M>, ImageFile<N>, E>(
        rt, service, cut_every, there, back, disks, parts, metadata, blank, err,
    ) {
        Ok((left, worked)) => {
            let Finished {
                primary,
                secondary,
                metadata,
                log,
            } = left;
            let receipts = receipts_of(log, worked);
            settle_session(
                service.alloc,
                service.words(),
                totals,
                metadata,
                primary,
                secondary,
                receipts,
            )
        }
        Err(refusal) => Err(refusal),
    }
}

// Returns the receipts of the requests that a session's threads have ended. The session has ended with this log of what its callers were
// told.
fn receipts_of<J: LogName>(
    log: ToldLog<J>,
    worked: Result<Answered<J>, Refusal>,
) -> Result<Vec<Receipt>, Refusal>
    ensures { IfOk result (λ receipts. AreAnswered (WasTold log.log) receipts.items) }
{
    let mut log = log;
    match worked {
        Ok(answered) => Ok(answered.into_receipts(&mut log)),
        Err(refusal) => Err(refusal),
    }
}

// Starts the session, does the requests of clients over it, and ends it, whatever the type of its metadata's files. Returns what it
// leaves, and what came of the requests.
fn run_filed<
    L: Linked + Send + Sync + 'static,
    R: Runtime,
    D: Store + Drop + Send + 'static,
    F: StableFile + Send + 'static,
    G: StableFile + Send + 'static,
    E: Write + Send,
>(
    rt: R,
    service: &Service,
    cut_every: Option<u32>,
    there: Direction<R>,
    back: Direction<R>,
    disks: Disks<D>,
    parts: SessionStart,
    metadata: PairMetadata<F, G>,
    blank: Blank,
    err: &mut E,
) -> Result<FinishedAndWorked<R, L, D, F, G>, Refusal>
    requires there { AreEndsOf L.link names.There there }
    requires back { AreEndsOf L.link names.Back back }
    requires opening { L.opening ≡ opening_of parts (slice_get disks.local) (slice_get disks.peer) }
    requires log { blank.name ≡ L.log }
    ensures told { IfOk result (λ ran. IsTold (Some L.opening) ran.0.log.log ran.0.primary) }
    ensures had { IfOk result (λ ran. SecondaryIsHad (Some L.opening) ran.0.secondary) }
    ensures joined { IfOk result (λ ran. (p : PrimaryHistory) (s : SecondaryHistory) → PrimaryHas ran.0.primary p → SecondaryHas ran.0.secondary s → IsJoined p s) }
    ensures numbered { IfOk result (λ ran. ran.0.secondary.core.number ≤ ran.0.primary.core.connections) }
{
    let Disks { local, peer } = disks;
    match KeptSession::<R, L, D, D, F, G>::start(
        rt,
        service.alloc,
        there,
        back,
        local,
        peer,
        parts,
        metadata,
        blank,
    ) {
        Ok(session) => {
            let callers = session.callers();
            let worked = work(&rt, service, session.mirror(), callers, cut_every, err);
            match session.finish() {
                Ok(left) => Ok((left, worked)),
                Err(refusal) => Err(refusal),
            }
        }
        Err(refusal) => Err(refusal),
    }
}
