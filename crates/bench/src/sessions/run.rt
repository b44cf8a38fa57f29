//! A measured session, from its start to its end.
ghost use Rattle.std.specs.Prelude.{◌≡◌, None, slice_get};
ghost use Rattle.thread_link.specs.Names as names;
ghost use Rattle.volume.specs.Links.{AreEndsOf};
ghost use Rattle.volume.specs.Opening.{opening_of};

use crate::sessions::report::Report;
use crate::sessions::writers::write_all;
use bitmap::Bitmap;
use blocks::{ConnectionWords, MemStore, Protocol, Refusal, Settings, Tuple};
use ghost_log::{Blank, LogName};
use link::{FrameIn, FrameOut};
use metadata::StableFile;
use primary::Primary;
use secondary::Secondary;
use std::alloc::Global;
use std::fmt::Display;
use std::marker::Brand;
use std::net::{Net, TcpListener, TcpStream};
use std::time::{Duration, Instant};
use std::{fmt, thread};
use stream_session::{Beginning, Socket, StreamSession, Ways, loopback};
use thread_link::{RuledIn, RuledOut, ruled};
use told::{Callers, ToldLog};
use volume::{
    Began, Device, Linked, LockedPrimary, LockedSecondary, Runtime, Session, SessionStart,
    SharedLinkSession, SharedSession,
};

/// Blocks of the device of a session: 32 MiB.
pub(crate) const BLOCKS: u32 = 8_192;

/// The disks of both nodes.
#[derive(Drop)]
struct Disks {
    local: MemStore,
    peer: MemStore,
}

/// How frames go from one node to the other.
#[derive(Clone, Copy, Debug, PartialEq, Eq)]
pub(crate) enum Path {
    Link,
    Sockets,
}

impl Display for Path {
    fn fmt<W: fmt::Write>(&self, f: &mut fmt::Formatter<W>) -> fmt::Result {
        f.write_str(match self {
            Path::Link => "a link",
            Path::Sockets => "sockets",
        })
    }
}

/// A session, the writes of each of its writers, and how long it is left alone after them.
#[derive(Clone, Copy, Debug, PartialEq, Eq)]
pub(crate) struct Plan {
    pub(crate) path: Path,
    pub(crate) protocol: Protocol,
    pub(crate) writers: u32,
    pub(crate) writes: u32,
    pub(crate) rest: Duration,
}

/// Runs a session over two disks filled with zeros. Returns the report of its writers.
pub(crate) fn run<R: Runtime + Net<Listener = TcpListener, Stream = TcpStream>>(
    rt: R,
    alloc: Global,
    plan: Plan,
) -> anyhow::Result<Report> {
    Ok(match plan.path {
        Path::Link => run_linked(rt, alloc, plan)?,
        Path::Sockets => run_over(rt, alloc, plan, loopback(&rt)?)?,
    })
}

// Returns what a session starts from, and its two disks.
fn parts(alloc: Global, plan: Plan) -> Result<(SessionStart, Disks), Refusal> {
    let settings = Settings {
        protocol: plan.protocol,
        blocks: BLOCKS,
        ..Settings::STANDARD
    };
    let alike = Tuple::new(1, 0, 0, 0);
    let parts = SessionStart {
        settings,
        own: alike,
        peer: alike,
        marks: Bitmap::unmarked(alloc, u64::from(BLOCKS))?,
        words: ConnectionWords { sync: 2, loss: 3 },
        is_cut: false,
    };
    let local = MemStore::zeroed(alloc, BLOCKS)?;
    let peer = MemStore::zeroed(alloc, BLOCKS)?;
    Ok((parts, Disks { local, peer }))
}

// Runs a session over a link.
fn run_linked<R: Runtime>(rt: R, alloc: Global, plan: Plan) -> Result<Report, Refusal> {
    let there = ruled(rt, alloc, Settings::STANDARD.link)?;
    let back = ruled(rt, alloc, Settings::STANDARD.link)?;
    let (parts, disks) = parts(alloc, plan)?;
    run_named::<Brand, R>(rt, alloc, plan, there, back, disks, parts, Blank::new())
}

// Runs it in one function over its name, which the caller picks.
fn run_named<L: Linked + Send + Sync + 'static, R: Runtime>(
    rt: R,
    alloc: Global,
    plan: Plan,
    there: (RuledOut<R>, RuledIn<R>),
    back: (RuledOut<R>, RuledIn<R>),
    disks: Disks,
    parts: SessionStart,
    blank: Blank,
) -> Result<Report, Refusal>
    requires there { AreEndsOf L.link names.There there }
    requires back { AreEndsOf L.link names.Back back }
    requires opening { L.opening ≡ opening_of parts (slice_get disks.local) (slice_get disks.peer) }
    requires log { blank.name ≡ L.log }
{
    let Disks { local, peer } = disks;
    let session = Session::<R, L, MemStore, MemStore>::start(
        rt, alloc, there, back, local, peer, parts, blank,
    )?;
    let report = measured_linked(&rt, alloc, session.mirror(), session.callers(), plan);
    end(session.finish())?;
    report
}

// Runs a session over sockets.
fn run_over<R: Runtime>(
    rt: R,
    alloc: Global,
    plan: Plan,
    ways: Ways<Socket, Socket>,
) -> Result<Report, Refusal> {
    run_named_over::<Brand, R>(rt, alloc, plan, ways, Blank::new())
}

// Runs it in one function over its beginning, which the caller picks.
fn run_named_over<B: Beginning + Send + Sync + 'static, R: Runtime>(
    rt: R,
    alloc: Global,
    plan: Plan,
    ways: Ways<Socket, Socket>,
    blank: Blank,
) -> Result<Report, Refusal>
    requires opening { B.opening ≡ None }
    requires log { blank.name ≡ B.name }
{
    let (parts, Disks { local, peer }) = parts(alloc, plan)?;
    let session = StreamSession::<R, B, MemStore, MemStore>::start_over(
        rt, alloc, local, peer, parts, ways, blank,
    )?;
    let report = measured_over(&rt, alloc, session.mirror(), session.callers(), plan);
    end(session.finish())?;
    report
}

// Drops both nodes of an ended session.
fn end<O: FrameOut + Drop, I: FrameIn + Drop, P: FrameOut + Drop, J: FrameIn + Drop, N: LogName>(
    ended: Result<
        (
            Primary<O, I, MemStore>,
            Secondary<P, J, MemStore>,
            ToldLog<N>,
        ),
        Refusal,
    >,
) -> Result<(), Refusal> {
    let (primary, secondary, _) = ended?;
    drop((primary.into_store(), secondary.into_store()));
    Ok(())
}

// The mirror of a session over sockets with metadata files of these types.
type FiledSession<R, B, F, G> = SharedSession<
    R,
    LockedPrimary<R, B, RuledOut<R>, RuledIn<R>, MemStore, F>,
    LockedSecondary<R, B, RuledOut<R>, RuledIn<R>, MemStore, G>,
>;

// Measures a session over a link, whatever the type of its metadata's files.
fn measured_linked<
    L: Linked + Send + Sync + 'static,
    R: Runtime,
    F: StableFile + Send + 'static,
    G: StableFile + Send + 'static,
>(
    rt: &R,
    alloc: Global,
    mirror: &SharedLinkSession<R, L, MemStore, MemStore, F, G>,
    callers: &Callers<Began<L>>,
    plan: Plan,
) -> Result<Report, Refusal> {
    measured(rt, alloc, mirror, callers, plan)
}

// Measures a session over sockets, whatever the type of its metadata's files.
fn measured_over<
    B: Beginning + Send + Sync + 'static,
    R: Runtime,
    F: StableFile + Send + 'static,
    G: StableFile + Send + 'static,
>(
    rt: &R,
    alloc: Global,
    mirror: &FiledSession<R, B, F, G>,
    callers: &Callers<B>,
    plan: Plan,
) -> Result<Report, Refusal> {
    measured(rt, alloc, mirror, callers, plan)
}

// Makes all writes of a session that runs, and then leaves it alone.
fn measured<R: Runtime, N: LogName + Send + Sync, D: Device<Name = N> + Sync>(
    rt: &R,
    alloc: Global,
    mirror: &D,
    callers: &Callers<N>,
    plan: Plan,
) -> Result<Report, Refusal> {
    let start = Instant::now(rt);
    let waits = write_all(rt, alloc, mirror, callers, plan)?;
    let time = match start {
        Ok(start) => start.elapsed(rt),
        Err(error) => Err(error),
    };
    thread::sleep(rt, plan.rest);
    Ok(Report::of(waits, time.unwrap_or(Duration::from_secs(0))))
}
