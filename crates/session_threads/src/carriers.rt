//! The pumps of a session over streams, each in a thread of its own, and the thread that receives the reports of their
//! ends.
ghost use Rattle.std.specs.Prelude.{◌≡◌, ◌<◌, ◌*◌, IfErr, IfOk};
ghost use Rattle.blocks.specs.declared.refusal.Refusal.TheVariants.{NoMemory};
ghost use Rattle.endpoint.specs.Calls.{IsNewIn, IsNewOut};
ghost use Rattle.thread_link.specs.Inward.{taking};
ghost use Rattle.thread_link.specs.Outward.{sending};
ghost use Rattle.thread_link.specs.declared.ends.TheConstants.{FRAME_PIECES};

use crate::shared::Shared;
use crate::way::{Sink, Source, Way};
use crate::workers::Workers;
use blocks::Refusal;
use crossbeam_channel::{Receiver, Sender, bounded};
use pumps::{Buffer, PumpEnd, pump_in, pump_out};
use session_api::{PrimaryHalf, Runtime, SecondaryHalf};
use std::alloc::Global;
use std::io::{Read, Write};
use std::sync::{Arc, Wait};
use std::thread;
use std::time::Clock;
use thread_link::{FRAME_PIECES, PieceIn, PieceOut, RuledIn, RuledOut, frame_row, row};

/// The pumps of a session.
const PUMPS: usize = 4;

/// The pumps' ends of the two rows of a half.
#[derive(Drop)]
pub struct PumpEnds<R: Wait + Drop> {
    // The pieces that the node sends leave here.
    pub(crate) leaving: PieceIn<R>,
    // The pieces that the node takes come in here.
    pub(crate) coming: PieceOut<R>,
}

/// The pumps' ends of each node's rows.
#[derive(Drop)]
pub struct Rows<R: Wait + Drop> {
    pub primary: PumpEnds<R>,
    pub secondary: PumpEnds<R>,
}

/// Creates the two rows of a half, and returns the node's ends and the pumps'. The row by which a node sends has room for
/// exactly `link` frames, and the one by which it takes for as many of the longest ones, in 31 pieces each (`room`).
/// `NoMemory` (7) if there is no memory for them, and no other refusal.
pub fn half_rows<R: Wait + Copy + Drop>(
    rt: R,
    alloc: Global,
    link: u32,
) -> Result<((RuledOut<R>, RuledIn<R>), PumpEnds<R>), Refusal>
    requires { 0 < link }
    ensures unused { IfOk result (λ r. IsNewOut (sending r.0.0) × IsNewIn (taking r.0.1)) }
    ensures room { IfOk result (λ r. (r.0.0.row.slots ≡ link) × (r.0.1.row.slots ≡ FRAME_PIECES * link)) }
    ensures refused { IfErr result (λ e. e ≡ NoMemory) }
{
    let (pushed, leaving) = frame_row(rt, alloc, link as usize)?;
    let (coming, popped) = row(rt, alloc, FRAME_PIECES * link as usize)?;
    match RuledIn::new(alloc, popped) {
        Ok(incoming) => Ok((
            (RuledOut::new(pushed), incoming),
            PumpEnds { leaving, coming },
        )),
        Err(refusal) => Err(refusal),
    }
}

/// Which half a pump works for.
#[derive(Clone, Copy, Debug, PartialEq, Eq)]
pub(crate) enum Half {
    Primary,
    Secondary,
}

/// The half that a way starts at, and the half that it leads to.
#[derive(Clone, Copy, Debug, PartialEq, Eq)]
pub(crate) struct Route {
    from: Half,
    to: Half,
}

pub(crate) const TO_SECONDARY: Route = Route {
    from: Half::Primary,
    to: Half::Secondary,
};

pub(crate) const TO_PRIMARY: Route = Route {
    from: Half::Secondary,
    to: Half::Primary,
};

/// Starts pumps, and gives each a channel on which it reports its end.
#[derive(Drop)]
pub(crate) struct Carrier {
    alloc: Global,
    ends: Sender<PumpEnd, Global>,
}

impl Carrier {
    /// Creates a carrier, and starts a thread that closes both ends of the link each time a pump ends, until no pump
    /// remains. `NoMemory` (7) if there is no memory, and if the thread cannot be started.
    pub(crate) fn start<
        R: Runtime,
        A: PrimaryHalf + Drop + Send + Sync + 'static,
        B: SecondaryHalf + Drop + Send + Sync + 'static,
    >(
        alloc: Global,
        workers: &mut Workers,
        shared: &Arc<Shared<R, A, B>, Global>,
    ) -> Result<Carrier, Refusal>
        ensures refused { IfErr result (λ e. e ≡ NoMemory) }
    {
        let (ends, notices) = bounded(alloc, PUMPS)?;
        workers.handles.try_reserve(1)?;
        let listener = Arc::try_clone(shared)?;
        let Ok(handle) = thread::spawn(&shared.rt, move || listener.listen(&notices)) else {
            return Err(Refusal::NoMemory);
        };
        workers.handles.push(handle)?;
        Ok(Carrier { alloc, ends })
    }

    /// Starts both pumps of a way: one at the row of the half that sends, and one at the row of the half that takes.
    pub(crate) fn start_way<
        R: Runtime,
        A: PrimaryHalf + Drop + Send + Sync + 'static,
        B: SecondaryHalf + Drop + Send + Sync + 'static,
        W: Sink,
        D: Source,
    >(
        &self,
        workers: &mut Workers,
        shared: &Arc<Shared<R, A, B>, Global>,
        route: Route,
        rows: (PieceIn<R>, PieceOut<R>),
        way: Way<W, D>,
    ) -> Result<(), Refusal>
        ensures refused { IfErr result (λ e. e ≡ NoMemory) }
    {
        let (leaving, coming) = rows;
        let Way { writer, reader } = way;
        self.start_out(workers, shared, route.from, leaving, writer)?;
        self.start_in(workers, shared, route.to, coming, reader)
    }

    // Starts the pump that writes what a node sends.
    fn start_out<
        R: Runtime,
        A: PrimaryHalf + Drop + Send + Sync + 'static,
        B: SecondaryHalf + Drop + Send + Sync + 'static,
        W: Sink,
    >(
        &self,
        workers: &mut Workers,
        shared: &Arc<Shared<R, A, B>, Global>,
        side: Half,
        row: PieceIn<R>,
        writer: W,
    ) -> Result<(), Refusal>
        ensures refused { IfErr result (λ e. e ≡ NoMemory) }
    {
        let buffer = Buffer::new(self.alloc)?;
        let ends = self.ends.clone()?;
        workers.handles.try_reserve(1)?;
        let pump = Arc::try_clone(shared)?;
        let Ok(handle) = thread::spawn(&shared.rt, move || {
            pump.carry_out(side, row, writer, buffer, ends)
        }) else {
            return Err(Refusal::NoMemory);
        };
        workers.handles.push(handle)?;
        Ok(())
    }

    // Starts the pump that reads what a node takes.
    fn start_in<
        R: Runtime,
        A: PrimaryHalf + Drop + Send + Sync + 'static,
        B: SecondaryHalf + Drop + Send + Sync + 'static,
        D: Source,
    >(
        &self,
        workers: &mut Workers,
        shared: &Arc<Shared<R, A, B>, Global>,
        side: Half,
        row: PieceOut<R>,
        reader: D,
    ) -> Result<(), Refusal>
        ensures refused { IfErr result (λ e. e ≡ NoMemory) }
    {
        let buffer = Buffer::new(self.alloc)?;
        let ends = self.ends.clone()?;
        workers.handles.try_reserve(1)?;
        let pump = Arc::try_clone(shared)?;
        let Ok(handle) = thread::spawn(&shared.rt, move || {
            pump.carry_in(side, row, reader, buffer, ends)
        }) else {
            return Err(Refusal::NoMemory);
        };
        workers.handles.push(handle)?;
        Ok(())
    }
}

impl<R: Wait + Clock + Drop, A: PrimaryHalf, B: SecondaryHalf> Shared<R, A, B> {
    // Closes both ends each time a pump ends, until no pump remains.
    fn listen(&self, notices: &Receiver<PumpEnd, Global>) {
        for _ in notices.iter(&self.rt) {
            self.cut();
        }
    }

    // Runs the pump that writes what a node sends, drops its writer, and reports its end.
    fn carry_out<W: Write + Drop>(
        &self,
        side: Half,
        row: PieceIn<R>,
        writer: W,
        buffer: Buffer,
        ends: Sender<PumpEnd, Global>,
    ) {
        let (mut row, mut writer, mut buffer) = (row, writer, buffer);
        let sent = match side {
            Half::Primary => self.primary.pump_bell(),
            Half::Secondary => self.secondary.pump_bell(),
        };
        let end = pump_out(
            &self.rt,
            &mut row,
            &mut writer,
            &mut buffer,
            &self.stop,
            sent,
        );
        drop(writer);
        self.report(&ends, end);
    }

    // Runs the pump that reads what a node takes, drops its reader, and reports its end.
    fn carry_in<D: Read + Drop>(
        &self,
        side: Half,
        row: PieceOut<R>,
        reader: D,
        buffer: Buffer,
        ends: Sender<PumpEnd, Global>,
    ) {
        let (mut row, mut reader, mut buffer) = (row, reader, buffer);
        let work = match side {
            Half::Primary => self.primary.work_bell(),
            Half::Secondary => self.secondary.work_bell(),
        };
        let end = pump_in(
            &self.rt,
            &mut row,
            &mut reader,
            &mut buffer,
            &self.stop,
            work,
        );
        drop(reader);
        self.report(&ends, end);
    }

    // Reports that a pump has ended. If no thread receives the report, closes both ends here.
    fn report(&self, ends: &Sender<PumpEnd, Global>, end: PumpEnd) {
        if ends.send(&self.rt, end).is_err() {
            self.cut();
        }
    }
}
