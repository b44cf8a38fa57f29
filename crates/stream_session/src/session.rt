//! A session whose frames go over streams of bytes, such as sockets.
ghost use Rattle.std.specs.Prelude.{◌≡◌, ◌<◌, ◌≤◌, ◌⊎◌, ◌*◌, ◌∷◌, ◌++◌, [], List, true, false, Err, length, slice_get, unwrap_or, vec_len, IfErr, IfOk, IfSome, OnErr};
ghost use Rattle.blocks.specs.declared.block.TheConstants.{BLOCK_BYTES};
ghost use Rattle.blocks.specs.declared.refusal.Refusal.TheVariants.{BadRange, NoMemory, NotConnected, NotDrained, ReadFault};
ghost use Rattle.session_api.specs.Opening.{opening_of};
ghost use Rattle.model.specs.CallRefusals.{local_open_refuses, peer_open_refuses, start_over_refuses, streams_hello_refuses, write_refuses};
ghost use Rattle.model.specs.LocalRuns.{Opens, OpensToo, primary_after, secondary_after};
ghost use Rattle.model.specs.Primary.{primary_opening};
ghost use Rattle.model.specs.Secondary.{secondary_opening};
ghost use Rattle.model.specs.Theorems.{primary_at, secondary_at};
ghost use Rattle.session_nodes.specs.Primaries.{PrimaryHas, PrimaryIsHad};
ghost use Rattle.session_nodes.specs.Secondaries.{SecondaryHas, SecondaryIsHad};
ghost use Rattle.told.specs.Log.{Extends};
ghost use Rattle.told.specs.declared.entry.Told.{Told};
ghost use Rattle.told.specs.declared.entry.Told.TheVariants.{Accepted, Given, Held};
ghost use Rattle.told_nodes.specs.Told.{IsTold};

use bitmap::Bitmap;
use blocks::{ConnectionWords, Refusal, Settings, Store, Tuple};
use bytes::Bytes;
use ghost_log::Blank;
use kept_nodes::{KeptSecondary, NoFile};
use locked_halves::{LockedPrimary, LockedSecondary};
use metadata::StableFile;
use primary::{Primary, Receipt};
use secondary::Secondary;
use session_api::{Device, Runtime, SessionStart};
use session_link::check_numbers;
use session_nodes::Beginning;
use session_threads::{PumpEnds, Rows, Running, SharedSession, Sink, Source, Way, Ways, half_rows};
use std::alloc::Global;
use std::sync::Wait;
use std::thread::Threads;
use thread_link::{RuledIn, RuledOut};
use told::{Caller, Callers, ToldLog, open_log};
use told_nodes::ToldPrimary;

// The primary's half of a session over streams, with a metadata file of type `F`.
type FiledPrimary<R, B, S, F> = LockedPrimary<R, B, RuledOut<R>, RuledIn<R>, S, F>;

// The secondary's half of a session over streams, with a metadata file of type `G`.
type FiledSecondary<R, B, T, G> = LockedSecondary<R, B, RuledOut<R>, RuledIn<R>, T, G>;

// The node of such a half, opened, and not yet under its lock.
type OpenedPrimary<R, B, S, F> = ToldPrimary<B, RuledOut<R>, RuledIn<R>, S, F>;

// The node of such a half, opened, and not yet under its lock.
type OpenedSecondary<R, B, T, G> = KeptSecondary<B, RuledOut<R>, RuledIn<R>, T, G>;

/// The primary's half of a session over streams.
pub type LockedStreamPrimary<R, B, S> = LockedPrimary<R, B, RuledOut<R>, RuledIn<R>, S, NoFile>;

/// The secondary's half of a session over streams.
pub type LockedStreamSecondary<R, B, T> = LockedSecondary<R, B, RuledOut<R>, RuledIn<R>, T, NoFile>;

/// The mirror of a session over streams, which any number of threads may share.
pub type SharedStreamSession<R, B, S, T> = SharedSession<
    R,
    LockedStreamPrimary<R, B, S>,
    LockedStreamSecondary<R, B, T>,
>;

/// The primary of a session over streams.
pub type StreamPrimary<R, S> = Primary<RuledOut<R>, RuledIn<R>, S>;

/// The secondary of a session over streams.
pub type StreamSecondary<R, T> = Secondary<RuledOut<R>, RuledIn<R>, T>;

/// A running session over streams. It has one connection. It cannot be dropped: whoever starts it has to finish it.
pub struct StreamSession<R: Threads + Wait + Drop, B: Beginning, S: Store + Drop, T: Store + Drop> {
    running: Running<R, LockedStreamPrimary<R, B, S>, LockedStreamSecondary<R, B, T>>,
    callers: Callers<B>,
}

impl<
    R: Runtime,
    B: Beginning + Send + Sync + 'static,
    S: Store + Drop + Send + 'static,
    T: Store + Drop + Send + 'static,
> StreamSession<R, B, S, T> {
    /// Starts a session over two disks and two ways, one for each direction of its link, whose parts are its beginning if that is
    /// known: starts a pump at each end of a way, exchanges the hellos, and starts the threads. A pump that ends drops its writer
    /// or reader, and then both ends of the link close.
    ///
    /// `BadSetting` (15), `UsedIdentifier` (33) and the refusals of the hello (30 to 33) come as for the nodes;
    /// `NotConnected` (12) if a way ends during the hello; 20 to 25, 34 or 35 if foreign bytes arrive over it;
    /// `NoMemory` (7) if there is no memory, and if a thread cannot be started. Then nothing runs, and all that was
    /// handed over is dropped. The contract says besides that 18 may come, and no other (`start_over_refuses`).
    pub fn start_over<W: Sink, D: Source, V: Sink, E: Source>(
        rt: R,
        alloc: Global,
        local: S,
        peer: T,
        parts: SessionStart,
        ways: Ways<Way<W, D>, Way<V, E>>,
        blank: Blank,
    ) -> Result<StreamSession<R, B, S, T>, Refusal>
        requires opening { IfSome B.opening (λ opening. opening ≡ opening_of parts (slice_get (S.contents local)) (slice_get (T.contents peer))) }
        requires log { blank.name ≡ B.name }
        ensures refused { IfErr result (λ e. start_over_refuses e ≡ true) }
    {
        parts.settings.check()?;
        let settings = parts.settings;
        let (log, callers) = open_log::<B>(blank);
        let (primary, primary_rows) = open_primary(
            rt,
            alloc,
            settings,
            local,
            parts.own,
            parts.marks,
            parts.words,
            log,
        )?;
        match open_secondary(rt, alloc, settings, peer, parts.peer) {
            Ok((secondary, secondary_rows)) => {
                let rows = Rows {
                    primary: primary_rows,
                    secondary: secondary_rows,
                };
                match run_over(rt, alloc, primary, secondary, rows, ways, parts.is_cut) {
                    Ok(running) => Ok(StreamSession { running, callers }),
                    Err(refusal) => Err(refusal),
                }
            }
            Err(refusal) => {
                drop(primary.into_parts().0.into_store());
                Err(refusal)
            }
        }
    }
}

// Puts both nodes under their locks, and starts the threads of a session over them, whatever the type of their metadata's files.
fn run_over<
    R: Runtime,
    B: Beginning + Send + Sync + 'static,
    S: Store + Drop + Send + 'static,
    T: Store + Drop + Send + 'static,
    F: StableFile + Send + 'static,
    G: StableFile + Send + 'static,
    W: Sink,
    D: Source,
    V: Sink,
    E: Source,
>(
    rt: R,
    alloc: Global,
    primary: OpenedPrimary<R, B, S, F>,
    secondary: OpenedSecondary<R, B, T, G>,
    rows: Rows<R>,
    ways: Ways<Way<W, D>, Way<V, E>>,
    is_cut: bool,
) -> Result<Running<R, FiledPrimary<R, B, S, F>, FiledSecondary<R, B, T, G>>, Refusal>
    ensures refused { IfErr result (λ e. streams_hello_refuses e ≡ true) }
{
    let primary = LockedPrimary::new(rt, primary);
    let secondary = LockedSecondary::new(rt, secondary);
    Running::start_over(rt, alloc, primary, secondary, rows, ways, is_cut)
}

// Opens the primary over rows of its own. Returns it with the pumps' ends of these.
fn open_primary<R: Wait + Copy + Drop, B: Beginning, S: Store + Drop>(
    rt: R,
    alloc: Global,
    settings: Settings,
    store: S,
    tuple: Tuple,
    marks: Bitmap,
    words: ConnectionWords,
    log: ToldLog<B>,
) -> Result<(OpenedPrimary<R, B, S, NoFile>, PumpEnds<R>), Refusal>
    requires link { 0 < settings.link }
    requires began { IfSome B.opening (λ opening. primary_opening settings (slice_get (S.contents store)) tuple (λ block. unwrap_or (slice_get marks block) false)
        ≡ primary_at opening) }
    requires log { log.log ≡ [] }
    ensures opened { IfOk result (λ opened. PrimaryHas opened.0.kept.node (primary_after (Opens words.sync words.loss false)
        (primary_opening settings (slice_get (S.contents store)) tuple (λ block. unwrap_or (slice_get marks block) false)))) }
    ensures refused { IfErr result (λ e. local_open_refuses e ≡ true) }
{
    let (ends, rows) = half_rows(rt, alloc, settings.link)?;
    match ToldPrimary::open(alloc, settings, store, tuple, marks, ends, words, None, log) {
        Ok(node) => Ok((node, rows)),
        Err(refusal) => Err(refusal),
    }
}

// Opens the secondary like `open_primary`.
fn open_secondary<R: Wait + Copy + Drop, B: Beginning, T: Store + Drop>(
    rt: R,
    alloc: Global,
    settings: Settings,
    store: T,
    tuple: Tuple,
) -> Result<(OpenedSecondary<R, B, T, NoFile>, PumpEnds<R>), Refusal>
    requires link { 0 < settings.link }
    requires began { IfSome B.opening (λ opening. secondary_opening settings (slice_get (T.contents store)) tuple ≡ secondary_at opening) }
    ensures opened { IfOk result (λ opened. SecondaryHas opened.0.node (secondary_after (OpensToo 0)
        (secondary_opening settings (slice_get (T.contents store)) tuple))) }
    ensures refused { IfErr result (λ e. peer_open_refuses e ≡ true) }
{
    let (ends, rows) = half_rows(rt, alloc, settings.link)?;
    match KeptSecondary::open(alloc, settings, store, tuple, ends, None, false) {
        Ok(node) => Ok((node, rows)),
        Err(refusal) => Err(refusal),
    }
}

impl<R: Runtime, B: Beginning, S: Store + Drop, T: Store + Drop> StreamSession<R, B, S, T> {
    /// Returns the mirror, which any number of threads may share.
    pub fn mirror(&self) -> &SharedStreamSession<R, B, S, T> {
        self.running.mirror()
    }

    /// Returns a new caller of the session, which was told nothing yet.
    pub fn caller(&self) -> Caller<B>
        ensures { result ≡ record { log = []; own = [] } }
    {
        self.callers.caller()
    }

    /// Returns the right to make callers of the session, which any number of threads may share.
    pub fn callers(&self) -> &Callers<B> {
        &self.callers
    }

    /// Writes whole blocks from `first` on, and returns the receipt once the write is completed as the protocol says:
    /// `Device::write` of the mirror, with its refusals, 1, 5 to 8, 12 and 16. The caller is told that the primary accepted these bytes
    /// under the receipt's number, and the receipt.
    pub fn write(&self, me: &mut Caller<B>, first: u64, bytes: &Bytes) -> Result<Receipt, Refusal>
        ensures own { IfOk result (λ receipt. (receipt.first ≡ first) × (receipt.count * BLOCK_BYTES ≡ length bytes.now)) }
        ensures told { IfOk result (λ receipt. (between : List Told) × Extends me.old.log (Accepted receipt.number first bytes.now) between
            × Extends between (Given receipt) me.new.log) }
        ensures mine { IfOk result (λ receipt. me.new.own ≡ me.old.own ++ receipt.number ∷ []) }
        ensures refused { IfErr result (λ e. write_refuses e ≡ true) }
    {
        self.running.mirror().write(me, first, bytes)
    }

    /// Reads blocks of the local disk, 1 to 32 inside the device and inside one extent: `Device::read` of the mirror, with
    /// its refusals. The caller is told what the disk held there.
    pub fn read(&self, me: &mut Caller<B>, first: u64, count: u64) -> Result<Vec<u8>, Refusal>
        ensures told { IfOk result (λ bytes. Extends me.old.log (Held first count bytes.items) me.new.log) }
        ensures mine { me.new.own ≡ me.old.own }
        ensures untold { OnErr result (me.new ≡ me.old) }
        ensures length { IfOk result (λ bytes. vec_len bytes ≡ count * BLOCK_BYTES) }
        ensures refused { IfErr result (λ e. (e ≡ BadRange) ⊎ ((e ≡ NoMemory) ⊎ (e ≡ ReadFault))) }
    {
        self.running.mirror().read(me, first, count)
    }

    /// Closes both ends of the link: `Device::cut` of the mirror.
    pub fn cut(&self) {
        self.running.mirror().cut();
    }

    /// Returns `NotConnected` (12), whatever the words are, since a session over streams has one connection: `Device::reconnect`
    /// of the mirror does so, too.
    pub fn reconnect(&self, _sync: u64, _loss: u64) -> Result<u32, Refusal>
        ensures refused { result ≡ Err NotConnected }
    {
        Err(Refusal::NotConnected)
    }

    /// Ends the session: closes both ends, lets the disks finish all pending work, stops the threads, and returns both
    /// nodes, and the log of what callers were told. `NotDrained` (36) if a thread still shares a node.
    ///
    /// Each node has a history that began as the session did, and whose connections all used its own ends. Whether what one took
    /// begins what the other pushed depends on the streams, and no contract can speak of them. No connection of the secondary has
    /// a number above the primary's last one; else 36 is returned, which no session brings about.
    pub fn finish(self) -> Result<(StreamPrimary<R, S>, StreamSecondary<R, T>, ToldLog<B>), Refusal>
        ensures told { IfOk result (λ left. IsTold B.opening left.2.log left.0) }
        ensures had { IfOk result (λ nodes. PrimaryIsHad B.opening nodes.0 × SecondaryIsHad B.opening nodes.1) }
        ensures numbered { IfOk result (λ nodes. nodes.1.core.number ≤ nodes.0.core.connections) }
        ensures refused { IfErr result (λ e. e ≡ NotDrained) }
    {
        let StreamSession {
            running,
            callers: _,
        } = self;
        let (locked_primary, locked_secondary) = running.finish()?;
        let (primary, _, log) = locked_primary.into_parts();
        let secondary = locked_secondary.into_parts().0;
        match check_numbers(&primary, &secondary) {
            Ok(()) => Ok((primary, secondary, log)),
            Err(refusal) => {
                drop((primary.into_store(), secondary.into_store()));
                Err(refusal)
            }
        }
    }
}
