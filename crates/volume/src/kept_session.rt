//! A session over a link in this process, whose nodes have their metadata on stable storage.
ghost use Rattle.std.specs.Prelude.{◌≡◌, ◌≤◌, ◌⊎◌, [], Bool, true, false, Some, is_some, slice_get, IfErr, IfOk};
ghost use Rattle.blocks.specs.declared.refusal.Refusal.TheVariants.{LocalFault, NotDrained};
ghost use Rattle.session_api.specs.Opening.{opening_of};
ghost use Rattle.kept_nodes.specs.Kept.{PrimaryIsKept, SecondaryIsKept, is_broken};
ghost use Rattle.model.specs.CallRefusals.{start_refuses};
ghost use Rattle.model.specs.Headline.{IsJoined};
ghost use Rattle.model.specs.LocalRuns.{Opens, OpensToo, primary_after, secondary_after};
ghost use Rattle.model.specs.Primary.{PrimaryHistory};
ghost use Rattle.model.specs.Secondary.{SecondaryHistory};
ghost use Rattle.model.specs.Theorems.{primary_at, secondary_at};
ghost use Rattle.session_nodes.specs.Primaries.{PrimaryHas, PrimaryIsHad};
ghost use Rattle.session_nodes.specs.Secondaries.{SecondaryHas, SecondaryIsHad};
ghost use Rattle.thread_link.specs.Names as names;
ghost use Rattle.told_nodes.specs.Told.{IsTold};
ghost use Rattle.volume.specs.Links.{AreEndsOf};

use blocks::{Refusal, Store};
use ghost_log::Blank;
use kept_nodes::KeptSecondary;
use locked_halves::{LockedPrimary, LockedSecondary};
use metadata::{Metadata, StableFile};
use session_api::{Runtime, SessionStart};
use session_link::{
    Back, Began, Linked, NamedPrimary, NamedSecondary, There, check_numbers, join_nodes, named_ends,
};
use session_threads::{Running, SharedSession};
use std::alloc::Global;
use std::sync::Wait;
use std::thread::Threads;
use thread_link::{NamedIn, NamedOut, RuledIn, RuledOut};
use told::{Caller, Callers, ToldLog, open_log};
use told_nodes::ToldPrimary;

/// The primary's half over a session's link.
pub type LockedLinkPrimary<R, L, S, F> = LockedPrimary<
    R,
    Began<L>,
    NamedOut<R, There<L>>,
    NamedIn<R, Back<L>>,
    S,
    F,
>;

/// The secondary's half over a session's link.
pub type LockedLinkSecondary<R, L, T, G> = LockedSecondary<
    R,
    Began<L>,
    NamedOut<R, Back<L>>,
    NamedIn<R, There<L>>,
    T,
    G,
>;

/// A session over a link, which any number of threads may share.
pub type SharedLinkSession<R, L, S, T, F, G> = SharedSession<
    R,
    LockedLinkPrimary<R, L, S, F>,
    LockedLinkSecondary<R, L, T, G>,
>;

// Both nodes of a session over a link, opened, and not yet under their locks.
type OpenedNodes<R, L, S, T, F, G> = (
    ToldPrimary<Began<L>, NamedOut<R, There<L>>, NamedIn<R, Back<L>>, S, F>,
    KeptSecondary<Began<L>, NamedOut<R, Back<L>>, NamedIn<R, There<L>>, T, G>,
);

/// The metadata of both disks of a session, as far as they have some.
#[derive(Drop)]
pub struct PairMetadata<F: StableFile, G: StableFile> {
    pub primary: Option<Metadata<F>>,
    pub secondary: Option<Metadata<G>>,
    /// Whether the peer's disk was not consistent when it was last used, or may have lost writes since.
    pub is_peer_doubted: bool,
}

/// What a session leaves: both nodes, the metadata of their disks, and the log of what its callers were told.
pub struct Finished<
    R: Wait + Drop,
    L: Linked,
    S: Store + Drop,
    T: Store + Drop,
    F: StableFile,
    G: StableFile,
> {
    pub primary: NamedPrimary<R, L, S>,
    pub secondary: NamedSecondary<R, L, T>,
    pub metadata: PairMetadata<F, G>,
    pub log: ToldLog<Began<L>>,
}

/// A running session over a link, whose nodes have their metadata on stable storage. It cannot be dropped: whoever starts it has to
/// finish it.
pub struct KeptSession<
    R: Threads + Wait + Drop,
    L: Linked,
    S: Store + Drop,
    T: Store + Drop,
    F: StableFile,
    G: StableFile,
> {
    running: Running<R, LockedLinkPrimary<R, L, S, F>, LockedLinkSecondary<R, L, T, G>>,
    callers: Callers<Began<L>>,
}

impl<
    R: Runtime,
    L: Linked + Send + Sync + 'static,
    S: Store + Drop + Send + 'static,
    T: Store + Drop + Send + 'static,
    F: StableFile + Send + 'static,
    G: StableFile + Send + 'static,
> KeptSession<R, L, S, T, F, G> {
    /// Starts a session over two disks with their metadata, and the two directions of a link, whose rows are the session's, as the
    /// parts are its opening: exchanges the hellos, cuts the link if the parts say so, and starts the threads.
    ///
    /// The refusals are those of `Session::start`, and `LocalFault` (8) if a metadata file cannot be read or written. Then nothing runs,
    /// and all that was handed over is dropped.
    pub fn start(
        rt: R,
        alloc: Global,
        there: (RuledOut<R>, RuledIn<R>),
        back: (RuledOut<R>, RuledIn<R>),
        local: S,
        peer: T,
        parts: SessionStart,
        metadata: PairMetadata<F, G>,
        blank: Blank,
    ) -> Result<KeptSession<R, L, S, T, F, G>, Refusal>
        requires there { AreEndsOf L.link names.There there }
        requires back { AreEndsOf L.link names.Back back }
        requires opening { L.opening ≡ opening_of parts (slice_get (S.contents local)) (slice_get (T.contents peer)) }
        requires log { blank.name ≡ L.log }
        ensures refused { IfErr result (λ e. (start_refuses e ≡ true) ⊎ ((e ≡ LocalFault) × ((is_some metadata.primary ≡ true) ⊎ (is_some metadata.secondary ≡ true)))) }
    {
        let is_cut = parts.is_cut;
        let (log, callers) = open_log::<Began<L>>(blank);
        let nodes = open_nodes(alloc, there, back, local, peer, parts, metadata, log)?;
        let primary = LockedPrimary::new(rt, nodes.0);
        let secondary = LockedSecondary::new(rt, nodes.1);
        match Running::start(rt, alloc, primary, secondary, is_cut) {
            Ok(running) => Ok(KeptSession { running, callers }),
            Err(refusal) => Err(refusal),
        }
    }
}

// Opens both nodes of a session over its link, each with its metadata. If the second one is refused, the first one is dropped.
fn open_nodes<
    R: Wait + Drop,
    L: Linked,
    S: Store + Drop,
    T: Store + Drop,
    F: StableFile,
    G: StableFile,
>(
    alloc: Global,
    there: (RuledOut<R>, RuledIn<R>),
    back: (RuledOut<R>, RuledIn<R>),
    local: S,
    peer: T,
    parts: SessionStart,
    metadata: PairMetadata<F, G>,
    log: ToldLog<Began<L>>,
) -> Result<OpenedNodes<R, L, S, T, F, G>, Refusal>
    requires there { AreEndsOf L.link names.There there }
    requires back { AreEndsOf L.link names.Back back }
    requires opening { L.opening ≡ opening_of parts (slice_get (S.contents local)) (slice_get (T.contents peer)) }
    requires log { log.log ≡ [] }
    ensures opened { IfOk result (λ nodes. PrimaryHas nodes.0.kept.node (primary_after (Opens parts.words.sync parts.words.loss false)
        (primary_at (opening_of parts (slice_get (S.contents local)) (slice_get (T.contents peer)))))) }
    ensures opened_too { IfOk result (λ nodes. SecondaryHas nodes.1.node (secondary_after (OpensToo 0)
        (secondary_at (opening_of parts (slice_get (S.contents local)) (slice_get (T.contents peer)))))) }
    ensures metadata { IfOk result (λ nodes. (is_some nodes.0.kept.metadata ≡ is_some metadata.primary) × (is_some nodes.1.metadata ≡ is_some metadata.secondary)) }
    ensures whole { IfOk result (λ nodes. (is_broken nodes.0.kept.metadata ≡ false) × (is_broken nodes.1.metadata ≡ false)) }
    ensures doubted { IfOk result (λ nodes. nodes.1.is_doubted ≡ metadata.is_peer_doubted) }
    ensures refused { IfErr result (λ e. (start_refuses e ≡ true) ⊎ ((e ≡ LocalFault) × ((is_some metadata.primary ≡ true) ⊎ (is_some metadata.secondary ≡ true)))) }
{
    let (primary_ends, secondary_ends) = named_ends::<R, L>(there, back);
    let primary = ToldPrimary::open(
        alloc,
        parts.settings,
        local,
        parts.own,
        parts.marks,
        primary_ends,
        parts.words,
        metadata.primary,
        log,
    )?;
    match KeptSecondary::open(
        alloc,
        parts.settings,
        peer,
        parts.peer,
        secondary_ends,
        metadata.secondary,
        metadata.is_peer_doubted,
    ) {
        Ok(secondary) => Ok((primary, secondary)),
        Err(refusal) => {
            drop(primary.into_parts().0.into_store());
            Err(refusal)
        }
    }
}

impl<
    R: Runtime,
    L: Linked,
    S: Store + Drop,
    T: Store + Drop,
    F: StableFile,
    G: StableFile,
> KeptSession<R, L, S, T, F, G> {
    /// Returns the session as any number of threads may share it.
    pub fn mirror(&self) -> &SharedLinkSession<R, L, S, T, F, G> {
        self.running.mirror()
    }

    /// Returns a new caller of the session, which was told nothing yet.
    pub fn caller(&self) -> Caller<Began<L>>
        ensures { result ≡ record { log = []; own = [] } }
    {
        self.callers.caller()
    }

    /// Returns the right to make callers of the session, which any number of threads may share.
    pub fn callers(&self) -> &Callers<Began<L>> {
        &self.callers
    }

    /// Ends the session: cuts the link, lets the disks finish all pending work, stops the threads, and returns both nodes with their
    /// metadata. `NotDrained` (36) if a thread still shares a node.
    ///
    /// Each node has a history that began with the session's opening, and whose connections all used its link. All such
    /// histories are joined: on each
    /// connection, what one end took begins what the other pushed, both ways. No connection of the secondary has a
    /// number above the primary's last one; else 36 is returned, which no session brings about. The metadata says what a stop of the
    /// nodes has to leave (`kept`, `kept_too`).
    pub fn finish(self) -> Result<Finished<R, L, S, T, F, G>, Refusal>
        ensures had { IfOk result (λ left. PrimaryIsHad (Some L.opening) left.primary × SecondaryIsHad (Some L.opening) left.secondary) }
        ensures told { IfOk result (λ left. IsTold (Some L.opening) left.log.log left.primary) }
        ensures joined { IfOk result (λ left. (p : PrimaryHistory) (s : SecondaryHistory) → PrimaryHas left.primary p → SecondaryHas left.secondary s → IsJoined p s) }
        ensures numbered { IfOk result (λ left. left.secondary.core.number ≤ left.primary.core.connections) }
        ensures kept { IfOk result (λ left. (owes_all : Bool) × PrimaryIsKept F.seen F.may_leave F.faithful (Some L.opening) left.primary left.metadata.primary owes_all) }
        ensures kept_too { IfOk result (λ left. SecondaryIsKept (Some L.opening) left.secondary left.metadata.secondary left.metadata.is_peer_doubted) }
        ensures refused { IfErr result (λ e. e ≡ NotDrained) }
    {
        let KeptSession {
            running,
            callers: _,
        } = self;
        let (locked_primary, locked_secondary) = running.finish()?;
        let Finished {
            primary,
            secondary,
            metadata,
            log,
        } = into_nodes(locked_primary, locked_secondary);
        match check_numbers(&primary, &secondary) {
            Ok(()) => Ok(Finished {
                primary,
                secondary,
                metadata,
                log,
            }),
            Err(refusal) => {
                drop((primary.into_store(), secondary.into_store()));
                Err(refusal)
            }
        }
    }
}

// Takes both nodes of a session over a link out of their locks, and joins them.
fn into_nodes<
    R: Wait + Drop,
    L: Linked,
    S: Store + Drop,
    T: Store + Drop,
    F: StableFile,
    G: StableFile,
>(
    primary: LockedLinkPrimary<R, L, S, F>,
    secondary: LockedLinkSecondary<R, L, T, G>,
) -> Finished<R, L, S, T, F, G>
    ensures had { PrimaryIsHad (Some L.opening) result.primary × SecondaryIsHad (Some L.opening) result.secondary }
    ensures told { IsTold (Some L.opening) result.log.log result.primary }
    ensures joined { (p : PrimaryHistory) (s : SecondaryHistory) → PrimaryHas result.primary p → SecondaryHas result.secondary s → IsJoined p s }
    ensures kept { (owes_all : Bool) × PrimaryIsKept F.seen F.may_leave F.faithful (Some L.opening) result.primary result.metadata.primary owes_all }
    ensures kept_too { SecondaryIsKept (Some L.opening) result.secondary result.metadata.secondary result.metadata.is_peer_doubted }
{
    let (primary, primary_metadata, log) = primary.into_parts();
    let (secondary, secondary_metadata, is_peer_doubted) = secondary.into_parts();
    let (primary, secondary) = join_nodes(primary, secondary);
    Finished {
        primary,
        secondary,
        metadata: PairMetadata {
            primary: primary_metadata,
            secondary: secondary_metadata,
            is_peer_doubted,
        },
        log,
    }
}
