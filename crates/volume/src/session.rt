//! A session over a link in this process.
ghost use Rattle.std.specs.Prelude.{◌≡◌, ◌≤◌, ◌⊎◌, ◌*◌, ◌∷◌, ◌++◌, [], List, true, Some, length, slice_get, vec_len, IfErr, IfOk, OnErr};
ghost use Rattle.blocks.specs.declared.block.TheConstants.{BLOCK_BYTES};
ghost use Rattle.blocks.specs.declared.refusal.Refusal.TheVariants.{BadRange, NoMemory, NotDrained, ReadFault};
ghost use Rattle.session_api.specs.Opening.{opening_of};
ghost use Rattle.model.specs.CallRefusals.{reopen_refuses, start_refuses, write_refuses};
ghost use Rattle.model.specs.Headline.{IsJoined};
ghost use Rattle.model.specs.Primary.{PrimaryHistory};
ghost use Rattle.model.specs.Secondary.{SecondaryHistory};
ghost use Rattle.thread_link.specs.Names as names;
ghost use Rattle.session_nodes.specs.Primaries.{PrimaryHas, PrimaryIsHad};
ghost use Rattle.session_nodes.specs.Secondaries.{SecondaryHas, SecondaryIsHad};
ghost use Rattle.told.specs.Log.{Extends};
ghost use Rattle.told.specs.declared.entry.Told.{Told};
ghost use Rattle.told.specs.declared.entry.Told.TheVariants.{Accepted, Given, Held};
ghost use Rattle.told_nodes.specs.Told.{IsTold};
ghost use Rattle.volume.specs.Links.{AreEndsOf};

use crate::kept_session::{Finished, KeptSession, PairMetadata, SharedLinkSession};
use blocks::{ConnectionWords, Refusal, Store};
use bytes::Bytes;
use ghost_log::Blank;
use kept_nodes::NoFile;
use primary::Receipt;
use session_api::{Device, Runtime, SessionStart};
use session_link::{Began, Linked, NamedPrimary, NamedSecondary};
use std::alloc::Global;
use std::sync::Wait;
use std::thread::Threads;
use thread_link::{RuledIn, RuledOut};
use told::{Caller, Callers, ToldLog};

/// A running session over a link. It cannot be dropped: whoever starts it has to finish it.
pub struct Session<R: Threads + Wait + Drop, L: Linked, S: Store + Drop, T: Store + Drop> {
    kept: KeptSession<R, L, S, T, NoFile, NoFile>,
}

impl<
    R: Runtime,
    L: Linked + Send + Sync + 'static,
    S: Store + Drop + Send + 'static,
    T: Store + Drop + Send + 'static,
> Session<R, L, S, T> {
    /// Starts a session over two disks and the two directions of a link, whose rows are the session's, as the parts are its
    /// opening: exchanges the hellos, cuts the link if the parts say so, and starts the threads.
    ///
    /// `BadSetting` (15), `UsedIdentifier` (33) and the refusals of the hello (30 to 33) come as for the nodes;
    /// `NoMemory` (7) if there is no memory, and if a thread cannot be started. Then nothing runs, and all that was
    /// handed over is dropped. The contract, which sees each node by itself, says besides that 11, 12, 13, 18, 20 to 25, 34
    /// and 35 may come, and no other (`start_refuses`).
    pub fn start(
        rt: R,
        alloc: Global,
        there: (RuledOut<R>, RuledIn<R>),
        back: (RuledOut<R>, RuledIn<R>),
        local: S,
        peer: T,
        parts: SessionStart,
        blank: Blank,
    ) -> Result<Session<R, L, S, T>, Refusal>
        requires there { AreEndsOf L.link names.There there }
        requires back { AreEndsOf L.link names.Back back }
        requires opening { L.opening ≡ opening_of parts (slice_get (S.contents local)) (slice_get (T.contents peer)) }
        requires log { blank.name ≡ L.log }
        ensures refused { IfErr result (λ e. start_refuses e ≡ true) }
    {
        let none = PairMetadata {
            primary: None,
            secondary: None,
            is_peer_doubted: false,
        };
        match KeptSession::start(rt, alloc, there, back, local, peer, parts, none, blank) {
            Ok(kept) => Ok(Session { kept }),
            Err(refusal) => Err(refusal),
        }
    }
}

impl<R: Runtime, L: Linked, S: Store + Drop, T: Store + Drop> Session<R, L, S, T> {
    /// Returns the mirror, which any number of threads may share.
    pub fn mirror(&self) -> &SharedLinkSession<R, L, S, T, NoFile, NoFile> {
        self.kept.mirror()
    }

    /// Returns a new caller of the session, which was told nothing yet.
    pub fn caller(&self) -> Caller<Began<L>>
        ensures { result ≡ record { log = []; own = [] } }
    {
        self.kept.caller()
    }

    /// Returns the right to make callers of the session, which any number of threads may share.
    pub fn callers(&self) -> &Callers<Began<L>> {
        self.kept.callers()
    }

    /// Writes whole blocks from `first` on, and returns the receipt once the write is completed as the protocol says:
    /// `Device::write` of the mirror, with its refusals, 1, 5 to 8, 12 and 16. The caller is told that the primary accepted these bytes
    /// under the receipt's number, and the receipt.
    pub fn write(
        &self,
        me: &mut Caller<Began<L>>,
        first: u64,
        bytes: &Bytes,
    ) -> Result<Receipt, Refusal>
        ensures own { IfOk result (λ receipt. (receipt.first ≡ first) × (receipt.count * BLOCK_BYTES ≡ length bytes.now)) }
        ensures told { IfOk result (λ receipt. (between : List Told) × Extends me.old.log (Accepted receipt.number first bytes.now) between
            × Extends between (Given receipt) me.new.log) }
        ensures mine { IfOk result (λ receipt. me.new.own ≡ me.old.own ++ receipt.number ∷ []) }
        ensures refused { IfErr result (λ e. write_refuses e ≡ true) }
    {
        self.kept.mirror().write(me, first, bytes)
    }

    /// Reads blocks of the local disk, 1 to 32 inside the device and inside one extent: `Device::read` of the mirror, with
    /// its refusals. The caller is told what the disk held there.
    pub fn read(
        &self,
        me: &mut Caller<Began<L>>,
        first: u64,
        count: u64,
    ) -> Result<Vec<u8>, Refusal>
        ensures told { IfOk result (λ bytes. Extends me.old.log (Held first count bytes.items) me.new.log) }
        ensures mine { me.new.own ≡ me.old.own }
        ensures untold { OnErr result (me.new ≡ me.old) }
        ensures length { IfOk result (λ bytes. vec_len bytes ≡ count * BLOCK_BYTES) }
        ensures refused { IfErr result (λ e. (e ≡ BadRange) ⊎ ((e ≡ NoMemory) ⊎ (e ≡ ReadFault))) }
    {
        self.kept.mirror().read(me, first, count)
    }

    /// Closes both ends of the link: `Device::cut` of the mirror.
    pub fn cut(&self) {
        self.kept.mirror().cut();
    }

    /// Opens both ends again under fresh words, and returns the connection's number, as `Device::reconnect` of the mirror does.
    /// The session goes over a link, so `NotConnected` (12) does not come: its refusals are 36, 33, 6 and 7.
    pub fn reconnect(&self, sync: u64, loss: u64) -> Result<u32, Refusal>
        ensures refused { IfErr result (λ e. reopen_refuses e ≡ true) }
    {
        let words = ConnectionWords { sync, loss };
        self.kept.mirror().reconnect_over_link(words)
    }

    /// Ends the session: cuts the link, lets the disks finish all pending work, stops the threads, and returns both
    /// nodes, and the log of what callers were told. `NotDrained` (36) if a thread still shares a node.
    ///
    /// Each node has a history that began with the session's opening, and whose connections all used its link. All such
    /// histories are joined: on each
    /// connection, what one end took begins what the other pushed, both ways. No connection of the secondary has a
    /// number above the primary's last one; else 36 is returned, which no session brings about.
    pub fn finish(
        self,
    ) -> Result<
        (
            NamedPrimary<R, L, S>,
            NamedSecondary<R, L, T>,
            ToldLog<Began<L>>,
        ),
        Refusal,
    >
        ensures told { IfOk result (λ left. IsTold (Some L.opening) left.2.log left.0) }
        ensures had { IfOk result (λ nodes. PrimaryIsHad (Some L.opening) nodes.0 × SecondaryIsHad (Some L.opening) nodes.1) }
        ensures joined { IfOk result (λ nodes. (p : PrimaryHistory) (s : SecondaryHistory) → PrimaryHas nodes.0 p → SecondaryHas nodes.1 s → IsJoined p s) }
        ensures numbered { IfOk result (λ nodes. nodes.1.core.number ≤ nodes.0.core.connections) }
        ensures refused { IfErr result (λ e. e ≡ NotDrained) }
    {
        let Session { kept } = self;
        match kept.finish() {
            Ok(
                Finished {
                    primary,
                    secondary,
                    metadata,
                    log,
                },
            ) => {
                drop(metadata);
                Ok((primary, secondary, log))
            }
            Err(refusal) => Err(refusal),
        }
    }
}
