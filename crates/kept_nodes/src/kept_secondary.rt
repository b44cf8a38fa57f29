//! The secondary with its metadata.
ghost use Rattle.std.specs.Prelude.{◌≡◌, ◌≢◌, ◌⊎◌, ◌-◌, ◌+◌, ◌<◌, ◌≤◌, ◌&&◌, true, false, None, Err, slice_get, is_some, IfErr, IfOk, IfSome, OnErr};
ghost use Rattle.blocks.specs.declared.outcome.Reply.{Reply};
ghost use Rattle.blocks.specs.declared.refusal.Refusal.TheVariants.{BadSetting, LocalFault, NoMemory, NotConnected, NotDrained, NothingThere};
ghost use Rattle.endpoint.specs.Calls.{IsNewIn, IsNewOut, Sends, has_room, is_out_of_memory};
ghost use Rattle.kept_nodes.specs.Kept.{SecondaryIsKept, is_broken};
ghost use Rattle.kept_nodes.specs.Shown.{SecondaryHasShown};
ghost use Rattle.model.specs.CallRefusals.{ack_out_refuses, peer_open_refuses, receive_refuses};
ghost use Rattle.model.specs.LocalRuns.{Acknowledges, ClosesToo, OpensToo, secondary_after};
ghost use Rattle.model.specs.Secondary.{SecondaryHistory, secondary_opening, next_pending};
ghost use Rattle.model.specs.Theorems.{secondary_at};
ghost use Rattle.node_lines.specs.Progress.{SecondaryShows};
ghost use Rattle.secondary.specs.Calls.{AppliesOne};
ghost use Rattle.secondary_protocol.specs.Steps.{plainly, replied};
ghost use Rattle.session_nodes.specs.Secondaries.{SecondaryHas, SecondaryIsHad, SecondaryReceives, SecondaryRuns, SecondarySteps};

use crate::keeping::{is_broken, save_turned};
use blocks::{Done, Refusal, Settings, Store, Tuple};
use link::{FrameIn, FrameOut};
use metadata::{Metadata, StableFile};
use node_lines::SecondaryProgress;
use secondary::Secondary;
use session_nodes::{Beginning, SessionSecondary};
use std::alloc::Global;
use std::marker::Model;

/// The secondary of a session, kept under a lock, with the metadata of its disk, if it has some. Invariant: as long as no call of the
/// metadata's file has failed, it has the disk's identifiers, and whether the disk is consistent (`SecondaryIsKept`).
///
/// A call of the file that fails breaks the metadata for good. Then the end closes before anything more is taken or acknowledged, and
/// stays closed; items that were taken before go to the disk.
#[derive(Drop)]
pub struct KeptSecondary<
    B: Beginning,
    O: FrameOut + Drop,
    I: FrameIn + Drop,
    S: Store + Drop,
    F: StableFile,
> {
    pub(crate) node: SessionSecondary<B, O, I, S>,
    pub(crate) metadata: Option<Metadata<F>>,
    // Whether the disk was not consistent as it was opened, and no resync has begun since.
    pub(crate) is_doubted: bool,
}

impl<B: Beginning, O: FrameOut + Drop, I: FrameIn + Drop, S: Store + Drop, F: StableFile> Model
    for KeptSecondary<B, O, I, S, F> {
    ghost use Rattle.kept_nodes.specs.Kept.{KeptSecondaryState, SecondaryIsKept};

    ghost Value = { KeptSecondaryState F };

    ghost view = { λ k. record { node = k.node; metadata = k.metadata; is_doubted = k.is_doubted } };

    ghost invariant = { λ k. SecondaryIsKept B.opening k.node k.metadata k.is_doubted };
}

impl<
    B: Beginning,
    O: FrameOut + Drop,
    I: FrameIn + Drop,
    S: Store + Drop,
    F: StableFile,
> KeptSecondary<B, O, I, S, F> {
    /// Creates a secondary over its disk, opens it over unused ends of a link, and saves its identifiers. A disk that `is_doubted` was
    /// not consistent, or may have lost writes with its machine: the metadata says that it is not, until a resync has ended.
    ///
    /// `BadSetting` (15) and `NoMemory` (7) come as for `SessionSecondary::open`. `BadSetting` comes too if the metadata is of a device
    /// of another size, and `LocalFault` (8) if its file cannot be written.
    pub fn open(
        alloc: Global,
        settings: Settings,
        store: S,
        tuple: Tuple,
        link: (O, I),
        metadata: Option<Metadata<F>>,
        is_doubted: bool,
    ) -> Result<KeptSecondary<B, O, I, S, F>, Refusal>
        requires outward { IsNewOut (O.state link.0) }
        requires inward { IsNewIn (I.state link.1) }
        requires began { IfSome B.opening (λ opening. secondary_opening settings (slice_get (S.contents store)) tuple ≡ secondary_at opening) }
        ensures opened { IfOk result (λ k. SecondaryHas k.node (secondary_after (OpensToo 0) (secondary_opening settings (slice_get (S.contents store)) tuple))) }
        ensures metadata { IfOk result (λ k. is_some k.metadata ≡ is_some metadata) }
        ensures whole { IfOk result (λ k. is_broken k.metadata ≡ false) }
        ensures doubted { IfOk result (λ k. k.is_doubted ≡ is_doubted) }
        ensures refused { IfErr result (λ e. (peer_open_refuses e ≡ true) ⊎ ((e ≡ LocalFault) × (is_some metadata ≡ true))) }
    {
        let node = SessionSecondary::open(alloc, settings, store, tuple, link)?;
        match with_file(&node, metadata, is_doubted) {
            Ok(metadata) => Ok(KeptSecondary {
                node,
                metadata,
                is_doubted,
            }),
            Err(refusal) => {
                drop(node.into_node().into_store());
                Err(refusal)
            }
        }
    }

    /// Takes the next frame. The refusals are those of `Secondary::receive`: 7, 12, 13, 18, and of a frame that was taken 20 to
    /// 23, 34 and 35. Identifiers that have turned are saved before the call ends. If the metadata is broken, nothing is taken: the end
    /// closes, and the refusal is `NotConnected` (12).
    pub fn receive(&mut self) -> Result<Done, Refusal>
        ensures step { is_broken self.old.metadata ≡ false → SecondaryReceives result self.old.node self.new.node }
        ensures runs { is_broken self.old.metadata ≡ false → SecondaryRuns self.old.node self.new.node }
        ensures closes { is_broken self.old.metadata ≡ true → (result ≡ Err NotConnected) × ((reply : Reply) × SecondarySteps ClosesToo self.old.node reply self.new.node) }
        ensures refused { IfErr result (λ e. receive_refuses e ≡ true) }
        ensures stays { is_broken self.old.metadata ≡ true → is_broken self.new.metadata ≡ true }
    {
        if self.is_broken() {
            let _ = self.close();
            return Err(Refusal::NotConnected);
        }
        let received = self.node.receive();
        // From the start of a resync on the node itself knows.
        self.is_doubted = self.is_doubted && self.node.node().is_consistent();
        save_identifiers(&self.node, &mut self.metadata, self.is_doubted);
        received
    }

    /// Sends the next frame. The refusals are those of `Secondary::ack_out`: 11, 12 and 13. If the metadata is broken, nothing is
    /// sent: the end closes, and the refusal is `NotConnected` (12).
    pub fn ack_out(&mut self) -> Result<Done, Refusal>
        ensures step { is_broken self.old.metadata ≡ false → SecondarySteps (Acknowledges (has_room result) (is_out_of_memory result)) self.old.node (replied (λ done. done) result) self.new.node }
        ensures runs { is_broken self.old.metadata ≡ false → SecondaryRuns self.old.node self.new.node }
        ensures link { is_broken self.old.metadata ≡ false → Sends result self.old.node.outgoing self.new.node.outgoing }
        ensures memory { IfErr result (λ e. e ≢ NoMemory) }
        ensures closes { is_broken self.old.metadata ≡ true → (result ≡ Err NotConnected) × ((reply : Reply) × SecondarySteps ClosesToo self.old.node reply self.new.node) }
        ensures refused { IfErr result (λ e. ack_out_refuses e ≡ true) }
        ensures stays { is_broken self.old.metadata ≡ true → is_broken self.new.metadata ≡ true }
    {
        if self.is_broken() {
            let _ = self.close();
            return Err(Refusal::NotConnected);
        }
        let sent = self.node.ack_out();
        save_identifiers(&self.node, &mut self.metadata, self.is_doubted);
        sent
    }

    /// Performs the next item on the disk. `NothingThere` (13) if there is none, and no other refusal; then nothing changes.
    pub fn apply_next(&mut self) -> Result<Done, Refusal>
        ensures runs { SecondaryRuns self.old.node self.new.node }
        ensures applies { (h : SecondaryHistory) → SecondaryHas self.old.node h → IfSome (next_pending h) (λ place. AppliesOne place result self.old.node self.new.node) }
        ensures nothing { (h : SecondaryHistory) → SecondaryHas self.old.node h → next_pending h ≡ None → (result ≡ Err NothingThere) × (self.new.node ≡ self.old.node) }
        ensures refused { IfErr result (λ e. e ≡ NothingThere) }
        ensures stays { is_broken self.old.metadata ≡ true → is_broken self.new.metadata ≡ true }
    {
        let applied = self.node.apply_next();
        save_identifiers(&self.node, &mut self.metadata, self.is_doubted);
        applied
    }

    /// Closes the end. `NotConnected` (12) if it is closed, and no other refusal.
    pub fn close(&mut self) -> Result<(), Refusal>
        ensures step { SecondarySteps ClosesToo self.old.node (replied plainly result) self.new.node }
        ensures refused { IfErr result (λ e. e ≡ NotConnected) }
        ensures stays { is_broken self.old.metadata ≡ true → is_broken self.new.metadata ≡ true }
    {
        let closed = self.node.close();
        save_identifiers(&self.node, &mut self.metadata, self.is_doubted);
        closed
    }

    /// Closes the end, if it is open and its connection is `connection` or an earlier one.
    pub fn close_lost(&mut self, connection: u32)
        ensures closes { self.old.node.core.number ≤ connection → (reply : Reply) × SecondarySteps ClosesToo self.old.node reply self.new.node }
        ensures later { connection < self.old.node.core.number → self.new.node ≡ self.old.node }
    {
        self.node.close_lost(connection);
        save_identifiers(&self.node, &mut self.metadata, self.is_doubted);
    }

    /// Opens the end again under the connection's number.
    ///
    /// `NotDrained` (36) if the end is open, if items are pending, if the node had a connection of this number or a higher one, and if
    /// the metadata is broken, and no other refusal; then nothing changes.
    pub fn reopen(&mut self, number: u32) -> Result<(), Refusal>
        ensures numbered { number ≤ self.old.node.core.number → result ≡ Err NotDrained }
        ensures step { is_broken self.old.metadata ≡ false → self.old.node.core.number < number → SecondarySteps (OpensToo (number - (self.old.node.core.number + 1))) self.old.node (replied plainly result) self.new.node }
        ensures broken { is_broken self.old.metadata ≡ true → result ≡ Err NotDrained }
        ensures unchanged { OnErr result (self.new ≡ self.old) }
        ensures refused { IfErr result (λ e. e ≡ NotDrained) }
    {
        if self.is_broken() {
            return Err(Refusal::NotDrained);
        }
        match self.node.reopen(number) {
            Ok(()) => {
                save_identifiers(&self.node, &mut self.metadata, self.is_doubted);
                Ok(())
            }
            Err(refusal) => Err(refusal),
        }
    }

    /// Returns whether a call of the metadata's file has failed.
    pub fn is_broken(&self) -> bool
        ensures { result ≡ is_broken self.now.metadata }
    {
        match &self.metadata {
            Some(metadata) => metadata.is_broken(),
            None => false,
        }
    }

    /// Returns how far the secondary has come. If its disk is doubted, the line says that its data may not be used.
    pub fn progress(&self) -> SecondaryProgress
        ensures shows { (h : SecondaryHistory) → SecondaryHas self.now.node h → SecondaryShows self.now.is_doubted result h }
        ensures metadata { result.is_metadata_broken ≡ is_broken self.now.metadata }
        ensures told { SecondaryHasShown B.opening result }
    {
        SecondaryProgress::of(self.node.node(), self.is_doubted, self.is_broken())
    }

    /// Returns the locked node for reading.
    pub fn node(&self) -> &SessionSecondary<B, O, I, S>
        ensures { result.now ≡ self.now.node }
    {
        &self.node
    }

    /// Returns the metadata for reading.
    pub fn metadata(&self) -> Option<&Metadata<F>>
        ensures kept { SecondaryIsKept B.opening self.now.node self.now.metadata self.now.is_doubted }
    {
        self.metadata.as_ref()
    }

    /// Returns the node alone, its metadata, which says what a stop of it has to leave, and whether the disk is still doubted.
    pub fn into_parts(self) -> (Secondary<O, I, S>, Option<Metadata<F>>, bool)
        ensures node { result.0 ≡ self.node }
        ensures metadata { result.1 ≡ self.metadata }
        ensures doubted { result.2 ≡ self.is_doubted }
        ensures had { SecondaryIsHad B.opening result.0 }
        ensures kept { SecondaryIsKept B.opening result.0 result.1 result.2 }
    {
        let KeptSecondary {
            node,
            metadata,
            is_doubted,
        } = self;
        (node.into_node(), metadata, is_doubted)
    }
}

// Saves the identifiers of a node that has taken nothing yet. Returns its metadata. `BadSetting` (15) if it is of a device of another
// size, `LocalFault` (8) if its file cannot be written.
fn with_file<B: Beginning, O: FrameOut + Drop, I: FrameIn + Drop, S: Store + Drop, F: StableFile>(
    node: &SessionSecondary<B, O, I, S>,
    metadata: Option<Metadata<F>>,
    is_doubted: bool,
) -> Result<Option<Metadata<F>>, Refusal>
    ensures kept { IfOk result (λ m. SecondaryIsKept B.opening node.now m is_doubted) }
    ensures there { IfOk result (λ m. is_some m ≡ is_some metadata) }
    ensures whole { IfOk result (λ m. is_broken m ≡ false) }
    ensures refused { IfErr result (λ e. (e ≡ BadSetting) ⊎ ((e ≡ LocalFault) × (is_some metadata ≡ true))) }
{
    let secondary = node.node();
    let Some(metadata) = metadata else {
        return Ok(None);
    };
    if metadata.header().blocks != u64::from(secondary.settings().blocks) {
        return Err(Refusal::BadSetting);
    }
    let mut metadata = Some(metadata);
    save_identifiers(node, &mut metadata, is_doubted);
    if is_broken(&metadata) {
        return Err(Refusal::LocalFault);
    }
    Ok(metadata)
}

// Saves the identifiers that a node has now, if they have turned. After it the metadata says what a stop of the node has to leave.
fn save_identifiers<
    B: Beginning,
    O: FrameOut + Drop,
    I: FrameIn + Drop,
    S: Store + Drop,
    F: StableFile,
>(node: &SessionSecondary<B, O, I, S>, metadata: &mut Option<Metadata<F>>, is_doubted: bool)
    requires { IfSome metadata.old (λ m. m.header.blocks ≡ node.now.core.settings.blocks) }
    ensures kept { SecondaryIsKept B.opening node.now metadata.new is_doubted }
    ensures there { is_some metadata.new ≡ is_some metadata.old }
    ensures stays { is_broken metadata.old ≡ true → is_broken metadata.new ≡ true }
{
    let secondary = node.node();
    save_turned(
        metadata,
        secondary.tuple(),
        secondary.is_consistent() && !is_doubted,
    );
}
