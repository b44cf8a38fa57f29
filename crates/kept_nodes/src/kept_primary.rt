//! The primary with its metadata.
ghost use Rattle.std.specs.Prelude.{
  ◌≡◌,
  ◌⊎◌,
  ◌<◌,
  ◌≤◌,
  ◌*◌,
  ◌/◌,
  ℕ,
  [],
  true,
  false,
  None,
  Some,
  Err,
  slice_get,
  slice_index,
  unwrap_or,
  is_some,
  length,
  vec_len,
  IsTrue,
  IfOk,
  IfErr,
  IfSome,
  OnOk,
};
ghost use Rattle.blocks.specs.declared.block.TheConstants.{BLOCK_BYTES};
ghost use Rattle.blocks.specs.declared.outcome.Reply.{Reply};
ghost use Rattle.blocks.specs.declared.outcome.Reply.TheVariants as reply;
ghost use Rattle.blocks.specs.declared.outcome.What.TheVariants as what;
ghost use Rattle.blocks.specs.declared.refusal.Refusal.TheVariants.{BadRange, LocalFault, NoMemory, NotConnected, NotDrained, NothingThere, ReadFault};
ghost use Rattle.endpoint.specs.Calls as link;
ghost use Rattle.endpoint.specs.Calls.{IsNewIn, IsNewOut, has_room, is_out_of_memory};
ghost use Rattle.kept_nodes.specs.Asked.{begins_full_copy, is_full_copy};
ghost use Rattle.kept_nodes.specs.Kept.{PrimaryIsKept, SaysPrimary, is_broken};
ghost use Rattle.kept_nodes.specs.Shown.{PrimaryHasShown};
ghost use Rattle.kept_nodes.specs.Left.{Across, LosesNothing, Outcomes};
ghost use Rattle.metadata.specs.Says.{extents_of};
ghost use Rattle.metadata.specs.State.{is_entered};
ghost use Rattle.model.specs.CallRefusals.{
  ack_in_refuses,
  local_open_refuses,
  reopen_refuses,
  resync_next_refuses,
  send_refuses,
  submit_refuses,
  take_completed_refuses,
};
ghost use Rattle.model.specs.Contents.{IsRead, extent_of, is_range};
ghost use Rattle.model.specs.LocalRuns.{Closes, Opens, Sends, Submits, primary_after};
ghost use Rattle.model.specs.Primary.{PrimaryHistory, local_map, next_local, primary_opening};
ghost use Rattle.model.specs.Stopped.{stopped_tuple};
ghost use Rattle.model.specs.Theorems.{primary_at};
ghost use Rattle.node_lines.specs.Progress.{PrimaryShows};
ghost use Rattle.primary.specs.Calls.{CopiesOne, WritesOne};
ghost use Rattle.primary_core.specs.Send.{owes_blocks};
ghost use Rattle.primary_protocol.specs.Node.{take_receipt};
ghost use Rattle.primary_protocol.specs.Steps.{plainly, replied};
ghost use Rattle.primary_protocol.specs.Transitions.{whole_blocks};
ghost use Rattle.session_nodes.specs.Primaries.{HasAccepted, HasHeld, IsPrimaryStep, PrimaryGoesOn, PrimaryHas, PrimaryIsHad, PrimaryRuns, PrimarySteps, PrimaryTakes};

use crate::keeping::{enter_device, enter_extent, enter_marked, is_broken, save_turned};
use bitmap::Bitmap;
use blocks::{
    ConnectionWords, Decision, Done, EXTENT_BLOCKS, Extent, Refusal, Settings, Store, Tuple, What,
};
use bytes::Bytes;
use link::{FrameIn, FrameOut};
use metadata::{Metadata, StableFile};
use node_lines::PrimaryProgress;
use primary::{Primary, Receipt};
use session_nodes::{Beginning, SessionPrimary};
use std::alloc::Global;
use std::marker::Model;

/// The primary of a session, kept under a lock, with the metadata of its disk, if it has some. Invariant: whatever a stop leaves of
/// the metadata's file now has each block that is marked or under an unreleased write; and as long as no call of the file has
/// failed, the identifiers that a close would leave (`PrimaryIsKept`).
///
/// A call of the file that fails breaks the metadata for good. Then a write to an extent that is not entered is refused, the end
/// closes at the next turn of its sender, and stays closed; reads, and writes to extents that are entered, go on.
#[derive(Drop)]
pub struct KeptPrimary<
    B: Beginning,
    O: FrameOut + Drop,
    I: FrameIn + Drop,
    S: Store + Drop,
    F: StableFile,
> {
    pub(crate) node: SessionPrimary<B, O, I, S>,
    pub(crate) metadata: Option<Metadata<F>>,
    // For each extent, not 0 if its marks were written since a write was last accepted there, so that it may leave.
    pub(crate) prepared: Vec<u8>,
    // Whether a full copy was decided, and its extents could not be entered.
    pub(crate) owes_all: bool,
}

impl<B: Beginning, O: FrameOut + Drop, I: FrameIn + Drop, S: Store + Drop, F: StableFile> Model
    for KeptPrimary<B, O, I, S, F> {
    ghost use Rattle.kept_nodes.specs.Kept.{KeptPrimaryState, PrimaryIsKept};

    ghost Value = { KeptPrimaryState F };

    ghost view = { λ k. record { node = k.node; metadata = k.metadata; prepared = k.prepared.items; owes_all = k.owes_all } };

    ghost invariant = { λ k. PrimaryIsKept F.StableFile.seen F.StableFile.may_leave F.StableFile.faithful B.opening k.node k.metadata k.owes_all };
}

impl<
    B: Beginning,
    O: FrameOut + Drop,
    I: FrameIn + Drop,
    S: Store + Drop,
    F: StableFile,
> KeptPrimary<B, O, I, S, F> {
    /// Creates a primary over its disk, opens it over unused ends of a link, and has the metadata say what a stop leaves of it: each
    /// marked block that the file does not have is entered by its extent, and the identifiers are saved.
    ///
    /// `BadSetting` (15), `NoMemory` (7) and `UsedIdentifier` (33) come as for `SessionPrimary::open`. `BadSetting` comes too if the
    /// metadata is of a device of another size, and `LocalFault` (8) if its file cannot be read or written.
    pub fn open(
        alloc: Global,
        settings: Settings,
        store: S,
        tuple: Tuple,
        marks: Bitmap,
        link: (O, I),
        words: ConnectionWords,
        metadata: Option<Metadata<F>>,
    ) -> Result<KeptPrimary<B, O, I, S, F>, Refusal>
        requires outward { IsNewOut (O.state link.0) }
        requires inward { IsNewIn (I.state link.1) }
        requires began { IfSome B.opening (λ opening. primary_opening settings (slice_get (S.contents store)) tuple (λ block. unwrap_or (slice_get marks block) false)
            ≡ primary_at opening) }
        ensures opened { IfOk result (λ k. PrimaryHas k.node (primary_after (Opens words.sync words.loss false)
            (primary_opening settings (slice_get (S.contents store)) tuple (λ block. unwrap_or (slice_get marks block) false)))) }
        ensures metadata { IfOk result (λ k. is_some k.metadata ≡ is_some metadata) }
        ensures whole { IfOk result (λ k. is_broken k.metadata ≡ false) }
        ensures refused { IfErr result (λ e. (local_open_refuses e ≡ true) ⊎ ((e ≡ LocalFault) × (is_some metadata ≡ true))) }
    {
        let node = SessionPrimary::open(alloc, settings, store, tuple, marks, link, words)?;
        match with_file(alloc, &node, metadata) {
            Ok((metadata, prepared)) => Ok(KeptPrimary {
                node,
                metadata,
                prepared,
                owes_all: false,
            }),
            Err(refusal) => {
                drop(node.into_node().into_store());
                Err(refusal)
            }
        }
    }

    /// Accepts a write and returns its number. Its extent is entered before. The refusals are those of `SessionPrimary::submit`, 1
    /// to 7 and 12, and `LocalFault` (8): the extent is not entered, and cannot be, since a call of the metadata's file failed now or
    /// earlier. Then the node is as it was.
    pub fn submit(&mut self, first: u64, bytes: &Bytes) -> Result<(u64, Done), Refusal>
        ensures step { (result ≡ Err LocalFault → ⊥) → PrimarySteps (Submits first (whole_blocks bytes.now) (is_out_of_memory result)) self.old.node (replied (λ accepted. reply.Ok accepted.1) result) self.new.node }
        ensures number { IfOk result (λ accepted. accepted.1.what ≡ what.Write accepted.0) }
        ensures accepted { IfOk result (λ accepted. HasAccepted B.opening accepted.0 first bytes.now) }
        ensures fault { result ≡ Err LocalFault → (self.new.node ≡ self.old.node) × (is_broken self.new.metadata ≡ true) }
        ensures goes_on { IfSome self.old.metadata (λ m. is_entered m.entries (extent_of first) ≡ true → result ≡ Err LocalFault → ⊥) }
        ensures touched { OnOk result (slice_index self.new.prepared (extent_of first) ≡ 0) }
        ensures refused { IfErr result (λ e. (submit_refuses e ≡ true) ⊎ (e ≡ LocalFault)) }
        ensures falls { IsTrue self.new.node.faithful → IsTrue self.old.node.faithful }
    {
        let extent = Extent(first / EXTENT_BLOCKS);
        touch(&mut self.prepared, extent);
        enter_extent(&mut self.metadata, extent)?;
        let accepted = self.node.submit(first, bytes);
        save_identifiers(&self.node, &mut self.metadata);
        accepted
    }

    /// Returns the receipt of a write, once. The refusals are those of `Primary::take_completed`: 8, 9 and 16.
    pub fn take_completed(&mut self, number: u64) -> Result<Receipt, Refusal>
        ensures step { IsPrimaryStep (take_receipt number) self.old.node result self.new.node }
        ensures number { IfOk result (λ receipt. receipt.number ≡ number) }
        ensures refused { IfErr result (λ e. take_completed_refuses e ≡ true) }
        ensures falls { IsTrue self.new.node.faithful → IsTrue self.old.node.faithful }
    {
        self.node.take_completed(number)
    }

    /// Reads blocks of the local disk. The refusals are those of `Primary::read`.
    pub fn read(&mut self, first: u64, count: u64) -> Result<Vec<u8>, Refusal>
        ensures read { IfOk result (λ bytes. IsTrue self.new.node.faithful → (h : PrimaryHistory) → PrimaryHas self.old.node h → IsRead (local_map h) first count bytes.items) }
        ensures held { IfOk result (λ bytes. IsTrue self.new.node.faithful → HasHeld B.opening first count bytes.items) }
        ensures falls { IsTrue self.new.node.faithful → IsTrue self.old.node.faithful }
        ensures known { ((store : S) → IsTrue (S.faithful store)) → IsTrue self.new.node.faithful }
        ensures within { OnOk result (is_range self.old.node.core.settings first count ≡ true) }
        ensures length { IfOk result (λ bytes. vec_len bytes ≡ count * BLOCK_BYTES) }
        ensures refused { IfErr result (λ e. ((e ≡ BadRange) × (is_range self.old.node.core.settings first count ≡ false))
            ⊎ (((e ≡ NoMemory) × (is_range self.old.node.core.settings first count ≡ true))
            ⊎ ((e ≡ ReadFault) × (is_range self.old.node.core.settings first count ≡ true) × (self.old.node.faults < self.new.node.faults)))) }
        ensures kept { (h : PrimaryHistory) → PrimaryHas self.old.node h → PrimaryHas self.new.node h }
    {
        self.node.read(first, count)
    }

    /// Sends the next frame. The refusals are those of `Primary::send`: 7, 11, 12 and 13. If the metadata is broken, nothing is sent:
    /// the end closes, and the refusal is `NotConnected` (12).
    pub fn send(&mut self) -> Result<Done, Refusal>
        ensures step { is_broken self.old.metadata ≡ false → PrimarySteps (Sends (has_room result) (is_out_of_memory result)) self.old.node (replied reply.Ok result) self.new.node }
        ensures runs { is_broken self.old.metadata ≡ false → PrimaryRuns self.old.node self.new.node }
        ensures link { is_broken self.old.metadata ≡ false → link.Sends result self.old.node.outgoing self.new.node.outgoing }
        ensures memory { IfErr result (λ e. e ≡ NoMemory → owes_blocks self.old.node.core ≡ true) }
        ensures closes { is_broken self.old.metadata ≡ true → (result ≡ Err NotConnected) × ((reply : Reply) × PrimarySteps Closes self.old.node reply self.new.node) }
        ensures refused { IfErr result (λ e. send_refuses e ≡ true) }
        ensures stays { is_broken self.old.metadata ≡ true → is_broken self.new.metadata ≡ true }
        ensures goes_on { PrimaryGoesOn self.old.node self.new.node }
    {
        if self.is_broken() {
            let _ = self.close();
            return Err(Refusal::NotConnected);
        }
        let sent = self.node.send();
        save_identifiers(&self.node, &mut self.metadata);
        sent
    }

    /// Takes the next frame. The refusals are those of `Primary::ack_in`: 7, 12, 13, and of a frame that was taken 20 to 25 and
    /// 30 to 35. If a full copy begins, all extents are entered, and identifiers that have turned are saved, before the call ends.
    pub fn ack_in(&mut self) -> Result<Done, Refusal>
        ensures step { PrimaryTakes result self.old.node self.new.node }
        ensures runs { PrimaryRuns self.old.node self.new.node }
        ensures refused { IfErr result (λ e. ack_in_refuses e ≡ true) }
        ensures stays { is_broken self.old.metadata ≡ true → is_broken self.new.metadata ≡ true }
        ensures goes_on { PrimaryGoesOn self.old.node self.new.node }
    {
        let taken = self.node.ack_in();
        self.owes_all = enter_full_copy(&mut self.metadata, &taken, self.owes_all);
        save_identifiers(&self.node, &mut self.metadata);
        taken
    }

    /// Performs the next write on the disk. `NothingThere` (13) if there is none, and no other refusal; then nothing changes.
    pub fn write_next(&mut self) -> Result<Done, Refusal>
        ensures runs { PrimaryRuns self.old.node self.new.node }
        ensures writes { (h : PrimaryHistory) → PrimaryHas self.old.node h → IfSome (next_local h) (λ number. WritesOne number result self.old.node self.new.node) }
        ensures nothing { (h : PrimaryHistory) → PrimaryHas self.old.node h → next_local h ≡ None → (result ≡ Err NothingThere) × (self.new.node ≡ self.old.node) }
        ensures refused { IfErr result (λ e. e ≡ NothingThere) }
        ensures stays { is_broken self.old.metadata ≡ true → is_broken self.new.metadata ≡ true }
        ensures goes_on { PrimaryGoesOn self.old.node self.new.node }
    {
        let written = self.node.write_next();
        save_identifiers(&self.node, &mut self.metadata);
        written
    }

    /// Reads the next block of a resync and appends it to the stream. The refusals are those of
    /// `Primary::resync_next`: 6, 7, 10, 12 and 14.
    pub fn resync_next(&mut self) -> Result<Done, Refusal>
        ensures runs { PrimaryRuns self.old.node self.new.node }
        ensures copies { CopiesOne result self.old.node self.new.node }
        ensures refused { IfErr result (λ e. resync_next_refuses e ≡ true) }
        ensures stays { is_broken self.old.metadata ≡ true → is_broken self.new.metadata ≡ true }
        ensures goes_on { PrimaryGoesOn self.old.node self.new.node }
    {
        let copied = self.node.resync_next();
        save_identifiers(&self.node, &mut self.metadata);
        copied
    }

    /// Closes the end. `NotConnected` (12) if it is closed, and no other refusal.
    pub fn close(&mut self) -> Result<u32, Refusal>
        ensures step { PrimarySteps Closes self.old.node (replied reply.Closed result) self.new.node }
        ensures refused { IfErr result (λ e. e ≡ NotConnected) }
        ensures stays { is_broken self.old.metadata ≡ true → is_broken self.new.metadata ≡ true }
        ensures goes_on { PrimaryGoesOn self.old.node self.new.node }
    {
        let closed = self.node.close();
        save_identifiers(&self.node, &mut self.metadata);
        closed
    }

    /// Closes the end, if it is open and its connection is `connection` or an earlier one.
    pub fn close_lost(&mut self, connection: u32)
        ensures closes { self.old.node.core.connections ≤ connection → (reply : Reply) × PrimarySteps Closes self.old.node reply self.new.node }
        ensures later { connection < self.old.node.core.connections → self.new.node ≡ self.old.node }
        ensures falls { IsTrue self.new.node.faithful → IsTrue self.old.node.faithful }
    {
        self.node.close_lost(connection);
        save_identifiers(&self.node, &mut self.metadata);
    }

    /// Opens the end again and returns the connection's number. The refusals are those of `Primary::reopen`: 6, 7, 33 and 36. If the
    /// metadata is broken, the end stays closed: `NotDrained` (36).
    pub fn reopen(&mut self, words: ConnectionWords) -> Result<u32, Refusal>
        ensures step { is_broken self.old.metadata ≡ false → PrimarySteps (Opens words.sync words.loss (is_out_of_memory result)) self.old.node (replied (λ number. plainly tt) result) self.new.node }
        ensures number { IfOk result (λ number. number ≡ self.new.node.core.connections) }
        ensures broken { is_broken self.old.metadata ≡ true → (result ≡ Err NotDrained) × (self.new ≡ self.old) }
        ensures refused { IfErr result (λ e. reopen_refuses e ≡ true) }
        ensures falls { IsTrue self.new.node.faithful → IsTrue self.old.node.faithful }
    {
        if self.is_broken() {
            return Err(Refusal::NotDrained);
        }
        let opened = self.node.reopen(words);
        save_identifiers(&self.node, &mut self.metadata);
        opened
    }

    /// Returns whether a call of the metadata's file has failed.
    pub fn is_broken(&self) -> bool
        ensures { result ≡ is_broken self.now.metadata }
    {
        is_broken(&self.metadata)
    }

    /// Returns how far the primary has come.
    pub fn progress(&self) -> PrimaryProgress
        ensures shows { (h : PrimaryHistory) → PrimaryHas self.now.node h → PrimaryShows result h }
        ensures metadata { result.is_metadata_broken ≡ is_broken self.now.metadata }
        ensures told { PrimaryHasShown B.opening result }
    {
        PrimaryProgress::of(self.node.node(), self.is_broken())
    }

    /// Returns the locked node for reading.
    pub fn node(&self) -> &SessionPrimary<B, O, I, S>
        ensures { result.now ≡ self.now.node }
    {
        &self.node
    }

    /// Returns the metadata for reading.
    pub fn metadata(&self) -> Option<&Metadata<F>>
        ensures kept { PrimaryIsKept F.seen F.may_leave F.faithful B.opening self.now.node self.now.metadata self.now.owes_all }
    {
        self.metadata.as_ref()
    }

    /// Returns the node alone, and its metadata, which says what a stop of it has to leave.
    pub fn into_parts(self) -> (Primary<O, I, S>, Option<Metadata<F>>)
        ensures node { result.0 ≡ self.node }
        ensures metadata { result.1 ≡ self.metadata }
        ensures had { PrimaryIsHad B.opening result.0 }
        ensures kept { PrimaryIsKept F.seen F.may_leave F.faithful B.opening result.0 result.1 self.owes_all }
    {
        let KeptPrimary {
            node,
            metadata,
            prepared: _,
            owes_all: _,
        } = self;
        (node.into_node(), metadata)
    }
}

// Notes that a write may come to the extent, so that it is not prepared to leave.
fn touch(prepared: &mut [u8], extent: Extent)
    ensures { slice_index prepared.new extent.0 ≡ 0 }
{
    if extent.0 < prepared.len() as u64 {
        prepared[extent.0 as usize] = 0;
    }
}

// Enters every extent, if a full copy begins by the frame that was taken. Returns whether a full copy is decided and not entered now.
fn enter_full_copy<F: StableFile>(
    metadata: &mut Option<Metadata<F>>,
    taken: &Result<Done, Refusal>,
    owes_all: bool,
) -> bool
    ensures keeps { Across (LosesNothing F.seen F.may_leave F.faithful) metadata.old metadata.new }
    ensures entered { begins_full_copy taken.now ≡ true → result ≡ false → IfSome metadata.new (λ m. (x : ℕ) → x < length m.entries → is_entered m.entries x ≡ true) }
    ensures sized { begins_full_copy taken.now ≡ true → IfSome metadata.new (λ m. length m.entries ≡ extents_of m.header.blocks) }
    ensures fault { begins_full_copy taken.now ≡ true → result ≡ true → is_broken metadata.new ≡ true }
    ensures other { begins_full_copy taken.now ≡ false → result ≡ owes_all }
    ensures stays { is_broken metadata.old ≡ true → is_broken metadata.new ≡ true }
{
    if begins_full_copy(taken) {
        return !enter_device(metadata);
    }
    owes_all
}

// Returns whether a frame was taken by which a full copy begins.
fn begins_full_copy(taken: &Result<Done, Refusal>) -> bool
    ensures { result ≡ begins_full_copy taken.now }
{
    match taken {
        Ok(done) => is_full_copy(done.what),
        Err(_) => false,
    }
}

fn is_full_copy(what: What) -> bool
    ensures { result ≡ is_full_copy what }
{
    matches!(what, What::Decided(Decision::FullSync))
}

// Saves the identifiers that a close of the node would leave now, if they are not those that were saved last.
fn save_identifiers<
    B: Beginning,
    O: FrameOut + Drop,
    I: FrameIn + Drop,
    S: Store + Drop,
    F: StableFile,
>(node: &SessionPrimary<B, O, I, S>, metadata: &mut Option<Metadata<F>>)
    ensures keeps { Across (LosesNothing F.seen F.may_leave F.faithful) metadata.old metadata.new }
    ensures entries { Across (λ old new. new.entries ≡ old.entries) metadata.old metadata.new }
    ensures saved { (h : PrimaryHistory) → PrimaryHas node.now h → IfSome metadata.new (λ m. m.is_broken ≡ false → m.identifiers.tuple ≡ stopped_tuple h) }
    ensures broken { is_broken metadata.old ≡ true → metadata.new ≡ metadata.old }
{
    save_turned(metadata, node.node().tuple_if_stopped(), true);
}

// Has the metadata say what a stop of this node leaves, which has no write yet: each marked block, and the identifiers. Returns it, and
// a byte for each extent. `BadSetting` (15) if it is of a device of another size, `NoMemory` (7), and `LocalFault` (8) if a call of the
// file fails.
fn with_file<B: Beginning, O: FrameOut + Drop, I: FrameIn + Drop, S: Store + Drop, F: StableFile>(
    alloc: Global,
    node: &SessionPrimary<B, O, I, S>,
    metadata: Option<Metadata<F>>,
) -> Result<(Option<Metadata<F>>, Vec<u8>), Refusal>
    ensures says { IfOk result (λ filed. (h : PrimaryHistory) → PrimaryHas node.now h → h.writes ≡ []
        → IfSome filed.0 (λ m. SaysPrimary (F.faithful m.file) (Outcomes F.seen F.may_leave m) m false h)) }
    ensures metadata { IfOk result (λ filed. is_some filed.0 ≡ is_some metadata) }
    ensures whole { IfOk result (λ filed. is_broken filed.0 ≡ false) }
    ensures refused { IfErr result (λ e. (local_open_refuses e ≡ true) ⊎ ((e ≡ LocalFault) × (is_some metadata ≡ true))) }
{
    let Some(mut metadata) = metadata else {
        return Ok((None, Vec::new(alloc)));
    };
    let primary = node.node();
    if metadata.header().blocks != u64::from(primary.settings().blocks) {
        return Err(Refusal::BadSetting);
    }
    let prepared = vec![in alloc; 0u8; metadata.extents() as usize]?;
    if enter_marked(&mut metadata, primary.bitmap()).is_err() {
        return Err(Refusal::LocalFault);
    }
    let mut filed = Some(metadata);
    save_identifiers(node, &mut filed);
    if is_broken(&filed) {
        return Err(Refusal::LocalFault);
    }
    Ok((filed, prepared))
}
