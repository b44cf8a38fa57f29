//! The primary under its lock.
ghost use Rattle.std.specs.Prelude.{
  ◌≡◌,
  ◌<◌,
  ◌≤◌,
  ◌*◌,
  ◌⊎◌,
  true,
  false,
  IsTrue,
  None,
  Some,
  Err,
  if◌then◌else◌,
  slice_get,
  unwrap_or,
  vec_len,
  IfOk,
  IfErr,
  IfSome,
  OnOk,
};
ghost use Rattle.blocks.specs.declared.block.TheConstants.{BLOCK_BYTES};
ghost use Rattle.blocks.specs.declared.outcome.Reply.{Reply};
ghost use Rattle.blocks.specs.declared.outcome.Reply.TheVariants as reply;
ghost use Rattle.blocks.specs.declared.outcome.What.TheVariants as what;
ghost use Rattle.blocks.specs.declared.refusal.Refusal.TheVariants.{BadRange, NoMemory, NotConnected, NothingThere, ReadFault};
ghost use Rattle.endpoint.specs.Calls as link;
ghost use Rattle.endpoint.specs.Calls.{IsNewIn, IsNewOut, has_room, is_out_of_memory};
ghost use Rattle.model.specs.CallRefusals.{
  ack_in_refuses,
  local_open_refuses,
  reopen_refuses,
  resync_next_refuses,
  send_refuses,
  submit_refuses,
  take_completed_refuses,
};
ghost use Rattle.model.specs.Contents.{IsRead, is_range};
ghost use Rattle.model.specs.LocalRuns.{Closes, Opens, Sends, Submits, primary_after};
ghost use Rattle.model.specs.Primary.{PrimaryHistory, local_map, next_local, primary_opening};
ghost use Rattle.model.specs.Theorems.{primary_at};
ghost use Rattle.primary.specs.Calls.{CopiesOne, WritesOne};
ghost use Rattle.primary_core.specs.Send.{owes_blocks};
ghost use Rattle.primary_protocol.specs.Node.{take_receipt};
ghost use Rattle.primary_protocol.specs.Steps.{plainly, replied};
ghost use Rattle.primary_protocol.specs.Transitions.{whole_blocks};
ghost use Rattle.session_nodes.specs.Primaries.{HasAccepted, HasHeld, IsPrimaryStep, PrimaryHas, PrimaryIsHad, PrimaryRuns, PrimarySteps, PrimaryTakes};

use crate::Beginning;
use bitmap::Bitmap;
use blocks::{ConnectionWords, Done, Refusal, Settings, Store, Tuple};
use bytes::Bytes;
use link::{FrameIn, FrameOut};
use primary::{Primary, Receipt};
use std::alloc::Global;
use std::marker::{Model, PhantomData};

/// The primary of a session, kept under a lock. Invariant: it was opened as its beginning says, and all of its connections
/// used the link ends that it has (`PrimaryIsHad`).
#[derive(Drop)]
pub struct SessionPrimary<B: Beginning, O: FrameOut + Drop, I: FrameIn + Drop, S: Store + Drop> {
    pub(crate) node: Primary<O, I, S>,
    began: PhantomData<B>,
}

impl<B: Beginning, O: FrameOut + Drop, I: FrameIn + Drop, S: Store + Drop> Model
    for SessionPrimary<B, O, I, S> {
    ghost use Rattle.primary.specs.State.{PrimaryView};
    ghost use Rattle.session_nodes.specs.Primaries.{PrimaryIsHad};

    ghost Value = { PrimaryView };

    ghost view = { λ n. n.node };

    ghost invariant = { λ n. PrimaryIsHad B.opening n.node };
}

impl<B: Beginning, O: FrameOut + Drop, I: FrameIn + Drop, S: Store + Drop> SessionPrimary<
    B,
    O,
    I,
    S,
> {
    /// Creates a primary over its disk, and opens it over unused ends of a link.
    ///
    /// `BadSetting` (15) and `NoMemory` (7) come as for `Primary::with_bitmap`, `UsedIdentifier` (33) and `NoMemory` as for
    /// `Primary::open`, and no other.
    pub fn open(
        alloc: Global,
        settings: Settings,
        store: S,
        tuple: Tuple,
        marks: Bitmap,
        link: (O, I),
        words: ConnectionWords,
    ) -> Result<SessionPrimary<B, O, I, S>, Refusal>
        requires outward { IsNewOut (O.state link.0) }
        requires inward { IsNewIn (I.state link.1) }
        requires began { IfSome B.opening (λ opening. primary_opening settings (slice_get (S.contents store)) tuple (λ block. unwrap_or (slice_get marks block) false)
            ≡ primary_at opening) }
        ensures opened { IfOk result (λ n. PrimaryHas n (primary_after (Opens words.sync words.loss false)
            (primary_opening settings (slice_get (S.contents store)) tuple (λ block. unwrap_or (slice_get marks block) false)))) }
        ensures refused { IfErr result (λ e. local_open_refuses e ≡ true) }
    {
        let mut node = Primary::with_bitmap(alloc, settings, store, tuple, marks)?;
        let (outward, inward) = link;
        match node.open(outward, inward, words.sync, words.loss) {
            Ok(()) => Ok(SessionPrimary {
                node,
                began: PhantomData,
            }),
            Err(refusal) => {
                drop(node.into_store());
                Err(refusal)
            }
        }
    }

    /// Accepts a write and returns its number. The refusals are those of `Primary::submit`: 1 to 7 and 12.
    pub fn submit(&mut self, first: u64, bytes: &Bytes) -> Result<(u64, Done), Refusal>
        ensures step { PrimarySteps (Submits first (whole_blocks bytes.now) (is_out_of_memory result)) self.old (replied (λ accepted. reply.Ok accepted.1) result) self.new }
        ensures number { IfOk result (λ accepted. accepted.1.what ≡ what.Write accepted.0) }
        ensures accepted { IfOk result (λ accepted. HasAccepted B.opening accepted.0 first bytes.now) }
        ensures refused { IfErr result (λ e. submit_refuses e ≡ true) }
        ensures falls { IsTrue self.new.faithful → IsTrue self.old.faithful }
    {
        self.node.submit(first, bytes)
    }

    /// Returns the receipt of a write, once. The refusals are those of `Primary::take_completed`: 8, 9 and 16.
    pub fn take_completed(&mut self, number: u64) -> Result<Receipt, Refusal>
        ensures step { IsPrimaryStep (take_receipt number) self.old result self.new }
        ensures number { IfOk result (λ receipt. receipt.number ≡ number) }
        ensures refused { IfErr result (λ e. take_completed_refuses e ≡ true) }
        ensures falls { IsTrue self.new.faithful → IsTrue self.old.faithful }
    {
        self.node.take_completed(number)
    }

    /// Reads blocks of the local disk. The refusals are those of `Primary::read`.
    pub fn read(&mut self, first: u64, count: u64) -> Result<Vec<u8>, Refusal>
        ensures read { IfOk result (λ bytes. IsTrue self.new.faithful → (h : PrimaryHistory) → PrimaryHas self.old h → IsRead (local_map h) first count bytes.items) }
        ensures held { IfOk result (λ bytes. IsTrue self.new.faithful → HasHeld B.opening first count bytes.items) }
        ensures falls { IsTrue self.new.faithful → IsTrue self.old.faithful }
        ensures known { ((store : S) → IsTrue (S.faithful store)) → IsTrue self.new.faithful }
        ensures within { OnOk result (is_range self.old.core.settings first count ≡ true) }
        ensures length { IfOk result (λ bytes. vec_len bytes ≡ count * BLOCK_BYTES) }
        ensures refused { IfErr result (λ e. ((e ≡ BadRange) × (is_range self.old.core.settings first count ≡ false))
            ⊎ (((e ≡ NoMemory) × (is_range self.old.core.settings first count ≡ true))
            ⊎ ((e ≡ ReadFault) × (is_range self.old.core.settings first count ≡ true) × (self.old.faults < self.new.faults)))) }
        ensures kept { (h : PrimaryHistory) → PrimaryHas self.old h → PrimaryHas self.new h }
    {
        self.node.read(first, count)
    }

    /// Sends the next frame. The refusals are those of `Primary::send`: 7, 11, 12 and 13.
    pub fn send(&mut self) -> Result<Done, Refusal>
        ensures step { PrimarySteps (Sends (has_room result) (is_out_of_memory result)) self.old (replied reply.Ok result) self.new }
        ensures runs { PrimaryRuns self.old self.new }
        ensures link { link.Sends result self.old.outgoing self.new.outgoing }
        ensures memory { IfErr result (λ e. e ≡ NoMemory → owes_blocks self.old.core ≡ true) }
        ensures refused { IfErr result (λ e. send_refuses e ≡ true) }
        ensures falls { IsTrue self.new.faithful → IsTrue self.old.faithful }
    {
        self.node.send()
    }

    /// Takes the next frame. The refusals are those of `Primary::ack_in`: 7, 12, 13, and of a frame that was taken 20 to 25 and
    /// 30 to 35.
    pub fn ack_in(&mut self) -> Result<Done, Refusal>
        ensures step { PrimaryTakes result self.old self.new }
        ensures runs { PrimaryRuns self.old self.new }
        ensures refused { IfErr result (λ e. ack_in_refuses e ≡ true) }
        ensures falls { IsTrue self.new.faithful → IsTrue self.old.faithful }
    {
        self.node.ack_in()
    }

    /// Performs the next write on the disk. `NothingThere` (13) if there is none, and no other refusal; then nothing changes.
    pub fn write_next(&mut self) -> Result<Done, Refusal>
        ensures runs { PrimaryRuns self.old self.new }
        ensures writes { (h : PrimaryHistory) → PrimaryHas self.old h → IfSome (next_local h) (λ number. WritesOne number result self.old self.new) }
        ensures nothing { (h : PrimaryHistory) → PrimaryHas self.old h → next_local h ≡ None → (result ≡ Err NothingThere) × (self.new ≡ self.old) }
        ensures outward { self.new.outgoing ≡ self.old.outgoing }
        ensures inward { self.new.incoming ≡ self.old.incoming }
        ensures refused { IfErr result (λ e. e ≡ NothingThere) }
        ensures falls { IsTrue self.new.faithful → IsTrue self.old.faithful }
    {
        match self.node.next_local() {
            Some(number) => self.write_at(number),
            None => Err(Refusal::NothingThere),
        }
    }

    // Performs a write on the disk.
    fn write_at(&mut self, number: u64) -> Result<Done, Refusal>
        ensures runs { PrimaryRuns self.old self.new }
        ensures writes { WritesOne number result self.old self.new }
        ensures outward { self.new.outgoing ≡ self.old.outgoing }
        ensures inward { self.new.incoming ≡ self.old.incoming }
        ensures falls { IsTrue self.new.faithful → IsTrue self.old.faithful }
    {
        self.node.local(number)
    }

    /// Reads the next block of a resync and appends it to the stream. The refusals are those of
    /// `Primary::resync_next`: 6, 7, 10, 12 and 14.
    pub fn resync_next(&mut self) -> Result<Done, Refusal>
        ensures runs { PrimaryRuns self.old self.new }
        ensures copies { CopiesOne result self.old self.new }
        ensures outward { self.new.outgoing ≡ self.old.outgoing }
        ensures inward { self.new.incoming ≡ self.old.incoming }
        ensures refused { IfErr result (λ e. resync_next_refuses e ≡ true) }
        ensures falls { IsTrue self.new.faithful → IsTrue self.old.faithful }
    {
        self.node.resync_next()
    }

    /// Closes the end. `NotConnected` (12) if it is closed, and no other refusal.
    pub fn close(&mut self) -> Result<u32, Refusal>
        ensures step { PrimarySteps Closes self.old (replied reply.Closed result) self.new }
        ensures refused { IfErr result (λ e. e ≡ NotConnected) }
        ensures falls { IsTrue self.new.faithful → IsTrue self.old.faithful }
    {
        self.node.close()
    }

    /// Closes the end, if it is open and its connection is `connection` or an earlier one.
    pub fn close_lost(&mut self, connection: u32)
        ensures closes { self.old.core.connections ≤ connection → (reply : Reply) × PrimarySteps Closes self.old reply self.new }
        ensures later { connection < self.old.core.connections → self.new ≡ self.old }
        ensures falls { IsTrue self.new.faithful → IsTrue self.old.faithful }
    {
        if self.node.connection_number() <= connection {
            let _ = self.close();
        }
    }

    /// Opens the end again and returns the connection's number. The refusals are those of `Primary::reopen`: 6, 7, 33 and 36.
    pub fn reopen(&mut self, words: ConnectionWords) -> Result<u32, Refusal>
        ensures step { PrimarySteps (Opens words.sync words.loss (is_out_of_memory result)) self.old (replied (λ number. plainly tt) result) self.new }
        ensures number { IfOk result (λ number. number ≡ self.new.core.connections) }
        ensures refused { IfErr result (λ e. reopen_refuses e ≡ true) }
        ensures falls { IsTrue self.new.faithful → IsTrue self.old.faithful }
    {
        self.node.reopen(words.sync, words.loss)
    }

    /// Returns the node for reading.
    pub fn node(&self) -> &Primary<O, I, S>
        ensures node { result.now ≡ self.now }
        ensures had { PrimaryIsHad B.opening result.now }
    {
        &self.node
    }

    /// Returns the node alone.
    pub fn into_node(self) -> Primary<O, I, S>
        ensures node { result ≡ self }
        ensures had { PrimaryIsHad B.opening result }
    {
        self.node
    }
}
