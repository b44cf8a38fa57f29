//! The secondary under its lock.
ghost use Rattle.std.specs.Prelude.{◌≡◌, ◌≢◌, ◌-◌, ◌+◌, ◌<◌, ◌≤◌, true, None, Err, slice_get, IfErr, IfOk, IfSome, OnErr};
ghost use Rattle.blocks.specs.declared.outcome.Reply.{Reply};
ghost use Rattle.blocks.specs.declared.refusal.Refusal.TheVariants.{NoMemory, NotConnected, NotDrained, NothingThere};
ghost use Rattle.endpoint.specs.Calls.{IsNewIn, IsNewOut, Sends, has_room, is_out_of_memory};
ghost use Rattle.model.specs.CallRefusals.{ack_out_refuses, peer_open_refuses, receive_refuses};
ghost use Rattle.model.specs.LocalRuns.{Acknowledges, ClosesToo, OpensToo, secondary_after};
ghost use Rattle.model.specs.Secondary.{SecondaryHistory, secondary_opening, next_pending};
ghost use Rattle.model.specs.Theorems.{secondary_at};
ghost use Rattle.secondary.specs.Calls.{AppliesOne};
ghost use Rattle.secondary_protocol.specs.Steps.{plainly, replied};
ghost use Rattle.session_nodes.specs.Secondaries.{SecondaryHas, SecondaryIsHad, SecondaryReceives, SecondaryRuns, SecondarySteps};

use crate::Beginning;
use blocks::{Done, Refusal, Settings, Store, Tuple};
use link::{FrameIn, FrameOut};
use secondary::Secondary;
use std::alloc::Global;
use std::marker::{Model, PhantomData};

/// The secondary of a session, kept under a lock. Invariant: it was opened as its beginning says, and all of its
/// connections used the link ends that it has (`SecondaryIsHad`).
#[derive(Drop)]
pub struct SessionSecondary<B: Beginning, O: FrameOut + Drop, I: FrameIn + Drop, S: Store + Drop> {
    pub(crate) node: Secondary<O, I, S>,
    began: PhantomData<B>,
}

impl<B: Beginning, O: FrameOut + Drop, I: FrameIn + Drop, S: Store + Drop> Model
    for SessionSecondary<B, O, I, S> {
    ghost use Rattle.secondary.specs.State.{SecondaryView};
    ghost use Rattle.session_nodes.specs.Secondaries.{SecondaryIsHad};

    ghost Value = { SecondaryView };

    ghost view = { λ n. n.node };

    ghost invariant = { λ n. SecondaryIsHad B.opening n.node };
}

impl<B: Beginning, O: FrameOut + Drop, I: FrameIn + Drop, S: Store + Drop> SessionSecondary<
    B,
    O,
    I,
    S,
> {
    /// Creates a secondary over its disk, and opens it over unused ends of a link.
    ///
    /// `BadSetting` (15) and `NoMemory` (7) come as for `Secondary::new`, and no other.
    pub fn open(
        alloc: Global,
        settings: Settings,
        store: S,
        tuple: Tuple,
        link: (O, I),
    ) -> Result<SessionSecondary<B, O, I, S>, Refusal>
        requires outward { IsNewOut (O.state link.0) }
        requires inward { IsNewIn (I.state link.1) }
        requires began { IfSome B.opening (λ opening. secondary_opening settings (slice_get (S.contents store)) tuple ≡ secondary_at opening) }
        ensures opened { IfOk result (λ n. SecondaryHas n (secondary_after (OpensToo 0) (secondary_opening settings (slice_get (S.contents store)) tuple))) }
        ensures refused { IfErr result (λ e. peer_open_refuses e ≡ true) }
    {
        let mut node = Secondary::new(alloc, settings, store, tuple)?;
        let (outward, inward) = link;
        match node.open(outward, inward) {
            Ok(()) => Ok(SessionSecondary {
                node,
                began: PhantomData,
            }),
            Err(refusal) => {
                drop(node.into_store());
                Err(refusal)
            }
        }
    }

    /// Takes the next frame. The refusals are those of `Secondary::receive`: 7, 12, 13, 18, and of a frame that was taken 20 to
    /// 23, 34 and 35.
    pub fn receive(&mut self) -> Result<Done, Refusal>
        ensures step { SecondaryReceives result self.old self.new }
        ensures runs { SecondaryRuns self.old self.new }
        ensures refused { IfErr result (λ e. receive_refuses e ≡ true) }
    {
        self.node.receive()
    }

    /// Sends the next frame. The refusals are those of `Secondary::ack_out`: 11, 12 and 13.
    pub fn ack_out(&mut self) -> Result<Done, Refusal>
        ensures step { SecondarySteps (Acknowledges (has_room result) (is_out_of_memory result)) self.old (replied (λ done. done) result) self.new }
        ensures runs { SecondaryRuns self.old self.new }
        ensures link { Sends result self.old.outgoing self.new.outgoing }
        ensures memory { IfErr result (λ e. e ≢ NoMemory) }
        ensures refused { IfErr result (λ e. ack_out_refuses e ≡ true) }
    {
        self.node.ack_out()
    }

    /// Performs the next item on the disk. `NothingThere` (13) if there is none, and no other refusal; then nothing changes.
    pub fn apply_next(&mut self) -> Result<Done, Refusal>
        ensures runs { SecondaryRuns self.old self.new }
        ensures applies { (h : SecondaryHistory) → SecondaryHas self.old h → IfSome (next_pending h) (λ place. AppliesOne place result self.old self.new) }
        ensures nothing { (h : SecondaryHistory) → SecondaryHas self.old h → next_pending h ≡ None → (result ≡ Err NothingThere) × (self.new ≡ self.old) }
        ensures refused { IfErr result (λ e. e ≡ NothingThere) }
    {
        match self.node.next() {
            Ok(place) => self.apply_at(place),
            Err(refusal) => Err(refusal),
        }
    }

    // Performs an item on the disk.
    fn apply_at(&mut self, place: u32) -> Result<Done, Refusal>
        ensures runs { SecondaryRuns self.old self.new }
        ensures applies { AppliesOne place result self.old self.new }
    {
        self.node.peer(place)
    }

    /// Closes the end. `NotConnected` (12) if it is closed, and no other refusal.
    pub fn close(&mut self) -> Result<(), Refusal>
        ensures step { SecondarySteps ClosesToo self.old (replied plainly result) self.new }
        ensures refused { IfErr result (λ e. e ≡ NotConnected) }
    {
        self.node.close()
    }

    /// Closes the end, if it is open and its connection is `connection` or an earlier one.
    pub fn close_lost(&mut self, connection: u32)
        ensures closes { self.old.core.number ≤ connection → (reply : Reply) × SecondarySteps ClosesToo self.old reply self.new }
        ensures later { connection < self.old.core.number → self.new ≡ self.old }
    {
        if self.node.connection_number() <= connection {
            let _ = self.close();
        }
    }

    /// Opens the end again under the connection's number.
    ///
    /// `NotDrained` (36) if the end is open, if items are pending, and if the node had a connection of this number or a
    /// higher one, and no other refusal; then nothing changes.
    pub fn reopen(&mut self, number: u32) -> Result<(), Refusal>
        ensures numbered { number ≤ self.old.core.number → result ≡ Err NotDrained }
        ensures step { self.old.core.number < number → SecondarySteps (OpensToo (number - (self.old.core.number + 1))) self.old (replied plainly result) self.new }
        ensures unchanged { OnErr result (self.new ≡ self.old) }
        ensures refused { IfErr result (λ e. e ≡ NotDrained) }
    {
        if number <= self.node.connection_number() {
            return Err(Refusal::NotDrained);
        }
        self.open_again(number)
    }

    // Like `reopen`, for a number above the last one.
    fn open_again(&mut self, number: u32) -> Result<(), Refusal>
        requires above { self.old.core.number < number }
        ensures step { SecondarySteps (OpensToo (number - (self.old.core.number + 1))) self.old (replied plainly result) self.new }
        ensures unchanged { OnErr result (self.new ≡ self.old) }
        ensures refused { IfErr result (λ e. e ≡ NotDrained) }
    {
        self.node.reopen(number)
    }

    /// Returns the node for reading.
    pub fn node(&self) -> &Secondary<O, I, S>
        ensures node { result.now ≡ self.now }
        ensures had { SecondaryIsHad B.opening result.now }
    {
        &self.node
    }

    /// Returns the node alone.
    pub fn into_node(self) -> Secondary<O, I, S>
        ensures node { result ≡ self }
        ensures had { SecondaryIsHad B.opening result }
    {
        self.node
    }
}
