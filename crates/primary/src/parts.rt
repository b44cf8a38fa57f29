//! A primary apart from its link.
ghost use Rattle.std.specs.Prelude.{◌≡◌, None};
ghost use Rattle.primary.specs.State.{IsNode};

use crate::Primary;
use blocks::Store;
use endpoint::{PacketReceiver, PacketSender};
use link::{FrameIn, FrameOut};
use primary_core::PrimaryCore;
use std::alloc::Global;
use std::marker::Model;

/// A primary whose link was taken from it: its core and its disk.
#[derive(Drop)]
pub struct Unlinked<S: Store + Drop> {
    alloc: Global,
    core: PrimaryCore,
    store: S,
}

impl<S: Store + Drop> Model for Unlinked<S> {
    ghost use Rattle.std.specs.Prelude.{None};
    ghost use Rattle.primary.specs.State.{PrimaryView, seen};

    ghost Value = { PrimaryView };

    ghost view = { λ n. seen n.core.state (S.contents n.store) None None (S.faults n.store) (S.steady n.store) (S.faithful n.store) };
}

impl<O: FrameOut + Drop, I: FrameIn + Drop, S: Store + Drop> Primary<O, I, S> {
    /// Takes the node apart: returns it without its link, and both sides of the link, if it was opened.
    pub fn into_parts(
        self,
    ) -> (
        Unlinked<S>,
        Option<PacketSender<O>>,
        Option<PacketReceiver<I>>,
    )
        ensures node { result.0 ≡ record self { outgoing = None; incoming = None } }
        ensures outgoing { result.1 ≡ self.outgoing }
        ensures incoming { result.2 ≡ self.incoming }
    {
        let Primary {
            alloc,
            core,
            store,
            outgoing,
            incoming,
        } = self;
        (Unlinked { alloc, core, store }, outgoing, incoming)
    }

    /// Returns the node's disk, for reading.
    pub fn store(&self) -> &S
        ensures contents { S.contents result.now ≡ self.now.disk }
        ensures faults { S.faults result.now ≡ self.now.faults }
        ensures faithful { S.faithful result.now ≡ self.now.faithful }
    {
        &self.store
    }

    /// Drops the node and returns its disk.
    pub fn into_store(self) -> S
        ensures contents { S.contents result ≡ self.disk }
        ensures faithful { S.faithful result ≡ self.faithful }
    {
        self.store
    }
}

impl<S: Store + Drop> Unlinked<S> {
    /// Joins the node and both sides of a link. Together they have to satisfy the node's invariant, as they do if
    /// `into_parts` returned them.
    pub fn linked<O: FrameOut + Drop, I: FrameIn + Drop>(
        self,
        outgoing: Option<PacketSender<O>>,
        incoming: Option<PacketReceiver<I>>,
    ) -> Primary<O, I, S>
        requires node { IsNode (record self { outgoing = outgoing; incoming = incoming }) }
        ensures { result ≡ record self { outgoing = outgoing; incoming = incoming } }
    {
        Primary {
            alloc: self.alloc,
            core: self.core,
            store: self.store,
            outgoing,
            incoming,
        }
    }
}
