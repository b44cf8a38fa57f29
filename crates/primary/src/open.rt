//! Opening a connection.
ghost use Rattle.std.specs.Prelude.{◌≡◌, ◌<◌, Some, is_some, true, false, OnOk, OnErr, IfOk, IfErr};
ghost use Rattle.endpoint.specs.Calls.{IsNewIn, IsNewOut, is_out_of_memory, refusal_in};
ghost use Rattle.endpoint.specs.PacketReceiver.{incoming};
ghost use Rattle.endpoint.specs.PacketSender.{outgoing};
ghost use Rattle.model.specs.LocalRuns.{Opens};
ghost use Rattle.model.specs.Primary.{PrimaryHistory};
ghost use Rattle.model.specs.PrimarySteps.{open_tests};
ghost use Rattle.model.specs.Refusals.{first_refusal};
ghost use Rattle.primary_protocol.specs.Node.{NodeHas, NodeSteps};
ghost use Rattle.primary_protocol.specs.Steps.{plainly, replied};
ghost use Rattle.primary.specs.State.{IsRestarted, node};

use crate::Primary;
use blocks::{Refusal, Store};
use endpoint::{PacketReceiver, PacketSender};
use link::{FrameIn, FrameOut};

impl<O: FrameOut + Drop, I: FrameIn + Drop, S: Store + Drop> Primary<O, I, S> {
    /// Opens the end over unused ends of a link, with one word for a resync and one for the loss of the connection.
    ///
    /// `NotDrained` (36) if it is open; `UsedIdentifier` (33) if a word is zero or is in a known tuple, or if both
    /// are equal; `StreamFull` (6) if 4,294,967,295 connections were opened; else `NoMemory` (7). The new ends are
    /// dropped then.
    pub fn open(&mut self, outward: O, inward: I, sync: u64, loss: u64) -> Result<(), Refusal>
        requires outward { IsNewOut (O.state outward) }
        requires inward { IsNewIn (I.state inward) }
        ensures step { NodeSteps (Opens sync loss (is_out_of_memory result)) (node self.old) (replied plainly result) (node self.new) }
        ensures link { OnOk result (self.new ≡ record self.old {
          core = self.new.core;
          outgoing = Some (outgoing (O.state outward));
          incoming = Some (incoming (I.state inward));
        }) }
        ensures unchanged { OnErr result (self.new ≡ self.old) }
    {
        self.core.open(sync, loss)?;
        self.outgoing = Some(PacketSender::new(outward));
        self.incoming = Some(PacketReceiver::new(inward));
        Ok(())
    }

    /// Checks whether `open` would accept these words, except for memory: `NotDrained` (36), `UsedIdentifier` (33)
    /// and `StreamFull` (6) as for `open`. It changes nothing, and takes no memory.
    pub fn may_open(&self, sync: u64, loss: u64) -> Result<(), Refusal>
        ensures { (h : PrimaryHistory) → NodeHas (node self.now) h → refusal_in result ≡ first_refusal (open_tests h sync loss false) }
    {
        self.core.may_open(sync, loss)
    }

    /// Opens the end again, over the ends of the link that it has, and returns the connection's number. The node
    /// must have been opened before.
    ///
    /// `NotDrained` (36), `UsedIdentifier` (33), `StreamFull` (6) and `NoMemory` (7) as for `open`.
    pub fn reopen(&mut self, sync: u64, loss: u64) -> Result<u32, Refusal>
        requires opened { is_some self.old.outgoing ≡ true }
        requires opened_too { is_some self.old.incoming ≡ true }
        ensures step { NodeSteps (Opens sync loss (is_out_of_memory result)) (node self.old) (replied (λ number. plainly tt) result) (node self.new) }
        ensures link { IfOk result (λ number. IsRestarted number self.old self.new) }
        ensures number { IfOk result (λ number. number ≡ self.new.core.connections) }
        ensures unchanged { OnErr result (self.new ≡ self.old) }
    {
        self.core.open(sync, loss)?;
        let number = self.core.connection_number();
        let Some(outgoing) = &mut self.outgoing else {
            return Err(Refusal::NotConnected);
        };
        outgoing.restart(number);
        let Some(incoming) = &mut self.incoming else {
            return Err(Refusal::NotConnected);
        };
        incoming.restart(number);
        Ok(number)
    }
}
