//! Opening a connection.
ghost use Rattle.std.specs.Prelude.{◌≡◌, ◌<◌, ◌+◌, ◌-◌, ◌&&◌, if◌then◌else◌, Some, is_some, true, Ok, Err, OnOk, OnErr};
ghost use Rattle.blocks.specs.declared.refusal.Refusal.TheVariants.{NotDrained};
ghost use Rattle.endpoint.specs.Calls.{IsNewIn, IsNewOut};
ghost use Rattle.endpoint.specs.PacketReceiver.{incoming};
ghost use Rattle.endpoint.specs.PacketSender.{outgoing};
ghost use Rattle.model.specs.LocalRuns.{OpensToo};
ghost use Rattle.model.specs.Secondary.{SecondaryHistory, secondary_connection, is_drained};
ghost use Rattle.secondary_protocol.specs.Node.{NodeHas, NodeSteps};
ghost use Rattle.secondary_protocol.specs.Steps.{plainly, replied};
ghost use Rattle.secondary.specs.State.{IsRestarted, node};

use crate::Secondary;
use blocks::{Refusal, Store};
use endpoint::{PacketReceiver, PacketSender};
use link::{FrameIn, FrameOut};

impl<O: FrameOut + Drop, I: FrameIn + Drop, S: Store + Drop> Secondary<O, I, S> {
    /// Opens the end over unused ends of a link. The connection's number is the last one's plus one, and has to fit
    /// in 32 bits.
    ///
    /// `NotDrained` (36) if the end is open or items are pending; the new ends are dropped then. It takes no
    /// memory.
    pub fn open(&mut self, outward: O, inward: I) -> Result<(), Refusal>
        requires outward { IsNewOut (O.state outward) }
        requires inward { IsNewIn (I.state inward) }
        requires counted { self.old.core.number < 4294967295 }
        ensures step { NodeSteps (OpensToo 0) (node self.old) (replied plainly result) (node self.new) }
        ensures link { OnOk result (self.new ≡ record self.old {
          core = self.new.core;
          outgoing = Some (outgoing (O.state outward));
          incoming = Some (incoming (I.state inward));
        }) }
        ensures unchanged { OnErr result (self.new ≡ self.old) }
    {
        let number = self.core.connection_number() + 1;
        self.core.open(number)?;
        self.outgoing = Some(PacketSender::new(outward));
        self.incoming = Some(PacketReceiver::new(inward));
        Ok(())
    }

    /// Checks whether `open` and `reopen` would be accepted now: `NotDrained` (36) if the end is open or items are
    /// pending.
    pub fn may_open(&self) -> Result<(), Refusal>
        ensures { (h : SecondaryHistory) → NodeHas (node self.now) h
            → result ≡ (if (secondary_connection h).closed && is_drained h then Ok tt else Err NotDrained) }
    {
        if self.is_open() || !self.is_drained() {
            return Err(Refusal::NotDrained);
        }
        Ok(())
    }

    /// Opens the end again, over the ends of the link that it has, as connection `number`; it never saw the
    /// connections between the last one and this. The node must have been opened before, and `number` must be above
    /// the last one's number.
    ///
    /// `NotDrained` (36) if the end is open or items are pending. It takes no memory.
    pub fn reopen(&mut self, number: u32) -> Result<(), Refusal>
        requires opened { is_some self.old.outgoing ≡ true }
        requires opened_too { is_some self.old.incoming ≡ true }
        requires above { self.old.core.number < number }
        ensures step { NodeSteps (OpensToo (number - (self.old.core.number + 1))) (node self.old) (replied plainly result) (node self.new) }
        ensures link { OnOk result (IsRestarted number self.old self.new) }
        ensures unchanged { OnErr result (self.new ≡ self.old) }
    {
        self.core.open(number)?;
        let Some(outgoing) = &mut self.outgoing else {
            return Err(Refusal::NotConnected);
        };
        outgoing.restart(number);
        let Some(incoming) = &mut self.incoming else {
            return Err(Refusal::NotConnected);
        };
        incoming.restart(number);
        Ok(())
    }
}
