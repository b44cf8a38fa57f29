//! Sending the handshake and acknowledgements.
ghost use Rattle.std.specs.Prelude.{◌≡◌, ◌≢◌, IfErr};
ghost use Rattle.model.specs.LocalRuns.{Acknowledges};
ghost use Rattle.blocks.specs.declared.refusal.Refusal.TheVariants.{NoMemory};
ghost use Rattle.secondary_protocol.specs.Node.{NodeSteps};
ghost use Rattle.secondary_protocol.specs.Steps.{replied};
ghost use Rattle.secondary.specs.State.{node};
ghost use Rattle.endpoint.specs.Calls.{Sends, has_room, is_out_of_memory};

use crate::Secondary;
use blocks::{Done, Refusal, Store};
use link::{FrameIn, FrameOut};

impl<O: FrameOut + Drop, I: FrameIn + Drop, S: Store + Drop> Secondary<O, I, S> {
    /// Sends the next frame: first those of the hello, then the acknowledgements that are due.
    ///
    /// `NotConnected` (12) if the end is closed, else `NothingThere` (13) if nothing is due, else `LinkFull` (11)
    /// if the link is full. An acknowledgement has no blocks, so it needs no memory. The reply shows whether the
    /// link had room.
    pub fn ack_out(&mut self) -> Result<Done, Refusal>
        ensures step { NodeSteps (Acknowledges (has_room result) (is_out_of_memory result)) (node self.old) (replied (λ done. done) result) (node self.new) }
        ensures link { Sends result self.old.outgoing self.new.outgoing }
        ensures rest { self.new ≡ record self.old { core = self.new.core; outgoing = self.new.outgoing } }
        ensures memory { IfErr result (λ e. e ≢ NoMemory) }
    {
        let packet = self.core.due()?;
        let Some(outgoing) = &mut self.outgoing else {
            return Err(Refusal::NotConnected);
        };
        outgoing.push(packet)?;
        Ok(self.core.sent())
    }
}
