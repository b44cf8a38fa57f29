//! Sending the next frame of the handshake or the stream.
ghost use Rattle.std.specs.Prelude.{◌≡◌, true, IfErr};
ghost use Rattle.blocks.specs.declared.outcome.Reply.TheVariants as reply;
ghost use Rattle.blocks.specs.declared.refusal.Refusal.TheVariants.{NoMemory};
ghost use Rattle.endpoint.specs.Calls as link;
ghost use Rattle.endpoint.specs.Calls.{has_room, is_out_of_memory};
ghost use Rattle.model.specs.LocalRuns.{Sends};
ghost use Rattle.primary_core.specs.Send.{owes_blocks};
ghost use Rattle.primary_protocol.specs.Node.{NodeSteps};
ghost use Rattle.primary_protocol.specs.Steps.{replied};
ghost use Rattle.primary.specs.State.{node};

use crate::Primary;
use blocks::{Done, Refusal, Store};
use link::{FrameIn, FrameOut};

impl<O: FrameOut + Drop, I: FrameIn + Drop, S: Store + Drop> Primary<O, I, S> {
    /// Sends the next frame: first those of the hello, then those of the stream. Under protocol A this may complete
    /// a write.
    ///
    /// `NotConnected` (12) if the end is closed, else `NothingThere` (13) if nothing is due, else `NoMemory` (7) if
    /// there is no room for a frame with blocks, else `LinkFull` (11) if the link is full. The reply shows whether
    /// the link had room.
    pub fn send(&mut self) -> Result<Done, Refusal>
        ensures step { NodeSteps (Sends (has_room result) (is_out_of_memory result)) (node self.old) (replied reply.Ok result) (node self.new) }
        ensures link { link.Sends result self.old.outgoing self.new.outgoing }
        ensures rest { self.new ≡ record self.old { core = self.new.core; outgoing = self.new.outgoing } }
        ensures memory { IfErr result (λ e. e ≡ NoMemory → owes_blocks self.old.core ≡ true) }
    {
        let packet = self.core.due()?;
        let Some(outgoing) = &mut self.outgoing else {
            return Err(Refusal::NotConnected);
        };
        outgoing.push(packet)?;
        Ok(self.core.sent())
    }
}
