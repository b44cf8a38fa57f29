//! Closing the end.
ghost use Rattle.std.specs.Prelude.{◌≡◌};
ghost use Rattle.blocks.specs.declared.outcome.Reply.TheVariants as reply;
ghost use Rattle.model.specs.LocalRuns.{Closes};
ghost use Rattle.primary_protocol.specs.Node.{NodeSteps};
ghost use Rattle.primary_protocol.specs.Steps.{replied};
ghost use Rattle.primary.specs.State.{node};

use crate::Primary;
use blocks::{Refusal, Store};
use link::{FrameIn, FrameOut};

impl<O: FrameOut + Drop, I: FrameIn + Drop, S: Store + Drop> Primary<O, I, S> {
    /// Closes the end: marks the blocks of every unreleased write, and detaches all writes from the connection.
    /// Returns how many writes that completed. `NotConnected` (12) if it is closed. It takes no memory.
    pub fn close(&mut self) -> Result<u32, Refusal>
        ensures step { NodeSteps Closes (node self.old) (replied reply.Closed result) (node self.new) }
        ensures rest { self.new ≡ record self.old { core = self.new.core } }
    {
        self.core.close()
    }
}
