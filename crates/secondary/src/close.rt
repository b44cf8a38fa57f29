//! Closing the end.
ghost use Rattle.std.specs.Prelude.{◌≡◌};
ghost use Rattle.model.specs.LocalRuns.{ClosesToo};
ghost use Rattle.secondary_protocol.specs.Node.{NodeSteps};
ghost use Rattle.secondary_protocol.specs.Steps.{plainly, replied};
ghost use Rattle.secondary.specs.State.{node};

use crate::Secondary;
use blocks::{Refusal, Store};
use link::{FrameIn, FrameOut};

impl<O: FrameOut + Drop, I: FrameIn + Drop, S: Store + Drop> Secondary<O, I, S> {
    /// Closes the end: no frame is taken or sent from then on, and its items stay. `NotConnected` (12) if it is
    /// closed. It takes no memory.
    pub fn close(&mut self) -> Result<(), Refusal>
        ensures step { NodeSteps ClosesToo (node self.old) (replied plainly result) (node self.new) }
        ensures rest { self.new ≡ record self.old { core = self.new.core } }
    {
        self.core.close()
    }
}
