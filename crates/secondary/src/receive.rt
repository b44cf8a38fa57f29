//! Receiving a frame.
ghost use Rattle.std.specs.Prelude.{◌≡◌, true, IfErr};
ghost use Rattle.model.specs.CallRefusals.{receive_refuses};
ghost use Rattle.secondary.specs.Calls.{ReceivesOne};

use crate::Secondary;
use blocks::{Done, Refusal, Store};
use link::{FrameIn, FrameOut};

impl<O: FrameOut + Drop, I: FrameIn + Drop, S: Store + Drop> Secondary<O, I, S> {
    /// Takes the next frame from the link.
    ///
    /// `NotConnected` (12) if the end is closed, else `PendingFull` (18) if as many items are pending as the
    /// settings allow, else `NoMemory` (7) if there is no room for what a frame may need, else `NothingThere` (13)
    /// if there is no frame; these change nothing. Every other refusal is a protocol error (20 to 23, 34, 35): the
    /// frame counts as taken, and the end closes; its items stay.
    pub fn receive(&mut self) -> Result<Done, Refusal>
        ensures step { ReceivesOne result self.old self.new }
        ensures refused { IfErr result (λ e. receive_refuses e ≡ true) }
        ensures rest { self.new ≡ record self.old { core = self.new.core; incoming = self.new.incoming } }
    {
        self.core.may_take()?;
        let Some(incoming) = &mut self.incoming else {
            return Err(Refusal::NotConnected);
        };
        self.core.ready()?;
        incoming.ready()?;
        let frame = incoming.take()?;
        self.core.take(frame)
    }
}
