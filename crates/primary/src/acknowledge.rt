//! Receiving the peer's handshake and acknowledgements.
ghost use Rattle.std.specs.Prelude.{◌≡◌, true, IfErr};
ghost use Rattle.model.specs.CallRefusals.{ack_in_refuses};
ghost use Rattle.primary.specs.Calls.{TakesOne};

use crate::Primary;
use blocks::{Done, Refusal, Store};
use link::{FrameIn, FrameOut};

impl<O: FrameOut + Drop, I: FrameIn + Drop, S: Store + Drop> Primary<O, I, S> {
    /// Takes the next frame from the link: first those of the peer's hello, then acknowledgements.
    ///
    /// `NotConnected` (12) if the end is closed, else, during the hello alone, `NoMemory` (7) if there is no room
    /// for the longest frame, else `NothingThere` (13) if there is no frame; these change nothing. Every other
    /// refusal is a protocol error (20 to 25, 30 to 35): the frame counts as taken, and the end closes, with all
    /// effects of a close. Once the connection is established it takes no memory.
    pub fn ack_in(&mut self) -> Result<Done, Refusal>
        ensures step { TakesOne result self.old self.new }
        ensures refused { IfErr result (λ e. ack_in_refuses e ≡ true) }
        ensures rest { self.new ≡ record self.old { core = self.new.core; incoming = self.new.incoming } }
    {
        if !self.core.is_open() {
            return Err(Refusal::NotConnected);
        }
        let Some(incoming) = &mut self.incoming else {
            return Err(Refusal::NotConnected);
        };
        if !self.core.is_established() {
            incoming.ready()?;
        }
        let frame = incoming.take()?;
        self.core.take(frame)
    }
}
