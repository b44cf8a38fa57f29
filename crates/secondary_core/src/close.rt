//! Closing the end.
ghost use Rattle.std.specs.Prelude.{◌≡◌};
ghost use Rattle.secondary_protocol.specs.Core.{close_end};

use crate::state::SecondaryCore;
use blocks::Refusal;

impl SecondaryCore {
    /// Closes the end; its items stay. `NotConnected` (12) if it is closed.
    pub fn close(&mut self) -> Result<(), Refusal>
        ensures { (result, self.new.state) ≡ close_end self.old.state }
    {
        if !self.is_open() {
            return Err(Refusal::NotConnected);
        }
        self.connection = None;
        Ok(())
    }
}
