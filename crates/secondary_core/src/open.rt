//! Opening a connection.
ghost use Rattle.std.specs.Prelude.{◌≡◌};
ghost use Rattle.secondary_protocol.specs.Core.{open_end};

use crate::connection::Connection;
use crate::outbox::Outbox;
use crate::state::SecondaryCore;
use blocks::Refusal;
use handshakes::Handshake;

impl SecondaryCore {
    /// Opens the end as connection `number`. `NotDrained` (36) if it is open or items are pending. It takes no
    /// memory.
    pub fn open(&mut self, number: u32) -> Result<(), Refusal>
        ensures { (result, self.new.state) ≡ open_end number self.old.state }
    {
        if self.is_open() || !self.is_drained() {
            return Err(Refusal::NotDrained);
        }
        self.number = number;
        self.inbox.begin();
        self.items_applied = 0;
        self.failed = None;
        self.connection = Some(Connection {
            handshake: Handshake::new(self.generations.tuple),
            outbox: Outbox::new(self.alloc),
        });
        self.is_ready = false;
        Ok(())
    }
}
