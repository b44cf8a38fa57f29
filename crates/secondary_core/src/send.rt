//! Sending: the hello, and the acknowledgements.
ghost use Rattle.std.specs.Prelude.{ℕ, ◌≡◌, ◌≢◌, ◌+◌, ◌≤◌, false, true, length, option_map, option_to_list, Ok, Err, IsOk, IfOk, IfErr, IfSome, MatchResult};
ghost use Rattle.blocks.specs.declared.refusal.Refusal.TheVariants.{NoMemory};
ghost use Rattle.packets.specs.Spelling.{IsSpellable};
ghost use Rattle.packets.specs.Table.{has_blocks};
ghost use Rattle.endpoint.specs.Meaning.{meaning};
ghost use Rattle.secondary_protocol.specs.Core.{ack_out, due};
ghost use Rattle.secondary_core.specs.Connections.{IsServed, acknowledged};

use crate::answer::DueAck;
use crate::connection::Connection;
use crate::item::PendingItem;
use crate::state::SecondaryCore;
use blocks::{Done, Refusal, What};
use packets::Packet;
use peerdisk::PeerDisk;

impl SecondaryCore {
    /// Returns the packet to send next: first those of the hello, then the acknowledgements that are due. It can be
    /// encoded, and has no blocks. `NotConnected` (12) if the end is closed, else `NothingThere` (13) if nothing is
    /// due. It takes no memory.
    pub fn due(&self) -> Result<Packet, Refusal>
        ensures due { MatchResult result (λ packet. due self.now.state ≡ Ok (meaning packet)) (λ e. due self.now.state ≡ Err e) }
        ensures spellable { IfOk result IsSpellable }
        ensures inline { IfOk result (λ packet. has_blocks packet ≡ false) }
        ensures memory { IfErr result (λ e. e ≢ NoMemory) }
    {
        let Some(connection) = &self.connection else {
            return Err(Refusal::NotConnected);
        };
        match connection.handshake.due(&self.settings) {
            Some(packet) => Ok(packet),
            None => connection.outbox.next().ok_or(Refusal::NothingThere),
        }
    }

    /// Records that the packet that `due` returns was sent. It takes no memory.
    pub fn sent(&mut self) -> Done
        requires { IsOk (due self.old.state) }
        ensures { (Ok result, self.new.state) ≡ ack_out true false self.old.state }
    {
        let Ok(packet) = self.due() else {
            unreachable!()
        };
        let done = Done::about(What::Frame(packet.command(), None));
        if let Some(Connection { handshake, outbox }) = &mut self.connection {
            if handshake.is_sent() {
                outbox.pop();
            } else {
                handshake.frame_sent();
            }
        }
        done
    }
}

/// Makes acknowledgements due on an open connection: this answer, if there is one, then that of each epoch up to
/// whose end all items are applied. No other call makes one due.
pub(crate) fn acknowledge(
    connection: &mut Option<Connection>,
    answer: Option<DueAck>,
    disk: &PeerDisk<PendingItem>,
)
    requires { IfSome connection.old (λ c. length c.outbox.due + length (option_to_list answer) + length c.outbox.sizes + length disk.now.pending ≤ c.outbox.answers) }
    ensures due { connection.new ≡ option_map (acknowledged (option_to_list answer) disk.now.pending) connection.old }
    ensures served { (barriers : ℕ) → IfSome connection.old (λ c. c.outbox.answered + length c.outbox.sizes ≡ barriers)
        → IfSome connection.new (λ c. IsServed disk.now.pending barriers c.outbox) }
{
    if let Some(connection) = connection {
        connection.outbox.push(answer);
        connection.outbox.answer(disk);
    }
}
