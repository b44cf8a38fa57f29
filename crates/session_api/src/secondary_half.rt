//! The secondary's half.
ghost use Rattle.std.specs.Prelude.{◌≡◌, true, IfErr};
ghost use Rattle.blocks.specs.declared.refusal.Refusal.TheVariants.{NotDrained};
ghost use Rattle.model.specs.CallRefusals.{ack_out_refuses, receive_refuses};

use crate::bell::Bell;
use crate::roles::SecondaryRole;
use crate::turn::Turn;
use blocks::{Done, Refusal};
use node_lines::SecondaryProgress;

/// The secondary's half of a session, over any link and disk. Each call locks the node, does what it says, and unlocks
/// the node. Its refusals are those of the node's call of the same name, and no other.
pub trait SecondaryHalf {
    ghost use Rattle.node_lines.specs.declared.secondary_progress.SecondaryProgress.{SecondaryProgress};

    /// `shows progress`: the secondary had come as far.
    ghost shows: { SecondaryProgress → Type 0 };

    /// Takes the next frame. Refuses with 7, 12, 13, 18, and a frame that was taken with 20 to 23, 34 and 35.
    fn receive(&self) -> Result<Done, Refusal>
        ensures refused { IfErr result (λ e. receive_refuses e ≡ true) };

    /// Sends the next frame. Refuses with 11, 12 and 13.
    fn ack_out(&self) -> Result<Done, Refusal>
        ensures refused { IfErr result (λ e. ack_out_refuses e ≡ true) };

    /// Does a turn of a thread.
    fn turn(&self, role: SecondaryRole) -> Turn;

    /// Does a turn of a thread, unless another thread has the lock now.
    fn try_turn(&self, role: SecondaryRole) -> Option<Turn>;

    /// Closes the end, if it is open.
    fn close(&self);

    /// Closes the end if its connection is this one or an earlier one.
    fn close_lost(&self, connection: u32);

    /// Opens the end again under the connection's number: `NotDrained` (36) if it may not, and no other refusal.
    fn reopen(&self, number: u32) -> Result<(), Refusal>
        ensures refused { IfErr result (λ e. e ≡ NotDrained) };

    /// Returns how far the node has come.
    fn progress(&self) -> SecondaryProgress
        ensures shown { shows result };

    /// Returns the bell that the half's threads wait on.
    fn work_bell(&self) -> &Bell;

    /// Returns the bell of the pump that carries away what the node sends.
    fn pump_bell(&self) -> &Bell;
}
