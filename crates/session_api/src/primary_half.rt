//! The primary's half, as its threads see it.
ghost use Rattle.std.specs.Prelude.{◌≡◌, true, IfErr};
ghost use Rattle.model.specs.CallRefusals.{ack_in_refuses, reopen_refuses, send_refuses};

use crate::bell::Bell;
use crate::roles::PrimaryRole;
use crate::turn::Turn;
use blocks::{ConnectionWords, Done, Refusal};
use node_lines::PrimaryProgress;

/// The primary's half of a session, over any link and disk. Each call locks the node, does what it says, and unlocks
/// the node. Its refusals are those of the node's call of the same name, and no other.
pub trait PrimaryHalf {
    ghost use Rattle.node_lines.specs.declared.primary_progress.PrimaryProgress.{PrimaryProgress};

    /// `shows progress`: the primary had come as far.
    ghost shows: { PrimaryProgress → Type 0 };

    /// Sends the next frame. Refuses with 7, 11, 12 and 13.
    fn send(&self) -> Result<Done, Refusal>
        ensures refused { IfErr result (λ e. send_refuses e ≡ true) };

    /// Takes the next frame. Refuses with 7, 12, 13, and a frame that was taken with 20 to 25 and 30 to 35.
    fn ack_in(&self) -> Result<Done, Refusal>
        ensures refused { IfErr result (λ e. ack_in_refuses e ≡ true) };

    /// Does a turn of a thread, and wakes the writers if it concerns them.
    fn turn(&self, role: PrimaryRole) -> Turn;

    /// Does a turn of a thread as `turn` does, unless another thread has the lock now.
    fn try_turn(&self, role: PrimaryRole) -> Option<Turn>;

    /// Closes the end, if it is open.
    fn close(&self);

    /// Closes the end if its connection is this one or an earlier one.
    fn close_lost(&self, connection: u32);

    /// Opens the end again and returns the connection's number. Refuses with 6, 7, 33 and 36.
    fn reopen(&self, words: ConnectionWords) -> Result<u32, Refusal>
        ensures refused { IfErr result (λ e. reopen_refuses e ≡ true) };

    /// Returns how far the node has come.
    fn progress(&self) -> PrimaryProgress
        ensures shown { shows result };

    /// Prepares extents of the metadata to leave, `most` at the most: `KeptPrimary::prepare_leaving`. Returns how many are prepared now.
    fn prepare_leaving(&self, most: u64) -> u64;

    /// Takes out of the metadata what is prepared: `KeptPrimary::leave_prepared`. The caller has synced both disks since it was prepared.
    /// Returns how many extents left.
    fn leave_prepared(&self) -> u64;

    /// Returns the bell that the half's threads wait on.
    fn work_bell(&self) -> &Bell;

    /// Returns the bell that writers wait on.
    fn writers_bell(&self) -> &Bell;

    /// Returns the bell of the pump that carries away what the node sends.
    fn pump_bell(&self) -> &Bell;
}
