//! The connection's stream in the transfer log: its items, its epochs, and its end.
ghost use Rattle.std.specs.Prelude.{◌≡◌, ◌&&◌, ◌-◌, ◌<◌, OnErr, IsOk, IfOk, IfErr, None};
ghost use Rattle.transferlog.specs.Log.{asks_answers, barrier_acked, connecting, drained, lacks_answer, may_confirm, resync_acked, resync_placed, uuids_placed};
ghost use Rattle.blocks.specs.declared.refusal.Refusal.TheVariants.{NoMemory};

use super::TransferLog;
use crate::protocol::asks_answers;
use blocks::Refusal;

impl TransferLog {
    /// Begins a stream, on the connection with this number, counted from 1. It takes no memory.
    pub fn connect(&mut self, connection: u32)
        requires counted { 0 < connection }
        requires closed { self.old.state.connection ≡ None }
        ensures { self.new.state ≡ connecting (connection - 1) self.old.state }
    {
        self.last_writes.forget_all(&mut self.released);
        self.completed.clear();
        self.connection = Some(connection);
        self.acknowledged_through = self.accepted;
        self.epochs.restart();
    }

    /// Puts a resync item into the stream. Returns its place. `NoMemory` (7) if there is no memory for its epoch, but
    /// never after `reserve`.
    pub fn place_resync(&mut self) -> Result<u32, Refusal>
        requires { self.old.state.epochs.places < 4294967290 }
        ensures placed { IfOk result (λ place. (place, self.new.state) ≡ resync_placed self.old.state) }
        ensures refused { IfErr result (λ e. e ≡ NoMemory) }
        ensures unchanged { OnErr result (self.new.state ≡ self.old.state) }
        ensures roomy { 0 < self.old.spare → IsOk result }
    {
        let (place, _) = self.epochs.place(0)?;
        self.last_writes.forget_all(&mut self.released);
        self.completed.clear();
        Ok(place)
    }

    /// Records that the peer has applied the resync item under way. Returns the barrier that is appended if the item
    /// is in the last epoch. It takes no memory.
    pub fn resync_acked(&mut self) -> Option<u32>
        ensures { (result, self.new.state) ≡ resync_acked self.old.state }
    {
        self.last_writes.forget_all(&mut self.released);
        self.completed.clear();
        self.epochs.completed(0)
    }

    /// Puts a SYNC_UUID or UUIDS item into the stream. Returns its place. It takes no memory.
    pub fn uuids(&mut self) -> u32
        requires { self.old.state.epochs.places < 4294967290 }
        ensures { (result, self.new.state) ≡ uuids_placed self.old.state }
    {
        self.last_writes.forget_all(&mut self.released);
        self.completed.clear();
        self.epochs.uuids()
    }

    /// Records the peer's acknowledgement of an epoch. Releases the epoch's writes that the local disk is done with.
    ///
    /// `BadBarrierAck` (24) unless the number is that of the oldest unacknowledged barrier, the size is its epoch's,
    /// and, under protocols B and C, each write of the epoch is answered. It takes no memory, and time for each write
    /// of the epoch.
    pub fn barrier_acked(&mut self, number: u32, size: u32) -> Result<(), Refusal>
        ensures { (result, self.new.state) ≡ barrier_acked number size self.old.state }
    {
        if !self.may_confirm(number, size) {
            return Err(Refusal::BadBarrierAck);
        }
        let first = self.acknowledged_through + 1;
        let _ = self.epochs.acknowledge(number, size);
        self.last_writes.forget_all(&mut self.released);
        self.completed.clear();
        self.acknowledged_through += u64::from(size);
        self.ring.release_all(
            first,
            self.acknowledged_through + 1,
            self.acknowledged_through,
            &mut self.released,
        );
        Ok(())
    }

    fn may_confirm(&self, number: u32, size: u32) -> bool
        ensures { result ≡ may_confirm number size self.now.state }
    {
        // The peer may ask for any size: the writes are looked at once it is that of the oldest epoch.
        self.epochs.is_awaited(number, size) && !self.waits_for_answers(size)
    }

    // Returns whether, under protocols B and C, one of the first `size` unacknowledged writes is not answered.
    fn waits_for_answers(&self, size: u32) -> bool
        ensures { result ≡ (asks_answers self.now.state.protocol && lacks_answer size self.now.state) }
    {
        asks_answers(self.protocol)
            && self
                .ring
                .lacks_answer(self.acknowledged_through + 1, u64::from(size))
    }

    /// Ends the stream, as the connection is closed, and takes the connection from each write. Completes the writes
    /// that are on the local disk and were not completed. Releases those that the local disk is done with, which
    /// clears no marks. Returns how many writes it completed. It takes no memory, and time for each number from the
    /// first unreleased one on.
    pub fn drain(&mut self) -> u32
        ensures { (result, self.new.state) ≡ drained self.old.state }
    {
        self.last_writes.forget_all(&mut self.released);
        self.completed.clear();
        self.ring.unlink_all(&mut self.completed);
        self.ring
            .release_rest(self.acknowledged_through, &mut self.released);
        self.connection = None;
        self.epochs.restart();
        self.completed.len() as u32
    }
}
