//! The transfer log of a primary.
ghost use Rattle.std.specs.Prelude.{Contains, MatchOption, filter, find, nat_le, slice_get, suc, ◌≡◌, ◌+◌, ◌<◌, ◌≤◌, length, true, IfOk, IfErr, IfSome};
ghost use Rattle.std.specs.Prelude.{IsSomeAnd, None};
ghost use Rattle.std.specs.Option.{option_copied, option_map};
ghost use Rattle.std.specs.List.{AllByRecursion};
ghost use Rattle.transferlog.specs.Log.{clears, empty_log};
ghost use Rattle.epochs.specs.Epochs.{unacknowledged};
ghost use Rattle.blocks.specs.Ranges.{is_between};
ghost use Rattle.transferlog.specs.Writes.{is_open, is_unanswered, is_waiting};
ghost use Rattle.transferlog.specs.Ring.{Rises, write_at};
ghost use Rattle.blocks.specs.declared.refusal.Refusal.TheVariants.{NoMemory};

mod stream;
mod writes;

use crate::last_writes::LastWrites;
use crate::report::{Completed, Released};
use crate::ring::Ring;
use crate::write::Write;
use blocks::{Block, Protocol, Range, Refusal};
use epochs::Epochs;
use std::alloc::Global;
use std::marker::Model;

/// A primary's unreleased writes under protocols A, B and C (DRBD's transfer log). It decides which of them are
/// completed and which released, keeps the epochs of the connection's stream, and says which marks a release clears.
///
/// Numbers are consecutive, so a write is found by subtraction, and a call takes constant time, except these. `open`,
/// `unanswered` and `drain` take time for each number from the first unreleased one on, `unreleased` for each number
/// from there to the write that it finds, `unreleased_from` for each number from `from` to the one that it returns, and
/// `barrier_acked` for each write of the epoch. A release takes time for each number that it takes out of the log, and
/// `local_done` and `local_fault` for each number up to the next write that waits for the local disk; both pass each
/// number once over all calls. A call that makes a new report first takes time for each block of the writes that the
/// last one released.
///
/// The memory is a slot for each number from the first unreleased one on, an entry for each block of a write that is
/// unreleased or that the last call released, and room for `backlog` reports of each kind. It does not grow with the
/// device.
#[derive(Drop)]
pub struct TransferLog {
    protocol: Protocol,
    backlog: u32,
    accepted: u64,
    // The number of the connection whose stream is open, counted from 1.
    connection: Option<u32>,
    // The number of the last write up to which all epochs are acknowledged.
    acknowledged_through: u64,
    // How many blocks the device has.
    blocks: u32,
    last_writes: LastWrites,
    ring: Ring,
    epochs: Epochs,
    released: Vec<Released>,
    completed: Vec<Completed>,
}

impl Model for TransferLog {
    ghost use Rattle.transferlog.specs.Log.{LogValue};

    ghost Value = { LogValue };

    ghost use Rattle.transferlog.specs.Fields.{value_of, IsLog};

    ghost view = { value_of };

    ghost invariant = { IsLog };
}

impl TransferLog {
    /// Returns an empty log for a device of `blocks` blocks. `NoMemory` (7) if its tables cannot be allocated. It
    /// takes memory and time for each of `backlog` reports, and none for a block.
    pub fn new(
        alloc: Global,
        protocol: Protocol,
        blocks: u32,
        max_epoch: u32,
        backlog: u32,
    ) -> Result<TransferLog, Refusal>
        requires epoch_some { 0 < max_epoch }
        requires epoch_few { max_epoch ≤ 20000 }
        requires some { 0 < backlog }
        ensures empty { IfOk result (λ log. log.state ≡ empty_log protocol blocks max_epoch backlog) }
        ensures refused { IfErr result (λ e. e ≡ NoMemory) }
    {
        Ok(TransferLog {
            protocol,
            backlog,
            accepted: 0,
            connection: None,
            acknowledged_through: 0,
            blocks,
            last_writes: LastWrites::new(alloc, blocks),
            ring: Ring::new(alloc),
            epochs: Epochs::new(alloc, max_epoch),
            released: Vec::with_capacity(alloc, backlog as usize)?,
            completed: Vec::with_capacity(alloc, backlog as usize)?,
        })
    }

    /// Returns what the last call released, by rising number.
    pub fn released(&self) -> &[Released]
        ensures { result.now ≡ self.now.state.released }
    {
        &self.released
    }

    /// Returns what the last call completed, by rising number.
    pub fn completed(&self) -> &[Completed]
        ensures { result.now ≡ self.now.state.completed }
    {
        &self.completed
    }

    /// Returns how many writes are unreleased.
    pub fn len(&self) -> u32
        ensures { result ≡ length self.now.state.writes }
    {
        self.ring.len()
    }

    /// Returns how many writes are neither completed nor failed. It takes time for each number from the first
    /// unreleased one on.
    pub fn open(&self) -> u32
        ensures { result ≡ length (filter is_open self.now.state.writes) }
    {
        self.ring.open()
    }

    /// Returns how many writes were sent on the established connection and are not answered. It takes time for each
    /// number from the first unreleased one on.
    pub fn unanswered(&self) -> u32
        ensures { result ≡ length (filter is_unanswered self.now.state.writes) }
    {
        self.ring.unanswered()
    }

    /// Returns how many epochs with an item are not acknowledged.
    pub fn open_epochs(&self) -> u64
        ensures { result ≡ unacknowledged self.now.state.epochs }
    {
        self.epochs.unacknowledged()
    }

    /// Returns how many writes were accepted, which is the number of the last one.
    pub fn accepted(&self) -> u64
        ensures { result ≡ self.now.state.accepted }
    {
        self.accepted
    }

    /// Returns how many items the connection's stream has.
    pub fn places(&self) -> u32
        ensures { result ≡ self.now.state.epochs.places }
    {
        self.epochs.places()
    }

    /// Returns the number of the stream's last epoch, counted from 1.
    pub fn epoch(&self) -> u32
        ensures { result ≡ self.now.state.epochs.ended + 1 }
    {
        self.epochs.last()
    }

    /// Returns the number of the connection whose stream is open, counted from 1, if there is one.
    pub fn connection(&self) -> Option<u32>
        ensures { result ≡ option_map suc self.now.state.connection }
    {
        self.connection
    }

    /// Returns how many blocks the device has.
    pub fn blocks(&self) -> usize
        ensures { result ≡ length self.now.state.last_writes }
    {
        self.blocks as usize
    }

    /// Returns the lowest number of a write that waits for the local disk. It takes constant time.
    pub fn next_local(&self) -> Option<u64>
        ensures { result ≡ option_map (λ w. w.number) (find is_waiting self.now.state.writes) }
    {
        let write = self.ring.first_waiting()?;
        Some(write.number())
    }

    /// Returns the range of the unreleased write that has `index` unreleased ones below it, or `None` if there are not
    /// more than `index`. It takes no memory. It takes time for each number from the first unreleased one to that
    /// write's, released numbers between them included, so a caller that goes over all unreleased writes takes
    /// `unreleased_from`.
    pub fn unreleased(&self, index: u32) -> Option<Range>
        ensures { MatchOption (slice_get self.now.state.writes index) (result ≡ None)
            (λ w. IsSomeAnd result (λ range. (range.first.0 ≡ w.first) × (range.count ≡ w.count))) }
    {
        let write = self.ring.nth(index)?;
        Some(write.range())
    }

    /// Returns the first unreleased write whose number is `from` or more. It takes time for each number from `from`
    /// to the one that it returns.
    pub fn unreleased_from(&self, from: u64) -> Option<&Write>
        ensures first { option_copied result ≡ find (λ w. nat_le from w.number) self.now.state.writes }
        // for callers that go on from the returned write
        ensures rises { Rises 0 self.now.state.writes }
        ensures few { IfSome result (λ w. w.now.number ≤ 1048576) }
    {
        self.ring.first_from(from)
    }

    /// Returns whether the release of a write, by the last call, clears the mark of this block: the release clears
    /// marks, the write covers the block, and no later write does. It takes constant time.
    pub fn clears(&self, released: &Released, block: Block) -> bool
        requires reported { Contains self.now.state.released released.now }
        ensures { result ≡ clears released.now block.0 self.now.state.last_writes }
    {
        let inside = released.first <= block.0 && block.0 - released.first < released.count;
        released.clears && inside && self.last_write_to(block) == Some(released.number)
    }

    // Returns the number of the last write to the block, if it is known: it is if the last call released that write.
    fn last_write_to(&self, block: Block) -> Option<u64>
        ensures last { IfSome result (λ number. slice_get self.now.state.last_writes block.0 ≡ Some number) }
        ensures known { AllByRecursion (λ r. is_between r.first r.count block.0 ≡ true
            → slice_get self.now.state.last_writes block.0 ≡ Some r.number → result ≡ Some r.number) self.now.state.released }
    {
        self.last_writes.known(block)
    }

    /// Returns the unreleased write with this number.
    pub fn get(&self, number: u64) -> Option<&Write>
        ensures { option_copied result ≡ write_at number self.now.state.writes }
    {
        self.ring.get(number)
    }
}
