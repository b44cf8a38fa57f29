//! The places of a stream's items, and the ends of its epochs.
ghost use Rattle.std.specs.Prelude.{◌≡◌, ◌+◌, ◌<◌, ◌≤◌, IsOk, IfOk, IfErr, OnOk, OnErr};
ghost use Rattle.epochs.specs.Epochs.{acknowledging, completing, empty, is_awaited, placed, unacknowledged, uncounted};
ghost use Rattle.blocks.specs.declared.refusal.Refusal.TheVariants.{NoMemory};

use blocks::Refusal;
use std::alloc::Global;
use std::collections::VecDeque;
use std::marker::Model;

/// The places and epochs of one connection's stream (DRBD's write epochs; the rule for their ends is this project's).
/// An epoch has up to `max_epoch` writes; a barrier ends it and is itself an item of the stream. Each call takes
/// constant time, and the memory is four bytes for each unacknowledged epoch.
#[derive(Drop)]
pub struct Epochs {
    max_epoch: u32,
    places: u32,
    ended: u32,
    sizes: VecDeque<u32>,
    size: u32,
    first: u64,
    resync: bool,
}

impl Model for Epochs {
    ghost use Rattle.epochs.specs.Epochs.{EpochsValue};

    ghost Value = { EpochsValue };

    ghost use Rattle.epochs.specs.Fields.{value_of, IsKept};

    ghost view = { value_of };

    ghost invariant = { IsKept };
}

impl Epochs {
    /// Returns an empty stream, whose epochs have up to `max_epoch` writes, 1 to 20,000.
    pub fn new(alloc: Global, max_epoch: u32) -> Epochs
        requires some { 0 < max_epoch }
        requires few { max_epoch ≤ 20000 }
        ensures { result.state ≡ empty max_epoch }
    {
        Epochs {
            max_epoch,
            places: 0,
            ended: 0,
            sizes: VecDeque::new(alloc),
            size: 0,
            first: 0,
            resync: false,
        }
    }

    /// Empties the stream. It takes no memory.
    pub fn restart(&mut self)
        ensures { self.new.state ≡ empty self.old.state.max_epoch }
    {
        self.places = 0;
        self.ended = 0;
        self.sizes.clear();
        self.size = 0;
        self.first = 0;
        self.resync = false;
    }

    /// Makes room for the size of another epoch, so that the next item takes no memory. `NoMemory` (7) if it cannot
    /// be allocated.
    pub fn reserve(&mut self) -> Result<(), Refusal>
        ensures same { self.new.state ≡ self.old.state }
        ensures room { OnOk result (0 < self.new.spare) }
        ensures roomy { 0 < self.old.spare → IsOk result }
        ensures refused { IfErr result (λ e. e ≡ NoMemory) }
    {
        self.sizes.reserve(1)?;
        Ok(())
    }

    /// Puts an item into the stream: the write with this number, or for 0 a resync item. Returns its place, and the
    /// number of the barrier that follows it if the epoch is full now.
    ///
    /// `NoMemory` (7) if there is no room for the epoch's size and none can be allocated. The call makes that room,
    /// so `completed` takes no memory.
    pub fn place(&mut self, number: u64) -> Result<(u32, Option<u32>), Refusal>
        requires room { self.old.state.places < 4294967290 }
        // The numbers of writes rise.
        requires rising { 0 < number → 0 < self.old.state.size → self.old.state.first + self.old.state.size ≤ number }
        ensures placed { IfOk result (λ answer. (answer.0, (answer.1, self.new.state)) ≡ placed number self.old.state) }
        ensures refused { IfErr result (λ e. e ≡ NoMemory) }
        ensures unchanged { OnErr result (self.new.state ≡ self.old.state) }
        ensures roomy { 0 < self.old.spare → IsOk result }
    {
        self.reserve()?;
        let place = self.places;
        self.places += 1;
        if number == 0 {
            self.resync = true;
            return Ok((place, None));
        }
        if self.size == 0 {
            self.first = number;
        }
        self.size += 1;
        if self.size < self.max_epoch {
            return Ok((place, None));
        }
        self.sizes.push_back_reserved(self.size);
        self.size = 0;
        self.resync = false;
        self.places += 1;
        self.ended += 1;
        Ok((place, Some(self.ended)))
    }

    /// Puts a SYNC_UUID or UUIDS item into the stream, which no epoch counts. Returns its place. It takes no memory.
    pub fn uuids(&mut self) -> u32
        requires { self.old.state.places < 4294967290 }
        ensures { (result, self.new.state) ≡ uncounted self.old.state }
    {
        self.places += 1;
        self.places - 1
    }

    /// Records that the write with this number, or for 0 a resync item, is completed. If it is in the last epoch,
    /// ends that epoch and returns its barrier's number. It takes no memory.
    pub fn completed(&mut self, number: u64) -> Option<u32>
        ensures { (result, self.new.state) ≡ completing number self.old.state }
    {
        let is_last = if number == 0 {
            self.resync
        } else {
            self.size > 0 && self.first <= number
        };
        if !is_last {
            return None;
        }
        self.sizes.push_back_reserved(self.size);
        self.size = 0;
        self.resync = false;
        self.places += 1;
        self.ended += 1;
        Some(self.ended)
    }

    /// Returns whether the number is that of the oldest unacknowledged barrier, and the size is its epoch's.
    pub fn is_awaited(&self, number: u32, size: u32) -> bool
        ensures { result ≡ is_awaited number size self.now.state }
    {
        let oldest = u64::from(number) + self.sizes.len() as u64 == u64::from(self.ended) + 1;
        oldest && self.sizes.front() == Some(&size)
    }

    /// Records the peer's acknowledgement of a barrier. `BadBarrierAck` (24) unless the number is that of the oldest
    /// unacknowledged barrier, and the size is its epoch's. It takes no memory.
    pub fn acknowledge(&mut self, number: u32, size: u32) -> Result<(), Refusal>
        ensures { (result, self.new.state) ≡ acknowledging number size self.old.state }
    {
        if !self.is_awaited(number, size) {
            return Err(Refusal::BadBarrierAck);
        }
        self.sizes.pop_front();
        Ok(())
    }

    /// Returns the number of the last epoch, counted from 1.
    pub fn last(&self) -> u32
        ensures { result ≡ self.now.state.ended + 1 }
    {
        self.ended + 1
    }

    /// Returns how many epochs with an item are not acknowledged.
    pub fn unacknowledged(&self) -> u64
        ensures { result ≡ unacknowledged self.now.state }
    {
        self.sizes.len() as u64 + u64::from(self.size > 0 || self.resync)
    }

    /// Returns how many items the stream has.
    pub fn places(&self) -> u32
        ensures { result ≡ self.now.state.places }
    {
        self.places
    }
}
