//! The last writes to the blocks of a device.
ghost use Rattle.std.specs.Prelude.{◌≡◌, ◌+◌, ◌^◌, ◌<◌, ◌≤◌, ℕ, [], nat_eq, false, length, replicate, vec_capacity, IsOk, OnOk, IfSome};
ghost use Rattle.std.specs.List.{slice_get, AllByRecursion};
ghost use Rattle.std.specs.HashMap as hash;
ghost use Rattle.transferlog.specs.Log.{is_number, with_last_write};
ghost use Rattle.transferlog.specs.LastWrites.{IsNotedRelease, IsSmall, forgotten, forgotten_all, known_at, noted};

use crate::ghost_numbers::GhostNumbers;
use crate::report::Released;
use blocks::{Block, MAX_RANGE, Range};
use std::alloc::{AllocError, Global};
use std::collections::HashMap;
use std::marker::Model;

/// For each block of a device the number of the last write to it, 0 if there is none. Only contracts read them all:
/// in memory are those of the writes that were noted and not forgotten since.
#[derive(Drop)]
pub(crate) struct LastWrites {
    all: GhostNumbers,
    recent: HashMap<u64, u64>,
}

impl Model for LastWrites {
    ghost use Rattle.transferlog.specs.LastWrites.{LastWritesState};

    ghost Value = { LastWritesState };

    ghost use Rattle.transferlog.specs.Recent.{last_writes_of, IsLastWrites};

    ghost view = { last_writes_of };

    ghost invariant = { IsLastWrites };
}

impl LastWrites {
    /// Returns the last writes of a device of `blocks` blocks without a write. It takes no memory.
    pub(crate) fn new(alloc: Global, blocks: u32) -> LastWrites
        ensures { result.numbers ≡ replicate blocks 0 }
    {
        LastWrites {
            all: GhostNumbers::new(&blocks),
            recent: HashMap::new(alloc),
        }
    }

    /// Makes room for another write.
    pub(crate) fn reserve(&mut self) -> Result<(), AllocError>
        ensures numbers { self.new.numbers ≡ self.old.numbers }
        ensures known { (block : ℕ) → known_at block self.new ≡ known_at block self.old }
        ensures room { OnOk result (32 ≤ self.new.spare) }
        ensures roomy { 32 ≤ self.old.spare → IsOk result }
    {
        self.recent.reserve(MAX_RANGE as usize)
    }

    /// Notes that write `number` covers the range. It takes no memory, and time for each block of the range.
    pub(crate) fn note(&mut self, range: Range, number: u64)
        requires inside { range.first.0 + range.count ≤ length self.old.numbers }
        requires small { IsSmall range.first.0 range.count }
        requires room { 32 ≤ self.old.spare }
        ensures numbers { self.new.numbers ≡ with_last_write number range.first.0 range.count self.old.numbers }
        ensures known { (block : ℕ) → known_at block self.new ≡ noted number range.first.0 range.count block (known_at block self.old) }
    {
        self.all = self.all.with(&range, &number);
        insert_all(&mut self.recent, range.first.0, range.count, number);
    }

    /// Forgets the writes in the list, and empties it. It takes no memory, and time for each block of the writes.
    pub(crate) fn forget_all(&mut self, released: &mut Vec<Released>)
        requires { AllByRecursion (IsNotedRelease self.old) released.old.items }
        ensures numbers { self.new.numbers ≡ self.old.numbers }
        ensures known { (block : ℕ) → known_at block self.new ≡ forgotten_all released.old.items block (known_at block self.old) }
        ensures room { self.old.spare ≤ self.new.spare }
        ensures items { released.new.items ≡ [] }
        ensures capacity { vec_capacity released.new ≡ vec_capacity released.old }
    {
        for write in released.iter() {
            self.forget(write);
        }
        released.clear();
    }

    /// Forgets a write: its blocks have no number in memory, except those of later writes. It takes no memory, and
    /// time for each block of the write.
    fn forget(&mut self, write: &Released)
        requires { IsSmall write.now.first write.now.count }
        ensures numbers { self.new.numbers ≡ self.old.numbers }
        ensures known { (block : ℕ) → known_at block self.new ≡ forgotten write.now block (known_at block self.old) }
        ensures room { self.old.spare ≤ self.new.spare }
    {
        remove_all(&mut self.recent, write.first, write.count, write.number);
    }

    /// Returns the number of the last write to the block, if it is in memory. It takes constant time.
    pub(crate) fn known(&self, block: Block) -> Option<u64>
        ensures known { result ≡ known_at block.0 self.now }
        ensures last { IfSome result (λ number. slice_get self.now.numbers block.0 ≡ Some number) }
    {
        self.recent.get(&block.0).copied()
    }
}

// Enters a number for each of `count` blocks from block `first` on, for which there is room.
fn insert_all(recent: &mut HashMap<u64, u64>, first: u64, count: u64, number: u64)
    requires small { IsSmall first count }
    requires room { count ≤ hash.spare recent.old }
    ensures { (block : ℕ) → hash.get nat_eq recent.new block ≡ noted number first count block (hash.get nat_eq recent.old block) }
{
    for block in first..first + count {
        let _ = recent.insert(block, number);
    }
}

// Takes the entries with this number out, for `count` blocks from block `first` on.
fn remove_all(recent: &mut HashMap<u64, u64>, first: u64, count: u64, number: u64)
    requires { IsSmall first count }
    ensures known { (block : ℕ) → hash.get nat_eq recent.new block
        ≡ forgotten (record { number = number; first = first; count = count; clears = false }) block (hash.get nat_eq recent.old block) }
    ensures room { hash.spare recent.old ≤ hash.spare recent.new }
{
    for block in first..first + count {
        if has_number(recent, block, number) {
            recent.remove(&block);
        }
    }
}

// Returns whether this number is entered for the block.
fn has_number(recent: &HashMap<u64, u64>, block: u64, number: u64) -> bool
    ensures { result ≡ is_number number (hash.get nat_eq recent.now block) }
{
    match recent.get(&block) {
        Some(last) => *last == number,
        None => false,
    }
}
