//! The unsent items of a stream.
ghost use Rattle.std.specs.Prelude.{ℕ, List, true, ◌≡◌, ◌+◌, ◌<◌, ◌≤◌, ◌∷◌, ◌++◌, [], length, slice_index_or, IsSome, IfSome, MatchOption, OnOk, ◌↔◌};
ghost use Rattle.primary_protocol.specs.Taking.{is_unsent};
ghost use Rattle.primary_core.specs.Outbox.{run};

use crate::item::StreamItem;
use std::alloc::{AllocError, Global};
use std::collections::VecDeque;
use std::marker::Model;

/// The unsent items of a stream, the oldest first. While the numbers of the waiting barriers are consecutive, as
/// those of a stream are, a barrier is found without a walk.
#[derive(Drop)]
pub(crate) struct Outbox {
    items: VecDeque<StreamItem>,
    // How many barriers wait, and the number of the first of them.
    barriers: usize,
    first: u64,
    // Whether their numbers are consecutive.
    is_run: bool,
}

impl Model for Outbox {
    ghost use Rattle.primary_core.specs.Outbox.{OutboxState};

    ghost Value = { OutboxState };

    ghost use Rattle.primary_core.specs.Waiting.{outbox_of, IsOutbox};

    ghost view = { outbox_of };

    ghost invariant = { IsOutbox };
}

impl Outbox {
    /// Creates an outbox in which no item waits.
    pub(crate) fn new(alloc: Global) -> Outbox
        ensures { result.items ≡ [] }
    {
        Outbox {
            items: VecDeque::new(alloc),
            barriers: 0,
            first: 0,
            is_run: true,
        }
    }

    /// Returns how many items wait.
    pub(crate) fn len(&self) -> usize
        ensures { result ≡ length self.now.items }
    {
        self.items.len()
    }

    /// Returns the oldest item.
    pub(crate) fn next(&self) -> Option<&StreamItem>
        ensures variant { IsSome result ↔ (0 < length self.now.items) }
        ensures lookup { IfSome result (λ x. x.now ≡ slice_index_or self.now.items 0 x.now) }
    {
        self.items.front()
    }

    /// Makes room for `additional` more items.
    pub(crate) fn reserve(&mut self, additional: usize) -> Result<(), AllocError>
        ensures items { self.new.items ≡ self.old.items }
        ensures kept { self.old.room ≤ self.new.room }
        ensures room { OnOk result (additional ≤ self.new.room) }
    {
        self.items.reserve(additional)
    }

    /// Appends an item behind all others. It takes no memory.
    pub(crate) fn push(&mut self, item: StreamItem)
        requires { 0 < self.old.room }
        ensures items { self.new.items ≡ self.old.items ++ item ∷ [] }
        ensures room { self.new.room + 1 ≡ self.old.room }
    {
        if let Some(number) = item.barrier() {
            let (first, is_run) = run_with(self.first, self.barriers, self.is_run, number);
            self.first = first;
            self.is_run = is_run;
            self.barriers += 1;
        }
        self.items.push_back_reserved(item);
    }

    /// Removes and returns the oldest item.
    pub(crate) fn pop(&mut self) -> Option<StreamItem>
        ensures items { MatchOption result ((self.old.items ≡ []) × (self.new.items ≡ [])) (λ item. self.old.items ≡ item ∷ self.new.items) }
        ensures room { self.old.room ≤ self.new.room }
    {
        let item = self.items.pop_front()?;
        if let Some(number) = item.barrier() {
            self.barriers -= 1;
            self.first = u64::from(number) + 1;
        }
        Some(item)
    }

    /// Removes all items.
    pub(crate) fn clear(&mut self)
        ensures items { self.new.items ≡ [] }
        ensures room { self.old.room ≤ self.new.room }
    {
        self.items.clear();
        self.barriers = 0;
        self.is_run = true;
    }

    /// Returns whether the barrier of this epoch waits. It takes constant time if the numbers of the waiting
    /// barriers are consecutive, else time for each item.
    pub(crate) fn has_barrier(&self, epoch: u32) -> bool
        ensures { result ≡ is_unsent epoch self.now.items }
    {
        if !self.is_run {
            return is_among(&self.items, epoch);
        }
        let epoch = u64::from(epoch);
        self.first <= epoch && epoch - self.first < self.barriers as u64
    }
}

// Returns the number of the first barrier, and whether all numbers are consecutive, once barrier `number` is
// appended to `count` others.
fn run_with(first: u64, count: usize, is_run: bool, number: u32) -> (u64, bool)
    ensures { (ns : List ℕ) → length ns ≡ count → (is_run ≡ true → ns ≡ run first count) → result.1 ≡ true → ns ++ number ∷ [] ≡ run result.0 (count + 1) }
{
    let number = u64::from(number);
    if count == 0 {
        return (number, true);
    }
    (
        first,
        is_run && first <= number && number - first == count as u64,
    )
}

// Returns whether the barrier of this epoch is among the items.
fn is_among(items: &VecDeque<StreamItem>, epoch: u32) -> bool
    ensures { result ≡ is_unsent epoch items.now.items }
{
    for index in 0..items.len() {
        let item = &items[index];
        if item.ends(epoch) {
            return true;
        }
    }
    false
}
