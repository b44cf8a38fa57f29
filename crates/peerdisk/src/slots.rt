//! Changes of the slots, and of the items in the slab under the slots' keys.
ghost use Rattle.std.specs.Prelude.{ℕ, ◌≡◌, ◌+◌, ◌<◌, ◌≤◌, ◌++◌, ◌∷◌, [], true, None, Some, filter, is_some, nat_le, length, slice_index_or, slice_set};
ghost use Rattle.std.specs.Int.{from_bool};
ghost use Rattle.std.specs.VecDeque.{deque_len, deque_capacity};
ghost use Rattle.slab.specs.Slab.{slab_len};
ghost use Rattle.peerdisk.specs.Items.{Holds, filled};
ghost use Rattle.peerdisk.specs.Slots.{AreInOrder, padded, pending_from, stays, trimmed};

use crate::disk::Entry;
use slab::Slab;
use std::collections::VecDeque;

/// Brings the slots to this length, with holes at the end. It takes no memory.
pub(crate) fn put_holes(slots: &mut VecDeque<Option<Entry>>, len: usize)
    requires room { len ≤ deque_capacity slots.old }
    ensures len { deque_len slots.new ≡ len }
    ensures capacity { deque_capacity slots.new ≡ deque_capacity slots.old }
    ensures slots { slots.new.items ≡ padded len slots.old.items }
{
    slots.truncate(len);
    while slots.len() < len {
        slots.push_back_reserved(None);
    }
}

/// Drops the holes at the front. Returns the place of the first slot then.
pub(crate) fn drop_holes(slots: &mut VecDeque<Option<Entry>>, first: u64) -> u64
    requires small { first + deque_len slots.old < 18446744073709551616 }
    ensures slots { slots.new.items ≡ trimmed slots.old.items }
    ensures end { result + deque_len slots.new ≡ first + deque_len slots.old }
    ensures later { first ≤ result }
    ensures capacity { deque_capacity slots.new ≡ deque_capacity slots.old }
{
    let mut first = first;
    while let Some(None) = slots.front() {
        slots.pop_front();
        first += 1;
    }
    first
}

/// Takes an item, and its epoch, out of a slot that is not a hole. Leaves a hole there.
pub(crate) fn take_item<T>(
    slots: &mut VecDeque<Option<Entry>>,
    items: &mut Slab<T>,
    index: usize,
) -> (u32, T)
    requires held { Holds items.old slots.old.items }
    requires taken { is_some (slice_index_or slots.old.items index None) ≡ true }
    ensures item { slice_index_or (filled items.old slots.old.items) index None ≡ Some (record { epoch = result.0; item = result.1 }) }
    ensures left { filled items.new slots.new.items ≡ slice_set (filled items.old slots.old.items) index None }
    ensures held { Holds items.new slots.new.items }
    ensures many { slab_len items.new + 1 ≡ slab_len items.old }
    ensures room { items.new.capacity ≡ items.old.capacity }
    ensures len { deque_len slots.new ≡ deque_len slots.old }
    ensures capacity { deque_capacity slots.new ≡ deque_capacity slots.old }
{
    let Some(Entry { epoch, key }) = slots[index].take() else {
        unreachable!()
    };
    (epoch, items.remove(key))
}

/// Drops the items of later epochs, which are at the end. Returns how many it dropped.
pub(crate) fn drop_later<T: Drop>(
    slots: &mut VecDeque<Option<Entry>>,
    items: &mut Slab<T>,
    epoch: u32,
) -> usize
    requires held { Holds items.old slots.old.items }
    requires order { AreInOrder (pending_from 0 (filled items.old slots.old.items)) }
    ensures items { (first : ℕ) → pending_from first (filled items.new slots.new.items) ≡ filter (λ p. nat_le p.epoch epoch) (pending_from first (filled items.old slots.old.items)) }
    ensures count { (first : ℕ) → result + length (pending_from first (filled items.new slots.new.items)) ≡ length (pending_from first (filled items.old slots.old.items)) }
    ensures held { Holds items.new slots.new.items }
    ensures many { slab_len items.new + result ≡ slab_len items.old }
    ensures room { items.new.capacity ≡ items.old.capacity }
    ensures len { deque_len slots.new ≤ deque_len slots.old }
    ensures capacity { deque_capacity slots.new ≡ deque_capacity slots.old }
{
    let mut dropped = 0;
    while let Some(last) = slots.back() {
        if stays(last, epoch) {
            return dropped;
        }
        dropped += drop_last(slots, items);
    }
    dropped
}

// Drops the last slot, and its item if it has one. Returns how many items it dropped.
fn drop_last<T: Drop>(slots: &mut VecDeque<Option<Entry>>, items: &mut Slab<T>) -> usize
    requires held { Holds items.old slots.old.items }
    requires some { 0 < deque_len slots.old }
    ensures last { filled items.old slots.old.items ≡ filled items.new slots.new.items ++ slice_index_or (filled items.old slots.old.items) (deque_len slots.new) None ∷ [] }
    ensures count { result ≡ from_bool (is_some (slice_index_or slots.old.items (deque_len slots.new) None)) }
    ensures held { Holds items.new slots.new.items }
    ensures many { slab_len items.new + result ≡ slab_len items.old }
    ensures room { items.new.capacity ≡ items.old.capacity }
    ensures len { deque_len slots.new + 1 ≡ deque_len slots.old }
    ensures capacity { deque_capacity slots.new ≡ deque_capacity slots.old }
{
    match slots.pop_back() {
        Some(Some(entry)) => {
            items.remove(entry.key);
            1
        }
        _ => 0,
    }
}

// Returns whether a slot has an item of this epoch or an earlier one.
fn stays(slot: &Option<Entry>, epoch: u32) -> bool
    ensures { result ≡ stays epoch slot.now }
{
    match slot {
        Some(entry) => entry.epoch <= epoch,
        None => false,
    }
}
