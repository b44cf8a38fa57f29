//! The items that wait for the secondary's disk.
ghost use Rattle.std.specs.Prelude.{◌≡◌, ◌+◌, ◌-◌, ◌<◌, ◌≤◌, [], true, false, nat_eq, nat_le, if◌then◌else◌, length, get_or, All, None, Some, Ok, Err, OnOk};
ghost use Rattle.std.specs.Prelude.{OnErr, IsOk, IfOk, IfErr, is_some, option_map, slice_get, MatchResult};
ghost use Rattle.blocks.specs.declared.refusal.Refusal.TheVariants.{NoMemory, PendingFull};
ghost use Rattle.peerdisk.specs.Pending.{after_fault, at_place, epoch_at, is_pending, is_out_of_memory, item_at, next, put, start, without};

use crate::slots::{drop_holes, drop_later, put_holes, take_item};
use blocks::Refusal;
use slab::Slab;
use std::alloc::Global;
use std::collections::VecDeque;
use std::marker::Model;

/// The epoch that an item belongs to, and the item's key in the slab.
#[derive(Drop)]
pub(crate) struct Entry {
    pub(crate) epoch: u32,
    pub(crate) key: usize,
}

/// The items of a stream that a secondary has taken and not applied, by their places in the stream. A later place has
/// the same epoch or a later one, and no item may start while one of an earlier epoch is not applied (this project's
/// rule, after DRBD's write barriers).
///
/// Each place has a slot in a deque, so an item is found by subtraction. An applied item leaves a hole until all
/// before it are gone; a place without an item is a hole too. The items are in a slab, and a slot has a key, so a
/// hole takes no memory for an item. Each call takes constant time, except `put` for the places that it skips, `done`
/// for the holes that it frees, and `fault` for those and for the slots from the end down to the epoch that stays.
/// Only `new`, for all items, and `reserve`, which `put` calls, take memory; `reserve` now and then takes time for
/// all slots.
#[derive(Drop)]
pub struct PeerDisk<T> {
    limit: usize,
    // The place of the first slot, which is no hole.
    first: u64,
    slots: VecDeque<Option<Entry>>,
    items: Slab<T>,
    count: usize,
}

impl<T> Model for PeerDisk<T> {
    ghost use Rattle.std.specs.Prelude.{◌+◌};
    ghost use Rattle.std.specs.VecDeque.{deque_len, deque_capacity};
    ghost use Rattle.peerdisk.specs.Pending.{PeerDiskState};

    ghost Value = { PeerDiskState T };

    ghost use Rattle.peerdisk.specs.Slots.{pending_from};
    ghost use Rattle.peerdisk.specs.Items.{filled, IsStored};

    ghost view = { λ d. record { limit = d.limit; pending = pending_from d.first (filled d.items d.slots.items); reach = d.first + deque_capacity d.slots } };

    ghost invariant = { λ d. IsStored d.items d.first d.slots.items d.count (deque_len d.slots) (deque_capacity d.slots) d.limit };
}

impl<T: Drop> PeerDisk<T> {
    /// Returns a queue with nothing pending, and room for `limit` items, which is the most that may be. `NoMemory`
    /// (7) if that room cannot be allocated.
    pub fn new(alloc: Global, limit: u32) -> Result<PeerDisk<T>, Refusal>
        ensures empty { IfOk result (λ d. d ≡ record { limit = limit; pending = []; reach = d.reach }) }
        ensures refused { IfErr result (λ e. e ≡ NoMemory) }
    {
        Ok(PeerDisk {
            limit: limit as usize,
            first: 0,
            slots: VecDeque::new(alloc),
            items: Slab::with_capacity(alloc, limit as usize)?,
            count: 0,
        })
    }

    /// Makes room for an item of this place, which is after all that are pending.
    ///
    /// `NoMemory` (7) if there is no memory. Then nothing changes.
    pub fn reserve(&mut self, place: u32) -> Result<(), Refusal>
        requires above { All (λ p. p.place < place) self.old.pending }
        ensures same { self.new ≡ record self.old { reach = self.new.reach } }
        ensures room { OnOk result (place < self.new.reach) }
        ensures refused { IfErr result (λ e. e ≡ NoMemory) }
        ensures unchanged { OnErr result (self.new ≡ self.old) }
        ensures within { place < self.old.reach → IsOk result }
    {
        let place = u64::from(place);
        let len = self.slots.len();
        let first = if len == 0 { place } else { self.first };
        let wanted = (place - first) as usize + 1;
        if wanted > self.slots.capacity() {
            // At least twice the length, so that growth takes linear time in all.
            self.slots.reserve_exact(wanted.max(len + len) - len)?;
        }
        self.first = first;
        Ok(())
    }

    /// Checks whether another item may be pending. `PendingFull` (18) if `limit` items are.
    pub fn may_put(&self) -> Result<(), Refusal>
        ensures { result ≡ (if nat_le self.now.limit (length self.now.pending) then Err PendingFull else Ok tt) }
    {
        if self.count >= self.limit {
            return Err(Refusal::PendingFull);
        }
        Ok(())
    }

    /// Adds an item. Requires that its place is after all that are pending, and its epoch is the last of theirs or a
    /// later one.
    ///
    /// `PendingFull` (18) if `limit` items are pending; else `NoMemory` (7) if there is no memory, but never if there
    /// is room for the place. In both cases nothing changes, and the item is dropped.
    pub fn put(&mut self, place: u32, epoch: u32, item: T) -> Result<(), Refusal>
        requires above { All (λ p. p.place < place) self.old.pending }
        requires no_earlier { All (λ p. p.epoch ≤ epoch) self.old.pending }
        ensures put { (result, self.new) ≡ put place epoch item (is_out_of_memory result) (record self.old { reach = self.new.reach }) }
        ensures room { place < self.old.reach → is_out_of_memory result ≡ false }
    {
        self.may_put()?;
        self.reserve(place)?;
        let place = u64::from(place);
        if self.slots.is_empty() {
            self.first = place;
        }
        let index = (place - self.first) as usize;
        put_holes(&mut self.slots, index);
        let key = self.items.insert_reserved(item);
        self.slots.push_back_reserved(Some(Entry { epoch, key }));
        self.count += 1;
        Ok(())
    }

    /// Returns the lowest pending place. `NothingThere` (13) if nothing is pending.
    pub fn next(&self) -> Result<u32, Refusal>
        ensures { result ≡ next self.now.pending }
    {
        if self.slots.is_empty() {
            return Err(Refusal::NothingThere);
        }
        Ok(self.first as u32)
    }

    /// Returns the item of a place, whose write to the disk may start. `UnknownJob` (16) if the place is not pending,
    /// `EpochOpen` (17) if an item of an earlier epoch is.
    pub fn start(&self, place: u32) -> Result<&T, Refusal>
        ensures { MatchResult result (λ item. start place self.now.pending ≡ Ok item.now) (λ e. start place self.now.pending ≡ Err e) }
    {
        // Proof hint: brings the invariant that later places have no earlier epochs into scope.
        let _ = &self.first;
        let Some(first) = self.first_epoch() else {
            return Err(Refusal::UnknownJob);
        };
        let Some((epoch, item)) = self.entry(place) else {
            return Err(Refusal::UnknownJob);
        };
        if first < epoch {
            return Err(Refusal::EpochOpen);
        }
        Ok(item)
    }

    /// Removes the item of a pending place, as it is applied, and returns it. It takes no memory.
    pub fn done(&mut self, place: u32) -> T
        requires { is_pending place self.old.pending ≡ true }
        ensures item { item_at place self.old.pending ≡ Some result }
        ensures rest { self.new ≡ record self.old { pending = without place self.old.pending; reach = self.new.reach } }
        ensures reach { self.old.reach ≤ self.new.reach }
    {
        let index = (u64::from(place) - self.first) as usize;
        let (_, item) = take_item(&mut self.slots, &mut self.items, index);
        self.count -= 1;
        self.first = drop_holes(&mut self.slots, self.first);
        item
    }

    /// Records that the disk failed to write the item of a pending place: drops it and all items of later epochs.
    /// Returns the epoch of that item. It takes no memory.
    pub fn fault(&mut self, place: u32) -> u32
        requires { is_pending place self.old.pending ≡ true }
        ensures epoch { result ≡ epoch_at place self.old.pending }
        ensures left { self.new ≡ record self.old { pending = after_fault place self.old.pending; reach = self.new.reach } }
        ensures reach { self.old.reach ≤ self.new.reach }
    {
        let index = (u64::from(place) - self.first) as usize;
        let (epoch, _) = take_item(&mut self.slots, &mut self.items, index);
        self.count -= 1;
        self.count -= drop_later(&mut self.slots, &mut self.items, epoch);
        self.first = drop_holes(&mut self.slots, self.first);
        epoch
    }

    /// Returns whether nothing is pending.
    pub fn is_empty(&self) -> bool
        ensures { result ≡ nat_eq (length self.now.pending) 0 }
    {
        self.count == 0
    }

    /// Returns how many items are pending.
    pub fn len(&self) -> usize
        ensures { result ≡ length self.now.pending }
    {
        self.count
    }

    /// Returns the epoch of the lowest pending place: no item of an earlier epoch is pending.
    pub fn first_epoch(&self) -> Option<u32>
        ensures { result ≡ option_map (λ p. p.epoch) (slice_get self.now.pending 0) }
    {
        let first = self.slots.front()?.as_ref()?;
        Some(first.epoch)
    }

    // Returns the epoch and the item of a pending place.
    fn entry(&self, place: u32) -> Option<(u32, &T)>
        ensures { option_map (λ found. record { place = place; epoch = found.0; item = found.1.now }) result ≡ at_place place self.now.pending }
    {
        let place = u64::from(place);
        if place < self.first {
            return None;
        }
        let index = (place - self.first) as usize;
        if index >= self.slots.len() {
            return None;
        }
        let entry = self.slots[index].as_ref()?;
        Some((entry.epoch, &self.items[entry.key]))
    }
}
