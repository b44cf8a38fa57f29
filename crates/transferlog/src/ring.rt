//! The ring of the unreleased writes.
ghost use Rattle.std.specs.Prelude.{find, nat_le, slice_get, IfSome, ◌&&◌, ◌≤◌, filter, map, not, vec_len, vec_capacity, ◌≡◌, ◌+◌, ◌^◌, ◌<◌, [], ◌∷◌, ◌++◌};
ghost use Rattle.std.specs.Prelude.{length, IsOk, OnOk, is_some, if◌then◌else◌};
ghost use Rattle.std.specs.List.{list_any};
ghost use Rattle.blocks.specs.Ranges.{is_between};
ghost use Rattle.std.specs.Option.{option_copied, option_map, option_and_then};
ghost use Rattle.transferlog.specs.Writes.{completed_of, is_completed, is_open, is_released, is_waiting, release_of, released_of, report_of, unlinking};
ghost use Rattle.transferlog.specs.Writes as writes;
ghost use Rattle.transferlog.specs.Ring.{Each, ReleasedBelow, ReleasedFrom, Rises, WaitsFrom, changed, is_unanswered, is_waiting_at, with_change, without};
ghost use Rattle.transferlog.specs.Ring.{write_at};

use crate::report::{ChangeReport, Completed, Released, note, note_completed};
use crate::write::{Change, Write};
use std::alloc::{AllocError, Global};
use std::collections::VecDeque;
use std::marker::Model;

/// Writes by rising number. Numbers are consecutive, so a write is found by subtraction; a removed write leaves a
/// hole until all before it are removed too. No write below `waiting` waits for the local disk, and that number only
/// rises, since a write that the disk is done with never waits again.
///
/// A call takes constant time, except these. A removal drops the holes before the first remaining write, and a change
/// by which the local disk is done with a write passes the numbers up to the next one that waits: each number is
/// dropped once and passed once, so this is constant time for each accepted number. `open`, `unanswered`,
/// `unlink_all` and `release_rest` take time for each number from the first write on, `nth` for each number from the
/// first write to the one that it returns, `first_from` for each number from `from` to the one that it returns, and
/// `lacks_answer` and `release_all` for each number that they are given.
#[derive(Drop)]
pub(crate) struct Ring {
    first: u64,
    slots: VecDeque<Option<Write>>,
    count: u32,
    waiting: u64,
}

impl Model for Ring {
    ghost use Rattle.transferlog.specs.Ring.{RingState};

    ghost Value = { RingState };

    ghost use Rattle.transferlog.specs.Slots.{ring_of, IsRing};

    ghost view = { ring_of };

    ghost invariant = { IsRing };
}

impl Ring {
    /// Returns a ring without writes; the first one has number 1.
    pub(crate) fn new(alloc: Global) -> Ring
        ensures writes { result.writes ≡ [] }
        ensures next { result.next ≡ 1 }
    {
        Ring {
            first: 1,
            slots: VecDeque::new(alloc),
            count: 0,
            waiting: 1,
        }
    }

    /// Returns how many writes there are.
    pub(crate) fn len(&self) -> u32
        ensures { result ≡ length self.now.writes }
    {
        self.count
    }

    /// Makes room for a write.
    pub(crate) fn reserve(&mut self) -> Result<(), AllocError>
        ensures same { self.new ≡ record self.old { spare = self.new.spare } }
        ensures room { OnOk result (0 < self.new.spare) }
        ensures roomy { 0 < self.old.spare → IsOk result }
    {
        self.slots.reserve(1)
    }

    /// Adds a write. It takes no memory.
    pub(crate) fn push(&mut self, write: Write)
        requires room { 0 < self.old.spare }
        requires next { write.number ≡ self.old.next }
        requires small { self.old.next < 2 ^ 32 }
        ensures { self.new ≡ record { writes = self.old.writes ++ write ∷ []; next = self.old.next + 1; spare = self.new.spare } }
    {
        self.slots.push_back_reserved(Some(write));
        self.count += 1;
    }

    /// Returns the write with this number.
    pub(crate) fn get(&self, number: u64) -> Option<&Write>
        ensures { option_copied result ≡ write_at number self.now.writes }
    {
        if number < self.first {
            return None;
        }
        let index = (number - self.first) as usize;
        if index >= self.slots.len() {
            return None;
        }
        self.slots[index].as_ref()
    }

    /// Returns the first write that waits for the local disk.
    pub(crate) fn first_waiting(&self) -> Option<&Write>
        ensures { option_copied result ≡ find is_waiting self.now.writes }
    {
        self.get(self.lowest_waiting())
    }

    /// Returns the number of the first write that waits for the local disk, or the next number. Each change sets
    /// `waiting` to it, so this takes constant time elsewhere.
    fn lowest_waiting(&self) -> u64
        ensures lowest { write_at result self.now.writes ≡ find is_waiting self.now.writes }
        ensures from { Each (WaitsFrom result) self.now.writes }
        ensures within { result ≤ self.now.next }
    {
        for number in self.waiting..self.end() {
            if self.is_waiting(number) {
                return number;
            }
        }
        self.end()
    }

    /// Returns the next write's number.
    fn end(&self) -> u64
        ensures { result ≡ self.now.next }
    {
        self.first + self.slots.len() as u64
    }

    fn is_waiting(&self, number: u64) -> bool
        ensures { result ≡ is_waiting_at (write_at number self.now.writes) }
    {
        match self.get(number) {
            Some(write) => !write.is_settled(),
            None => false,
        }
    }

    /// Returns the first write whose number is `from` or more. It takes time for each number from `from` to the one
    /// that it returns.
    pub(crate) fn first_from(&self, from: u64) -> Option<&Write>
        ensures first { option_copied result ≡ find (λ w. nat_le from w.number) self.now.writes }
        // for callers that go on from the returned write
        ensures rises { Rises 0 self.now.writes }
        ensures below { IfSome result (λ w. w.now.number < self.now.next) }
    {
        for number in from.max(self.first)..self.end() {
            if let Some(write) = self.get(number) {
                return Some(write);
            }
        }
        None
    }

    /// Returns the write that has `index` writes below it. It takes time for each number from the first write to the
    /// one that it returns, since a hole stands for each removed write between them.
    pub(crate) fn nth(&self, index: u32) -> Option<&Write>
        ensures { option_copied result ≡ slice_get self.now.writes index }
    {
        let mut left = index;
        for slot in 0..self.slots.len() {
            if let Some(write) = self.slots[slot].as_ref() {
                if left == 0 {
                    return Some(write);
                }
                left -= 1;
            }
        }
        None
    }

    /// Returns how many writes are neither completed nor failed.
    pub(crate) fn open(&self) -> u32
        ensures { result ≡ length (filter is_open self.now.writes) }
    {
        let mut count = 0;
        for index in 0..self.slots.len() {
            if let Some(write) = self.slots[index].as_ref() {
                if write.is_open() {
                    count += 1;
                }
            }
        }
        count
    }

    /// Returns how many writes were sent on the established connection and are not answered.
    pub(crate) fn unanswered(&self) -> u32
        ensures { result ≡ length (filter writes.is_unanswered self.now.writes) }
    {
        let mut count = 0;
        for index in 0..self.slots.len() {
            if let Some(write) = self.slots[index].as_ref() {
                if write.is_unanswered() {
                    count += 1;
                }
            }
        }
        count
    }

    /// Applies the change to the write with this number, if there is one. Returns the effect on it.
    pub(crate) fn change(&mut self, number: u64, change: Change) -> Option<ChangeReport>
        ensures next { self.new ≡ record self.old { writes = with_change number (changed change) self.old.writes } }
        ensures report { result ≡ option_map (report_of (changed change)) (write_at number self.old.writes) }
        ensures rises { Rises 0 self.old.writes }
    {
        if number < self.first {
            return None;
        }
        let index = (number - self.first) as usize;
        if index >= self.slots.len() {
            return None;
        }
        let Some(write) = &mut self.slots[index] else {
            return None;
        };
        let report = write.apply(change);
        self.waiting = self.lowest_waiting();
        Some(report)
    }

    /// Removes the write with this number and returns its release, if it is released given that the epochs of all
    /// writes up to number `acknowledged_through` are acknowledged. Drops the holes before the first remaining write. It takes
    /// no memory.
    pub(crate) fn release(&mut self, number: u64, acknowledged_through: u64) -> Option<Released>
        ensures release { result ≡ option_and_then (release_of acknowledged_through) (write_at number self.old.writes) }
        ensures next { self.new ≡ record {
          writes = if is_some result then without number self.old.writes else self.old.writes;
          next = self.old.next;
          spare = self.new.spare;
        } }
    {
        let release = self.get(number)?.release(acknowledged_through)?;
        self.remove(number);
        Some(release)
    }

    /// Returns whether one of the `count` writes from number `first` on is not answered.
    pub(crate) fn lacks_answer(&self, first: u64, count: u64) -> bool
        requires { first + count < 2 ^ 64 }
        ensures { result ≡ list_any (λ w. is_between first count w.number && not w.answered) self.now.writes }
    {
        // Proof hint: brings the invariant that numbers rise into scope.
        let _ = &self.first;
        for number in first..first + count {
            if self.is_unanswered(number) {
                return true;
            }
        }
        false
    }

    fn is_unanswered(&self, number: u64) -> bool
        ensures { result ≡ is_unanswered (write_at number self.now.writes) }
    {
        match self.get(number) {
            Some(write) => !write.is_answered(),
            None => false,
        }
    }

    /// Removes each write with a number from `from` to below `to` that is released given that the epochs of all
    /// writes up to number `acknowledged_through` are acknowledged. Adds their releases to a list that has room. It takes no
    /// memory.
    pub(crate) fn release_all(
        &mut self,
        from: u64,
        to: u64,
        acknowledged_through: u64,
        released: &mut Vec<Released>,
    )
        requires low { Each (ReleasedFrom acknowledged_through from) self.old.writes }
        requires high { Each (ReleasedBelow acknowledged_through to) self.old.writes }
        requires order { from ≤ to }
        requires room { vec_len released.old + length self.old.writes ≤ vec_capacity released.old }
        ensures released { released.new.items ≡ released.old.items ++ map released_of (filter (is_released acknowledged_through) self.old.writes) }
        ensures capacity { vec_capacity released.new ≡ vec_capacity released.old }
        ensures writes { self.new.writes ≡ filter (λ w. not (is_released acknowledged_through w)) self.old.writes }
        ensures next { self.new.next ≡ self.old.next }
        ensures rises { Rises 0 self.old.writes }
    {
        // Proof hint: brings the invariant that numbers rise into scope.
        let _ = &self.first;
        for number in from..to {
            note(released, self.release(number, acknowledged_through));
        }
    }

    /// Removes each write that is released given that the epochs of all writes up to number `acknowledged_through` are
    /// acknowledged. Adds their releases to a list that has room. It takes no memory.
    pub(crate) fn release_rest(&mut self, acknowledged_through: u64, released: &mut Vec<Released>)
        requires { vec_len released.old + length self.old.writes ≤ vec_capacity released.old }
        ensures released { released.new.items ≡ released.old.items ++ map released_of (filter (is_released acknowledged_through) self.old.writes) }
        ensures capacity { vec_capacity released.new ≡ vec_capacity released.old }
        ensures writes { self.new.writes ≡ filter (λ w. not (is_released acknowledged_through w)) self.old.writes }
        ensures next { self.new.next ≡ self.old.next }
        ensures rises { Rises 0 self.old.writes }
    {
        let from = self.first;
        let to = self.first + self.slots.len() as u64;
        self.release_all(from, to, acknowledged_through, released);
    }

    /// Takes the connection from each write. Adds each completion that this causes to a list that has room. It takes
    /// no memory.
    pub(crate) fn unlink_all(&mut self, completed: &mut Vec<Completed>)
        requires { vec_len completed.old + length self.old.writes ≤ vec_capacity completed.old }
        ensures completed { completed.new.items
            ≡ completed.old.items ++ map completed_of (filter is_completed (map unlinking (filter is_open self.old.writes))) }
        ensures capacity { vec_capacity completed.new ≡ vec_capacity completed.old }
        ensures next { self.new ≡ record self.old { writes = map unlinking self.old.writes } }
    {
        let from = self.first;
        let to = self.first + self.slots.len() as u64;
        for number in from..to {
            let report = self.change(number, Change::Unlinked);
            note_completed(completed, completion_in(report));
        }
    }

    fn remove(&mut self, number: u64)
        ensures { self.new ≡ record { writes = without number self.old.writes; next = self.old.next; spare = self.new.spare } }
    {
        if number < self.first {
            return;
        }
        let index = (number - self.first) as usize;
        if index >= self.slots.len() {
            return;
        }
        let Some(_) = self.slots[index].take() else {
            return;
        };
        self.count -= 1;
        self.drop_holes();
    }

    fn drop_holes(&mut self)
        ensures { self.new ≡ record self.old { spare = self.new.spare } }
    {
        while let Some(None) = self.slots.front() {
            self.slots.pop_front();
            self.first += 1;
        }
    }
}

// Returns the completion that a change caused.
fn completion_in(report: Option<ChangeReport>) -> Option<Completed>
    ensures { result ≡ option_and_then (λ t. t.completion) report }
{
    match report {
        Some(report) => report.completion,
        None => None,
    }
}
