//! Receipts of writes.
ghost use Rattle.std.specs.Prelude.{◌≡◌, ◌-◌, false, true, if◌then◌else◌, length, replicate, slice_set};
ghost use Rattle.std.specs.Option.{option_copied};
ghost use Rattle.primary_core.specs.Entries.{is_unconfirmed};
ghost use Rattle.primary_protocol.specs.Transitions.{entry_at, is_given, take_completed, completed_entry};

use crate::entry::{Fate, JournalEntry, set_taken};
use crate::state::PrimaryCore;
use blocks::Refusal;

impl PrimaryCore {
    /// Returns the entry of a completed write, once.
    ///
    /// `UnknownJob` (16) for a number that was never accepted, or whose receipt was taken; `NotCompleted` (9) if
    /// the write is open; `LocalFault` (8), once, if the local disk failed it. It takes no memory, and constant
    /// time.
    pub fn take_completed(&mut self, number: u64) -> Result<JournalEntry, Refusal>
        ensures { (result, self.new.state) ≡ take_completed number self.old.state }
    {
        let outcome = completed_entry(self.entry(number));
        if is_given(&outcome) {
            set_taken(&mut self.entries, number);
        }
        outcome
    }

    /// Resets every entry to unconfirmed. It takes time for each of them.
    pub fn clear_confirmed(&mut self)
        ensures cleared { self.new ≡ record self.old { confirmed = replicate (length self.old.confirmed) false } }
        ensures each { length self.old.confirmed ≡ length self.old.state.entries }
    {
        // There are as many flags as entries.
        let _entries: &[JournalEntry] = &self.entries;
        self.confirmed.fill(false);
    }

    /// Counts the entry of write `number` as confirmed. Returns whether there is such an entry and it was
    /// unconfirmed. It takes no memory, and constant time.
    pub fn confirm_entry(&mut self, number: u64) -> bool
        ensures found { result ≡ is_unconfirmed number self.old.confirmed }
        ensures set { self.new ≡ record self.old { confirmed = if result then slice_set self.old.confirmed (number - 1) true else self.old.confirmed } }
    {
        let Some(index) = number.checked_sub(1) else {
            return false;
        };
        let index = index as usize;
        if index >= self.confirmed.len() || self.confirmed[index] {
            return false;
        }
        self.confirmed[index] = true;
        true
    }

    /// Returns the entry of write `number`, the first being 1.
    pub fn entry(&self, number: u64) -> Option<&JournalEntry>
        ensures { option_copied result ≡ entry_at number self.now.state }
    {
        let index = number.checked_sub(1)?;
        self.entries.get(index as usize)
    }
}

// Returns what a caller gets for an entry.
fn completed_entry(found: Option<&JournalEntry>) -> Result<JournalEntry, Refusal>
    ensures { result ≡ completed_entry (option_copied found.entry) }
{
    let Some(entry) = found else {
        return Err(Refusal::UnknownJob);
    };
    if entry.is_taken {
        return Err(Refusal::UnknownJob);
    }
    match entry.fate {
        Fate::Open => Err(Refusal::NotCompleted),
        Fate::Failed => Err(Refusal::LocalFault),
        Fate::Completed { .. } => Ok(JournalEntry {
            first: entry.first,
            count: entry.count,
            fate: entry.fate,
            is_taken: entry.is_taken,
        }),
    }
}

// Returns whether the receipt counts as taken after this reply.
fn is_given(outcome: &Result<JournalEntry, Refusal>) -> bool
    ensures { result ≡ is_given outcome.now }
{
    match outcome {
        Ok(_) | Err(Refusal::LocalFault) => true,
        Err(_) => false,
    }
}
