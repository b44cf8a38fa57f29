//! The journal: the outcome of each accepted write.
ghost use Rattle.std.specs.Prelude.{◌≡◌, true};
ghost use Rattle.primary_core.specs.Entries.{fate_as};
ghost use Rattle.primary_protocol.specs.Core.{with_entry};

use blocks::StreamPosition;
use std::marker::Model;

/// The outcome of an accepted write.
#[derive(Clone, Copy, Debug, PartialEq, Eq)]
pub enum Fate {
    /// None yet: the write is open.
    Open,
    /// The local disk failed it.
    Failed,
    /// It was completed.
    Completed {
        /// Whether the peer has answered it, as the protocol asks; else it was completed without the peer.
        linked: bool,
        /// Its position in a connection's stream, if it has one.
        home: Option<StreamPosition>,
    },
}

/// The journal's entry of an accepted write.
#[derive(Drop)]
pub struct JournalEntry {
    pub(crate) first: u64,
    pub(crate) count: u64,
    pub(crate) fate: Fate,
    pub(crate) is_taken: bool,
}

impl Model for JournalEntry {
    ghost use Rattle.primary_protocol.specs.Core.{JournalEntry as Denoted};

    ghost Value = { Denoted };

    ghost use Rattle.primary_core.specs.Entries.{entry_of};

    ghost view = { entry_of };
}

impl JournalEntry {
    /// Returns its first block.
    pub fn first(&self) -> u64
        ensures { result ≡ self.now.first }
    {
        self.first
    }

    /// Returns how many blocks it has.
    pub fn count(&self) -> u64
        ensures { result ≡ self.now.count }
    {
        self.count
    }

    /// Returns its outcome.
    pub fn fate(&self) -> Fate
        ensures { fate_as result ≡ self.now.fate }
    {
        self.fate
    }
}

/// Records that the receipt of write `number` was taken. Changes nothing if that number was never accepted.
pub(crate) fn set_taken(entries: &mut [JournalEntry], number: u64)
    ensures { entries.new ≡ with_entry number (λ entry. record entry { taken = true }) entries.old }
{
    if number == 0 {
        return;
    }
    let index = (number - 1) as usize;
    if index < entries.len() {
        let entry = &mut entries[index];
        entry.is_taken = true;
    }
}

/// Sets the fate of write `number`. Changes nothing if that number was never accepted.
pub(crate) fn set_fate(entries: &mut [JournalEntry], number: u64, fate: Fate)
    ensures { entries.new ≡ with_entry number (λ entry. record entry { fate = fate_as fate }) entries.old }
{
    if number == 0 {
        return;
    }
    let index = (number - 1) as usize;
    if index < entries.len() {
        let entry = &mut entries[index];
        entry.fate = fate;
    }
}
