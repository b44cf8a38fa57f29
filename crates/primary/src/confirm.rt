//! The comparison of receipts with the journal.
ghost use Rattle.std.specs.Prelude.{◌≡◌, [], not};
ghost use Rattle.model.specs.Primary.{PrimaryHistory};
ghost use Rattle.model.specs.Settlement.{has_strange, same_home};
ghost use Rattle.primary_protocol.specs.Node.{NodeHas};
ghost use Rattle.primary.specs.Receipts.{is_entry_of, is_found};
ghost use Rattle.primary.specs.State.{node};

use crate::{CompletionKind, Primary, Receipt};
use blocks::{Store, StreamPosition};
use link::{FrameIn, FrameOut};
use primary_core::{Fate, JournalEntry, PrimaryCore};

impl<O: FrameOut + Drop, I: FrameIn + Drop, S: Store + Drop> Primary<O, I, S> {
    /// Returns whether each of these receipts matches an entry of the journal, and none is given twice. It takes no
    /// memory, and time for each receipt and each accepted write.
    pub fn confirm(&mut self, receipts: &[Receipt]) -> bool
        ensures found { (h : PrimaryHistory) → NodeHas (node self.old) h → result ≡ not (has_strange h.journal [] receipts.now) }
        ensures unchanged { self.new ≡ self.old }
    {
        self.core.clear_confirmed();
        for receipt in receipts {
            if !is_found(&self.core, receipt) || !self.core.confirm_entry(receipt.number()) {
                return false;
            }
        }
        true
    }
}

// Returns whether the receipt matches the journal's entry of a completed write.
fn is_found(core: &PrimaryCore, receipt: &Receipt) -> bool
    ensures { result ≡ is_found receipt.now core.now.state }
{
    match core.entry(receipt.number()) {
        Some(entry) => is_entry_of(entry, receipt),
        None => false,
    }
}

// Returns whether the receipt matches this entry, apart from the number.
fn is_entry_of(entry: &JournalEntry, receipt: &Receipt) -> bool
    ensures { result ≡ is_entry_of entry.now receipt.now }
{
    let Fate::Completed { linked, home } = entry.fate() else {
        return false;
    };
    let kind = if linked {
        CompletionKind::Linked
    } else {
        CompletionKind::Alone
    };
    entry.first() == receipt.first().0
        && entry.count() == receipt.count()
        && kind == receipt.kind()
        && same_home(home, receipt.home())
}

// Returns whether two stream positions are the same.
fn same_home(home: Option<StreamPosition>, other: Option<StreamPosition>) -> bool
    ensures { result ≡ same_home home other }
{
    match (home, other) {
        (None, None) => true,
        (Some(home), Some(other)) => {
            home.connection() == other.connection() && home.place() == other.place()
        }
        _ => false,
    }
}
