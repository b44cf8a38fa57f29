//! Receipts of completed writes.
ghost use Rattle.std.specs.Prelude.{◌≡◌, IfOk};
ghost use Rattle.primary_protocol.specs.Node.{IsStep, take_receipt};
ghost use Rattle.primary.specs.Receipts.{kind_as, receipt_in};
ghost use Rattle.primary.specs.State.{node};

use crate::Primary;
use blocks::{Block, Refusal, Store, StreamPosition};
use link::{FrameIn, FrameOut};
use primary_core::{Fate, JournalEntry};
use std::marker::Model;

/// How a write was completed.
#[derive(Clone, Copy, Debug, PartialEq, Eq)]
pub enum CompletionKind {
    /// The peer answered it, as the protocol asks.
    Linked,
    /// Without the peer.
    Alone,
}

/// A receipt: the write was completed, and how. Only `take_completed` makes one, once for each write.
#[derive(Drop, Debug, PartialEq, Eq)]
pub struct Receipt {
    number: u64,
    first: u64,
    count: u64,
    kind: CompletionKind,
    home: Option<StreamPosition>,
}

impl Model for Receipt {
    ghost use Rattle.model.specs.Settlement.{Receipt as Denoted};

    ghost Value = { Denoted };

    ghost use Rattle.primary.specs.Given.{given_back};
    ghost use Rattle.primary.specs.Receipts.{receipt_as, receipt_from};

    ghost view = { receipt_as };

    ghost inverse = { receipt_from };

    ghost inverse_ok = { λ a _. given_back a };
}

impl Receipt {
    // Returns the receipt of a completed write, and none of any other.
    fn of(number: u64, entry: &JournalEntry) -> Option<Receipt>
        ensures { result ≡ receipt_in number entry.now }
    {
        let Fate::Completed { linked, home } = entry.fate() else {
            return None;
        };
        Some(Receipt {
            number,
            first: entry.first(),
            count: entry.count(),
            kind: if linked {
                CompletionKind::Linked
            } else {
                CompletionKind::Alone
            },
            home,
        })
    }

    /// Returns the number of the write.
    pub fn number(&self) -> u64
        ensures { result ≡ self.now.number }
    {
        self.number
    }

    /// Returns its first block.
    pub fn first(&self) -> Block
        ensures { result.0 ≡ self.now.first }
    {
        Block(self.first)
    }

    /// Returns how many blocks it has.
    pub fn count(&self) -> u64
        ensures { result ≡ self.now.count }
    {
        self.count
    }

    /// Returns how it was completed.
    pub fn kind(&self) -> CompletionKind
        ensures { kind_as result ≡ self.now.kind }
    {
        self.kind
    }

    /// Returns its position in a connection's stream, if it had one.
    pub fn home(&self) -> Option<StreamPosition>
        ensures { result ≡ self.now.home }
    {
        self.home
    }
}

impl<O: FrameOut + Drop, I: FrameIn + Drop, S: Store + Drop> Primary<O, I, S> {
    /// Returns the receipt of a completed write, once.
    ///
    /// `UnknownJob` (16) for a number that was never accepted, or whose receipt was taken; `NotCompleted` (9) if
    /// the write is open; `LocalFault` (8), once, if the disk failed it. It takes no memory, and constant time.
    pub fn take_completed(&mut self, number: u64) -> Result<Receipt, Refusal>
        ensures step { IsStep (take_receipt number) (node self.old) result (node self.new) }
        ensures number { IfOk result (λ receipt. receipt.number ≡ number) }
        ensures rest { self.new ≡ record self.old { core = self.new.core } }
    {
        let entry = self.core.take_completed(number)?;
        match Receipt::of(number, &entry) {
            Some(receipt) => Ok(receipt),
            None => Err(Refusal::NotCompleted),
        }
    }
}
