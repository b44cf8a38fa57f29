//! A write between its acceptance and its receipt.
ghost use Rattle.std.specs.Prelude.{◌≡◌, ◌*◌, ◌/◌, ◌%◌, length, OnErr, IfErr, IfOk};
ghost use Rattle.blocks.specs.declared.block.TheConstants.{BLOCK_BYTES};
ghost use Rattle.blocks.specs.declared.refusal.Refusal.TheVariants.{UnknownJob};

use blocks::{BLOCK_BYTES, Refusal};
use bytes::Bytes;
use primary::Receipt;
use std::marker::Model;

/// A write that was begun and has no receipt yet.
#[derive(Debug, Drop)]
pub struct Begun {
    number: u64,
    first: u64,
    contents: Bytes,
}

impl Model for Begun {
    ghost use Rattle.std.specs.Prelude.{◌/◌, length};
    ghost use Rattle.session_api.specs.Begun.{BegunState};

    ghost Value = { BegunState };

    ghost view = { λ b. record { number = b.number; first = b.first; count = length b.contents / 4096; contents = b.contents } };
}

impl Begun {
    /// Creates the write that was accepted under this number, of these whole blocks from `first` on.
    pub fn new(number: u64, first: u64, contents: Bytes) -> Begun
        requires whole { length contents % BLOCK_BYTES ≡ 0 }
        ensures number { result.number ≡ number }
        ensures blocks { (result.first ≡ first) × (result.count * BLOCK_BYTES ≡ length contents) }
        ensures contents { result.contents ≡ contents }
    {
        Begun {
            number,
            first,
            contents,
        }
    }

    /// Returns its number.
    pub fn number(&self) -> u64
        ensures { result ≡ self.now.number }
    {
        self.number
    }

    // Returns how many blocks it has.
    fn count(&self) -> u64
        ensures { result ≡ self.now.count }
    {
        (self.contents.len() / BLOCK_BYTES) as u64
    }

    /// Ends the write with the receipt of its number, and returns the receipt. `UnknownJob` (16) if the receipt is for
    /// other blocks than the write's.
    pub fn end(self, receipt: Receipt) -> Result<Receipt, Refusal>
        requires number { receipt.number ≡ self.number }
        ensures own { IfOk result (λ ended. (ended ≡ receipt) × ((ended.first ≡ self.first) × (ended.count ≡ self.count))) }
        ensures other { OnErr result ((receipt.first ≡ self.first) × (receipt.count ≡ self.count) → ⊥) }
        ensures refused { IfErr result (λ refusal. refusal ≡ UnknownJob) }
    {
        if receipt.first().0 == self.first && receipt.count() == self.count() {
            Ok(receipt)
        } else {
            Err(Refusal::UnknownJob)
        }
    }
}
