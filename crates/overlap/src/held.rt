//! The intervals of the writes that are not completed.
ghost use Rattle.std.specs.Prelude.{◌≡◌, ◌↔◌, [], false, All, None, IfSome, IfErr, OnOk, OnErr};
ghost use Rattle.overlap.specs.Holdings.{conflict, holding, holding_too, is_held, lower_of, meets, without, IsLowestConflict};
ghost use Rattle.overlap.specs.Maps.{AreApart, lowest_of, lowest_with};
ghost use Rattle.blocks.specs.declared.refusal.Refusal.TheVariants.{NoMemory};

use blocks::{Range, Refusal};
use std::alloc::Global;
use std::collections::BTreeMap;
use std::collections::btree_map::Range as Entries;
use std::marker::Model;

/// The interval of a number.
#[derive(Clone, Copy)]
struct Span {
    first: u64,
    count: u64,
}

/// The number, and the length, of the interval that begins at a block.
#[derive(Clone, Copy)]
struct Holder {
    number: u64,
    count: u64,
}

/// Intervals of blocks, each with the number of its write, and no two with a block in common (DRBD's overlap check).
///
/// Proofs see the intervals as a list by rising number. `hold` and `release` take time logarithmic in the number of
/// intervals. So does `conflict`, which then looks at each interval that begins in the range and at the last one
/// before it. `clear` takes time linear in the number of intervals.
#[derive(Drop)]
pub struct Held {
    by_number: BTreeMap<u64, Span>,
    by_first: BTreeMap<u64, Holder>,
}

impl Model for Held {
    ghost use Rattle.std.specs.Prelude.{List};
    ghost use Rattle.overlap.specs.Holdings.{Holding};

    ghost Value = { List Holding };

    ghost use Rattle.overlap.specs.Maps.{holdings, AreTied};

    ghost view = { λ h. holdings h.by_number.entries };

    ghost invariant = { λ h. AreTied h.by_number h.by_first };
}

impl Held {
    /// Returns a set without intervals. It takes no memory.
    pub fn new(alloc: Global) -> Held
        ensures { result ≡ [] }
    {
        Held {
            by_number: BTreeMap::new(alloc),
            by_first: BTreeMap::new(alloc),
        }
    }

    /// Returns the lowest number whose interval overlaps the range, if there is one.
    pub fn conflict(&self, range: Range) -> Option<u64>
        ensures answer { result ≡ conflict range.first.0 range.count self.now }
        // for callers that do not see the order
        ensures lowest { IfSome result (λ n. IsLowestConflict range.first.0 range.count self.now n) }
        ensures none { (result ≡ None) ↔ All (λ h. meets range.first.0 range.count h ≡ false) self.now }
    {
        let last = range.first.0 + (range.count - 1);
        lowest_holder(self.by_first.range(..=last), range.first.0)
    }

    /// Returns whether the number has an interval. For a number above all that have one, like a new write's, it makes
    /// no search.
    pub fn is_held(&self, number: u64) -> bool
        ensures { result ≡ is_held number self.now }
    {
        let Some((highest, _)) = self.by_number.last_key_value() else {
            return false;
        };
        number <= *highest && self.by_number.contains_key(&number)
    }

    /// Inserts the interval of `number`. Requires that `number` has none and that no interval overlaps `range`.
    ///
    /// `NoMemory` (7) if there is no memory; then nothing changes.
    pub fn hold(&mut self, number: u64, range: Range) -> Result<(), Refusal>
        requires new { is_held number self.old ≡ false }
        requires apart { conflict range.first.0 range.count self.old ≡ None }
        ensures held { OnOk result (self.new ≡ holding_too (holding number range.first.0 range.count) self.old) }
        ensures unchanged { OnErr result (self.new ≡ self.old) }
        ensures refused { IfErr result (λ e. e ≡ NoMemory) }
    {
        let first = range.first.0;
        let count = range.count;
        self.by_first.insert(first, Holder { number, count })?;
        if self
            .by_number
            .insert(number, Span { first, count })
            .is_err()
        {
            self.by_first.remove(&first);
            return Err(Refusal::NoMemory);
        }
        Ok(())
    }

    /// Removes the interval of `number`, if it has one. It takes no memory.
    pub fn release(&mut self, number: u64)
        ensures { self.new ≡ without number self.old }
    {
        if let Some(span) = self.by_number.remove(&number) {
            self.by_first.remove(&span.first);
        }
    }

    /// Removes all intervals. It takes no memory.
    pub fn clear(&mut self)
        ensures { self.new ≡ [] }
    {
        self.by_number.clear();
        self.by_first.clear();
    }
}

/// Returns the lowest number whose interval has a block from `first` on. Intervals do not overlap: those before one
/// that begins at or before `first` end before it, so the search stops there.
fn lowest_holder(mut holdings: Entries<'_, u64, Holder>, first: u64) -> Option<u64>
    requires { AreApart holdings }
    ensures { result ≡ lowest_of first holdings.entry }
{
    let mut lowest = None;
    while let Some((start, holder)) = holdings.next_back() {
        lowest = with_holder(lowest, first, *start, holder);
        if *start <= first {
            return lowest;
        }
    }
    lowest
}

/// Returns the lower of `lowest` and the holder's number, if its interval has a block from `first` on; else `lowest`.
fn with_holder(lowest: Option<u64>, first: u64, start: u64, holder: &Holder) -> Option<u64>
    ensures { result ≡ lowest_with first lowest (start, holder.now) }
{
    if first <= start || first - start < holder.count {
        return Some(lower(lowest, holder.number));
    }
    lowest
}

/// Returns the lower of the two numbers; the first may be missing.
fn lower(lowest: Option<u64>, number: u64) -> u64
    ensures { result ≡ lower_of lowest number }
{
    match lowest {
        Some(other) => other.min(number),
        None => number,
    }
}
