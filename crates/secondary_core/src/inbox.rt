//! Receive-side state of the last connection's stream.
ghost use Rattle.std.specs.Prelude.{ℕ, suc, ◌≡◌, ◌+◌, ◌<◌, ◌≤◌, ◌==◌, ◌||◌, nat_lt, length, IfOk, IfErr};
ghost use Rattle.model.specs.Stream.{BarrierItem, contents_of, first_of};
ghost use Rattle.model.specs.SecondarySteps.{has_place};
ghost use Rattle.secondary_protocol.specs.Core.{and_item, is_apart, nothing_taken};
ghost use Rattle.blocks.specs.declared.refusal.Refusal.TheVariants.{NoMemory};

use crate::item::{ItemKind, PendingItem};
use blocks::{Range, Refusal};
use peerdisk::LastEpoch;
use std::alloc::Global;
use std::marker::Model;

/// Receive-side state of the last connection's stream: the number of items and of barriers, the highest write
/// number, the last epoch's writes and blocks, and whether a resync runs. Each item has one place, so no count is
/// above that of the places.
///
/// It outlives its connection: items of a closed one may still be pending, and it says how many were taken.
#[derive(Drop)]
pub(crate) struct Inbox {
    places: u32,
    highest: u64,
    barriers: u32,
    writes: u32,
    blocks: LastEpoch,
    is_resync: bool,
}

impl Model for Inbox {
    ghost use Rattle.secondary_protocol.specs.Core.{Intake};

    ghost Value = { Intake };

    ghost use Rattle.secondary_core.specs.Inboxes.{intake_of, IsInbox};

    ghost view = { intake_of };

    ghost invariant = { IsInbox };
}

impl Inbox {
    /// Creates the state of a stream without items, for a device of `blocks` blocks. `NoMemory` (7) if there is no
    /// memory; nothing takes memory later.
    pub(crate) fn new(alloc: Global, blocks: u32) -> Result<Inbox, Refusal>
        ensures nothing { IfOk result (λ t. t ≡ nothing_taken blocks) }
        ensures refused { IfErr result (λ e. e ≡ NoMemory) }
    {
        Ok(Inbox {
            places: 0,
            highest: 0,
            barriers: 0,
            writes: 0,
            blocks: LastEpoch::new(alloc, blocks)?,
            is_resync: false,
        })
    }

    /// Resets the state at the beginning of a stream.
    pub(crate) fn begin(&mut self)
        ensures { self.new ≡ nothing_taken (length self.old.blocks) }
    {
        self.places = 0;
        self.highest = 0;
        self.barriers = 0;
        self.writes = 0;
        self.blocks.begin();
        self.is_resync = false;
    }

    /// Returns how many items were taken, which is the next one's place.
    pub(crate) fn places(&self) -> u32
        ensures { result ≡ self.now.places }
    {
        self.places
    }

    /// Returns how many barriers were taken.
    pub(crate) fn barriers(&self) -> u32
        ensures { result ≡ self.now.barriers }
    {
        self.barriers
    }

    /// Returns the number of the current epoch.
    pub(crate) fn epoch(&self) -> u32
        requires { self.now.places < 4294967295 }
        ensures { result ≡ suc self.now.barriers }
    {
        self.barriers + 1
    }

    /// Returns whether a resync runs.
    pub(crate) fn is_resync(&self) -> bool
        ensures { result ≡ self.now.resync }
    {
        self.is_resync
    }

    /// Returns whether there is a place for another item.
    pub(crate) fn has_place(&self) -> bool
        ensures { result ≡ has_place self.now.places }
    {
        self.places < u32::MAX
    }

    /// Returns whether a write of this number may come next: it is the first item, or its number is above those of
    /// all writes before it.
    pub(crate) fn is_rising(&self, number: u64) -> bool
        ensures { result ≡ ((self.now.places == 0) || nat_lt self.now.highest number) }
    {
        self.places == 0 || self.highest < number
    }

    /// Returns whether no item of the last epoch covers one of these blocks.
    pub(crate) fn is_apart(&self, range: Range) -> bool
        requires { range.first.0 + range.count ≤ length self.now.blocks }
        ensures { result ≡ is_apart range.first.0 range.count self.now }
    {
        !self.blocks.has_any(range)
    }

    /// Counts an item with blocks.
    pub(crate) fn item(&mut self, item: &PendingItem)
        requires place { self.old.places < 4294967295 }
        requires inside { first_of item.now + length (contents_of item.now) ≤ length self.old.blocks }
        ensures { self.new ≡ and_item item.now self.old }
    {
        self.places += 1;
        self.blocks.add(item.range());
        if let ItemKind::Write(number) = item.kind() {
            self.highest = number;
            self.writes += 1;
        }
    }

    /// Counts a barrier, which ends an epoch. Returns how many writes that epoch has.
    pub(crate) fn barrier(&mut self) -> u32
        requires { self.old.places < 4294967295 }
        ensures writes { result ≡ self.old.writes }
        ensures next { (epoch : ℕ) → self.new ≡ and_item (BarrierItem epoch) self.old }
    {
        let writes = self.writes;
        self.places += 1;
        self.barriers += 1;
        self.writes = 0;
        self.blocks.begin();
        writes
    }

    /// Counts SYNC_UUID or UUIDS. From here on a resync runs if `goes_on` says so.
    pub(crate) fn resync(&mut self, goes_on: bool)
        requires { self.old.places < 4294967295 }
        ensures { self.new ≡ record self.old { places = suc self.old.places; resync = goes_on } }
    {
        self.places += 1;
        self.is_resync = goes_on;
    }
}
