//! Read-only accessors.
ghost use Rattle.std.specs.Prelude.{◌≡◌, ◌&&◌, length, not, ok_or};
ghost use Rattle.blocks.specs.declared.refusal.Refusal.TheVariants.{NothingThere};
ghost use Rattle.model.specs.Secondary.{SecondaryHistory, secondary_connection, is_drained, items_taken, next_pending};
ghost use Rattle.model.specs.Settlement.{applied_items};
ghost use Rattle.model.specs.Status.{hello_is_done};
ghost use Rattle.secondary_protocol.specs.Node.{NodeHas};
ghost use Rattle.secondary.specs.State.{node};
ghost use Rattle.secondary.specs.Usages.{usage_of};

use crate::Secondary;
use blocks::{Refusal, Settings, Store, Tuple};
use link::{FrameIn, FrameOut};
use secondary_core::Usage;

impl<O: FrameOut + Drop, I: FrameIn + Drop, S: Store + Drop> Secondary<O, I, S> {
    /// Returns the lowest pending place. `NothingThere` (13) if nothing is pending. It takes no memory.
    pub fn next(&self) -> Result<u32, Refusal>
        ensures { (h : SecondaryHistory) → NodeHas (node self.now) h → result ≡ ok_or (next_pending h) NothingThere }
    {
        self.core.next().ok_or(Refusal::NothingThere)
    }

    /// Returns whether nothing is pending.
    pub fn is_drained(&self) -> bool
        ensures { (h : SecondaryHistory) → NodeHas (node self.now) h → result ≡ is_drained h }
    {
        self.core.is_drained()
    }

    /// Returns whether the disk's data are of the generation that its identifiers name: not while it has no data (current 0), and
    /// not from SYNC_UUID to the UUIDS that ends a resync. Such a disk mixes generations, and is not to be used.
    pub fn is_consistent(&self) -> bool
        ensures { (h : SecondaryHistory) → NodeHas (node self.now) h → result ≡ h.consistent }
    {
        self.core.is_consistent()
    }

    /// Returns the disk's generation identifiers.
    pub fn tuple(&self) -> Tuple
        ensures { (h : SecondaryHistory) → NodeHas (node self.now) h → result ≡ h.tuple }
    {
        self.core.tuple()
    }

    /// Returns the settings.
    pub fn settings(&self) -> Settings
        ensures { (h : SecondaryHistory) → NodeHas (node self.now) h → result ≡ h.settings }
    {
        self.core.settings()
    }

    /// Returns the number of the last connection, 0 before the first. `open` begins the next one, and `reopen` one
    /// with a higher number.
    pub fn connection_number(&self) -> u32
        ensures number { result ≡ self.now.core.number }
        ensures history { (h : SecondaryHistory) → NodeHas (node self.now) h → result ≡ (secondary_connection h).number }
    {
        self.core.connection_number()
    }

    /// Returns how many items were taken on the last connection.
    pub fn items_taken(&self) -> u32
        ensures { (h : SecondaryHistory) → NodeHas (node self.now) h → result ≡ length (items_taken (secondary_connection h)) }
    {
        self.core.items_taken()
    }

    /// Returns how many writes and resync items of the last connection are applied. An item that the disk failed
    /// does not count, and neither does one that was dropped then.
    pub fn items_applied(&self) -> u32
        ensures { (h : SecondaryHistory) → NodeHas (node self.now) h → result ≡ applied_items (secondary_connection h) }
    {
        self.core.items_applied()
    }

    /// Returns whether the end is open.
    pub fn is_open(&self) -> bool
        ensures { (h : SecondaryHistory) → NodeHas (node self.now) h → result ≡ not (secondary_connection h).closed }
    {
        self.core.is_open()
    }

    /// Returns whether the hello is done: the end is open, and has taken three frames and sent three.
    pub fn is_hello_done(&self) -> bool
        ensures { (h : SecondaryHistory) → NodeHas (node self.now) h → result ≡ (not (secondary_connection h).closed && hello_is_done (secondary_connection h)) }
    {
        self.core.is_hello_done()
    }

    /// Returns whether the data may be used, and up to which epoch they are whole.
    pub fn usage(&self) -> Usage
        ensures { (h : SecondaryHistory) → NodeHas (node self.now) h → result ≡ usage_of h }
    {
        self.core.usage()
    }
}
