//! Read-only accessors.
ghost use Rattle.std.specs.Prelude.{◌≡◌, ◌==◌, ℕ, filter, length, not};
ghost use Rattle.bitmap.specs.Marks.{marked};
ghost use Rattle.model.specs.Contents.{extent_of};
ghost use Rattle.model.specs.Headline.{is_marked};
ghost use Rattle.model.specs.Primary.{PrimaryHistory, first_unreleased, items_sent, marked_blocks, primary_connection, resync_runs, is_established, unreleased};
ghost use Rattle.model.specs.Primary.{unsent};
ghost use Rattle.model.specs.Status.{incomplete, open_epochs, unanswered};
ghost use Rattle.model.specs.Stopped.{stopped_tuple};
ghost use Rattle.primary_protocol.specs.Node.{NodeHas};
ghost use Rattle.primary.specs.State.{node};

use crate::Primary;
use bitmap::Bitmap;
use blocks::{Block, Extent, Settings, Store, Tuple};
use handshakes::HELLO_FRAMES;
use link::{FrameIn, FrameOut};
use primary_core::JournalEntry;

impl<O: FrameOut + Drop, I: FrameIn + Drop, S: Store + Drop> Primary<O, I, S> {
    /// Returns the settings.
    pub fn settings(&self) -> Settings
        ensures { (h : PrimaryHistory) → NodeHas (node self.now) h → result ≡ h.settings }
    {
        self.core.settings()
    }

    /// Returns the disk's generation identifiers.
    pub fn tuple(&self) -> Tuple
        ensures { (h : PrimaryHistory) → NodeHas (node self.now) h → result ≡ h.tuple }
    {
        self.core.tuple()
    }

    /// Returns the identifiers that a close would leave now: those of a lost connection if a stream stands, else the
    /// disk's. They are what stable storage has to hold at each moment.
    pub fn tuple_if_stopped(&self) -> Tuple
        ensures { (h : PrimaryHistory) → NodeHas (node self.now) h → result ≡ stopped_tuple h }
    {
        self.core.tuple_if_stopped()
    }

    /// Returns the peer's generation identifiers, as last seen.
    pub fn peer(&self) -> Option<Tuple>
        ensures { (h : PrimaryHistory) → NodeHas (node self.now) h → result ≡ h.peer }
    {
        self.core.peer()
    }

    /// Returns how many connections were opened.
    pub fn connection_number(&self) -> u32
        ensures { (h : PrimaryHistory) → NodeHas (node self.now) h → result ≡ length h.connections }
    {
        self.core.connection_number()
    }

    /// Returns whether the end is open.
    pub fn is_open(&self) -> bool
        ensures { (h : PrimaryHistory) → NodeHas (node self.now) h → result ≡ not (primary_connection h).closed }
    {
        self.core.is_open()
    }

    /// Returns whether the connection is established: the peer's hello was taken.
    pub fn is_established(&self) -> bool
        ensures { (h : PrimaryHistory) → NodeHas (node self.now) h → result ≡ is_established (primary_connection h) }
    {
        self.core.is_established()
    }

    /// Returns whether a resync runs.
    pub fn is_resync(&self) -> bool
        ensures { (h : PrimaryHistory) → NodeHas (node self.now) h → result ≡ resync_runs (primary_connection h) }
    {
        self.core.is_resync()
    }

    /// Returns how many items of the stream wait to be sent: 0 if the end is closed.
    pub fn unsent(&self) -> usize
        ensures { (h : PrimaryHistory) → NodeHas (node self.now) h → result ≡ unsent (primary_connection h) }
    {
        self.core.unsent()
    }

    /// Returns how many items were sent on the last connection.
    pub fn items_sent(&self) -> u32
        ensures { (h : PrimaryHistory) → NodeHas (node self.now) h → result ≡ items_sent (primary_connection h) }
    {
        let pushed = match &self.outgoing {
            Some(outgoing) => outgoing.pushed(),
            None => 0,
        };
        // The frames of the hello are no items.
        pushed.saturating_sub(u64::from(HELLO_FRAMES)) as u32
    }

    /// Returns how many writes were accepted, which is the number of the last one.
    pub fn accepted(&self) -> u64
        ensures { (h : PrimaryHistory) → NodeHas (node self.now) h → result ≡ length h.writes }
    {
        self.core.accepted()
    }

    /// Returns the journal: an entry for each accepted write, by number, the first being 1.
    pub fn journal(&self) -> &[JournalEntry]
        ensures { result.now ≡ self.now.core.entries }
    {
        self.core.entries()
    }

    /// Returns the bitmap of the marked blocks, with one mark for each block of the device.
    pub fn bitmap(&self) -> &Bitmap
        ensures marks { (h : PrimaryHistory) → NodeHas (node self.now) h → (block : ℕ) → marked result.now block ≡ is_marked h block }
        ensures size { (h : PrimaryHistory) → NodeHas (node self.now) h → length result.now ≡ h.settings.blocks }
    {
        self.core.bitmap()
    }

    /// Returns how many blocks are marked.
    pub fn marks(&self) -> u32
        ensures { (h : PrimaryHistory) → NodeHas (node self.now) h → result ≡ length (marked_blocks h) }
    {
        self.core.marks()
    }

    /// Returns how many writes are neither completed nor failed. It takes time for each number from the first
    /// unreleased write on.
    pub fn incomplete(&self) -> u32
        ensures { (h : PrimaryHistory) → NodeHas (node self.now) h → result ≡ incomplete h }
    {
        self.core.open_writes()
    }

    /// Returns how many writes were sent on the established connection and are not answered. It takes time for each
    /// number from the first unreleased write on.
    pub fn unanswered(&self) -> u32
        ensures { (h : PrimaryHistory) → NodeHas (node self.now) h → result ≡ unanswered h }
    {
        self.core.unanswered_writes()
    }

    /// Returns the number of the first write that is not released, if there is one. A write is released once the local
    /// disk has done it or failed it, and the peer has acknowledged its epoch or the write has no connection. It takes constant
    /// time.
    pub fn first_unreleased(&self) -> Option<u64>
        ensures { (h : PrimaryHistory) → NodeHas (node self.now) h → result ≡ first_unreleased h }
    {
        self.core.first_unreleased()
    }

    /// Returns how many unreleased writes lie in the extent. It takes constant time.
    pub fn unreleased_in(&self, extent: Extent) -> u32
        ensures { (h : PrimaryHistory) → NodeHas (node self.now) h → result ≡ length (filter (λ a. extent_of a.write.first == extent.0) (unreleased h)) }
    {
        self.core.unreleased_in(extent)
    }

    /// Returns how many epochs of the stream have a write or a resync block and are not acknowledged.
    pub fn open_epochs(&self) -> u64
        ensures { (h : PrimaryHistory) → NodeHas (node self.now) h → result ≡ open_epochs h }
    {
        self.core.open_epochs()
    }

    /// Returns whether the block is marked.
    pub fn is_marked(&self, block: Block) -> bool
        ensures { (h : PrimaryHistory) → NodeHas (node self.now) h → result ≡ is_marked h block.0 }
    {
        self.core.is_marked(block)
    }
}
